//! The shapes of each kind of event: requests and replies, entries of the journal, faults.
//!
//! Stands on `nm_picture_frame`, which says where lanes and lines stand, on `nm_picture_svg`'s shapes, and on `nm_picture_words`. The layer
//! above relies on what is drawn as equations with `specs/Messages.antt`, `specs/Entries.antt` and `specs/Faults.antt`.
#![tactic(auto)]

pub mod entries;
pub mod fate;
pub mod faults;
pub mod messages;
pub mod pieces;
pub mod scene;

pub use entries::{push_decided, push_entry};
pub use fate::Fate;
pub use faults::{
    push_broken, push_crashed, push_forgot, push_left, push_lost, push_now, push_restarted,
};
pub use messages::{push_asked, push_handled, push_sent, push_told};
pub use pieces::{level, push, words_above};
pub use scene::{Place, Scene, change_of, device_of, place_of};
