//! The journal: a box on the manager's lane for each entry.

ghost use Rattle.std.specs.Prelude.{◌≡◌, ◌++◌, OnOk};
ghost use Rattle.nm_picture_events.specs.Entries as spec;

use crate::messages::prefixed;
use crate::pieces::{entry_box, push, words_amid};
use crate::scene::Place;
use nm_base::NoMemory;
use nm_picture_frame::right_of;
use nm_picture_svg::{Anchor, Shape, Tone};
use nm_picture_words::{put, put_cause, verdict_words};
use nm_proto::Verdict;
use std::alloc::Global;

/// An entry, with its words.
#[tactic(auto, unfolding(crate::specs::Entries::entry_shapes))]
pub fn push_entry(
    alloc: Global,
    shapes: &mut Vec<Shape>,
    place: &Place,
    tone: Tone,
    text: &str,
) -> Result<(), NoMemory>
    ensures { OnOk result (shapes.new.items ≡ shapes.old.items ++ spec.entry_shapes place.now tone text.now) }
{
    let mut words = prefixed(alloc, place)?;
    put(&mut words, text)?;
    let lane = place.frame.manager_x();
    push(shapes, entry_box(lane, place.y, tone))?;
    push(
        shapes,
        words_amid(lane, place.y, Anchor::Middle, Tone::Plain, words),
    )
}

// Why a change set is aborted: beside the box, since it is longer than that.
fn push_why(
    alloc: Global,
    shapes: &mut Vec<Shape>,
    place: &Place,
    verdict: &Verdict,
) -> Result<(), NoMemory>
    ensures { OnOk result (shapes.new.items ≡ shapes.old.items ++ spec.why_shapes place.now verdict.now) }
{
    match verdict {
        Verdict::Commit => Ok(()),
        Verdict::Abort(cause) => {
            let mut words = Vec::new(alloc);
            put_cause(&mut words, cause)?;
            let x = right_of(place.frame.manager_x(), 88);
            push(
                shapes,
                words_amid(x, place.y, Anchor::Start, Tone::Refused, words),
            )
        }
    }
}

/// A decision.
#[tactic(auto, unfolding(crate::specs::Entries::decided_shapes))]
pub fn push_decided(
    alloc: Global,
    shapes: &mut Vec<Shape>,
    place: &Place,
    verdict: &Verdict,
) -> Result<(), NoMemory>
    ensures { OnOk result (shapes.new.items ≡ shapes.old.items ++ spec.decided_shapes place.now verdict.now) }
{
    push_entry(alloc, shapes, place, Tone::Decided, verdict_words(verdict))?;
    push_why(alloc, shapes, place, verdict)
}
