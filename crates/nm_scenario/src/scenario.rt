//! What a scenario holds.

use nm_base::{DeviceNo, Label};
use nm_config::Config;
use nm_content::YangContent;
use nm_edit::Edit;
use nm_flat::{FlatConfig, FlatEdit};
use nm_proto::{ChangePlan, DefaultOperation, Event, Listed};

/// What a scenario holds.
#[derive(Drop)]
pub struct Scenario {
    /// What depends on the form of the contents.
    pub body: Body,
    /// The change sets; the first is change set 1.
    pub changes: Listed<ChangePlan>,
    /// The users of the operators; the first is operator 1.
    pub operators: Listed<Label>,
    /// What happens, in order.
    pub events: Listed<Event>,
    /// The texts that the partial locks of the events select, numbered from 0 by `SelectNo`.
    pub selects: Listed<Listed<Label>>,
    /// Whether the world is brought to rest at the end.
    pub drain: bool,
    /// Whether each event is told.
    pub trace: bool,
    /// Whether it is told what became of each confirmed commit at each device (RFC 6470 section 2.2).
    pub notices: bool,
}

/// The contents of a scenario.
#[derive(Drop)]
pub enum Body {
    /// Numbered cells.
    Flat {
        /// The running configuration of each device; the first is device 1.
        devices: Listed<FlatConfig>,
        /// The edits of the change sets and then those of the events, numbered from 0 by `EditNo`.
        edits: Listed<FlatEdit>,
    },
    /// Data of YANG modules (RFC 7950).
    Yang {
        /// The texts of the modules, in their order.
        modules: Listed<Label>,
        /// The content of the modules' tree.
        content: YangContent,
        /// The running configuration of each device; the first is device 1.
        devices: Listed<Config>,
        /// The edits of the change sets and then those of the events, numbered from 0 by `EditNo`.
        edits: Listed<Edit>,
    },
}

/// A change set as it was read, before its edits have numbers.
#[derive(Drop)]
pub struct ReadChange<E> {
    pub timeout: u32,
    pub edits: Listed<ReadEdit<E>>,
}

/// One edit of a change set as it was read.
#[derive(Drop)]
pub struct ReadEdit<E> {
    pub device: DeviceNo,
    pub default_operation: DefaultOperation,
    pub edit: E,
}
