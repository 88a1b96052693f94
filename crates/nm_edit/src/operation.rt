//! Operations of edits.

ghost use Rattle.std.specs.Prelude.{◌≡◌};
ghost use Rattle.nm_edit.specs.Words as spec;

use nm_proto::DefaultOperation;

/// What an edit says of a node itself (RFC 6241 section 7.2).
#[derive(Clone, Copy, PartialEq, Eq)]
pub enum Operation {
    Merge,
    Replace,
    Create,
    Delete,
    Remove,
}

/// What is done to a node: what the edit says of it or of a node above it, else the default operation.
#[derive(Clone, Copy, PartialEq, Eq)]
pub enum Effective {
    Merge,
    Replace,
    Create,
    Delete,
    Remove,
    /// The operation `none`, which only a default operation brings: the node must exist, and stays.
    Nothing,
}

impl Operation {
    /// What is done where an edit says this of a node.
    pub fn effective(self) -> Effective
        ensures { result ≡ spec.effective self }
    {
        match self {
            Operation::Merge => Effective::Merge,
            Operation::Replace => Effective::Replace,
            Operation::Create => Effective::Create,
            Operation::Delete => Effective::Delete,
            Operation::Remove => Effective::Remove,
        }
    }
}

impl Effective {
    /// What is done where nothing is said.
    pub fn of_default(default_operation: DefaultOperation) -> Effective
        ensures { result ≡ spec.of_default default_operation }
    {
        match default_operation {
            DefaultOperation::Merge => Effective::Merge,
            DefaultOperation::Replace => Effective::Replace,
            DefaultOperation::Nothing => Effective::Nothing,
        }
    }

    /// Whether a node goes with all below it, so that nothing below is looked at.
    pub fn takes_away(self) -> bool
        ensures { result ≡ spec.takes_away self }
    {
        match self {
            Effective::Delete | Effective::Remove => true,
            Effective::Merge | Effective::Replace | Effective::Create | Effective::Nothing => false,
        }
    }

    /// Whether all rows at and below a node of which the edit says this go.
    pub fn clears(self) -> bool
        ensures { result ≡ spec.clears self }
    {
        match self {
            Effective::Replace | Effective::Delete | Effective::Remove => true,
            Effective::Merge | Effective::Create | Effective::Nothing => false,
        }
    }

    /// Whether the row of a node comes.
    pub fn brings(self) -> bool
        ensures { result ≡ spec.brings self }
    {
        match self {
            Effective::Merge | Effective::Replace | Effective::Create => true,
            Effective::Delete | Effective::Remove | Effective::Nothing => false,
        }
    }
}
