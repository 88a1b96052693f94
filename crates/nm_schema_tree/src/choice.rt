//! Choices and their cases. They are in no path: the nodes of a case stand where its choice stands.

use nm_base::Label;

/// A choice (RFC 7950 section 7.9): of its cases at most one has nodes.
#[derive(Drop)]
pub struct ChoiceNode {
    /// The number of the container or list that its nodes stand in, and None at the top.
    pub parent: Option<usize>,
    /// The number of the case that it stands in itself, where it is nested, else None.
    pub case_in: Option<usize>,
    /// The name of the module that it belongs to.
    pub module: Label,
    pub name: Label,
    pub mandatory: bool,
}

/// A case of a choice (RFC 7950 section 7.9.2).
#[derive(Drop)]
pub struct CaseNode {
    /// The number of its choice.
    pub choice: usize,
    pub name: Label,
}
