//! What a text tells besides the report.

/// What the text of a world tells besides what became of the change sets and the running configurations.
#[derive(Clone, Copy)]
pub struct Details {
    /// What came of each event.
    pub trace: bool,
    /// What each device tells of confirmed commits (RFC 6470 section 2.2).
    pub notices: bool,
}
