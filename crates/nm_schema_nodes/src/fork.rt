//! One choice, and one case.

/// A choice among those of one statement.
#[derive(Clone, Copy)]
pub struct Fork {
    /// Its row.
    pub row: usize,
    /// The number of the case that it stands in, where it is nested.
    pub case_in: Option<usize>,
}

/// A case among those of one statement.
#[derive(Clone, Copy)]
pub struct Branch {
    /// The number of its choice.
    pub choice: usize,
    /// The row that has its name: that of the case, or of the node or choice that is a case of its own.
    pub row: usize,
}
