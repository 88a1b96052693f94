//! One node of the tree.

/// A node of the tree of modules.
#[derive(Clone, Copy)]
pub struct Instance {
    /// The number of the node that it stands in, and None at the top.
    pub parent: Option<usize>,
    /// Its row.
    pub row: usize,
    /// The number of the module whose tree it is in, from 0. Nodes of a used grouping belong to the module that uses it (RFC
    /// 7950 section 7.13).
    pub owner: usize,
}
