//! One statement of the modules.

use crate::word::Word;
use nm_base::Label;

/// A statement, apart from what stands in it.
#[derive(Drop)]
pub struct Row {
    /// What the keyword is.
    pub word: Word,
    /// The keyword itself.
    pub keyword: Label,
    /// The argument.
    pub argument: Option<Label>,
    /// The place of the keyword in its module's text, in bytes from 0.
    pub place: u32,
    /// The row of the statement that it stands in.
    pub parent: Option<usize>,
    /// The number of its module, from 0.
    pub module: usize,
}
