//! What is wrong with a statement, without its names.

use crate::word::Word;

/// What is wrong with a statement.
#[derive(Clone, Copy)]
pub enum Fault {
    /// The keyword is left out.
    Unsupported,
    /// The type that it names is left out.
    UnsupportedType,
    /// The keyword is none, or may not stand there.
    Unknown,
    /// It may stand once, and an earlier one is there.
    Duplicate,
    /// A statement that has to stand in it is missing.
    Lacks(Word),
    /// The argument is missing or hasn't its form.
    BadArgument,
}
