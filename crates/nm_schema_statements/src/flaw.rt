//! What is wrong with a statement of a module.

use nm_base::Label;

/// What is wrong with a statement of a module. Its place is that of its row.
#[derive(Drop)]
pub enum Flaw {
    /// A statement or type of YANG that this project leaves out, by its keyword or name.
    Unsupported(Label),
    /// A keyword that is none or may not stand there, or a module that isn't given.
    Unknown(Label),
    /// A second one of what may be there once, by its keyword or name.
    Duplicate(Label),
    /// A name that leads nowhere, or to nothing that fits.
    BadReference(Label),
    /// A statement whose argument is missing or wrong, or a statement that is missing, by its keyword.
    BadArgument(Label),
    /// A name that leads to itself.
    Cycle(Label),
}
