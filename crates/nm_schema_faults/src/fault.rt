//! Faults of modules.

use nm_schema_statements::Flaw;

/// What is wrong with modules, and where: the number of the module, from 0, and the place in its text, in bytes from 0.
#[derive(Drop)]
pub enum Fault {
    /// A statement is flawed. The place is that of its keyword.
    Flawed {
        flaw: Flaw,
        module: usize,
        place: u32,
    },
    /// The modules up to this one have more than 20,000 nodes, or a node of it has more than 64 above it. The place is that of
    /// the module's own statement.
    TooLarge {
        module: usize,
        place: u32,
    },
}
