//! A statement as it lies in memory, and how clauses see it: as a tree.

use nm_base::Label;
use std::marker::Model;

/// A statement of a module (RFC 7950 section 6.3).
#[derive(Drop)]
pub struct Statement {
    /// The keyword, with its prefix and colon where it has one.
    pub keyword: Label,
    /// The argument, as its quotes, escapes and `+` make it.
    pub argument: Option<Label>,
    /// The place of the keyword in the module's text, in bytes from 0.
    pub place: u32,
    /// The statements within, in their order.
    pub below: Vec<Statement>,
}

impl Model for Statement {
    ghost use Rattle.std.proofs.Common.{arith};
    ghost use Rattle.nm_yang.specs.Tree.{Tree, statement, trees_of, tree_size, most_le-trees_size, tree_code};

    ghost Value = { Tree };

    ghost coded = { tree_code };

    ghost view = { λ s. statement s.keyword s.argument s.place (trees_of s.below.items) };

    ghost size = { tree_size };

    ghost size_decreases = { λ a h. omega (arith, most_le-trees_size a.below.items) };
}
