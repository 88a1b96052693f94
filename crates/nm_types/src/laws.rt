//! Laws of the order of paths and of spellings. Each function does nothing: its contract is the law.

ghost use Rattle.std.specs.Prelude.{◌≡◌, ◌∷◌, ◌++◌, ℕ, List};
ghost use Rattle.std.specs.declared.cmp.Ordering.TheVariants.{Less, Equal};
ghost use Rattle.nm_types.specs.Path.{PathStep, path_cmp};
ghost use Rattle.nm_types.specs.LeafType.{Kind};
ghost use Rattle.nm_types.specs.Spells.{SpellsValue};

use crate::value::Value;

/// A node stands before what is below it.
pub fn parents_first()
    ensures { (above : List PathStep) (next : PathStep) (rest : List PathStep) → path_cmp above (above ++ next ∷ rest) ≡ Less }
{}

/// Paths that the order doesn't tell apart are one path.
pub fn one_path()
    ensures { (one other : List PathStep) → path_cmp one other ≡ Equal → one ≡ other }
{}

/// A text spells one value of a type at most.
pub fn one_value()
    ensures { (kind : Kind) (text : List ℕ) (one other : Value) → SpellsValue kind text one → SpellsValue kind text other → one ≡ other }
{}
