//! Laws of what is at or below a node. Each function does nothing: its contract is the law.

ghost use Rattle.std.specs.Prelude.{◌≡◌, ◌↔◌, ◌⊎◌, List, IsTrue, false, true};
ghost use Rattle.std.specs.Ordering.{is_gt};
ghost use Rattle.nm_types.specs.Path.{PathStep, path_cmp};
ghost use Rattle.nm_config.specs.Under.{is_under, Continues, EntersList};

/// What is at or below a node: what continues its path, and where that is a list as a whole, what continues that of an entry.
pub fn under_means()
    ensures { (node path : List PathStep) → IsTrue (is_under node path) ↔ (Continues node path ⊎ EntersList node path) }
{}

/// A path at or below a node doesn't stand before it.
pub fn under_later()
    ensures { (node path : List PathStep) → is_under node path ≡ true → is_gt (path_cmp node path) ≡ false }
{}

/// What is at or below a node is contiguous in path order: a path between the node and a path at or below it is there too.
pub fn under_between()
    ensures { (node path last : List PathStep) → is_under node last ≡ true → is_gt (path_cmp node path) ≡ false
        → is_gt (path_cmp path last) ≡ false → is_under node path ≡ true }
{}
