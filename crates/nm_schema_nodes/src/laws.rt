//! Laws of the tree. Each function does nothing: its contract is the law.

ghost use Rattle.std.specs.Prelude.{◌≡◌, ℕ, List, Option};
ghost use Rattle.nm_schema_statements.specs.declared.row.Row.{Row};
ghost use Rattle.nm_schema_nodes.specs.declared.instance.Instance.{Instance};
ghost use Rattle.nm_schema_nodes.specs.Expansion.{IsExpansion};

/// Rows have one tree: two lists that are both the nodes of their modules are one list.
pub fn one_expansion()
    ensures { (rows : List Row) (groupings : List (Option ℕ)) (nodes others : List Instance) → IsExpansion rows groupings nodes
        → IsExpansion rows groupings others → nodes ≡ others }
{}
