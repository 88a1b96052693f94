//! Laws of choices and cases. Each function does nothing: its contract is the law.

ghost use Rattle.std.specs.Prelude.{ℕ, List, Option};
ghost use Rattle.nm_schema_statements.specs.declared.row.Row.{Row};
ghost use Rattle.nm_schema_nodes.specs.Spots.{HaveSpots};

/// There are as many places of nodes in what stands in a row as the row has kept members, where both are known.
pub fn spots_of_members()
    ensures { (rows : List Row) (groupings : List (Option ℕ)) (i : ℕ) → HaveSpots rows groupings i }
{}
