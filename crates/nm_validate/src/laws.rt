//! Laws of what is told. Each function does nothing: its contract is the law.

ghost use Rattle.nm_schema_tree.specs.Nodes.{SchemaTree};
ghost use Rattle.nm_schema_tree.specs.Levels.{IsTree};
ghost use Rattle.nm_config.specs.Rows.{Rows};
ghost use Rattle.nm_validate.specs.Told.{violation_told, IsToldRightly};

/// Nothing is told of a configuration exactly where it is valid, and what is told is exactly its least violation: that of the
/// first rule that is violated, at the least path.
pub fn told_rightly()
    ensures { (t : SchemaTree) (rows : Rows) → IsTree t.nodes → IsToldRightly t rows (violation_told t rows) }
{}
