//! Laws of edits. Each function does nothing: its contract is the law.

ghost use Rattle.std.specs.Prelude.{◌≡◌, List, Some, Ok, Contains, None};
ghost use Rattle.std.specs.FinMap.{get};
ghost use Rattle.nm_types.specs.Path.{PathStep};
ghost use Rattle.nm_proto.specs.Content.{Refusal};
ghost use Rattle.nm_proto.specs.declared.message.DefaultOperation.{DefaultOperation as Unsaid};
ghost use Rattle.nm_schema_tree.specs.Nodes.{SchemaTree};
ghost use Rattle.nm_config.specs.Rows.{Rows};
ghost use Rattle.nm_validate_rules.specs.Standing.{StandsIn};
ghost use Rattle.nm_edit.specs.declared.edit.EditNode.{EditNode as NamedNode};
ghost use Rattle.nm_edit.specs.declared.act.Act.{Act as Done};
ghost use Rattle.nm_edit.specs.Acts.{acts};
ghost use Rattle.nm_edit.specs.EditOf.{IsEditOf};
ghost use Rattle.nm_edit.specs.Refusals.{first_refusal, refused_at};
ghost use Rattle.nm_edit.specs.Edited.{edited_rows};
ghost use Rattle.nm_edit.specs.Laws.{value_after, IsLeastRefused};

/// The refusal that answers is that of the least refused path.
pub fn first_is_least()
    ensures { (t : SchemaTree) (old : Rows) (nodes : List NamedNode) (d : Unsaid) (refusal : Refusal)
        → IsEditOf t nodes → first_refusal t old (acts nodes d) ≡ Some refusal → IsLeastRefused t old (acts nodes d) refusal }
{}

/// Nothing is refused exactly where no node is.
pub fn none_refused()
    ensures { (t : SchemaTree) (old : Rows) (nodes : List NamedNode) (d : Unsaid) (act : Done)
        → first_refusal t old (acts nodes d) ≡ None → Contains (acts nodes d) act → refused_at t old act ≡ None }
{}

/// The value at each path after an edit.
pub fn values_after()
    ensures { (t : SchemaTree) (old : Rows) (nodes : List NamedNode) (d : Unsaid) (rows : Rows) (path : List PathStep)
        → edited_rows t old nodes d ≡ Ok rows → get rows path ≡ value_after t old nodes d path }
{}

/// Rows that stand in the tree do so after an edit of it.
pub fn edited_stands()
    ensures { (t : SchemaTree) (old : Rows) (nodes : List NamedNode) (d : Unsaid) (rows : Rows)
        → StandsIn t old → IsEditOf t nodes → edited_rows t old nodes d ≡ Ok rows → StandsIn t rows }
{}
