//! Laws of taking edits back. Each function does nothing: its contract is the law.

ghost use Rattle.std.specs.Prelude.{◌≡◌, ◌≤◌, List, Ok};
ghost use Rattle.std.specs.FinMap.{len};
ghost use Rattle.nm_types.specs.Path.{PathStep};
ghost use Rattle.nm_proto.specs.declared.message.DefaultOperation.{DefaultOperation as Unsaid};
ghost use Rattle.nm_proto.specs.declared.message.DefaultOperation.TheVariants as unsaid;
ghost use Rattle.nm_schema_tree.specs.Nodes.{SchemaTree};
ghost use Rattle.nm_config.specs.Rows.{Rows};
ghost use Rattle.nm_json.specs.Whole.{row_limit};
ghost use Rattle.nm_overlay.specs.Differences.{with_changes};
ghost use Rattle.nm_edit.specs.declared.edit.EditNode.{EditNode as NamedNode};
ghost use Rattle.nm_edit.specs.EditOf.{IsEditOf};
ghost use Rattle.nm_edit.specs.Edited.{edited_rows, limited};
ghost use Rattle.nm_undo.specs.Inverse.{Undoing, inverse_of};
ghost use Rattle.nm_undo.specs.Since.{is_changed, IsNever};
ghost use Rattle.nm_undo.specs.Laws.{AreGiven};

/// The inverse of an edit, done to what the edit made, gives back what was before the edit.
pub fn inverse_gives_back()
    ensures { (t : SchemaTree) (old made : Rows) (nodes : List NamedNode) (d : Unsaid) (undoing : Undoing)
        → AreGiven t old nodes → len old ≤ row_limit → edited_rows t old nodes d ≡ Ok made → inverse_of t old nodes d ≡ Ok undoing
        → edited_rows t made undoing.nodes unsaid.Merge ≡ Ok old }
{}

/// Done later, where nothing was changed of what it looks at, it gives back each row that the edit changed and leaves all
/// others as they are then; unless those are too many rows.
pub fn inverse_gives_back_later()
    ensures { (t : SchemaTree) (old made later : Rows) (nodes : List NamedNode) (d : Unsaid) (undoing : Undoing)
        → AreGiven t old nodes → edited_rows t old nodes d ≡ Ok made → inverse_of t old nodes d ≡ Ok undoing
        → IsNever (is_changed t undoing made later)
        → edited_rows t later undoing.nodes unsaid.Merge ≡ limited (with_changes later undoing.rows) }
{}

/// The inverse of an edit is an edit of the same schema tree.
pub fn inverse_is_edit()
    ensures { (t : SchemaTree) (old made : Rows) (nodes : List NamedNode) (d : Unsaid) (undoing : Undoing)
        → AreGiven t old nodes → edited_rows t old nodes d ≡ Ok made → inverse_of t old nodes d ≡ Ok undoing → IsEditOf t undoing.nodes }
{}
