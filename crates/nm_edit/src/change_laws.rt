//! Laws of what edits change. Each function does nothing: its contract is the law.

ghost use Rattle.std.specs.Prelude.{◌≡◌, List, Ok};
ghost use Rattle.nm_proto.specs.declared.message.DefaultOperation.{DefaultOperation as Unsaid};
ghost use Rattle.nm_schema_tree.specs.Nodes.{SchemaTree};
ghost use Rattle.nm_config.specs.Rows.{Rows};
ghost use Rattle.nm_edit.specs.declared.edit.EditNode.{EditNode as NamedNode};
ghost use Rattle.nm_edit.specs.Edited.{edited_rows};
ghost use Rattle.nm_overlay.specs.Differences.{Changes, overridden};
ghost use Rattle.nm_edit.specs.Changed.{changes_of};

/// A configuration with what an edit changes of it is what the edit makes.
pub fn changes_make_edited()
    ensures { (t : SchemaTree) (old : Rows) (nodes : List NamedNode) (d : Unsaid) (changes : Changes)
        → changes_of t old nodes d ≡ Ok changes → edited_rows t old nodes d ≡ Ok (overridden old changes) }
{}
