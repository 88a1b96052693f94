//! Laws of the rows that an edit touches. Each function does nothing: its contract is the law.

ghost use Rattle.std.specs.Prelude.{◌≡◌, ◌↔◌, List, Ok, Err};
ghost use Rattle.std.specs.FinMap.{get, find};
ghost use Rattle.nm_types.specs.Path.{PathStep, path_cmp};
ghost use Rattle.nm_proto.specs.Content.{Refusal};
ghost use Rattle.nm_proto.specs.declared.message.DefaultOperation.{DefaultOperation as Unsaid};
ghost use Rattle.nm_schema_tree.specs.Nodes.{SchemaTree};
ghost use Rattle.nm_config.specs.Rows.{Rows};
ghost use Rattle.nm_edit.specs.declared.edit.EditNode.{EditNode as NamedNode};
ghost use Rattle.nm_edit.specs.Edited.{edited_rows};
ghost use Rattle.nm_touched.specs.Touched.{Touch, touched, touch_between, Ascends};

/// A row is told exactly where what the edit makes has it and what was there hasn't, or the other way round, or with another
/// value: each as what it is.
pub fn touched_exact()
    ensures { (t : SchemaTree) (old : Rows) (nodes : List NamedNode) (d : Unsaid) (made : Rows) (touches : List Touch) (path : List PathStep)
        → edited_rows t old nodes d ≡ Ok made → touched t old nodes d ≡ Ok touches
        → find path_cmp path touches ≡ touch_between (get old path) (get made path) }
{}

/// The rows that are told stand in path order, each once.
pub fn touched_ascends()
    ensures { (t : SchemaTree) (old : Rows) (nodes : List NamedNode) (d : Unsaid) (touches : List Touch)
        → touched t old nodes d ≡ Ok touches → Ascends touches }
{}

/// Rows are refused exactly where the edit is, for the same.
pub fn touched_refused()
    ensures { (t : SchemaTree) (old : Rows) (nodes : List NamedNode) (d : Unsaid) (refusal : Refusal)
        → touched t old nodes d ≡ Err refusal ↔ (edited_rows t old nodes d ≡ Err refusal) }
{}
