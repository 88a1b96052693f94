//! YANG data as a content.

ghost use Rattle.std.specs.Prelude.{◌≡◌, None, IfOk};
ghost use Rattle.nm_path.specs.Sound.{IsSound};
ghost use Rattle.nm_proto.specs.Content.{Applies};
ghost use Rattle.nm_validate_rules.specs.Standing.{StandsIn};
ghost use Rattle.nm_validate.specs.Told.{violation_told};
ghost use Rattle.nm_edit.specs.Edited.{edited_rows};
ghost use Rattle.nm_schema.specs.Marker.{HasMarker};
ghost use Rattle.nm_content.specs.Mark.{marks_path};
ghost use Rattle.nm_content.specs.Meaning.{Belongs, lifted, over};

use crate::mark::{has_mark, marked, rows_outside, same_marks};
use crate::touched::checked;
use nm_base::{ChangeNo, Label, NoMemory};
use nm_config::{Config, RowMap, is_under};
use nm_content_place::{YangNode, found, same_at};
use nm_edit::{Edit, EditFault, apply_rows};
use nm_json_text::write_rows;
use nm_overlay::Overlay;
use nm_proto::{ApplyFault, CheckFault, Content, DefaultOperation, FindFault, Marks, Show};
use nm_schema_tree::Schema;
use nm_types::Path;
use std::alloc::Global;
use std::marker::Model;

/// The content of a schema tree. It is seen as the tree.
#[derive(Drop)]
pub struct YangContent {
    alloc: Global,
    schema: Schema,
    // below it are all marks, so that they are found without memory and without a look at other rows
    marks: Path,
}

impl Model for YangContent {
    ghost use Rattle.std.specs.Prelude.{◌≡◌};
    ghost use Rattle.nm_schema_tree.specs.Nodes.{SchemaTree};
    ghost use Rattle.nm_path.specs.Sound.{IsSound};
    ghost use Rattle.nm_schema.specs.Marker.{HasMarker};
    ghost use Rattle.nm_content.specs.Mark.{marks_path};

    ghost Value = { SchemaTree };

    ghost view = { λ c. c.schema };

    ghost invariant = { λ c. IsSound c.schema.nodes × HasMarker c.schema × (c.marks ≡ marks_path) };
}

/// The content of a schema tree that modules give, with the path of the container of all marks. Its configurations are
/// made with this allocator. It takes no memory.
pub fn yang_content(alloc: Global, schema: Schema, marks: Path) -> YangContent
    requires sound { IsSound schema.nodes }
    requires marker { HasMarker schema }
    requires marks { marks ≡ marks_path }
    ensures { result ≡ schema }
{
    YangContent {
        alloc,
        schema,
        marks,
    }
}

impl YangContent {
    /// The schema tree.
    pub fn schema(&self) -> &Schema
        ensures value { result.now ≡ self.now }
        ensures sound { IsSound self.now.nodes }
        ensures marker { HasMarker self.now }
    {
        &self.schema
    }

    /// A configuration by itself as one of this content: it becomes the base, and nothing of it is changed. No row is
    /// copied.
    pub fn lift(&self, config: Config) -> Result<Overlay, NoMemory>
        requires stands { StandsIn self.now config }
        requires valid { violation_told self.now config ≡ None }
        ensures value { IfOk result (λ overlay. overlay ≡ lifted config) }
        ensures belongs { IfOk result (Belongs self.now) }
    {
        let _ = self.schema();
        over_itself(self.alloc, config)
    }
}

// A configuration over itself.
fn over_itself(alloc: Global, config: Config) -> Result<Overlay, NoMemory>
    ensures { IfOk result (λ overlay. overlay ≡ lifted config) }
{
    Overlay::over(alloc, config)
}

// The configuration that an edit makes, without its marks.
fn edited(
    alloc: Global,
    schema: &Schema,
    config: &Overlay,
    edit: &Edit,
    default_operation: DefaultOperation,
) -> Result<Overlay, ApplyFault>
    ensures { Applies result (over config.now.base (edited_rows schema.now config.now.rows edit.now default_operation)) }
{
    let mut edited = config.copy()?;
    match apply_rows(alloc, schema, &mut edited, edit, default_operation) {
        Ok(()) => Ok(edited),
        Err(EditFault::Refused { tag, path }) => Err(ApplyFault::Refused { tag, path }),
        Err(EditFault::NoMemory) => Err(ApplyFault::NoMemory),
    }
}

impl Content for YangContent {
    ghost use Rattle.nm_content.specs.Meaning.{yang_meaning};
    ghost use Rattle.nm_content.specs.Laws.{yang_laws};

    type Config = Overlay;

    type Edit = Edit;

    type Node = YangNode;

    ghost meaning = { yang_meaning };

    ghost laws = { yang_laws };

    fn copy(&self, config: &Overlay) -> Result<Overlay, NoMemory> {
        config.copy()
    }

    fn apply(
        &self,
        config: &Overlay,
        edit: &Edit,
        default_operation: DefaultOperation,
        marks: Option<Marks>,
    ) -> Result<Overlay, ApplyFault> {
        let edited = edited(self.alloc, &self.schema, config, edit, default_operation)?;
        Ok(marked(self.alloc, edited, marks)?)
    }

    fn check(&self, config: &Overlay) -> Result<(), CheckFault> {
        checked(self.alloc, &self.schema, config)
    }

    fn find(&self, text: &Label) -> Result<YangNode, FindFault> {
        found(self.alloc, &self.schema, text)
    }

    fn exists(&self, config: &Overlay, node: &YangNode) -> bool {
        config.any_under(&node.row)
    }

    fn overlaps(&self, one: &YangNode, other: &YangNode) -> bool {
        is_under(&one.path, &other.path) || is_under(&other.path, &one.path)
    }

    fn same_at(&self, one: &Overlay, other: &Overlay, node: &YangNode) -> bool {
        same_at(one, other, node)
    }

    fn same_marks(&self, one: &Overlay, other: &Overlay) -> bool {
        same_marks(one, other, &self.marks)
    }

    fn has_mark(&self, config: &Overlay, change: ChangeNo) -> bool {
        has_mark(config, &self.marks, change.get())
    }

    fn rows(&self, config: &Overlay) -> u32 {
        rows_outside(config)
    }
}

impl Show for YangContent {
    ghost use Rattle.nm_content.specs.Meaning.{yang_text};

    ghost shown = { yang_text };

    #[tactic(auto, unfolding(crate::specs::Meaning::yang_text))]
    fn text(&self, config: &Overlay) -> Result<Vec<u8>, NoMemory> {
        write_rows(self.alloc, &self.schema, config)
    }
}
