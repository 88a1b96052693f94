//! What an edit makes of a configuration.

ghost use Rattle.std.specs.Prelude.{◌≡◌, IfOk, OnOk, OnErr, length};
ghost use Rattle.nm_edit.specs.Acts as act_spec;
ghost use Rattle.nm_edit.specs.Edited as spec;

use crate::act::{Act, acts_of};
use crate::edit::Edit;
use crate::fault::EditFault;
use crate::moves::{make_moves, moves_of};
use crate::refuse::refuse_first;
use nm_base::{Label, NoMemory, Tag};
use nm_config::{Config, RowMap};
use nm_json::ROW_LIMIT;
use nm_proto::DefaultOperation;
use nm_schema_tree::Schema;
use std::alloc::Global;

// What an edit begins with: nothing where the default operation is replace.
fn base_of(
    alloc: Global,
    config: &Config,
    default_operation: DefaultOperation,
) -> Result<Config, NoMemory>
    ensures { IfOk result (λ base. base ≡ spec.base_of default_operation config.now) }
{
    match default_operation {
        DefaultOperation::Merge => config.copy(),
        DefaultOperation::Replace => Ok(Config::new(alloc)),
        DefaultOperation::Nothing => config.copy(),
    }
}

// Does to rows what the edit does, once it isn't refused. `old` is what was there before the edit.
fn bring<M: RowMap>(
    alloc: Global,
    schema: &Schema,
    old: &Config,
    config: &mut M,
    acts: Vec<Act>,
) -> Result<(), NoMemory>
    ensures brought { OnOk result (M.rows config.new ≡ spec.brought schema.now old.now (M.rows config.old) acts.items) }
    ensures base { M.base config.new ≡ M.base config.old }
{
    let moves = moves_of(alloc, schema, old, acts)?;
    make_moves(config, moves)?;
    Ok(())
}

// The configuration, unless it has too many rows.
fn limited(alloc: Global, config: Config) -> Result<Config, EditFault>
    ensures { spec.Gives result (spec.limited config) }
{
    if config.len() > ROW_LIMIT {
        return Err(EditFault::Refused {
            tag: Tag::ResourceDenied,
            path: Label::new(alloc, "")?,
        });
    }
    Ok(config)
}

/// The configuration that an edit makes, or the least refused path with its tag (RFC 6241 section 7.2).
///
/// More than 20,000 rows are refused with resource-denied and no path. The arguments stay as they are, whatever is answered.
pub fn apply(
    alloc: Global,
    schema: &Schema,
    config: &Config,
    edit: &Edit,
    default_operation: DefaultOperation,
) -> Result<Config, EditFault>
    ensures { spec.Gives result (spec.edited_rows schema.now config.now edit.now default_operation) }
{
    let acts = acts_of(alloc, edit, default_operation)?;
    refuse_first(alloc, schema, config, &acts)?;
    let mut edited = base_of(alloc, config, default_operation)?;
    bring(alloc, schema, config, &mut edited, acts)?;
    limited(alloc, edited)
}
