//! The rows that an edit touches.

ghost use Rattle.std.specs.Prelude.{◌≡◌, ◌++◌, IfOk, OnOk, map as each, option_copied};
ghost use Rattle.nm_touched.specs.Touched as spec;

use nm_base::NoMemory;
use nm_config::RowMap;
use nm_edit::{Edit, EditFault, changes_of};
use nm_proto::{DefaultOperation, RowAccess};
use nm_schema_tree::Schema;
use nm_types::{Path, Value};
use std::alloc::Global;

// What is done to a row, by its value before and after.
fn access_by(before: Option<&Value>, after: &Option<Value>) -> RowAccess
    ensures { result ≡ spec.access_by (option_copied before.entry) after.now }
{
    match after {
        Some(_) => match before {
            Some(_) => RowAccess::Update,
            None => RowAccess::Create,
        },
        None => RowAccess::Delete,
    }
}

// Puts what is done to a row behind the others.
fn put_touch<M: RowMap>(
    rows: &M,
    path: Path,
    after: &Option<Value>,
    touched: &mut Vec<(Path, RowAccess)>,
) -> Result<(), NoMemory>
    ensures { OnOk result (touched.new.items ≡ touched.old.items ++ spec.touches (M.rows rows.now) (path, after.now)) }
{
    let access = access_by(rows.value(&path), after);
    touched.push((path, access))?;
    Ok(())
}

// What is done to the rows at which something changes.
fn accesses_of<M: RowMap>(
    alloc: Global,
    rows: &M,
    changes: Vec<(Path, Option<Value>)>,
) -> Result<Vec<(Path, RowAccess)>, NoMemory>
    ensures { IfOk result (λ touched. touched.items ≡ each (spec.touch (M.rows rows.now)) changes.items) }
{
    let mut touched = Vec::new(alloc);
    for (path, after) in changes {
        put_touch(rows, path, &after, &mut touched)?;
    }
    Ok(touched)
}

/// The rows that an edit touches, in path order: each that it adds, gives another value or takes away, with which of these it is.
///
/// What the edit is refused for, as `nm_edit`'s `apply` tells it, is answered in their place. It changes nothing. A default
/// replace may touch all rows that were there and all that come: up to 40,000.
pub fn touched_rows<M: RowMap>(
    alloc: Global,
    schema: &Schema,
    rows: &M,
    edit: &Edit,
    default_operation: DefaultOperation,
) -> Result<Vec<(Path, RowAccess)>, EditFault>
    ensures { spec.Tells (λ touched. touched.items) result (spec.touched schema.now (M.rows rows.now) edit.now default_operation) }
{
    let changes = changes_of(alloc, schema, rows, edit, default_operation)?;
    let touched = accesses_of(alloc, rows, changes)?;
    Ok(touched)
}
