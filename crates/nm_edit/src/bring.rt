//! What an edit brings.

ghost use Rattle.std.specs.Prelude.{◌≡◌, ◌++◌, IfOk, OnOk};
ghost use Rattle.nm_config.specs.Rows.{with_entries};
ghost use Rattle.nm_edit.specs.Acts as spec;

use crate::act::Act;
use nm_base::NoMemory;
use nm_config::RowMap;
use nm_types::{Path, Value};
use std::alloc::Global;

// Puts the row of a node behind the others, where it comes.
fn put_coming(act: Act, rows: &mut Vec<(Path, Value)>) -> Result<(), NoMemory>
    ensures { OnOk result (rows.new.items ≡ rows.old.items ++ spec.row_of act) }
{
    let Act {
        path,
        operation,
        value,
        ..
    } = act;
    if !operation.brings() {
        return Ok(());
    }
    let Some(value) = value else {
        return Ok(());
    };
    rows.push((path, value))?;
    Ok(())
}

/// The rows that come.
pub fn coming_of(alloc: Global, acts: Vec<Act>) -> Result<Vec<(Path, Value)>, NoMemory>
    ensures { IfOk result (λ rows. rows.items ≡ spec.coming acts.items) }
{
    let mut rows = Vec::new(alloc);
    for act in acts {
        put_coming(act, &mut rows)?;
    }
    Ok(rows)
}

/// Puts rows, one after another.
pub fn put_rows<M: RowMap>(config: &mut M, rows: Vec<(Path, Value)>) -> Result<(), NoMemory>
    ensures put { OnOk result (M.rows config.new ≡ with_entries (M.rows config.old) rows.items) }
    ensures base { M.base config.new ≡ M.base config.old }
{
    for (path, value) in rows {
        config.put(path, value)?;
    }
    Ok(())
}
