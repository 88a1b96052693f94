//! How many rows a configuration may have (this project's own).

ghost use Rattle.std.specs.Prelude.{◌≡◌, List, IfOk, true};
ghost use Rattle.std.specs.FinMap as map;
ghost use Rattle.nm_types.specs.Path.{PathStep, path_cmp};
ghost use Rattle.nm_edit.specs.Refusals.{Passes};
ghost use Rattle.nm_overlay.specs.Differences.{changes_at, with_changes};
ghost use Rattle.nm_overlay.specs.Places.{Ascends};
ghost use Rattle.nm_edit.specs.Changed.{too_large};

use crate::EditFault;
use nm_base::{Label, NoMemory, Tag};
use nm_config::RowMap;
use nm_json::ROW_LIMIT;
use nm_overlay::count_with;
use nm_types::{Path, Value};
use std::alloc::Global;

// How many rows there are. Where more are there than can be told, they are counted.
fn count<M: RowMap>(alloc: Global, rows: &M) -> Result<usize, NoMemory>
    ensures { IfOk result (λ count. count ≡ map.len (M.rows rows.now)) }
{
    let told = rows.row_count();
    if told < u32::MAX {
        return Ok(told as usize);
    }
    let listed = rows.listed(alloc)?;
    Ok(listed.len())
}

/// Refuses changes that make more than 20,000 rows of those that are there.
pub fn refuse_large<M: RowMap>(
    alloc: Global,
    rows: &M,
    changes: &[(Path, Option<Value>)],
) -> Result<(), EditFault>
    requires ascends { Ascends changes.now }
    requires changes { (path : List PathStep) → changes_at (map.find path_cmp path changes.now) (map.get (M.rows rows.now) path) ≡ true }
    ensures { Passes result (too_large (with_changes (M.rows rows.now) changes.now)) }
{
    let before = count(alloc, rows)?;
    let after = count_with(rows, before, changes);
    if after > ROW_LIMIT as u128 {
        return Err(EditFault::Refused {
            tag: Tag::ResourceDenied,
            path: Label::new(alloc, "")?,
        });
    }
    Ok(())
}
