//! The first row of each key.

ghost use Rattle.std.specs.Prelude.{◌≡◌, ℕ, IfOk, OnOk};
ghost use Rattle.nm_schema_names.specs.Table as spec;

use crate::key::{Key, Reach, key_of};
use nm_base::NoMemory;
use nm_schema_statements::{Row, Rows};
use std::alloc::Global;
use std::collections::BTreeMap;

/// The first row of each key.
#[derive(Drop)]
pub struct Table<'a> {
    map: BTreeMap<Key<'a>, usize>,
}

impl<'a> Table<'a> {
    /// The number of the row that a key finds.
    pub fn get(&self, key: &Key<'a>) -> Option<usize>
        ensures { result ≡ spec.found self.now key.now }
    {
        self.map.get(key).copied()
    }
}

// Lets the key of a row lead to the row.
fn put<'a>(
    map: &mut BTreeMap<Key<'a>, usize>,
    reach: Reach,
    row: &'a Row,
    at: usize,
) -> Result<(), NoMemory>
    ensures put { OnOk result (spec.Puts reach row.now at map.old map.new) }
{
    let Some(key) = key_of(reach, row) else {
        return Ok(());
    };
    map.insert(key, at)?;
    Ok(())
}

/// The first row of each key, of all rows.
pub fn table_of<'a>(alloc: Global, rows: &'a Rows, reach: Reach) -> Result<Table<'a>, NoMemory>
    ensures { IfOk result (spec.IsTable reach rows.now) }
{
    let mut map = BTreeMap::new(alloc);
    let mut at = rows.len();
    while at > 0 {
        at -= 1;
        match rows.row(at) {
            None => return Ok(Table { map }),
            Some(row) => match put(&mut map, reach, row, at) {
                Ok(()) => {}
                Err(error) => return Err(error),
            },
        }
    }
    Ok(Table { map })
}
