//! What is said of paths, by these.

ghost use Rattle.std.specs.Prelude.{◌≡◌, ◌++◌, IfOk, OnOk, filter};
ghost use Rattle.std.specs.FinMap as map;
ghost use Rattle.nm_config.specs.Rows.{with_entries};
ghost use Rattle.nm_edit.specs.Said.{is_change, change_at};

use nm_base::NoMemory;
use nm_config::RowMap;
use nm_overlay::differs;
use nm_types::{Path, Value};
use std::alloc::Global;
use std::collections::BTreeMap;
use std::marker::Model;

/// What is to stand at paths. It is seen as a finite map from these.
#[derive(Drop)]
pub struct Sayings {
    tree: BTreeMap<Path, Option<Value>>,
}

impl Model for Sayings {
    ghost use Rattle.nm_overlay.specs.Differences.{Changes};
    ghost use Rattle.std.specs.Coded.{coded_option};
    ghost use Rattle.std.specs.FinMap as map;
    ghost use Rattle.nm_types.specs.contracts.path.Path as path;
    ghost use Rattle.nm_types.specs.contracts.value.Value as value;

    ghost Value = { Changes };

    ghost coded = { map.code path.the_row.coded (coded_option value.the_row.coded) };

    ghost view = { λ sayings. map.from_entries sayings.tree.entries };
}

impl Sayings {
    /// What some pairs say. Where pairs have one path, the last of them tells.
    pub fn of_pairs(alloc: Global, pairs: Vec<(Path, Option<Value>)>) -> Result<Sayings, NoMemory>
        ensures { IfOk result (λ sayings. sayings ≡ with_entries map.empty pairs.items) }
    {
        let tree = BTreeMap::from_iter(alloc, pairs)?;
        Ok(Sayings { tree })
    }

    /// In path order what isn't so of some rows.
    pub fn changes<M: RowMap>(
        &self,
        alloc: Global,
        rows: &M,
    ) -> Result<Vec<(Path, Option<Value>)>, NoMemory>
        ensures { IfOk result (λ changes. changes.items ≡ filter (is_change (M.rows rows.now)) (map.entries self.now)) }
    {
        let mut changes = Vec::new(alloc);
        for (path, said) in self.tree.iter() {
            put_change(alloc, rows, path, said, &mut changes)?;
        }
        Ok(changes)
    }
}

fn copied(said: &Option<Value>) -> Result<Option<Value>, NoMemory>
    ensures { IfOk result (λ copied. copied ≡ said.now) }
{
    match said {
        None => Ok(None),
        Some(value) => Ok(Some(value.copy()?)),
    }
}

// Puts what is said of a path behind the others, where it isn't so.
fn put_change<M: RowMap>(
    alloc: Global,
    rows: &M,
    path: &Path,
    said: &Option<Value>,
    changes: &mut Vec<(Path, Option<Value>)>,
) -> Result<(), NoMemory>
    ensures { OnOk result (changes.new.items ≡ changes.old.items ++ change_at (M.rows rows.now) (path.now, said.now)) }
{
    if !differs(rows.value(path), said) {
        return Ok(());
    }
    changes.push((path.copy(alloc)?, copied(said)?))?;
    Ok(())
}
