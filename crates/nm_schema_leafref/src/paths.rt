//! The paths of all rows.

ghost use Rattle.std.specs.Prelude.{◌≡◌, IfOk, MatchOption, None, Some, slice_index_or};
ghost use Rattle.nm_schema_leafref.specs.Known.{ArePaths};
ghost use Rattle.nm_schema_leafref.specs.Walk as spec;

use nm_base::NoMemory;
use nm_schema_statements::{Rows, Word};
use nm_schema_typing::{LeafrefPath, read_path};
use std::alloc::Global;
use std::marker::Model;

/// The paths of rows, each read once. They are seen as their list.
#[derive(Drop)]
pub struct Paths {
    all: Vec<Option<LeafrefPath>>,
}

impl Model for Paths {
    ghost use Rattle.std.specs.Prelude.{List, Option};
    ghost use Rattle.nm_schema_typing.specs.Leafref.{LeafrefPath};

    ghost Value = { List (Option LeafrefPath) };

    ghost view = { λ p. p.all.items };
}

impl Paths {
    /// The path of a row of a number from 0. None where the row is no `path` statement or its argument is no path.
    pub fn path(&self, at: usize) -> Option<&LeafrefPath>
        ensures { MatchOption result (slice_index_or self.now at None ≡ None) (λ path. slice_index_or self.now at None ≡ Some path.now) }
    {
        if at >= self.all.len() {
            return None;
        }
        self.all[at].as_ref()
    }
}

// The path of a row.
#[tactic(auto, unfolding(crate::specs::Walk::path_at))]
fn path_at(alloc: Global, rows: &Rows, at: usize) -> Result<Option<LeafrefPath>, NoMemory>
    ensures { IfOk result (λ path. path ≡ spec.path_at rows.now at) }
{
    let Some(row) = rows.row(at) else {
        return Ok(None);
    };
    if !row.word.same(Word::Path) {
        return Ok(None);
    }
    match &row.argument {
        None => read_path(alloc, ""),
        Some(text) => read_path(alloc, text.as_str()),
    }
}

/// The paths of the `path` statements among rows (RFC 7950 section 9.9.2).
pub fn paths_of(alloc: Global, rows: &Rows) -> Result<Paths, NoMemory>
    ensures exact { IfOk result (ArePaths rows.now) }
{
    let mut all = Vec::with_capacity(alloc, rows.len())?;
    for at in 0..rows.len() {
        match path_at(alloc, rows, at) {
            Ok(path) => all.push(path)?,
            Err(error) => return Err(error),
        }
    }
    Ok(Paths { all })
}
