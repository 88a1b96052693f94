//! The given modules by name, in their order.

ghost use Rattle.std.specs.Prelude.{◌≡◌, IfOk, OnOk};
ghost use Rattle.nm_schema_names.specs.Modules as spec;

use indexmap::IndexMap;
use nm_base::NoMemory;
use nm_schema_statements::{Row, Rows, Word};
use std::alloc::Global;

// Lets the name of a row that is a module lead to it, unless it leads to an earlier one.
fn put<'a>(modules: &mut IndexMap<&'a str, usize>, row: &'a Row, at: usize) -> Result<(), NoMemory>
    ensures put { OnOk result (spec.PutsModule row.now at modules.old modules.new) }
{
    if !row.word.same(Word::Module) {
        return Ok(());
    }
    if row.parent.is_some() {
        return Ok(());
    }
    let name = match &row.argument {
        None => return Ok(()),
        Some(name) => name.as_str(),
    };
    if modules.contains_key(name) {
        return Ok(());
    }
    modules.insert(name, at)?;
    Ok(())
}

/// The row of the first module of each name, in the order of the modules.
pub fn modules_of<'a>(alloc: Global, rows: &'a Rows) -> Result<IndexMap<&'a str, usize>, NoMemory>
    ensures { IfOk result (spec.AreModules rows.now) }
{
    let mut modules = IndexMap::new(alloc);
    for at in 0..rows.len() {
        match rows.row(at) {
            None => return Ok(modules),
            Some(row) => match put(&mut modules, row, at) {
                Ok(()) => {}
                Err(error) => return Err(error),
            },
        }
    }
    Ok(modules)
}
