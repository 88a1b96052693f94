//! Where the names of all rows lead.

ghost use Rattle.std.specs.Prelude.{◌≡◌, IfOk};
ghost use Rattle.nm_schema_uses.specs.Holding.{AreNamed};
ghost use Rattle.nm_schema_faults.specs.Facts as spec;

use nm_base::NoMemory;
use nm_schema_names::RowNames;
use std::alloc::Global;

/// For each row the typedef that it names as a type, or the grouping that it names as a uses, by its row. None of built-in
/// types, of names that lead nowhere, and of other rows.
pub fn definitions(alloc: Global, names: &RowNames<'_>) -> Result<Vec<Option<usize>>, NoMemory>
    ensures value { IfOk result (λ found. found.items ≡ spec.definitions names.now) }
    ensures named { IfOk result (λ found. AreNamed names.now found.items) }
{
    let mut found = Vec::with_capacity(alloc, names.rows().len())?;
    for at in 0..names.rows().len() {
        found.push(names.leads_to(at))?;
    }
    Ok(found)
}
