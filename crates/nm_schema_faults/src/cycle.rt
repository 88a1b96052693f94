//! Rows that lead to themselves.

ghost use Rattle.std.specs.Prelude.{◌≡◌, IfOk};
ghost use Rattle.nm_schema_typing.specs.Listing.{is_at};
ghost use Rattle.nm_schema_typing.specs.Restricting.{argument_at};
ghost use Rattle.nm_schema_typing.specs.TypeFlaw as typing;
ghost use Rattle.nm_schema_statements.specs.Flaw.{text_of};
ghost use Rattle.std.specs.Prelude.{Some};
ghost use Rattle.nm_schema_faults.specs.Facts.{IsCycle};

use nm_base::{Label, NoMemory};
use nm_graph::order;
use nm_schema_names::RowNames;
use nm_schema_statements::{Flaw, Rows};
use std::alloc::Global;

/// The first row that leads to itself through typedefs or groupings.
pub(crate) fn cycle_of(alloc: Global, names: &RowNames<'_>) -> Result<Option<usize>, NoMemory>
    ensures { IfOk result (IsCycle names.now) }
{
    let graph = names.successors(alloc)?;
    let ordered = order(alloc, &graph)?;
    Ok(ordered.cycle)
}

fn is_at(cycle: Option<usize>, at: usize) -> bool
    ensures { result ≡ is_at cycle at }
{
    match cycle {
        None => false,
        Some(row) => row == at,
    }
}

fn text_at(alloc: Global, rows: &Rows, at: usize) -> Result<Label, NoMemory>
    ensures { IfOk result (λ text. text ≡ text_of (argument_at rows.now (Some at))) }
{
    let Some(row) = rows.row(at) else {
        return Label::new(alloc, "");
    };
    match &row.argument {
        None => Label::new(alloc, ""),
        Some(text) => text.copy(),
    }
}

/// The flaw of the first row that leads to itself, by its name.
#[tactic(auto, unfolding(nm_schema_typing::specs::TypeFlaw::cycle_flaw))]
pub(crate) fn cycle_flaw(
    alloc: Global,
    rows: &Rows,
    cycle: Option<usize>,
    at: usize,
) -> Result<Option<Flaw>, NoMemory>
    ensures { IfOk result (λ flaw. flaw ≡ typing.cycle_flaw rows.now cycle at) }
{
    if !is_at(cycle, at) {
        return Ok(None);
    }
    Ok(Some(Flaw::Cycle(text_at(alloc, rows, at)?)))
}
