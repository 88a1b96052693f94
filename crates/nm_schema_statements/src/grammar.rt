//! The flaw of a row.

ghost use Rattle.std.specs.Prelude.{◌≡◌, IfOk};
ghost use Rattle.nm_schema_statements.specs.Flaw as spec;

use crate::fault::Fault;
use crate::flaw::Flaw;
use crate::form::{form_fault, left_out, text_of};
use crate::nesting::{lack_fault, place_fault, times_fault, word_above};
use crate::row::Row;
use crate::rows::Rows;
use nm_base::{Label, NoMemory};
use std::alloc::Global;

#[tactic(auto, unfolding(crate::specs::Flaw::row_fault))]
fn row_fault(rows: &Rows, at: usize, row: &Row) -> Option<Fault>
    ensures { result ≡ spec.row_fault rows.now at row.now }
{
    if let Some(fault) = place_fault(rows, row) {
        return Some(fault);
    }
    if let Some(fault) = times_fault(rows, at, row) {
        return Some(fault);
    }
    if let Some(fault) = lack_fault(rows, at, row.word) {
        return Some(fault);
    }
    if let Some(fault) = form_fault(row.word, &row.argument) {
        return Some(fault);
    }
    left_out(
        word_above(rows, row.parent),
        row.word,
        text_of(&row.argument),
    )
}

fn flaw_of(alloc: Global, row: &Row, fault: Fault) -> Result<Flaw, NoMemory>
    ensures { IfOk result (λ flaw. flaw ≡ spec.flaw_of row.now fault) }
{
    match fault {
        Fault::Unsupported => Ok(Flaw::Unsupported(row.keyword.copy()?)),
        Fault::UnsupportedType => Ok(Flaw::Unsupported(Label::new(alloc, text_of(&row.argument))?)),
        Fault::Unknown => Ok(Flaw::Unknown(row.keyword.copy()?)),
        Fault::Duplicate => Ok(Flaw::Duplicate(row.keyword.copy()?)),
        Fault::Lacks(wanted) => Ok(Flaw::BadArgument(Label::new(alloc, wanted.text())?)),
        Fault::BadArgument => Ok(Flaw::BadArgument(row.keyword.copy()?)),
    }
}

/// What is wrong with the row of a number from 0, as far as the grammar of the subset goes (RFC 7950 sections 7
/// and 14): the first of a keyword that is left out, one that is unknown or may not stand there, a second one of what
/// may stand once, a statement that is missing in it, an argument that is missing or hasn't its form, and what is left
/// out by its argument. None past the last row.
#[tactic(auto, unfolding(crate::specs::Flaw::grammar_flaw))]
pub fn grammar_flaw(alloc: Global, rows: &Rows, at: usize) -> Result<Option<Flaw>, NoMemory>
    ensures { IfOk result (λ flaw. flaw ≡ spec.grammar_flaw rows.now at) }
{
    let Some(row) = rows.row(at) else {
        return Ok(None);
    };
    match row_fault(rows, at, row) {
        None => Ok(None),
        Some(fault) => Ok(Some(flaw_of(alloc, row, fault)?)),
    }
}
