//! Two cases of one name in one choice.

ghost use Rattle.std.specs.Prelude.{◌≡◌, ◌<◌, ◌+◌, [], true, IfOk, IfSome, OnOk, length, replicate, slice_get};
ghost use Rattle.nm_schema_statements.specs.Rows.{has_word};
ghost use Rattle.nm_schema_statements.specs.declared.word.Word.TheVariants as word;
ghost use Rattle.nm_schema_names.specs.Clash as spec;

use crate::name_set::{NameSet, name_at};
use nm_base::{Label, NoMemory};
use nm_schema_statements::{Rows, Word};
use nm_schema_uses::is_node;
use std::alloc::Global;

fn is_branch(word: Word) -> bool
    ensures { result ≡ spec.is_branch word }
{
    match word {
        Word::Case => true,
        _ => is_node(word),
    }
}

fn is_choice(rows: &Rows, at: usize) -> bool
    ensures choice { result ≡ has_word word.Choice (slice_get rows.now at) }
    ensures within { result ≡ true → at < length rows.now }
{
    match rows.row(at) {
        None => false,
        Some(row) => row.word.same(Word::Choice),
    }
}

fn choice_at(rows: &Rows, parent: Option<usize>) -> Option<usize>
    ensures choice { result ≡ spec.choice_at rows.now parent }
    ensures within { IfSome result (λ choice. choice < length rows.now) }
{
    match parent {
        None => None,
        Some(parent) => {
            if is_choice(rows, parent) {
                return Some(parent);
            }
            None
        }
    }
}

// The choice that a row is a case of.
#[tactic(auto, unfolding(crate::specs::Clash::choice_of))]
fn choice_of(rows: &Rows, at: usize) -> Option<usize>
    ensures choice { result ≡ spec.choice_of rows.now at }
    ensures within { IfSome result (λ choice. choice < length rows.now) }
{
    match rows.row(at) {
        None => None,
        Some(row) => {
            if is_branch(row.word) {
                return choice_at(rows, row.parent);
            }
            None
        }
    }
}

// The clash of a case, once the names of the cases before it are taken; then its own is taken too.
#[tactic(auto, unfolding(crate::specs::Clash::case_clash))]
fn next_case(
    alloc: Global,
    rows: &Rows,
    taken: &mut Vec<NameSet>,
    at: usize,
) -> Result<Option<Label>, NoMemory>
    requires within { at < length rows.now }
    requires taken { spec.AreCasesTaken rows.now at taken.old.items }
    ensures clash { IfOk result (λ clash. clash ≡ spec.case_clash rows.now at) }
    ensures taken { OnOk result (spec.AreCasesTaken rows.now (at + 1) taken.new.items) }
{
    let choice = match choice_of(rows, at) {
        None => return Ok(None),
        Some(choice) => choice,
    };
    let name = name_at(alloc, rows, at)?;
    if taken[choice].has(&name) {
        return Ok(Some(name));
    }
    taken[choice].add(name)?;
    Ok(None)
}

// No names taken in any choice.
fn no_cases(alloc: Global, count: usize) -> Result<Vec<NameSet>, NoMemory>
    ensures { IfOk result (λ taken. taken.items ≡ replicate count []) }
{
    let mut taken = Vec::with_capacity(alloc, count)?;
    for _ in 0..count {
        taken.push(NameSet::new(alloc))?;
    }
    Ok(taken)
}

// The name of each row that is a case of a choice in which an earlier case has it.
pub(crate) fn case_clashes(alloc: Global, rows: &Rows) -> Result<Vec<Option<Label>>, NoMemory>
    ensures { IfOk result (λ clashes. spec.AreCaseClashes rows.now clashes.items) }
{
    let mut taken = no_cases(alloc, rows.len())?;
    let mut clashes = Vec::with_capacity(alloc, rows.len())?;
    for at in 0..rows.len() {
        match next_case(alloc, rows, &mut taken, at) {
            Ok(clash) => clashes.push(clash)?,
            Err(error) => return Err(error),
        }
    }
    Ok(clashes)
}
