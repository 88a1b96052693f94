//! Kinds of statements.

ghost use Rattle.std.specs.Prelude.{◌≡◌};
ghost use Rattle.nm_schema_statements.specs.Flaw as grammar;
ghost use Rattle.nm_schema_uses.specs.Holding as spec;

use nm_schema_statements::{Rows, Word};

pub(crate) fn is_holder(word: Word) -> bool
    ensures { result ≡ spec.is_holder word }
{
    match word {
        Word::Module | Word::Container | Word::List | Word::Grouping => true,
        Word::Choice | Word::Case => true,
        _ => false,
    }
}

pub(crate) fn is_fork(word: Word) -> bool
    ensures { result ≡ spec.is_fork word }
{
    match word {
        Word::Choice | Word::Case => true,
        _ => false,
    }
}

pub fn is_node(word: Word) -> bool
    ensures { result ≡ spec.is_node word }
{
    match word {
        Word::Choice => true,
        _ => is_data(word),
    }
}

pub fn is_uses(word: Word) -> bool
    ensures { result ≡ spec.is_uses word }
{
    match word {
        Word::Uses => true,
        _ => false,
    }
}

pub(crate) fn is_data(word: Word) -> bool
    ensures { result ≡ grammar.is_data word }
{
    match word {
        Word::Container | Word::Leaf | Word::LeafList | Word::List => true,
        _ => false,
    }
}

pub(crate) fn is_part(word: Word) -> bool
    ensures { result ≡ spec.is_part word }
{
    match word {
        Word::Uses | Word::Choice | Word::Case => true,
        _ => is_data(word),
    }
}

// Whether the row of a number is there, and is a node of data.
pub(crate) fn is_data_at(rows: &Rows, at: usize) -> bool
    ensures { result ≡ spec.is_data_at rows.now at }
{
    match rows.row(at) {
        None => false,
        Some(row) => is_data(row.word),
    }
}

// Whether the row of a number is there, and is a choice or a case.
#[tactic(auto, unfolding(crate::specs::Holding::is_fork_at))]
pub fn is_fork_at(rows: &Rows, at: usize) -> bool
    ensures { result ≡ spec.is_fork_at rows.now at }
{
    match rows.row(at) {
        None => false,
        Some(row) => is_fork(row.word),
    }
}

// Whether the row of a number is there, and is a node of data, a uses, a choice or a case.
#[tactic(auto, unfolding(crate::specs::Holding::is_part_at))]
pub fn is_part_at(rows: &Rows, at: usize) -> bool
    ensures { result ≡ spec.is_part_at rows.now at }
{
    match rows.row(at) {
        None => false,
        Some(row) => is_part(row.word),
    }
}
