//! Which statements may stand in which, and how often.

ghost use Rattle.std.specs.Prelude.{◌≡◌};
ghost use Rattle.nm_schema_statements.specs.Flaw as spec;

use crate::fault::Fault;
use crate::row::Row;
use crate::rows::Rows;
use crate::word::Word;

fn is_data(word: Word) -> bool
    ensures { result ≡ spec.is_data word }
{
    match word {
        Word::Container => true,
        Word::Leaf => true,
        Word::LeafList => true,
        Word::List => true,
        _ => false,
    }
}

fn is_scoped(word: Word) -> bool
    ensures { result ≡ spec.is_scoped word }
{
    match word {
        Word::Typedef => true,
        Word::Grouping => true,
        Word::Uses => true,
        Word::Choice => true,
        _ => is_data(word),
    }
}

fn in_module(word: Word) -> bool
    ensures { result ≡ spec.in_module word }
{
    match word {
        Word::YangVersion => true,
        Word::Namespace => true,
        Word::Prefix => true,
        Word::Import => true,
        _ => is_scoped(word),
    }
}

fn in_import(word: Word) -> bool
    ensures { result ≡ spec.in_import word }
{
    match word {
        Word::Prefix => true,
        _ => false,
    }
}

fn in_container(word: Word) -> bool
    ensures { result ≡ spec.in_container word }
{
    match word {
        Word::Presence => true,
        Word::Config => true,
        _ => is_scoped(word),
    }
}

fn in_leaf(word: Word) -> bool
    ensures { result ≡ spec.in_leaf word }
{
    match word {
        Word::Type => true,
        Word::Default => true,
        Word::Mandatory => true,
        Word::Config => true,
        _ => false,
    }
}

fn in_leaf_list(word: Word) -> bool
    ensures { result ≡ spec.in_leaf_list word }
{
    match word {
        Word::Type => true,
        Word::Default => true,
        Word::MinElements => true,
        Word::MaxElements => true,
        Word::OrderedBy => true,
        Word::Config => true,
        _ => false,
    }
}

fn in_list(word: Word) -> bool
    ensures { result ≡ spec.in_list word }
{
    match word {
        Word::Key => true,
        Word::Unique => true,
        Word::MinElements => true,
        Word::MaxElements => true,
        Word::OrderedBy => true,
        Word::Config => true,
        _ => is_scoped(word),
    }
}

fn in_choice(word: Word) -> bool
    ensures { result ≡ spec.in_choice word }
{
    match word {
        Word::Choice => true,
        Word::Case => true,
        Word::Default => true,
        Word::Mandatory => true,
        Word::Config => true,
        _ => is_data(word),
    }
}

fn in_case(word: Word) -> bool
    ensures { result ≡ spec.in_case word }
{
    match word {
        Word::Choice => true,
        Word::Uses => true,
        _ => is_data(word),
    }
}

fn in_typedef(word: Word) -> bool
    ensures { result ≡ spec.in_typedef word }
{
    match word {
        Word::Type => true,
        Word::Default => true,
        _ => false,
    }
}

fn in_type(word: Word) -> bool
    ensures { result ≡ spec.in_type word }
{
    match word {
        Word::Range => true,
        Word::Length => true,
        Word::Enum => true,
        Word::Bit => true,
        Word::FractionDigits => true,
        Word::Path => true,
        _ => false,
    }
}

fn in_enum(word: Word) -> bool
    ensures { result ≡ spec.in_enum word }
{
    match word {
        Word::Value => true,
        _ => false,
    }
}

fn in_bit(word: Word) -> bool
    ensures { result ≡ spec.in_bit word }
{
    match word {
        Word::Position => true,
        _ => false,
    }
}

fn is_module(word: Word) -> bool
    ensures { result ≡ spec.is_module word }
{
    match word {
        Word::Module => true,
        _ => false,
    }
}

fn holds(parent: Word, child: Word) -> bool
    ensures { result ≡ spec.holds parent child }
{
    match parent {
        Word::Module => in_module(child),
        Word::Import => in_import(child),
        Word::Container => in_container(child),
        Word::Leaf => in_leaf(child),
        Word::LeafList => in_leaf_list(child),
        Word::List => in_list(child),
        Word::Choice => in_choice(child),
        Word::Case => in_case(child),
        Word::Typedef => in_typedef(child),
        Word::Type => in_type(child),
        Word::Enum => in_enum(child),
        Word::Bit => in_bit(child),
        Word::Grouping => is_scoped(child),
        _ => false,
    }
}

fn may_stand(parent: Option<Word>, child: Word) -> bool
    ensures { result ≡ spec.may_stand parent child }
{
    match parent {
        None => is_module(child),
        Some(parent) => holds(parent, child),
    }
}

/// The word of the statement that a row stands in.
pub fn word_above(rows: &Rows, parent: Option<usize>) -> Option<Word>
    ensures { result ≡ spec.word_above rows.now parent }
{
    match parent {
        None => None,
        Some(at) => match rows.row(at) {
            None => None,
            Some(row) => Some(row.word),
        },
    }
}

fn is_unsupported(word: Word) -> bool
    ensures { result ≡ spec.is_unsupported word }
{
    match word {
        Word::Unsupported => true,
        _ => false,
    }
}

/// The keyword is left out, or may not stand there.
#[tactic(auto, unfolding(crate::specs::Flaw::place_fault))]
pub fn place_fault(rows: &Rows, row: &Row) -> Option<Fault>
    ensures { result ≡ spec.place_fault rows.now row.now }
{
    if is_unsupported(row.word) {
        return Some(Fault::Unsupported);
    }
    if may_stand(word_above(rows, row.parent), row.word) {
        return None;
    }
    Some(Fault::Unknown)
}

fn is_leaf_list(word: Option<Word>) -> bool
    ensures { result ≡ spec.is_leaf_list word }
{
    match word {
        Some(Word::LeafList) => true,
        _ => false,
    }
}

/// Whether it is a leaf-list or a choice: the defaults of both are left out.
pub fn is_undefaulted(word: Option<Word>) -> bool
    ensures { result ≡ spec.is_undefaulted word }
{
    match word {
        Some(Word::LeafList) => true,
        Some(Word::Choice) => true,
        _ => false,
    }
}

fn comes_once(parent: Option<Word>, word: Word) -> bool
    ensures { result ≡ spec.comes_once parent word }
{
    match word {
        Word::YangVersion => true,
        Word::Namespace => true,
        Word::Prefix => true,
        Word::Presence => true,
        Word::Key => true,
        Word::Type => true,
        Word::Range => true,
        Word::Length => true,
        Word::Value => true,
        Word::Position => true,
        Word::FractionDigits => true,
        Word::Path => true,
        Word::Default => !is_leaf_list(parent),
        Word::Mandatory => true,
        Word::MinElements => true,
        Word::MaxElements => true,
        Word::Config => true,
        Word::OrderedBy => true,
        _ => false,
    }
}

fn is_again(rows: &Rows, at: usize, row: &Row) -> bool
    ensures { result ≡ spec.is_again rows.now at row.now }
{
    match rows.first_in(row.parent, row.word) {
        None => false,
        Some(first) => first < at,
    }
}

/// A second one of what may stand once.
#[tactic(auto, unfolding(crate::specs::Flaw::times_fault))]
pub fn times_fault(rows: &Rows, at: usize, row: &Row) -> Option<Fault>
    ensures { result ≡ spec.times_fault rows.now at row.now }
{
    if comes_once(word_above(rows, row.parent), row.word) && is_again(rows, at, row) {
        return Some(Fault::Duplicate);
    }
    None
}

fn lack(rows: &Rows, at: usize, wanted: Word) -> Option<Fault>
    ensures { result ≡ spec.lack rows.now at wanted }
{
    match rows.first_below(at, wanted) {
        Some(_) => None,
        None => Some(Fault::Lacks(wanted)),
    }
}

fn lack_in_module(rows: &Rows, at: usize) -> Option<Fault>
    ensures { result ≡ spec.lack_fault rows.now at Word.Module }
{
    if let Some(fault) = lack(rows, at, Word::Namespace) {
        return Some(fault);
    }
    lack(rows, at, Word::Prefix)
}

/// The first statement that is missing in a row.
pub fn lack_fault(rows: &Rows, at: usize, word: Word) -> Option<Fault>
    ensures { result ≡ spec.lack_fault rows.now at word }
{
    match word {
        Word::Module => lack_in_module(rows, at),
        Word::Import => lack(rows, at, Word::Prefix),
        Word::Leaf => lack(rows, at, Word::Type),
        Word::LeafList => lack(rows, at, Word::Type),
        Word::Typedef => lack(rows, at, Word::Type),
        _ => None,
    }
}
