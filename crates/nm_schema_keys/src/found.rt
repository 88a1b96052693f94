//! Where a name leads, and what fits there.

ghost use Rattle.std.specs.Prelude.{◌≡◌, Some, is_some, slice_get};
ghost use Rattle.nm_schema_statements.specs.Rows.{has_word};
ghost use Rattle.nm_schema_uses.specs.Arguments.{argument_at};
ghost use Rattle.nm_schema_uses.specs.Config.{is_state, says_false};
ghost use Rattle.nm_schema_uses.specs.Holding.{is_node};
ghost use Rattle.nm_schema_keys.specs.ConfigUse.{ConfigUse, IsConfigUse, is_lost, loses_state};
ghost use Rattle.nm_schema_keys.specs.Found as spec;

use nm_schema_statements::{Flaw, Rows, Word};
use nm_schema_uses::Shape;

/// Where a name leads.
#[derive(Clone, Copy)]
pub enum Found {
    /// To a row.
    Row(usize),
    /// To nothing that fits.
    Missing,
    /// That isn't known, since a `uses` on the way has no grouping or leads to itself.
    Unknown,
}

/// The argument of a row, and an empty text where it has none.
#[tactic(auto, unfolding(nm_schema_uses::specs::Arguments::argument_at))]
pub(crate) fn argument_at(rows: &Rows, at: usize) -> &str
    ensures { result.now ≡ argument_at rows.now at }
{
    if let Some(row) = rows.row(at)
        && let Some(argument) = &row.argument
    {
        return argument.as_str();
    }
    ""
}

pub(crate) fn has_word(rows: &Rows, at: usize, wanted: Word) -> bool
    ensures { result ≡ has_word wanted (slice_get rows.now at) }
{
    match rows.row(at) {
        None => false,
        Some(row) => row.word.same(wanted),
    }
}

fn is_node(word: Word) -> bool
    ensures { result ≡ is_node word }
{
    match word {
        Word::Container | Word::Leaf | Word::LeafList | Word::List => true,
        Word::Choice => true,
        _ => false,
    }
}

#[tactic(auto, unfolding(nm_schema_uses::specs::Config::is_false))]
fn says_false(rows: &Rows, config: Option<usize>) -> bool
    ensures { result ≡ says_false rows.now config }
{
    match config {
        None => false,
        Some(config) => argument_at(rows, config) == "false",
    }
}

/// Whether a row is a node or a choice that has `config false` directly.
#[tactic(auto, unfolding(nm_schema_uses::specs::Config::is_state))]
pub(crate) fn is_state(rows: &Rows, at: usize) -> bool
    ensures { result ≡ is_state rows.now at }
{
    let word = match rows.row(at) {
        None => return false,
        Some(row) => row.word,
    };
    is_node(word) && says_false(rows, rows.first_below(at, Word::Config))
}

// Whether a row says `config false` itself where state is lost.
#[tactic(auto, unfolding(crate::specs::ConfigUse::is_lost))]
fn is_lost(rows: &Rows, loses: bool, at: usize) -> bool
    ensures { result ≡ is_lost rows.now loses at }
{
    loses && is_state(rows, at)
}

// Whether a row has a word and isn't lost.
#[tactic(auto, unfolding(crate::specs::Found::is_fit))]
fn is_fit(rows: &Rows, loses: bool, wanted: Word, at: usize) -> bool
    ensures { result ≡ spec.is_fit rows.now loses wanted at }
{
    has_word(rows, at, wanted) && !is_lost(rows, loses, at)
}

/// What is found, where it fits.
pub(crate) fn fitting(rows: &Rows, loses: bool, wanted: Word, found: Found) -> Found
    ensures { result ≡ spec.fitting rows.now loses wanted found }
{
    match found {
        Found::Row(at) => {
            if is_fit(rows, loses, wanted, at) {
                return Found::Row(at);
            }
            Found::Missing
        }
        Found::Missing => Found::Missing,
        Found::Unknown => Found::Unknown,
    }
}

/// Whether state is lost in a list.
pub(crate) fn loses_state(shape: &Shape<'_>, list: usize) -> bool
    ensures { (standing : ConfigUse) → IsConfigUse shape.now.rows shape.now.groupings standing → result ≡ loses_state standing list }
{
    shape.is_configuration(list) || !shape.is_in_state(list)
}

/// Whether there is a flaw, which is let go.
pub(crate) fn is_there(flaw: Option<Flaw>) -> bool
    ensures { result ≡ is_some flaw }
{
    flaw.is_some()
}
