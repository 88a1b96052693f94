//! Statements that stand in lists.

ghost use Rattle.std.specs.Prelude.{◌≡◌};
ghost use Rattle.nm_schema_statements.specs.Flaw.{text_of};
ghost use Rattle.nm_schema_keys.specs.Said as spec;

use crate::found::has_word;
use nm_base::Label;
use nm_schema_statements::{Row, Rows, Word};
use std::marker::Model;

/// A statement that stands in a list.
#[derive(Drop)]
pub struct Said<'a> {
    /// The row of the list.
    pub list: usize,
    /// The number of the module.
    pub owner: usize,
    /// The argument.
    pub text: &'a str,
}

impl<'a> Model for Said<'a> {
    ghost use Rattle.nm_schema_keys.specs.Said as spec;

    ghost Value = { spec.Said };

    ghost view = { λ s. record { list = s.list; owner = s.owner; text = s.text.now } };
}

fn text_of(argument: &Option<Label>) -> &str
    ensures { result.now ≡ text_of argument.now }
{
    match argument {
        None => "",
        Some(label) => label.as_str(),
    }
}

// A statement of a row that stands in a list.
fn said_within<'a>(rows: &Rows, row: &'a Row) -> Option<Said<'a>>
    ensures { result ≡ spec.said_within rows.now row.now row.now.parent }
{
    let list = match row.parent {
        None => return None,
        Some(list) => list,
    };
    if !has_word(rows, list, Word::List) {
        return None;
    }
    Some(Said {
        list,
        owner: row.module,
        text: text_of(&row.argument),
    })
}

/// The statement of a row, where it has a word and stands in a list.
#[tactic(auto, unfolding(crate::specs::Said::said_at))]
pub(crate) fn said_at(rows: &Rows, wanted: Word, at: usize) -> Option<Said<'_>>
    ensures { result ≡ spec.said_at rows.now wanted at }
{
    match rows.row(at) {
        None => None,
        Some(row) => {
            if !row.word.same(wanted) {
                return None;
            }
            said_within(rows, row)
        }
    }
}
