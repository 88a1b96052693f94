//! The two bounds of one part of a range or a length, with `min` and `max` by the base.

ghost use Rattle.std.specs.Prelude.{◌≡◌, ◌≤◌, ◌<◌, ◌+◌, length};
ghost use Rattle.nm_schema_derive.specs.Bound.{dots_at, lowest, highest, bound_of, part_of};

use crate::blank::trimmed;
use crate::form::{NumberForm, read_number};

// Where the first `..` of a text stands, and its length where there is none.
fn dots_at(text: &[u8]) -> usize
    ensures place { result ≡ dots_at text.now }
    ensures bound { result ≤ length text.now }
    ensures within { result < length text.now → result + 2 ≤ length text.now }
{
    for (place, byte) in text.iter().enumerate() {
        if *byte == b'.' && text[place + 1..].starts_with(b".") {
            return place;
        }
    }
    text.len()
}

// The lowest number of ascending parts.
fn lowest(base: &[(i128, i128)]) -> Option<i128>
    ensures { result ≡ lowest base.now }
{
    match base.first() {
        Some(part) => Some(part.0),
        None => None,
    }
}

// The highest number of ascending parts.
fn highest(base: &[(i128, i128)]) -> Option<i128>
    ensures { result ≡ highest base.now }
{
    match base.last() {
        Some(part) => Some(part.1),
        None => None,
    }
}

// The number of a bound.
#[tactic(auto, unfolding(crate::specs::Bound::bound_of))]
fn bound_of(form: &NumberForm, base: &[(i128, i128)], text: &[u8]) -> Option<i128>
    ensures { result ≡ bound_of form.now base.now text.now }
{
    if text == b"min".as_slice() {
        return lowest(base);
    }
    if text == b"max".as_slice() {
        return highest(base);
    }
    read_number(form, text)
}

// The lowest and the highest number of a part.
#[tactic(auto, unfolding(crate::specs::Bound::part_of))]
pub(crate) fn part_of(form: &NumberForm, base: &[(i128, i128)], text: &[u8]) -> Option<(i128, i128)>
    ensures { result ≡ part_of form.now base.now text.now }
{
    let dots = dots_at(text);
    if dots == text.len() {
        let bound = bound_of(form, base, trimmed(text))?;
        return Some((bound, bound));
    }
    let low = bound_of(form, base, trimmed(&text[..dots]))?;
    let high = bound_of(form, base, trimmed(&text[dots + 2..]))?;
    Some((low, high))
}
