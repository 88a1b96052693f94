//! Lists that begin with a word.

ghost use Rattle.std.specs.Prelude.{◌≡◌};
ghost use Rattle.serde_json.specs.View.{view, items_view};
ghost use Rattle.nm_scenario_form.specs.Reading.{count_of};
ghost use Rattle.nm_scenario_form.specs.Words.{is_word, item_count, natural_in};

use serde_json::Value;

/// Whether a list's word is this one.
pub fn is_word(whole: &Value, word: &str) -> bool
    ensures { result ≡ is_word (view whole.now) word.now }
{
    match whole.get(0).and_then(Value::as_str) {
        None => word.is_empty(),
        Some(found) => found == word,
    }
}

/// The number at a place of a list.
pub fn natural_in(whole: &Value, place: usize) -> Option<u64>
    ensures { result ≡ natural_in place (view whole.now) }
{
    match whole.get(place) {
        None => None,
        Some(part) => part.as_u64(),
    }
}

/// How many items a list has.
pub fn item_count(whole: &Value) -> usize
    ensures { result ≡ item_count (view whole.now) }
{
    match whole.as_array() {
        None => 0,
        Some(items) => count(items.as_slice()),
    }
}

#[tactic(auto, using(crate::proofs::Counts::counts))]
fn count(items: &[Value]) -> usize
    ensures { result ≡ count_of (items_view items.now) }
{
    items.len()
}
