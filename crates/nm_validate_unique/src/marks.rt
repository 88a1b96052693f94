//! Numbers for what entries have in the leafs of a unique statement: entries whose numbers differ have other values there.

ghost use Rattle.std.specs.Prelude.{◌≡◌, IfOk};
ghost use Rattle.std.specs.Ordering.{nat_cmp};
ghost use Rattle.std.specs.FinMap.{empty, len};
ghost use Rattle.nm_types.specs.Value.{value_number, value_text};
ghost use Rattle.nm_types.specs.Chosen.{choice_of};
ghost use Rattle.nm_types.specs.Path.{choice_values};
ghost use Rattle.nm_config.specs.Rows.{with_entries};
ghost use Rattle.nm_validate_rules.specs.Guards.{front};
ghost use Rattle.nm_validate_unique.specs.Repeated.{unique_path};
ghost use Rattle.nm_validate_unique.specs.Marks as spec;

use nm_base::NoMemory;
use nm_types::{Chosen, Path, Step, Value};
use std::alloc::Global;
use std::collections::BTreeMap;

// A mark with a number behind it.
fn with_number(mark: u128, number: u128) -> u128
    ensures { result ≡ spec.with_number mark number }
{
    mark.wrapping_mul(1_000_003).wrapping_add(number)
}

// A mark with the bytes of a text behind it.
#[tactic(auto, unfolding(crate::specs::Marks::with_text))]
fn with_text(mark: u128, text: &[u8]) -> u128
    ensures { result ≡ spec.with_text mark text.now }
{
    let [byte, rest @ ..] = text else {
        return mark;
    };
    with_text(with_number(mark, u128::from(*byte)), rest)
}

fn number_of(value: &Value) -> i128
    ensures { result ≡ value_number value.now }
{
    match value {
        Value::Int(number) => *number,
        Value::Decimal(scaled, _) => i128::from(*scaled),
        Value::Bool(flag) => i128::from(*flag),
        _ => 0,
    }
}

fn text_of(value: &Value) -> &str
    ensures { result.now ≡ value_text value.now }
{
    match value {
        Value::Text(text) => text.as_str(),
        Value::Name(name) => name.as_str(),
        Value::Bits(names) => names.as_str(),
        _ => "",
    }
}

// A mark with a value behind it.
fn with_value(mark: u128, value: &Value) -> u128
    ensures { result ≡ spec.with_value mark value.now }
{
    let numbered = with_number(mark, number_of(value).unsigned_abs());
    with_text(numbered, text_of(value).as_bytes())
}

// A mark with some values behind it.
#[tactic(auto, unfolding(crate::specs::Marks::with_values))]
fn with_values(mark: u128, values: &[Value]) -> u128
    ensures { result ≡ spec.with_values mark values.now }
{
    let [value, rest @ ..] = values else {
        return mark;
    };
    with_values(with_value(mark, value), rest)
}

// A mark with what a step chooses behind it.
#[tactic(auto, unfolding(crate::specs::Marks::with_values))]
fn with_chosen(mark: u128, chosen: &Chosen) -> u128
    ensures { result ≡ spec.with_values mark (choice_values (choice_of chosen.now)) }
{
    match chosen {
        Chosen::Whole => mark,
        Chosen::Keys(values) => with_values(mark, values.as_slice()),
        Chosen::Entry(value) => with_value(mark, value),
    }
}

// A mark with what the steps choose behind it, but for the last of them.
#[tactic(auto, unfolding(crate::specs::Marks::with_steps))]
fn with_front(mark: u128, steps: &[Step]) -> u128
    ensures { result ≡ spec.with_steps mark (front steps.now) }
{
    match steps {
        [] => mark,
        [_] => mark,
        [step, rest @ ..] => with_front(with_chosen(mark, &step.chosen), rest),
    }
}

/// The mark for some values of an entry.
#[tactic(auto, unfolding(crate::specs::Marks::with_steps))]
pub fn mark_of(entry: &Path, values: &[Value]) -> u128
    ensures { result ≡ spec.path_mark (unique_path entry.now values.now) }
{
    with_front(with_values(0, values), &entry.steps)
}

/// How many different marks there are.
pub fn count_different(alloc: Global, marks: Vec<(u128, ())>) -> Result<usize, NoMemory>
    ensures { IfOk result (λ count. count ≡ len (with_entries (empty {R = nat_cmp}) marks.items)) }
{
    let kept = BTreeMap::from_iter(alloc, marks)?;
    Ok(kept.len())
}
