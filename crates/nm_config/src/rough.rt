//! A number for each path, by which rows in disorder are brought near their order.

ghost use Rattle.std.specs.Prelude.{◌≡◌};
ghost use Rattle.nm_types.specs.Value.{value_text};
ghost use Rattle.nm_types.specs.Chosen.{choice_of};
ghost use Rattle.nm_types.specs.Path.{choice_values};
ghost use Rattle.nm_config.specs.Rough as spec;

use crate::under::is_whole;
use nm_types::{Chosen, Path, Step, Value};

// What is under the first bytes of a name, and of a value.
const UNDER_NAME: &[u8] = &[0, 0, 0, 0];

const UNDER_VALUE: &[u8] = &[0, 0, 0, 0, 0, 0, 0, 0, 0, 0, 0, 0];

fn under_name() -> &'static [u8]
    ensures { result.now ≡ spec.under_name }
{
    UNDER_NAME
}

fn under_value() -> &'static [u8]
    ensures { result.now ≡ spec.under_value }
{
    UNDER_VALUE
}

// A number with a byte behind it.
fn with_byte(number: u128, byte: u8) -> u128
    ensures { result ≡ spec.with_byte number byte }
{
    number.wrapping_mul(256).wrapping_add(u128::from(byte))
}

// A number with the first bytes of a text behind it, which are laid over these.
#[tactic(auto, unfolding(crate::specs::Rough::with_bytes))]
fn with_bytes(number: u128, bytes: &[u8], text: &[u8]) -> u128
    ensures { result ≡ spec.with_bytes number bytes.now text.now }
{
    let [byte, bytes @ ..] = bytes else {
        return number;
    };
    let [over, text @ ..] = text else {
        return with_bytes(with_byte(number, *byte), bytes, text);
    };
    with_bytes(with_byte(number, *over), bytes, text)
}

fn text_of(value: &Value) -> &str
    ensures { result.now ≡ value_text value.now }
{
    match value {
        Value::Text(text) => text.as_str(),
        Value::Name(name) => name.as_str(),
        Value::Bits(names) => names.as_str(),
        _ => "",
    }
}

// The text of the first of some values.
fn first_of(values: &[Value]) -> &str
    ensures { result.now ≡ spec.first_text values.now }
{
    match values {
        [] => "",
        [value, ..] => text_of(value),
    }
}

// The text of the first value that is chosen.
fn first_text(chosen: &Chosen) -> &str
    ensures { result.now ≡ spec.first_text (choice_values (choice_of chosen.now)) }
{
    match chosen {
        Chosen::Whole => "",
        Chosen::Keys(values) => first_of(values.as_slice()),
        Chosen::Entry(value) => text_of(value),
    }
}

fn of_step(step: &Step) -> u128
    ensures { result ≡ spec.of_step step.now }
{
    let named = with_bytes(0, under_name(), step.name.as_str().as_bytes());
    with_bytes(named, under_value(), first_text(&step.chosen).as_bytes())
}

// The number of some steps: that of the first that chooses an entry, and else of the last.
#[tactic(auto, unfolding(crate::specs::Rough::of_steps))]
fn of_steps(steps: &[Step]) -> u128
    ensures { result ≡ spec.of_steps steps.now }
{
    match steps {
        [] => 0,
        [step] => of_step(step),
        [step, rest @ ..] => {
            if is_whole(&step.chosen) {
                of_steps(rest)
            } else {
                of_step(step)
            }
        }
    }
}

/// The rough number of a row's path: paths whose numbers differ mostly stand in their order.
pub fn of_row(row: &(Path, Value)) -> u128
    ensures { result ≡ spec.of_steps row.now.0 }
{
    of_steps(&row.0.steps)
}
