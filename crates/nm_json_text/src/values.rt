//! The texts of values.

ghost use Rattle.std.specs.Prelude.{◌≡◌, ◌∷◌, ◌++◌, [], ◌&&◌, IfOk, OnOk, true};
ghost use Rattle.json.specs.Token.{string};
ghost use Rattle.nm_types.specs.Canonical.{canonical};
ghost use Rattle.nm_json.specs.Writing as spec;
ghost use Rattle.nm_json_text.specs.Passing.{tokens_of};

use crate::stop::Stop;
use crate::text::Text;
use nm_base::{Label, NoMemory};
use nm_types::{LeafType, TypeKind, Value, write_value as text_of_value};
use std::alloc::Global;

// Whether a number is written as a JSON number where its type has at most 32 bits.
#[tactic(auto, unfolding(nm_json::specs::Writing::is_small))]
fn is_small(number: i128) -> bool
    ensures { result ≡ spec.is_small number }
{
    -2_147_483_648 <= number && number < 4_294_967_296
}

// The canonical text of a value, which depends on the value alone and so on no type.
fn canonical(alloc: Global, value: &Value) -> Result<Label, NoMemory>
    ensures { IfOk result (λ text. text ≡ canonical value.now) }
{
    let any = LeafType {
        kind: TypeKind::Text,
        limits: None,
    };
    text_of_value(alloc, &any, value)
}

// The canonical text of a value as a JSON string.
fn write_text(out: &mut Text, value: &Value) -> Result<(), Stop>
    ensures { OnOk result (out.new ≡ out.old ++ string (canonical value.now) ∷ []) }
{
    let text = canonical(out.alloc(), value)?;
    out.string(text.as_str())
}

// A number of at most 33 bits as a JSON number.
#[tactic(auto, unfolding(nm_json::specs::Writing::is_small))]
fn write_number(out: &mut Text, number: i128) -> Result<(), Stop>
    requires { spec.is_small number ≡ true }
    ensures { OnOk result (out.new ≡ out.old ++ tokens_of (spec.integer_data true number)) }
{
    out.integer(number as i64)
}

// An integer: a JSON number, or its canonical text.
fn write_integer(out: &mut Text, narrow: bool, value: &Value, number: i128) -> Result<(), Stop>
    requires { value.now ≡ Value.Int number }
    ensures { OnOk result (out.new ≡ out.old ++ tokens_of (spec.integer_data (narrow && spec.is_small number) number)) }
{
    if !narrow {
        return write_text(out, value);
    }
    if !is_small(number) {
        return write_text(out, value);
    }
    write_number(out, number)
}

// An array of one null.
fn write_empty(out: &mut Text) -> Result<(), Stop>
    ensures { OnOk result (out.new ≡ out.old ++ tokens_of (spec.value_data true Value.Empty)) }
{
    out.begin_array()?;
    out.null()?;
    out.end_array()
}

// An object without members.
fn write_present(out: &mut Text) -> Result<(), Stop>
    ensures { OnOk result (out.new ≡ out.old ++ tokens_of (spec.value_data true Value.Present)) }
{
    out.begin_object()?;
    out.end_object()
}

/// A value. Integers of a narrow type are JSON numbers (RFC 7951 section 6).
pub fn write_value(out: &mut Text, narrow: bool, value: &Value) -> Result<(), Stop>
    ensures { OnOk result (out.new ≡ out.old ++ tokens_of (spec.value_data narrow value.now)) }
{
    match value {
        Value::Int(number) => write_integer(out, narrow, value, *number),
        Value::Bool(flag) => out.boolean(*flag),
        Value::Empty => write_empty(out),
        Value::Present => write_present(out),
        Value::Decimal(_, _) => write_text(out, value),
        Value::Text(_) => write_text(out, value),
        Value::Name(_) => write_text(out, value),
        Value::Bits(_) => write_text(out, value),
    }
}
