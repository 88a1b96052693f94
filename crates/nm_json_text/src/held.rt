//! The keys of an entry, which stand among the members that its rows give.

ghost use Rattle.std.specs.Prelude.{◌≡◌, ◌++◌, ◌∷◌, [], IfOk, OnOk, true, option_map};
ghost use Rattle.std.specs.Bool.{OnTrue};
ghost use Rattle.json.specs.Token.{key, end_object};
ghost use Rattle.nm_json.specs.Writing.{member_name as name_of_member};
ghost use Rattle.nm_json_text.specs.Passing as spec;

use crate::nodes::{member_name, name_of, narrow_at};
use crate::stop::Stop;
use crate::text::Text;
use crate::values::write_value;
use nm_base::Label;
use nm_path::place::Place;
use nm_schema_tree::Schema;
use nm_types::{Step, Value};
use std::alloc::Global;

/// Whether a name stands after another, if there is one.
pub fn is_later(last: &Option<Label>, name: &str) -> bool
    ensures { result ≡ spec.is_later last.now name.now }
{
    match last {
        None => true,
        Some(last) => last.as_str() < name,
    }
}

/// The name of the member of a step, which stands after the last one.
pub fn later_name(
    alloc: Global,
    place: Place,
    step: &Step,
    last: &Option<Label>,
) -> Result<Label, Stop>
    ensures named { IfOk result (λ name. name ≡ name_of_member place step.now) }
    ensures later { IfOk result (λ name. spec.is_later last.now name ≡ true) }
{
    let name = member_name(alloc, place, step)?;
    if !is_later(last, name.as_str()) {
        return Err(Stop::OutOfOrder);
    }
    Ok(name)
}

/// Whether a name stands before those of all keys.
fn is_before_all(schema: &Schema, name: &str, keys: &[usize]) -> bool
    ensures { result ≡ spec.is_before_all schema.now.nodes name.now keys.now }
{
    let mut rest = keys;
    'keys: while let [key, more @ ..] = rest {
        if !(name < name_of(schema, *key)) {
            return false;
        }
        rest = more;
    }
    true
}

/// Whether keys stand in the order of their names.
pub fn ascends(schema: &Schema, keys: &[usize]) -> bool
    ensures { result ≡ spec.ascends schema.now.nodes keys.now }
{
    let mut rest = keys;
    'keys: while let [key, more @ ..] = rest {
        if !is_before_all(schema, name_of(schema, *key), more) {
            return false;
        }
        rest = more;
    }
    true
}

// A member that is a key.
fn write_key(out: &mut Text, schema: &Schema, key: usize, value: &Value) -> Result<(), Stop>
    ensures { OnOk result (out.new ≡ out.old ++ spec.key_tokens schema.now.nodes key value.now) }
{
    out.key(name_of(schema, key))?;
    write_value(out, narrow_at(schema, Some(key)), value)
}

/// The keys whose names stand before a name, which is that of no key. It answers the keys that are left.
pub fn write_before<'k>(
    out: &mut Text,
    schema: &Schema,
    keys: &'k [usize],
    values: &'k [Value],
    name: &str,
) -> Result<(&'k [usize], &'k [Value]), Stop>
    ensures text { OnOk result (out.new ≡ out.old ++ spec.front (spec.taken schema.now.nodes name.now keys.now values.now)) }
    ensures left { IfOk result (λ left. spec.held schema.now.nodes left.0.now left.1.now ≡ spec.left_over schema.now.nodes name.now keys.now values.now) }
    ensures later { IfOk result (λ left. spec.is_before_all schema.now.nodes name.now left.0.now ≡ true) }
{
    let mut keys_left = keys;
    let mut values_left = values;
    'keys: while let [key, more_keys @ ..] = keys_left {
        let [value, more_values @ ..] = values_left else {
            return Ok((&[], &[]));
        };
        if !(name_of(schema, *key) < name) {
            if !is_before_all(schema, name, keys_left) {
                return Err(Stop::OutOfOrder);
            }
            return Ok((keys_left, values_left));
        }
        write_key(out, schema, *key, value)?;
        keys_left = more_keys;
        values_left = more_values;
    }
    Ok((&[], &[]))
}

/// The keys whose names stand before that of a member, and then its name. It answers the keys that are left.
pub fn begin_member<'k>(
    out: &mut Text,
    schema: &Schema,
    keys: &'k [usize],
    values: &'k [Value],
    name: &str,
) -> Result<(&'k [usize], &'k [Value]), Stop>
    ensures text { OnOk result (out.new ≡ (out.old ++ spec.front (spec.taken schema.now.nodes name.now keys.now values.now)) ++ key name.now ∷ []) }
    ensures left { IfOk result (λ left. spec.held schema.now.nodes left.0.now left.1.now ≡ spec.left_over schema.now.nodes name.now keys.now values.now) }
    ensures later { IfOk result (λ left. spec.is_before_all schema.now.nodes name.now left.0.now ≡ true) }
{
    let left = write_before(out, schema, keys, values, name)?;
    out.key(name)?;
    Ok(left)
}

/// The keys that are left, and the end of the object.
pub fn end_members(
    out: &mut Text,
    schema: &Schema,
    keys: &[usize],
    values: &[Value],
) -> Result<(), Stop>
    ensures { OnOk result (out.new ≡ (out.old ++ spec.front (spec.held schema.now.nodes keys.now values.now)) ++ end_object ∷ []) }
{
    write_held(out, schema, keys, values)?;
    out.end_object()
}

/// All keys that are left.
pub fn write_held(
    out: &mut Text,
    schema: &Schema,
    keys: &[usize],
    values: &[Value],
) -> Result<(), Stop>
    ensures { OnOk result (out.new ≡ out.old ++ spec.front (spec.held schema.now.nodes keys.now values.now)) }
{
    let mut keys_left = keys;
    let mut values_left = values;
    'keys: while let [key, more_keys @ ..] = keys_left {
        let [value, more_values @ ..] = values_left else {
            return Ok(());
        };
        write_key(out, schema, *key, value)?;
        keys_left = more_keys;
        values_left = more_values;
    }
    Ok(())
}
