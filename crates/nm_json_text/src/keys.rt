//! The keys of an entry, brought into the order of their names.

ghost use Rattle.std.specs.Prelude.{◌≡◌, ◌≤◌, length, IfOk, OnOk, Some, slice_get};
ghost use Rattle.serde_json.specs.Data.{no_members, put};
ghost use Rattle.nm_path.specs.Spelling.{name_at};
ghost use Rattle.nm_json.specs.Writing.{key_members, narrow_at, value_data};
ghost use Rattle.nm_json_text.specs.Passing as spec;

use crate::nodes::name_of;
use crate::stop::Stop;
use nm_schema_tree::Schema;
use nm_types::Value;
use std::alloc::Global;

/// Keys with their values, in the order of their names.
#[derive(Drop)]
pub struct SortedKeys {
    pub keys: Vec<usize>,
    pub values: Vec<Value>,
}

// How many keys at the front have names that stand before one.
fn place_of(schema: &Schema, keys: &[usize], name: &str) -> usize
    ensures value { result ≡ spec.front_keys schema.now.nodes name.now keys.now }
    ensures within { result ≤ length keys.now }
{
    let mut count = 0usize;
    let mut rest = keys;
    'keys: while let [key, more @ ..] = rest {
        if !(name_of(schema, *key) < name) {
            return count;
        }
        count += 1;
        rest = more;
    }
    count
}

// Whether a name stands before that of the key at a place, if there is one.
fn is_before_at(schema: &Schema, name: &str, keys: &[usize], place: usize) -> bool
    ensures { result ≡ spec.is_before_key schema.now.nodes name.now (slice_get keys.now place) }
{
    match keys.get(place) {
        None => true,
        Some(key) => name < name_of(schema, *key),
    }
}

// A key more, at its place.
fn put_key(schema: &Schema, sorted: &mut SortedKeys, key: usize, value: Value) -> Result<(), Stop>
    requires { length sorted.old.keys.items ≡ length sorted.old.values.items }
    ensures members { OnOk result (spec.held schema.now.nodes sorted.new.keys.items sorted.new.values.items
        ≡ put (name_at schema.now.nodes key) (value_data (narrow_at schema.now.nodes (Some key)) value)
        (spec.held schema.now.nodes sorted.old.keys.items sorted.old.values.items)) }
    ensures even { OnOk result (length sorted.new.keys.items ≡ length sorted.new.values.items) }
{
    let name = name_of(schema, key);
    let place = place_of(schema, &sorted.keys, name);
    if !is_before_at(schema, name, &sorted.keys, place) {
        return Err(Stop::OutOfOrder);
    }
    sorted.keys.insert(place, key)?;
    sorted.values.insert(place, value)?;
    Ok(())
}

/// The keys of an entry in the order of their names.
pub fn sorted_keys(
    alloc: Global,
    schema: &Schema,
    keys: &[usize],
    values: &[Value],
) -> Result<SortedKeys, Stop>
    ensures { IfOk result
        (λ sorted. spec.held schema.now.nodes sorted.keys.items sorted.values.items ≡ key_members schema.now.nodes keys.now values.now no_members) }
{
    let mut sorted = SortedKeys {
        keys: Vec::new(alloc),
        values: Vec::new(alloc),
    };
    let mut keys_left = keys;
    let mut values_left = values;
    'keys: while let [key, more_keys @ ..] = keys_left {
        let [value, more_values @ ..] = values_left else {
            return Ok(sorted);
        };
        put_key(schema, &mut sorted, *key, value.copy()?)?;
        keys_left = more_keys;
        values_left = more_values;
    }
    Ok(sorted)
}
