//! Writing the text of a path.

ghost use Rattle.std.specs.Prelude.{◌≡◌, ◌++◌, ◌∷◌, List, OnOk, IfOk, IfSome, string_bytes, slice_get};
ghost use Rattle.std.specs.List.{flat_map, AllByRecursion};
ghost use Rattle.nm_types.specs.Canonical.{canonical as canonical_of, IsHeld};
ghost use Rattle.nm_types.specs.Chosen.{choice_of};
ghost use Rattle.nm_schema_tree.specs.Nodes.{keys_at};
ghost use Rattle.nm_path.specs.Form as form_spec;
ghost use Rattle.nm_path.specs.Spelling.{found_of as found_at, SpellsPath, IsFullPath};
ghost use Rattle.nm_path.specs.Written as spec;

use crate::choice::name_of;
use crate::place::{Place, below, found_of};
use nm_base::{Label, NoMemory};
use nm_schema_tree::{NodeKind, Schema};
use nm_types::{Chosen, LeafType, Path, Step, TypeKind, Value, write_value};
use std::alloc::Global;

// Puts a text at the end, with each single quote doubled.
fn put_doubled(out: &mut String, text: &str) -> Result<(), NoMemory>
    ensures { OnOk result (string_bytes out.new ≡ string_bytes out.old ++ form_spec.doubled text.now) }
{
    let mut rest = text;
    'parts: while let Some((front, behind)) = rest.split_once('\'') {
        out.push_str(front)?;
        out.push_str("''")?;
        rest = behind;
    }
    out.push_str(rest)?;
    Ok(())
}

// That a value's number is one that it can hold.
fn held(value: &Value)
    ensures { IsHeld value.now }
{
    match value {
        Value::Int(number) => {
            let _number = *number;
        }
        Value::Decimal(scaled, _) => {
            let _scaled = *scaled;
        }
        _ => {}
    }
}

// The canonical text of a value, which depends on the value alone and so on no type.
fn canonical(alloc: Global, value: &Value) -> Result<Label, NoMemory>
    ensures { IfOk result (λ text. text ≡ canonical_of value.now) }
{
    let any = LeafType {
        kind: TypeKind::Text,
        limits: None,
    };
    write_value(alloc, &any, value)
}

// Puts a predicate at the end: a key and the text of a value.
fn put_predicate(alloc: Global, out: &mut String, key: &str, value: &Value) -> Result<(), NoMemory>
    ensures text { OnOk result (string_bytes out.new ≡ string_bytes out.old ++ form_spec.predicate_text (spec.written_key key.now value.now)) }
    ensures held { IsHeld value.now }
{
    held(value);
    let text = canonical(alloc, value)?;
    out.push('[')?;
    out.push_str(key)?;
    out.push_str("='")?;
    put_doubled(out, text.as_str())?;
    out.push_str("']")?;
    Ok(())
}

// Puts the predicates of an entry of a list at the end.
fn put_keys(
    alloc: Global,
    out: &mut String,
    schema: &Schema,
    keys: &[usize],
    values: &[Value],
) -> Result<(), NoMemory>
    ensures text { OnOk result
        (string_bytes out.new ≡ string_bytes out.old ++ form_spec.predicates_text (spec.written_keys schema.now.nodes keys.now values.now)) }
    ensures held { OnOk result (spec.AreHeld keys.now values.now) }
{
    let mut keys_left = keys;
    let mut values_left = values;
    'keys: while let [key, more_keys @ ..] = keys_left {
        let [value, more_values @ ..] = values_left else {
            return Ok(());
        };
        put_predicate(alloc, out, name_of(schema, *key), value)?;
        keys_left = more_keys;
        values_left = more_values;
    }
    Ok(())
}

// The keys of a node.
fn keys_of(schema: &Schema, at: Option<usize>) -> &[usize]
    ensures { result.now ≡ keys_at schema.now.nodes at }
{
    let Some(at) = at else {
        return &[];
    };
    let Some(node) = schema.node(at) else {
        return &[];
    };
    match &node.kind {
        NodeKind::List { keys, .. } => keys.as_slice(),
        _ => &[],
    }
}

// Puts the predicates of what is chosen at the end.
fn put_choice(
    alloc: Global,
    out: &mut String,
    schema: &Schema,
    at: Option<usize>,
    chosen: &Chosen,
) -> Result<(), NoMemory>
    ensures text { OnOk result
        (string_bytes out.new ≡ string_bytes out.old ++ form_spec.predicates_text (spec.written_choice schema.now.nodes at (choice_of chosen.now))) }
    ensures held { OnOk result (spec.IsHeldChoice schema.now.nodes at (choice_of chosen.now)) }
{
    match chosen {
        Chosen::Whole => Ok(()),
        Chosen::Keys(values) => put_keys(alloc, out, schema, keys_of(schema, at), values),
        Chosen::Entry(value) => put_predicate(alloc, out, ".", value),
    }
}

// Puts the module of a step at the end, at the top.
fn put_owner(out: &mut String, place: Place, owner: &str) -> Result<(), NoMemory>
    ensures { OnOk result (string_bytes out.new ≡ string_bytes out.old ++ form_spec.owner_text (spec.written_owner place owner.now)) }
{
    match place {
        Place::Top => {
            out.push_str(owner)?;
            out.push(':')?;
            Ok(())
        }
        _ => Ok(()),
    }
}

// Puts a step at the end, which leads to a node from a place.
fn put_step(
    alloc: Global,
    out: &mut String,
    schema: &Schema,
    place: Place,
    at: Option<usize>,
    step: &Step,
) -> Result<(), NoMemory>
    ensures text { OnOk result (string_bytes out.new ≡ string_bytes out.old ++ form_spec.step_text (spec.written_step schema.now.nodes place at step.now)) }
    ensures held { OnOk result (spec.IsHeldChoice schema.now.nodes at step.now.chosen) }
{
    out.push('/')?;
    put_owner(out, place, step.module.as_str())?;
    out.push_str(step.name.as_str())?;
    put_choice(alloc, out, schema, at, &step.chosen)
}

// Puts the steps of a path at the end.
fn put_steps(
    alloc: Global,
    out: &mut String,
    schema: &Schema,
    steps: &[Step],
) -> Result<(), NoMemory>
    ensures text { OnOk result (string_bytes out.new ≡ string_bytes out.old ++ form_spec.steps_text (spec.written schema.now.nodes Place.Top steps.now)) }
    ensures held { OnOk result (spec.IsHeldPath schema.now.nodes Place.Top steps.now) }
{
    let mut place = Place::Top;
    let mut rest = steps;
    'steps: while let [step, more @ ..] = rest {
        let at = found_of(schema, place, step.module.as_str(), step.name.as_str());
        put_step(alloc, out, schema, place, at, step)?;
        place = below(at);
        rest = more;
    }
    Ok(())
}

/// The text of a path: the module at the first step alone, the keys in their order, values in their canonical texts
/// between single quotes. A bare list or leaf-list is its name alone.
///
/// Of a path that the schema hasn't, the steps are written as they are, without the keys that no node names.
pub fn write_path(alloc: Global, schema: &Schema, path: &Path) -> Result<Label, NoMemory>
    ensures text { IfOk result (λ label. label ≡ spec.path_text schema.now path.now) }
    // It spells the path, which is so read again.
    ensures spells { IfOk result (λ label. spec.IsWellNamed schema.now.nodes → IsFullPath schema.now path.now → SpellsPath schema.now label path.now) }
{
    let mut out = String::new(alloc);
    put_steps(alloc, &mut out, schema, &path.steps)?;
    Label::new(alloc, out.as_str())
}
