//! The pass: rows of one node stand together, and so do those at and below one entry.

ghost use Rattle.std.specs.Prelude.{◌≡◌, ◌++◌, OnOk, true, drop, map as each};
ghost use Rattle.std.specs.List.{list_all};
ghost use Rattle.std.specs.Map.Iter.{deref_pair};
ghost use Rattle.json.specs.Tree.{members_tokens};
ghost use Rattle.serde_json.specs.Data.{array, no_items, no_members};
ghost use Rattle.serde_json.specs.Written.{members_outline};
ghost use Rattle.nm_schema_tree.specs.Nodes.{keys_at};
ghost use Rattle.nm_json.specs.Writing.{key_members};
ghost use Rattle.nm_json_text.specs.Passing as spec;

use crate::alike::{alike_count, below_count, rows_from, rows_to, steps_from};
use crate::held::{ascends, begin_member, end_members, later_name};
use crate::keys::sorted_keys;
use crate::nodes::{below, keys_of, narrow_at, node_of};
use crate::stop::Stop;
use crate::text::Text;
use crate::values::write_value;
use nm_base::Label;
use nm_path::place::Place;
use nm_schema_tree::Schema;
use nm_types::{Chosen, Path, Value};

/// The members of an object and its end: of these keys, and of rows by their steps behind so many. At most so many levels
/// are written.
#[cycle(pass)]
pub fn write_members<'r>(
    out: &mut Text,
    schema: &Schema,
    place: Place,
    depth: usize,
    levels: usize,
    rows: &[(&'r Path, &'r Value)],
    keys: &[usize],
    values: &[Value],
) -> Result<(), Stop>
    ensures { OnOk result (out.new ≡ out.old
        ++ members_tokens (members_outline
        (spec.members_of schema.now place (spec.held schema.now.nodes keys.now values.now) (spec.rests depth (each deref_pair rows.now))))) }
{
    let Some(levels) = levels.checked_sub(1) else {
        return Err(Stop::OutOfOrder);
    };
    let mut keys_left = keys;
    let mut values_left = values;
    let mut last: Option<Label> = None;
    let mut done = 0usize;
    'groups: while let Some((row, more)) = rows_from(rows, done).split_first() {
        let Some((step, _)) = steps_from(row.0, depth).split_first() else {
            return Err(Stop::OutOfOrder);
        };
        let name = later_name(out.alloc(), place, step, &last)?;
        let left = begin_member(out, schema, keys_left, values_left, name.as_str())?;
        let count = 1 + alike_count(step, depth, more);
        write_group(
            out,
            schema,
            place,
            depth,
            levels,
            rows_to(rows_from(rows, done), count),
        )?;
        keys_left = left.0;
        values_left = left.1;
        last = Some(name);
        done += count;
    }
    end_members(out, schema, keys_left, values_left)
}

// What stands at the node of some rows, all of one node.
#[cycle(pass)]
fn write_group<'r>(
    out: &mut Text,
    schema: &Schema,
    place: Place,
    depth: usize,
    levels: usize,
    group: &[(&'r Path, &'r Value)],
) -> Result<(), Stop>
    requires { spec.are_alike (spec.rests depth (each deref_pair group.now)) ≡ true }
    ensures { OnOk result (out.new ≡ out.old ++ spec.tokens_of (spec.group_data schema.now place (spec.rests depth (each deref_pair group.now)))) }
{
    let Some((row, _)) = group.split_first() else {
        return Err(Stop::OutOfOrder);
    };
    let Some((step, _)) = steps_from(row.0, depth).split_first() else {
        return Err(Stop::OutOfOrder);
    };
    let at = node_of(schema, place, step);
    match &step.chosen {
        Chosen::Whole => write_whole(out, schema, at, depth, levels, group),
        Chosen::Keys(_) => write_items(out, schema, at, depth, levels, group),
        Chosen::Entry(_) => write_items(out, schema, at, depth, levels, group),
    }
}

// The value of a leaf, or a container with what is below it.
#[cycle(pass)]
fn write_whole<'r>(
    out: &mut Text,
    schema: &Schema,
    at: Option<usize>,
    depth: usize,
    levels: usize,
    group: &[(&'r Path, &'r Value)],
) -> Result<(), Stop>
    ensures { OnOk result (out.new ≡ out.old ++ spec.tokens_of (spec.whole_data schema.now at (spec.rests depth (each deref_pair group.now)))) }
{
    let Some((row, others)) = group.split_first() else {
        return Err(Stop::OutOfOrder);
    };
    let Some((_, steps)) = steps_from(row.0, depth).split_first() else {
        return Err(Stop::OutOfOrder);
    };
    if !steps.is_empty() {
        return write_object(out, schema, at, depth, levels, group, &[], &[]);
    }
    if others.is_empty() {
        return write_value(out, narrow_at(schema, at), row.1);
    }
    write_object(out, schema, at, depth, levels, others, &[], &[])
}

// An object of keys, and of what some rows have behind one step more.
#[cycle(pass)]
fn write_object<'r>(
    out: &mut Text,
    schema: &Schema,
    at: Option<usize>,
    depth: usize,
    levels: usize,
    rows: &[(&'r Path, &'r Value)],
    keys: &[usize],
    values: &[Value],
) -> Result<(), Stop>
    ensures { OnOk result (out.new ≡ out.old
        ++ spec.tokens_of (spec.object_of schema.now at (spec.held schema.now.nodes keys.now values.now) (spec.rests depth (each deref_pair rows.now)))) }
{
    let Some(deeper) = depth.checked_add(1) else {
        return Err(Stop::OutOfOrder);
    };
    out.begin_object()?;
    write_members(out, schema, below(at), deeper, levels, rows, keys, values)
}

// The entries of a list or a leaf-list.
#[cycle(pass)]
fn write_items<'r>(
    out: &mut Text,
    schema: &Schema,
    at: Option<usize>,
    depth: usize,
    levels: usize,
    group: &[(&'r Path, &'r Value)],
) -> Result<(), Stop>
    ensures { OnOk result
        (out.new ≡ out.old ++ spec.tokens_of (array (spec.items_after schema.now at no_items (spec.rests depth (each deref_pair group.now))))) }
{
    out.begin_array()?;
    let mut done = 0usize;
    'items: while let Some((row, more)) = rows_from(group, done).split_first() {
        let count = below_count(depth, more);
        write_item(out, schema, at, depth, levels, row.0, rows_to(more, count))?;
        done += 1 + count;
    }
    out.end_array()
}

// An entry with the rows below it.
#[cycle(pass)]
fn write_item<'r>(
    out: &mut Text,
    schema: &Schema,
    at: Option<usize>,
    depth: usize,
    levels: usize,
    path: &Path,
    inner: &[(&'r Path, &'r Value)],
) -> Result<(), Stop>
    requires { list_all spec.is_below (spec.rests depth (each deref_pair inner.now)) ≡ true }
    ensures { OnOk result (spec.WritesItem schema.now at (drop depth path.now) (spec.rests depth (each deref_pair inner.now)) out.old out.new) }
{
    let Some((step, steps)) = steps_from(path, depth).split_first() else {
        return Err(Stop::OutOfOrder);
    };
    match &step.chosen {
        Chosen::Whole => Err(Stop::OutOfOrder),
        Chosen::Keys(values) => {
            if !steps.is_empty() {
                return Err(Stop::OutOfOrder);
            }
            write_entry(out, schema, at, depth, levels, values, inner)
        }
        Chosen::Entry(value) => {
            if !inner.is_empty() {
                return Err(Stop::OutOfOrder);
            }
            write_value(out, narrow_at(schema, at), value)
        }
    }
}

// The object of an entry of a list.
#[cycle(pass)]
fn write_entry<'r>(
    out: &mut Text,
    schema: &Schema,
    at: Option<usize>,
    depth: usize,
    levels: usize,
    values: &[Value],
    inner: &[(&'r Path, &'r Value)],
) -> Result<(), Stop>
    ensures { OnOk result (out.new ≡ out.old
        ++ spec.tokens_of (spec.object_of schema.now at
        (key_members schema.now.nodes (keys_at schema.now.nodes at) values.now no_members)
        (spec.rests depth (each deref_pair inner.now)))) }
{
    let keys = keys_of(schema, at);
    if ascends(schema, keys) {
        return write_object(out, schema, at, depth, levels, inner, keys, values);
    }
    let sorted = sorted_keys(out.alloc(), schema, keys, values)?;
    write_object(
        out,
        schema,
        at,
        depth,
        levels,
        inner,
        &sorted.keys,
        &sorted.values,
    )
}
