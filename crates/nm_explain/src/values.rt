//! What is wanted at a node.

ghost use Rattle.std.specs.Prelude.{◌≡◌, ◌++◌, OnOk};
ghost use Rattle.nm_explain.specs.Values as spec;

use crate::led::node_at;
use crate::text::put;
use crate::types::{form_of, put_type};
use nm_base::NoMemory;
use nm_schema_tree::{NodeKind, Schema};
use nm_types::LeafType;
use std::alloc::Global;

// The form of values of a type behind a text, where it is to be told.
fn put_form(
    out: &mut Vec<u8>,
    with_form: bool,
    lead: &str,
    leaf_type: &LeafType,
) -> Result<(), NoMemory>
    ensures { OnOk result (out.new.items ≡ out.old.items ++ spec.form_of with_form lead.now leaf_type.now) }
{
    if !with_form {
        return Ok(());
    }
    put(out, lead)?;
    put(out, form_of(&leaf_type.kind))
}

// A type behind a text, and the form of its values behind another.
fn put_values(
    alloc: Global,
    out: &mut Vec<u8>,
    with_form: bool,
    front: &str,
    lead: &str,
    leaf_type: &LeafType,
) -> Result<(), NoMemory>
    ensures { OnOk result (out.new.items ≡ out.old.items ++ spec.values_wanted with_form front.now lead.now leaf_type.now) }
{
    put(out, front)?;
    put_type(alloc, out, leaf_type)?;
    put_form(out, with_form, lead, leaf_type)
}

// What a node is.
fn put_kind(
    alloc: Global,
    out: &mut Vec<u8>,
    with_form: bool,
    kind: &NodeKind,
) -> Result<(), NoMemory>
    ensures { OnOk result (out.new.items ≡ out.old.items ++ spec.kind_wanted with_form kind.now) }
{
    match kind {
        NodeKind::Container { .. } => put(out, "a container, as a JSON object"),
        NodeKind::List { .. } => put(out, "a list, as a JSON array of objects"),
        NodeKind::Leaf { leaf_type, .. } => {
            put_values(alloc, out, with_form, "", "; as ", leaf_type.get())
        }
        NodeKind::LeafList { leaf_type, .. } => put_values(
            alloc,
            out,
            with_form,
            "a leaf-list, as a JSON array of ",
            "; each as ",
            leaf_type.get(),
        ),
    }
}

// The line of a node.
fn put_node(
    alloc: Global,
    out: &mut Vec<u8>,
    with_form: bool,
    schema: &Schema,
    at: usize,
) -> Result<(), NoMemory>
    ensures { OnOk result (out.new.items ≡ out.old.items ++ spec.node_at_wanted with_form schema.now at) }
{
    match schema.node(at) {
        None => Ok(()),
        Some(node) => {
            put(out, "wanted: ")?;
            put_kind(alloc, out, with_form, &node.kind)?;
            put(out, "\n")
        }
    }
}

/// Appends a line with what the node wants that the text of a path leads to, and nothing where it leads to none: the type of a leaf
/// with its range, its length or its names (RFC 7950 section 9), and where it is asked for the JSON value that a value of it is
/// (RFC 7951 section 6).
pub fn put_wanted(
    alloc: Global,
    out: &mut Vec<u8>,
    with_form: bool,
    schema: &Schema,
    path: &str,
) -> Result<(), NoMemory>
    ensures { OnOk result (out.new.items ≡ out.old.items ++ spec.wanted_text with_form schema.now path.now) }
{
    match node_at(alloc, schema, path)? {
        None => Ok(()),
        Some(at) => put_node(alloc, out, with_form, schema, at),
    }
}
