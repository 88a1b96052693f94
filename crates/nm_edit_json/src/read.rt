//! Reading edits.

ghost use Rattle.std.specs.Prelude.{◌≡◌, [], IfOk, OnOk};
ghost use Rattle.serde_json.specs.View.{view, members_view};
ghost use Rattle.nm_edit.specs.EditOf.{IsEditOf};
ghost use Rattle.nm_edit_json.specs.Noted.{nothing, gathered as all_noted};
ghost use Rattle.nm_edit_json.specs.Findings.{whole_found, members_found, top as top_of};
ghost use Rattle.nm_edit_json.specs.Whole as spec;

use crate::around::Around;
use crate::fault::{FaultKind, tag_of};
use crate::gathered::Gathered;
use crate::note::note_at;
use crate::walk::read_members;
use nm_base::{Label, NoMemory, Tag};
use nm_edit::{Edit, EditFault};
use nm_json::config::place_label;
use nm_schema_tree::Schema;
use nm_types::Path;
use serde_json::{Map, Value as Json};
use std::alloc::Global;

/// How many nodes an edit may have: what it is made of and what it makes stay small beside a configuration.
pub const NODE_LIMIT: usize = 5000;

// The path to the top.
fn top(alloc: Global) -> Path
    ensures { result ≡ [] }
{
    Path {
        steps: Vec::new(alloc),
    }
}

// What is found in the members of a whole edit.
fn read_top(
    alloc: Global,
    schema: &Schema,
    gathered: &mut Gathered,
    members: &Map<String, Json>,
) -> Result<(), NoMemory>
    ensures { OnOk result (gathered.new ≡ all_noted gathered.old
        (members_found schema.now (top_of (members_view members.now.entries)) (members_view members.now.entries))) }
{
    let above = top(alloc);
    let around = Around {
        above: &above,
        within: None,
        held: false,
        all: members,
    };
    let read = read_members(alloc, schema, gathered, &around, members);
    drop(above);
    read
}

// What is found in a whole edit.
fn read_whole(
    alloc: Global,
    schema: &Schema,
    gathered: &mut Gathered,
    whole: &Json,
) -> Result<(), NoMemory>
    ensures { OnOk result (gathered.new ≡ all_noted gathered.old (whole_found schema.now (view whole.now))) }
{
    match whole {
        Json::Object(members) => read_top(alloc, schema, gathered, members),
        _ => note_at(alloc, gathered, top(alloc), FaultKind::Invalid),
    }
}

// What is found in a whole edit, from nothing.
fn gather(alloc: Global, schema: &Schema, whole: &Json) -> Result<Gathered, NoMemory>
    ensures { IfOk result (λ gathered. gathered ≡ all_noted nothing (whole_found schema.now (view whole.now))) }
{
    let mut gathered = Gathered::new(alloc);
    match read_whole(alloc, schema, &mut gathered, whole) {
        Ok(()) => Ok(gathered),
        Err(error) => {
            drop(gathered);
            Err(error)
        }
    }
}

// The edit, or its least fault.
fn answer(alloc: Global, schema: &Schema, gathered: &Gathered) -> Result<Edit, EditFault>
    ensures { spec.Gives result (spec.answered schema.now gathered.now.least gathered.now.nodes) }
{
    if let Some(fault) = &gathered.least {
        return Err(EditFault::Refused {
            tag: tag_of(fault.kind),
            path: place_label(alloc, schema, &fault.place)?,
        });
    }
    if gathered.nodes.len() > NODE_LIMIT {
        return Err(EditFault::Refused {
            tag: Tag::ResourceDenied,
            path: Label::new(alloc, "")?,
        });
    }
    Ok(gathered.nodes.to_edit(alloc)?)
}

/// The edit that a JSON value holds by a schema, or the least of its faults (RFC 6241 section 7.2, RFC 7951, RFC 7952).
///
/// Members are named as in configurations, and operations are said by annotations. Faults are ordered by their places as
/// paths are, and at one place by their kinds. At most 5,000 nodes are read.
pub fn read_edit(alloc: Global, schema: &Schema, value: &Json) -> Result<Edit, EditFault>
    ensures gives { spec.Gives result (spec.edit_read schema.now (view value.now)) }
    ensures edit_of { IfOk result (λ edit. IsEditOf schema.now edit) }
{
    let gathered = gather(alloc, schema, value)?;
    let answered = answer(alloc, schema, &gathered);
    drop(gathered);
    answered
}
