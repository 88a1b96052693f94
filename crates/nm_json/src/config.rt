//! Reading configurations.

ghost use Rattle.std.specs.Prelude.{◌≡◌, ◌∷◌, ◌++◌, [], fold, IfOk, OnOk};
ghost use Rattle.serde_json.specs.View.{view};
ghost use Rattle.nm_json.specs.Findings.{whole_found};
ghost use Rattle.std.specs.FinMap.{empty};
ghost use Rattle.nm_config.specs.Rows.{with_entries};
ghost use Rattle.nm_json.specs.Places.{place_text, lesser};
ghost use Rattle.nm_json.specs.Noted as noted;
ghost use Rattle.nm_json.specs.Whole as spec;
ghost use Rattle.nm_path.specs.Sound.{HaveHeldBounds};
ghost use Rattle.nm_json.specs.Configs.{IsConfigOf};

use crate::fault::{Fault, JsonFault, JsonKind, Place};
use crate::gathered::{Gathered, put_row};
use crate::walk::{note_at, read_members};
use nm_base::{Label, NoMemory};
use nm_config::Config;
use nm_path::write_path;
use nm_schema_tree::Schema;
use nm_types::{Path, Value};
use serde_json::Value as Json;
use std::alloc::Global;

/// How many rows a configuration may have: three copies of 32 devices of so many stay below 400 MB.
pub const ROW_LIMIT: usize = 20_000;

// The text of a path with a name below it.
fn with_name(alloc: Global, path: &Label, name: &Label) -> Result<Label, NoMemory>
    ensures { IfOk result (λ label. label ≡ path.now ++ 47 ∷ name.now) }
{
    let mut text = String::from_str(alloc, path.as_str())?;
    text.push('/')?;
    text.push_str(name.as_str())?;
    Label::new(alloc, text.as_str())
}

/// The text of a place: of its path, and of the name below it.
pub fn place_label(alloc: Global, schema: &Schema, place: &Place) -> Result<Label, NoMemory>
    ensures { IfOk result (λ label. label ≡ place_text schema.now place.now) }
{
    let path = write_path(alloc, schema, &place.path)?;
    match &place.below {
        None => Ok(path),
        Some(name) => with_name(alloc, &path, name),
    }
}

// The path to the top.
fn top(alloc: Global) -> Path
    ensures { result ≡ [] }
{
    Path {
        steps: Vec::new(alloc),
    }
}

// What is found in a whole configuration.
#[tactic(auto, unfolding(crate::specs::Noted::gathered))]
fn read_whole(
    alloc: Global,
    schema: &Schema,
    gathered: &mut Gathered,
    whole: &Json,
) -> Result<(), NoMemory>
    ensures { OnOk result (gathered.new ≡ noted.gathered gathered.old (whole_found schema.now (view whole.now))) }
{
    match whole {
        Json::Object(members) => {
            read_members(alloc, schema, gathered, &top(alloc), None, members)
        }
        _ => note_at(alloc, gathered, top(alloc), JsonKind::BadForm),
    }
}

// What is found in a whole configuration, from nothing.
fn gather(alloc: Global, schema: &Schema, whole: &Json) -> Result<Gathered, NoMemory>
    ensures { IfOk result (λ gathered. gathered ≡ noted.gathered noted.nothing (whole_found schema.now (view whole.now))) }
{
    let mut gathered = Gathered::new(alloc);
    match read_whole(alloc, schema, &mut gathered, whole) {
        Ok(()) => Ok(gathered),
        Err(error) => {
            drop(gathered);
            Err(error)
        }
    }
}

// The configuration of some rows, and the least fault with those that are repeated.
fn put_rows(
    alloc: Global,
    least: &mut Option<Fault>,
    rows: Vec<(Path, Value)>,
) -> Result<Config, NoMemory>
    ensures rows { IfOk result (λ config. config ≡ with_entries empty rows.items) }
    ensures least { OnOk result (least.new ≡ fold lesser least.old (noted.repeated empty rows.items)) }
{
    let mut config = Config::new(alloc);
    for (path, value) in rows {
        put_row(alloc, &mut config, least, path, value)?;
    }
    Ok(config)
}

// The configuration, or its least fault.
fn answer(
    alloc: Global,
    schema: &Schema,
    least: &Option<Fault>,
    config: Config,
) -> Result<Config, JsonFault>
    ensures { spec.Gives result (spec.answered schema.now least.now config) }
{
    if let Some(fault) = least {
        return Err(JsonFault::Bad {
            kind: fault.kind,
            path: place_label(alloc, schema, &fault.place)?,
        });
    }
    if config.len() > ROW_LIMIT {
        return Err(JsonFault::TooManyRows);
    }
    Ok(config)
}

// The configuration that a JSON value holds, whose rows are looked at one by one, or the least of its faults.
fn row_by_row(alloc: Global, schema: &Schema, value: &Json) -> Result<Config, JsonFault>
    ensures { spec.Gives result (spec.config_read schema.now (view value.now)) }
{
    let Gathered { rows, mut least } = gather(alloc, schema, value)?;
    match put_rows(alloc, &mut least, rows) {
        Ok(config) => {
            let answered = answer(alloc, schema, &least, config);
            drop(least);
            answered
        }
        Err(error) => {
            drop(least);
            Err(JsonFault::from(error))
        }
    }
}

/// The configuration that a JSON value holds by a schema, or the least of its faults (RFC 7951 sections 4 to 6).
///
/// Members at the top are named `module:name`; below, a name with or without the module's. Faults are ordered by their
/// places as paths are, and at one place by their kinds. At most 20,000 rows are read.
pub fn config_of(alloc: Global, schema: &Schema, value: &Json) -> Result<Config, JsonFault>
    ensures given { spec.Gives result (spec.config_read schema.now (view value.now)) }
    ensures configuration { IfOk result (λ rows. HaveHeldBounds schema.now.nodes → IsConfigOf schema.now rows) }
{
    let Gathered { rows, least } = gather(alloc, schema, value)?;
    let count = rows.len();
    let config = match Config::of_rows(alloc, rows) {
        Ok(config) => config,
        Err(error) => {
            drop(least);
            return Err(JsonFault::from(error));
        }
    };
    if config.len() == count {
        let answered = answer(alloc, schema, &least, config);
        drop(least);
        return answered;
    }
    drop(config);
    drop(least);
    // A row is repeated, which is seldom: the rows are gathered again and looked at one by one.
    row_by_row(alloc, schema, value)
}

/// The configuration of a JSON text (RFC 8259), nested at most 127 deep. Of a member that comes twice in one object the
/// last stands.
pub fn read_config(alloc: Global, schema: &Schema, text: &[u8]) -> Result<Config, JsonFault>
    ensures given { spec.Gives result (spec.text_read schema.now text.now) }
    ensures configuration { IfOk result (λ rows. HaveHeldBounds schema.now.nodes → IsConfigOf schema.now rows) }
{
    match Json::from_slice(alloc, text) {
        Ok(value) => {
            let read = config_of(alloc, schema, &value);
            drop(value);
            read
        }
        Err(error) if error.is_memory() => Err(JsonFault::NoMemory),
        Err(_) => Err(JsonFault::NotJson),
    }
}
