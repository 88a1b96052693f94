//! The JSON text of rows.

ghost use Rattle.std.specs.Prelude.{◌≡◌, IfOk, fold, map as each};
ghost use Rattle.std.specs.FinMap.{empty};
ghost use Rattle.std.specs.Map.Iter.{deref_pair};
ghost use Rattle.serde_json.specs.Data.{object, no_members};
ghost use Rattle.serde_json.specs.Written.{compact_text};
ghost use Rattle.nm_config.specs.Rows.{with_entries};
ghost use Rattle.nm_json.specs.Writing.{config_data, put_row};

use crate::pass::write_members;
use crate::stop::Stop;
use crate::text::Text;
use nm_base::NoMemory;
use nm_config::{Config, RowMap};
use nm_json::write_config;
use nm_path::place::Place;
use nm_schema_tree::Schema;
use nm_types::{Path, Value};
use std::alloc::Global;

// How many levels of objects are written: more aren't read again.
const LEVELS: usize = 127;

// About how many bytes a row takes.
const ROW: usize = 16;

// The text of rows, by one pass over them.
fn pass(alloc: Global, schema: &Schema, rows: &[(&Path, &Value)]) -> Result<Vec<u8>, Stop>
    ensures { IfOk result (λ text. text.items ≡ compact_text (object (fold (put_row schema.now) no_members (each deref_pair rows.now)))) }
{
    let mut out = Text::new(alloc, rows.len().saturating_mul(ROW))?;
    out.begin_object()?;
    write_members(&mut out, schema, Place::Top, 0, LEVELS, rows, &[], &[])?;
    Ok(out.into_bytes())
}

// A configuration by itself of rows.
fn copied(alloc: Global, rows: &[(&Path, &Value)]) -> Result<Config, NoMemory>
    ensures { IfOk result (λ config. config ≡ with_entries empty (each deref_pair rows.now)) }
{
    let mut copies = Vec::with_capacity(alloc, rows.len())?;
    for (path, value) in rows {
        copies.push((path.copy(alloc)?, value.copy()?))?;
    }
    Config::of_rows(alloc, copies)
}

// The text of rows, for which a JSON value is made.
fn text_of_value(
    alloc: Global,
    schema: &Schema,
    rows: &[(&Path, &Value)],
) -> Result<Vec<u8>, NoMemory>
    ensures { IfOk result (λ text. text.items ≡ compact_text (config_data schema.now (with_entries empty (each deref_pair rows.now)))) }
{
    let config = copied(alloc, rows)?;
    let text = write_config(alloc, schema, &config)?;
    Ok(text.into_bytes())
}

/// The JSON text of rows, without blanks (RFC 7951 sections 4 to 6). It is written by one pass over them where the names of
/// members ascend, as they do for rows of a schema; only for others a JSON value is made.
pub fn write_rows<M: RowMap>(alloc: Global, schema: &Schema, rows: &M) -> Result<Vec<u8>, NoMemory>
    ensures { IfOk result (λ text. text.items ≡ compact_text (config_data schema.now (M.rows rows.now))) }
{
    let listed = rows.listed(alloc)?;
    match pass(alloc, schema, &listed) {
        Ok(text) => Ok(text),
        Err(Stop::OutOfOrder) => text_of_value(alloc, schema, &listed),
        Err(Stop::NoMemory) => Err(NoMemory),
    }
}
