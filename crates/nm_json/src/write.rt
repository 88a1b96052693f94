//! Writing configurations.

ghost use Rattle.std.specs.Prelude.{◌≡◌, ◌≤◌, IfOk, OnOk, Some, Ok, string_bytes};
ghost use Rattle.serde_json.specs.Data.{depth};
ghost use Rattle.serde_json.specs.Read.{read, max_depth};
ghost use Rattle.serde_json.specs.View.{view, members_view};
ghost use Rattle.serde_json.specs.Written.{compact_text};
ghost use Rattle.nm_path.specs.Sound.{IsSound};
ghost use Rattle.nm_json.specs.Whole.{config_read, text_read};
ghost use Rattle.nm_json.specs.Configs.{IsConfigOf};
ghost use Rattle.nm_json.specs.Writing as spec;

use crate::put::put_steps;
use nm_base::NoMemory;
use nm_config::Config;
use nm_path::place::Place;
use nm_schema_tree::Schema;
use nm_types::{Path, Value};
use serde_json::{Map, Value as Json};
use std::alloc::Global;

// Puts a row into the object of a configuration.
#[tactic(auto, unfolding(crate::specs::Writing::put_row))]
fn put_row(
    alloc: Global,
    schema: &Schema,
    path: &Path,
    value: &Value,
    members: &mut Map<String, Json>,
) -> Result<(), NoMemory>
    ensures { OnOk result (members_view members.new.entries ≡ spec.put_row schema.now (members_view members.old.entries) (path.now, value.now)) }
{
    put_steps(alloc, schema, Place::Top, &path.steps, value, members)
}

// The JSON value of a configuration, row by row.
#[tactic(auto, unfolding(crate::specs::Writing::config_data))]
fn whole_value(alloc: Global, schema: &Schema, config: &Config) -> Result<Json, NoMemory>
    ensures { IfOk result (λ whole. view whole ≡ spec.config_data schema.now config.now) }
{
    let mut members = Map::new(alloc);
    for (path, value) in config.iter() {
        match put_row(alloc, schema, path, value, &mut members) {
            Ok(()) => {}
            Err(error) => {
                drop(members);
                return Err(error);
            }
        }
    }
    Ok(Json::Object(members))
}

/// The JSON value of a configuration (RFC 7951 sections 4 to 6): members at the top with their module's name, entries
/// in path order. Where the rows are a configuration of the schema, it is read as that configuration.
pub fn config_value(alloc: Global, schema: &Schema, config: &Config) -> Result<Json, NoMemory>
    ensures value { IfOk result (λ whole. view whole ≡ spec.config_data schema.now config.now) }
    ensures same_config { IfOk result
        (λ whole. IsSound schema.now.nodes → IsConfigOf schema.now config.now → config_read schema.now (view whole) ≡ Ok config.now) }
{
    whole_value(alloc, schema, config)
}

/// The JSON text of a configuration, without blanks. Where the rows are a configuration of the schema, it is read as
/// that configuration if arrays and objects are nested at most 127 deep.
pub fn write_config(alloc: Global, schema: &Schema, config: &Config) -> Result<String, NoMemory>
    ensures text { IfOk result (λ text. string_bytes text ≡ compact_text (spec.config_data schema.now config.now)) }
    ensures reads_back { IfOk result (λ text. depth (spec.config_data schema.now config.now) ≤ max_depth
        → read (string_bytes text) ≡ Some (spec.config_data schema.now config.now)) }
    ensures same_config { IfOk result (λ text. IsSound schema.now.nodes → IsConfigOf schema.now config.now
        → depth (spec.config_data schema.now config.now) ≤ max_depth
        → text_read schema.now (string_bytes text) ≡ Ok config.now) }
{
    let whole = config_value(alloc, schema, config)?;
    Ok(whole.to_string(alloc)?)
}
