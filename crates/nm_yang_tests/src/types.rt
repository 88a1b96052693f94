//! Values and keys that aren't of their types, which no text is read as.

ghost use Rattle.nm_path.specs.Sound.{IsSound};

use crate::content::{content_of, holds};
use nm_base::NoMemory;
use nm_config::Config;
use nm_content::YangContent;
use nm_incremental::rule_at;
use nm_json::read_config;
use nm_path::read_path;
use nm_schema_tree::Schema;
use nm_types::{Chosen, Path, Value};
use nm_validate::check_rows;
use nm_validate_rules::Rule;
use std::alloc::Global;
use std::test::Fail;

// The text of a row's path; the keys of the entry that it leads to, if they are no keys of this entry; and its value, or none for
// an entry.
type Row = (&'static str, Option<&'static [i128]>, Option<i128>);

const TOP: Row = ("/ex:top", None, Some(256));

const PORT: Row = ("/ex:box/srv[id='1']/port", None, Some(65_536));

const TEXT: Row = ("/ex:sys/host", None, Some(1));

const PRESENCE: Row = ("/ex:box", None, Some(1));

const KEY: Row = ("/ex:box/srv[id='1']", Some(&[256]), None);

const NO_KEY: Row = ("/ex:box/srv[id='1']", Some(&[]), None);

const TWO_KEYS: Row = ("/ex:box/srv[id='1']", Some(&[1, 2]), None);

// Nothing else is wrong here, and here a mandatory leaf isn't there.
const VALID: &str = "{\"ex:top\":1,\"ex:box\":{\"must\":1,\"srv\":[{\"id\":2}]}}";

const LACKS: &str = "{\"ex:box\":{}}";

// A configuration, two rows that are put into it, which may be one, and the beginning of what is told then: values come before
// keys, though their path isn't less, and keys before mandatory leafs (RFC 7950 sections 7.5.1, 7.8.2, 9.2 and 9.4).
static CASES: [(&str, Row, Row, &str); 9] = [
    (VALID, TOP, TOP, "not valid with invalid-value at /ex:top"),
    (VALID, TOP, KEY, "not valid with invalid-value at /ex:top"),
    (
        VALID,
        KEY,
        KEY,
        "not valid with invalid-value at /ex:box/srv[id='256']",
    ),
    (
        LACKS,
        KEY,
        KEY,
        "not valid with invalid-value at /ex:box/srv[id='256']",
    ),
    (
        LACKS,
        PORT,
        PORT,
        "not valid with invalid-value at /ex:box/srv[id='1']/port",
    ),
    (
        LACKS,
        TEXT,
        TEXT,
        "not valid with invalid-value at /ex:sys/host",
    ),
    (
        LACKS,
        PRESENCE,
        PRESENCE,
        "not valid with invalid-value at /ex:box",
    ),
    (
        LACKS,
        NO_KEY,
        NO_KEY,
        "not valid with invalid-value at /ex:box/srv",
    ),
    (
        LACKS,
        TWO_KEYS,
        TWO_KEYS,
        "not valid with invalid-value at /ex:box/srv",
    ),
];

fn keys_of(alloc: Global, numbers: &[i128]) -> Result<Vec<Value>, NoMemory> {
    let mut keys = Vec::new(alloc);
    for number in numbers {
        keys.push(Value::Int(*number))?;
    }
    Ok(keys)
}

// Gives the last step of a path these keys.
fn choose(path: &mut Path, keys: Vec<Value>) {
    if let Some(step) = path.steps.last_mut() {
        step.chosen = Chosen::Keys(keys);
    }
}

fn path_of(alloc: Global, schema: &Schema, row: &Row) -> Result<Path, Fail> {
    let mut path = read_path(alloc, schema, row.0)?;
    if let Some(numbers) = row.1 {
        choose(&mut path, keys_of(alloc, numbers)?);
    }
    Ok(path)
}

fn value_of(number: Option<i128>) -> Value {
    match number {
        Some(number) => Value::Int(number),
        None => Value::Present,
    }
}

fn put(alloc: Global, schema: &Schema, row: &Row, config: &mut Config) -> Result<(), Fail> {
    let path = path_of(alloc, schema, row)?;
    config.put(path, value_of(row.2))?;
    Ok(())
}

// Whether the rules of values and of keys aren't met at a path.
fn broken(
    alloc: Global,
    schema: &Schema,
    config: &Config,
    path: &Path,
) -> Result<(bool, bool), NoMemory> {
    let value = rule_at(alloc, schema, config, Rule::ValueType, path)?;
    Ok((value, rule_at(alloc, schema, config, Rule::Key, path)?))
}

// The rule of values isn't met at a row, or that of keys where it has some.
fn is_broken(alloc: Global, schema: &Schema, row: &Row, config: &Config) -> Result<(), Fail> {
    let path = path_of(alloc, schema, row)?;
    let broken = broken(alloc, schema, config, &path)?;
    holds(broken == (row.1.is_none(), row.1.is_some()), row.0)
}

// Puts a row, which then isn't of its type.
fn puts(alloc: Global, schema: &Schema, row: &Row, config: &mut Config) -> Result<(), Fail> {
    put(alloc, schema, row, config)?;
    is_broken(alloc, schema, row, config)
}

// What is told of a configuration.
fn told_of(alloc: Global, schema: &Schema, config: &Config) -> Result<String, NoMemory>
    requires { IsSound schema.now.nodes }
{
    match check_rows(alloc, schema, config) {
        Ok(()) => Ok(String::from_str(alloc, "valid")?),
        Err(fault) => Ok(format!(in alloc; "{fault}")?),
    }
}

// Puts the rows of a case, which then is told.
fn leads(
    alloc: Global,
    schema: &Schema,
    config: &mut Config,
    case: &(&str, Row, Row, &str),
) -> Result<(), Fail>
    requires { IsSound schema.now.nodes }
{
    puts(alloc, schema, &case.1, config)?;
    puts(alloc, schema, &case.2, config)?;
    let told = told_of(alloc, schema, config)?;
    holds(told.as_str().starts_with(case.3), case.3)
}

fn is_so(content: &YangContent, alloc: Global, case: &(&str, Row, Row, &str)) -> Result<(), Fail> {
    let schema = content.schema();
    match read_config(alloc, schema, case.0.as_bytes()) {
        Ok(mut config) => leads(alloc, schema, &mut config, case),
        Err(_) => Err(Fail::from("configuration")),
    }
}

fn all_so(content: &YangContent, alloc: Global) -> Result<(), Fail> {
    for case in &CASES {
        is_so(content, alloc, case)?;
    }
    Ok(())
}

#[test]
fn types_are_told(rt: HostRuntime) -> Result<(), Fail> {
    let numbered = Rule::ValueType.number() == 1 && Rule::OneCase.number() == 9;
    holds(numbered, "the numbers of the rules")?;
    all_so(&content_of(rt.alloc())?, rt.alloc())
}
