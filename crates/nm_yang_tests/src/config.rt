//! Configurations: rows that come again, and rows between others.

use crate::path::{keyed, path_in};
use crate::tree::{holds, sample};
use nm_config::{Config, get};
use nm_json::{JsonFault, config_value, read_config, write_config};
use nm_schema_tree::Schema;
use nm_types::{Chosen, Path, Value};
use std::alloc::Global;
use std::process::Abort;

// The key of an entry, and its number.
type Entry = (i128, i128);

// Entries that come one after another, and their numbers in the order of their paths: where an entry comes again, that of the last.
static AGAIN: [(&[Entry], &str); 2] = [
    (&[(1, 1), (2, 2), (1, 3), (3, 4)], "324"),
    (&[(10, 1), (5, 2), (10, 3), (1, 4)], "423"),
];

fn entry_path(rt: &impl Abort, alloc: Global, key: i128) -> Path {
    path_in(rt, alloc, ("ex", "iface"), keyed(rt, alloc, &[key]))
}

fn put_entry(rt: &impl Abort, alloc: Global, rows: &mut Vec<(Path, Value)>, entry: &Entry) {
    let row = (entry_path(rt, alloc, entry.0), Value::Int(entry.1));
    rows.push(row).expect(rt, "memory");
}

fn config_of(rt: &impl Abort, alloc: Global, entries: &[Entry]) -> Config {
    let mut rows = Vec::new(alloc);
    for entry in entries {
        put_entry(rt, alloc, &mut rows, entry);
    }
    Config::of_rows(alloc, rows).expect(rt, "memory")
}

fn put_number(rt: &impl Abort, text: &mut String, value: &Value) {
    if let Value::Int(number) = value {
        write!(text, "{number}").expect(rt, "memory");
    }
}

fn numbers(rt: &impl Abort, alloc: Global, config: &Config) -> String {
    let mut text = String::new(alloc);
    for (_, value) in config.iter() {
        put_number(rt, &mut text, value);
    }
    text
}

fn try_again(rt: &impl Abort, alloc: Global, entries: &[Entry], wanted: &str) {
    let config = config_of(rt, alloc, entries);
    let text = numbers(rt, alloc, &config);
    holds(rt, text.as_str() == wanted, wanted);
    drop(text);
    drop(config);
}

#[test]
fn rows_come_again(rt: HostRuntime) {
    let alloc = rt.alloc();
    for (entries, wanted) in &AGAIN {
        try_again(&rt, alloc, entries, wanted);
    }
}

fn is_number(value: Option<&Value>, number: i128) -> bool {
    match value {
        Some(Value::Int(own)) => *own == number,
        _ => false,
    }
}

// What is answered of a row that is put over another.
fn is_put(rt: &impl Abort, alloc: Global, config: &mut Config) -> bool {
    let before = config
        .put(entry_path(rt, alloc, 1), Value::Int(9))
        .expect(rt, "memory");
    let is_so = is_number(before.as_ref(), 1);
    drop(before);
    is_so
}

// The first row behind a list without an entry.
fn is_next(config: &Config, list: &Path) -> bool {
    match config.next_after(list) {
        Some(path) => is_number(get(config, path), 9),
        None => false,
    }
}

// The rows that are taken out at and below it.
fn is_taken(rt: &impl Abort, config: &mut Config, list: &Path) -> bool {
    let taken = config.take_under(list).expect(rt, "memory");
    let is_so = taken.len() == 3 && config.is_empty();
    drop(taken);
    is_so
}

fn try_list(rt: &impl Abort, alloc: Global, config: &mut Config) {
    let list = path_in(rt, alloc, ("ex", "iface"), Chosen::Whole);
    holds(rt, is_next(config, &list), "the next row");
    holds(rt, is_taken(rt, config, &list), "the rows of the list");
    drop(list);
}

#[test]
fn rows_are_answered(rt: HostRuntime) {
    let alloc = rt.alloc();
    let mut config = config_of(&rt, alloc, &[(2, 2), (1, 1), (3, 3)]);
    holds(&rt, is_put(&rt, alloc, &mut config), "the value before");
    try_list(&rt, alloc, &mut config);
    drop(config);
}

const TURNED: &[u8] =
    b"{\"ex:sys\":{\"route\":[{\"id\":\"2\",\"dest\":\"b\"},{\"ex:id\":\"1\",\"dest\":\"b\"}],\"iface\":[]}}";

const PRINTED: &str =
    "{\"ex:sys\":{\"route\":[{\"dest\":\"b\",\"id\":\"1\"},{\"dest\":\"b\",\"id\":\"2\"}]}}";

// What is read of bytes is written as text and by a JSON value alike (RFC 7951 section 5.4).
fn is_spelled(rt: &impl Abort, alloc: Global, schema: &Schema, config: &Config) -> bool {
    let value = config_value(alloc, schema, config).expect(rt, "memory");
    let spelled = value.to_string(alloc).expect(rt, "memory");
    drop(value);
    let is_so = spelled.as_str() == PRINTED;
    drop(spelled);
    is_so
}

fn is_written(rt: &impl Abort, alloc: Global, schema: &Schema, config: &Config) -> bool {
    let text = write_config(alloc, schema, config).expect(rt, "memory");
    let is_so = text.as_str() == PRINTED;
    drop(text);
    is_so
}

fn try_turned(rt: &impl Abort, alloc: Global, schema: &Schema) {
    let config = read_config(alloc, schema, TURNED)
        .ok()
        .expect(rt, "a configuration");
    holds(rt, is_written(rt, alloc, schema, &config), "text");
    holds(rt, is_spelled(rt, alloc, schema, &config), "a JSON value");
    drop(config);
}

// Bytes that are no text are no JSON (RFC 8259 section 8.1).
fn is_no_json(alloc: Global, schema: &Schema) -> bool {
    let fault = read_config(alloc, schema, b"{\"\xff\":1}").err();
    let is_so = matches!(&fault, Some(JsonFault::NotJson));
    drop(fault);
    is_so
}

#[test]
fn values_are_written(rt: HostRuntime) {
    let alloc = rt.alloc();
    let schema = sample(&rt, alloc);
    try_turned(&rt, alloc, &schema);
    holds(&rt, is_no_json(alloc, &schema), "no JSON");
    drop(schema);
}
