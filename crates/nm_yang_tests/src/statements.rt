//! Statements and names that the reader of a module's text doesn't let through.

use crate::tree::{holds, label};
use nm_schema_statements::{Flaw, Rows, Word, grammar_flaw, name_of, prefix_of, rows_of, word_of};
use nm_yang::Statement;
use std::alloc::Global;
use std::process::Abort;
use std::slice;

// Whether a flaw names a keyword, as one that YANG has there or not.
fn is_of(flaw: &Option<Flaw>, keyword: &str, is_known: bool) -> bool {
    match flaw {
        Some(Flaw::Unknown(name)) => !is_known && name.as_str() == keyword,
        Some(Flaw::Unsupported(name)) => is_known && name.as_str() == keyword,
        _ => false,
    }
}

fn is_first(rt: &impl Abort, alloc: Global, rows: &Rows, keyword: &str, is_known: bool) -> bool {
    let flaw = grammar_flaw(alloc, rows, 0).expect(rt, "memory");
    let is_so = is_of(&flaw, keyword, is_known);
    drop(flaw);
    is_so
}

// Whether a statement without an argument has such a flaw where it stands outermost.
fn is_flawed(rt: &impl Abort, alloc: Global, keyword: &str, is_known: bool) -> bool {
    let statement = Statement {
        keyword: label(rt, alloc, keyword),
        argument: None,
        place: 7,
        below: Vec::new(alloc),
    };
    let rows = rows_of(alloc, slice::from_ref(&statement)).expect(rt, "memory");
    let is_so = is_first(rt, alloc, &rows, keyword, is_known);
    drop(rows);
    drop(statement);
    is_so
}

// RFC 7950 section 5.1: the outermost statement is a module.
static OUTERMOST: [(&str, bool); 4] = [
    ("leaf", false),
    ("organization", false),
    ("x:module", false),
    ("submodule", true),
];

#[test]
fn finds_flaws_outermost(rt: HostRuntime) {
    let alloc = rt.alloc();
    for (keyword, is_known) in &OUTERMOST {
        holds(&rt, is_flawed(&rt, alloc, keyword, *is_known), keyword);
    }
}

fn is_parted(text: &str, prefix: &str, name: &str) -> bool {
    prefix_of(text).unwrap_or("none") == prefix && name_of(text) == name
}

// RFC 7950 section 6.5: a prefix ends before the first colon. Nothing is no keyword.
#[test]
fn parts_names(rt: HostRuntime) {
    let are_parted = is_parted(":a", "", "a") && is_parted("p:a:b", "p", "a:b");
    assert!(rt; are_parted && word_of("").same(Word::Unknown));
}
