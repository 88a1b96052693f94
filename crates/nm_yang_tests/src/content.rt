//! What stands in contents, of which no command tells: how many rows are changed, and marks.

ghost use Rattle.std.specs.Prelude.{IfOk};
ghost use Rattle.nm_path.specs.Sound.{IsSound};
ghost use Rattle.nm_schema.specs.Marker.{HasMarker};
ghost use Rattle.nm_edit.specs.EditOf.{IsEditOf};
ghost use Rattle.nm_content.specs.Meaning.{Belongs};

use nm_base::{ChangeMask, ChangeNo, NoMemory};
use nm_config::{Config, RowMap};
use nm_content::{YangContent, marks_path, names_marks, outside_rows, yang_content};
use nm_edit::{Edit, apply, apply_rows, changes_of};
use nm_edit_json::read_edit;
use nm_json::{read_config, write_config};
use nm_overlay::Overlay;
use nm_proto::{Content, DefaultOperation, Marks};
use nm_schema::build;
use nm_schema_tree::Schema;
use nm_validate::check_rows;
use nm_yang::{Statement, read_module};
use serde_json::Value as Json;
use std::alloc::Global;
use std::test::Fail;

const MODULE: &str =
    "module ex { yang-version 1.1; namespace \"urn:ex\"; prefix ex; container sys { leaf host { type string; } leaf-list dns { type string; } list iface { key name; leaf name { type string; } leaf mtu { type uint16; } } } container addr { choice how { leaf ip { type string; } leaf lease { type uint16; } } } leaf top { type uint8; } container box { presence it; leaf must { type uint8; mandatory true; } list srv { key id; leaf id { type uint8; } leaf port { type uint16; } } } }";

// Two interfaces, one of them with a size, and a name server.
pub const SYSTEM: &str =
    "{\"ex:sys\":{\"dns\":[\"a\"],\"iface\":[{\"name\":\"eth0\",\"mtu\":1500},{\"name\":\"eth1\"}]}}";

// An interface with a size, the edit that gives it another one, and that which takes it away.
const ETH0: &str = "{\"ex:sys\":{\"iface\":[{\"name\":\"eth0\",\"mtu\":1500}]}}";

pub const SIZED: &str = "{\"ex:sys\":{\"iface\":[{\"name\":\"eth0\",\"mtu\":9000}]}}";

const REMOVED: &str =
    "{\"ex:sys\":{\"iface\":[{\"@\":{\"ietf-netconf:operation\":\"remove\"},\"name\":\"eth0\"}]}}";

// Edits that create it, and that bring another one.
const CREATED: &str =
    "{\"ex:sys\":{\"iface\":[{\"@\":{\"ietf-netconf:operation\":\"create\"},\"name\":\"eth0\",\"mtu\":9000}]}}";

const ETH1: &str = "{\"ex:sys\":{\"iface\":[{\"name\":\"eth1\"}]}}";

// Leafs of two cases.
const IP: &str = "{\"ex:addr\":{\"ip\":\"a\"}}";

const LEASE: &str = "{\"ex:addr\":{\"lease\":1}}";

// Fails with a text where something doesn't hold.
pub fn holds(it: bool, what: &str) -> Result<(), Fail> {
    if it {
        return Ok(());
    }
    Err(Fail::new(what))
}

fn modules_of(alloc: Global) -> Result<Vec<Statement>, Fail> {
    let mut modules = Vec::new(alloc);
    match read_module(alloc, MODULE.as_bytes()) {
        Ok(module) => modules.push(module)?,
        Err(_) => return Err(Fail::from("module")),
    }
    Ok(modules)
}

fn schema_of(alloc: Global) -> Result<Schema, Fail>
    ensures sound { IfOk result (λ schema. IsSound schema.nodes) }
    ensures marker { IfOk result HasMarker }
{
    let modules = modules_of(alloc)?;
    match build(alloc, &modules) {
        Ok(schema) => Ok(schema),
        Err(_) => Err(Fail::from("schema")),
    }
}

pub fn content_of(alloc: Global) -> Result<YangContent, Fail> {
    let marks = marks_path(alloc)?;
    Ok(yang_content(alloc, schema_of(alloc)?, marks))
}

// The configuration of a JSON text, with nothing changed.
pub fn config_of(content: &YangContent, alloc: Global, text: &str) -> Result<Overlay, Fail>
    ensures { IfOk result (Belongs content.now) }
{
    let Ok(config) = read_config(alloc, content.schema(), text.as_bytes()) else {
        return Err(Fail::from("configuration"));
    };
    match check_rows(alloc, content.schema(), &config) {
        Ok(()) => Ok(content.lift(config)?),
        Err(_) => Err(Fail::from("violation")),
    }
}

fn edit_in(content: &YangContent, alloc: Global, value: &Json) -> Result<Edit, Fail>
    ensures { IfOk result (λ edit. IsEditOf content.now edit) }
{
    match read_edit(alloc, content.schema(), value) {
        Ok(edit) => Ok(edit),
        Err(_) => Err(Fail::from("edit")),
    }
}

// The edit of a JSON text.
pub fn edit_of(content: &YangContent, alloc: Global, text: &str) -> Result<Edit, Fail>
    ensures { IfOk result (λ edit. IsEditOf content.now edit) }
{
    edit_in(content, alloc, &Json::from_str(alloc, text)?)
}

fn marks_of(add: u32, remove: u64) -> Option<Marks> {
    match ChangeNo::new(add) {
        Some(add) => Some(Marks {
            add,
            remove: ChangeMask(remove),
        }),
        None => None,
    }
}

// What becomes of a configuration by an edit that is merged into it, with marks.
fn edited(
    content: &YangContent,
    alloc: Global,
    config: &Overlay,
    edit: &str,
    marks: Option<Marks>,
) -> Result<Overlay, Fail>
    requires { Belongs content.now config.now }
    ensures { IfOk result (Belongs content.now) }
{
    let edit = edit_of(content, alloc, edit)?;
    Ok(content.apply(config, &edit, DefaultOperation::Merge, marks)?)
}

// ---- changes

// A configuration, two edits that are merged into it, a default operation and a third edit; how many rows that changes by what is
// told of it, how many pairs there are then, how many of them say that a row is gone, and how many rows lie below.
type Case = (
    &'static str,
    &'static str,
    &'static str,
    DefaultOperation,
    &'static str,
    (usize, usize, usize, usize),
);

// A value and the one before again leave no pair, and an entry that goes leaves one for each of its rows. What is refused changes
// nothing: the creation of what is there, and under none an entry that isn't.
static CASES: [Case; 19] = [
    (
        ETH0,
        "{}",
        "{}",
        DefaultOperation::Merge,
        "{}",
        (0, 0, 0, 2),
    ),
    (
        ETH0,
        "{}",
        "{}",
        DefaultOperation::Replace,
        "{}",
        (2, 2, 2, 2),
    ),
    (
        ETH0,
        "{}",
        "{}",
        DefaultOperation::Merge,
        SIZED,
        (1, 1, 0, 2),
    ),
    (
        ETH0,
        "{}",
        "{}",
        DefaultOperation::Merge,
        ETH0,
        (0, 0, 0, 2),
    ),
    (
        ETH0,
        "{}",
        "{}",
        DefaultOperation::Merge,
        ETH1,
        (1, 1, 0, 2),
    ),
    (
        ETH0,
        "{}",
        "{}",
        DefaultOperation::Merge,
        REMOVED,
        (2, 2, 2, 2),
    ),
    (
        ETH0,
        "{}",
        "{}",
        DefaultOperation::Replace,
        SIZED,
        (1, 1, 0, 2),
    ),
    (
        ETH0,
        "{}",
        "{}",
        DefaultOperation::Replace,
        ETH1,
        (3, 3, 2, 2),
    ),
    (IP, "{}", "{}", DefaultOperation::Merge, LEASE, (2, 2, 1, 1)),
    (LEASE, "{}", "{}", DefaultOperation::Merge, IP, (2, 2, 1, 1)),
    (
        ETH0,
        "{}",
        "{}",
        DefaultOperation::Merge,
        CREATED,
        (0, 0, 0, 2),
    ),
    (
        ETH0,
        "{}",
        "{}",
        DefaultOperation::Nothing,
        ETH1,
        (0, 0, 0, 2),
    ),
    (
        SYSTEM,
        "{}",
        "{}",
        DefaultOperation::Merge,
        "{}",
        (0, 0, 0, 4),
    ),
    (
        SYSTEM,
        "{}",
        "{}",
        DefaultOperation::Merge,
        SIZED,
        (1, 1, 0, 4),
    ),
    (
        SYSTEM,
        SIZED,
        "{}",
        DefaultOperation::Merge,
        SYSTEM,
        (1, 0, 0, 4),
    ),
    (
        SYSTEM,
        SIZED,
        "{}",
        DefaultOperation::Merge,
        REMOVED,
        (2, 2, 2, 4),
    ),
    (
        SYSTEM,
        REMOVED,
        "{}",
        DefaultOperation::Merge,
        SYSTEM,
        (2, 0, 0, 4),
    ),
    (
        ETH0,
        SIZED,
        "{}",
        DefaultOperation::Merge,
        ETH0,
        (1, 0, 0, 2),
    ),
    (
        ETH0,
        SIZED,
        ETH0,
        DefaultOperation::Merge,
        REMOVED,
        (2, 2, 2, 2),
    ),
];

// How many rows an edit changes by what is told of it; none where it is refused.
fn told(
    content: &YangContent,
    alloc: Global,
    config: &Overlay,
    edit: &Edit,
    operation: DefaultOperation,
) -> usize {
    match changes_of(alloc, content.schema(), config, edit, operation) {
        Ok(changes) => changes.len(),
        Err(_) => 0,
    }
}

// What is there once an edit was made in place, also where it is refused.
fn edit_in_place(
    content: &YangContent,
    alloc: Global,
    config: &Overlay,
    edit: &Edit,
    operation: DefaultOperation,
) -> Result<Overlay, Fail> {
    let mut rows = config.copy()?;
    let _ = apply_rows(alloc, content.schema(), &mut rows, edit, operation);
    Ok(rows)
}

// How many pairs there are, how many of them say that a row is gone, and how many rows lie below.
fn sizes_of(config: &Overlay) -> (usize, usize, usize) {
    let gone = config
        .pairs()
        .iter()
        .filter(|pair| pair.1.is_none())
        .count();
    (config.pairs().len(), gone, config.base().len())
}

// Whether what is told of an edit, and what is there after it, is as many as a case wants.
fn is_counted(
    content: &YangContent,
    alloc: Global,
    config: &Overlay,
    edit: &Edit,
    after: &Overlay,
    case: &Case,
) -> bool {
    let told = told(content, alloc, config, edit, case.3);
    let (pairs, gone, below) = sizes_of(after);
    (told, pairs, gone, below) == case.5
}

// What `nm_edit` makes of a configuration, or the same where it refuses the edit.
fn made(
    content: &YangContent,
    alloc: Global,
    config: &Overlay,
    edit: &Edit,
    operation: DefaultOperation,
) -> Result<Config, Fail> {
    let rows = config.flat()?;
    match apply(alloc, content.schema(), &rows, edit, operation) {
        Ok(made) => Ok(made),
        Err(_) => Ok(rows),
    }
}

// Whether what `nm_edit` makes has this text.
fn is_made(
    content: &YangContent,
    alloc: Global,
    config: &Overlay,
    edit: &Edit,
    operation: DefaultOperation,
    text: &str,
) -> Result<bool, Fail> {
    let made = made(content, alloc, config, edit, operation)?;
    Ok(write_config(alloc, content.schema(), &made)?.as_str() == text)
}

fn text_of(content: &YangContent, alloc: Global, config: &Overlay) -> Result<String, NoMemory> {
    let rows = config.flat()?;
    write_config(alloc, content.schema(), &rows)
}

// Whether what is there after an edit has the text of what `nm_edit` makes.
fn is_alike(
    content: &YangContent,
    alloc: Global,
    config: &Overlay,
    edit: &Edit,
    operation: DefaultOperation,
    after: &Overlay,
) -> Result<bool, Fail> {
    let text = text_of(content, alloc, after)?;
    is_made(content, alloc, config, edit, operation, text.as_str())
}

// Whether the third edit of a case does what it wants.
fn does(
    content: &YangContent,
    alloc: Global,
    config: &Overlay,
    edit: &Edit,
    case: &Case,
) -> Result<bool, Fail> {
    let after = edit_in_place(content, alloc, config, edit, case.3)?;
    Ok(
        is_counted(content, alloc, config, edit, &after, case)
            && is_alike(content, alloc, config, edit, case.3, &after)?,
    )
}

// Whether a case is so once its first two edits are made, once the first is, and from its beginning.
fn third(
    content: &YangContent,
    alloc: Global,
    config: &Overlay,
    case: &Case,
) -> Result<bool, Fail> {
    let edit = edit_of(content, alloc, case.4)?;
    does(content, alloc, config, &edit, case)
}

fn second(content: &YangContent, alloc: Global, config: &Overlay, case: &Case) -> Result<bool, Fail>
    requires { Belongs content.now config.now }
{
    let config = edited(content, alloc, config, case.2, None)?;
    third(content, alloc, &config, case)
}

fn first(content: &YangContent, alloc: Global, config: &Overlay, case: &Case) -> Result<bool, Fail>
    requires { Belongs content.now config.now }
{
    let config = edited(content, alloc, config, case.1, None)?;
    second(content, alloc, &config, case)
}

fn is_so(content: &YangContent, alloc: Global, case: &Case) -> Result<bool, Fail> {
    let config = config_of(content, alloc, case.0)?;
    first(content, alloc, &config, case)
}

fn all_so(content: &YangContent, alloc: Global) -> Result<(), Fail> {
    for case in &CASES {
        holds(is_so(content, alloc, case)?, case.4)?;
    }
    Ok(())
}

#[test]
fn only_changes_are_kept(rt: HostRuntime) -> Result<(), Fail> {
    all_so(&content_of(rt.alloc())?, rt.alloc())
}

// ---- marks

// How many rows there are, and how many of them aren't marks.
fn counts_of(config: &Overlay) -> Result<(u32, u32), Fail> {
    Ok((config.row_count(), outside_rows(&config.flat()?)))
}

fn is_marked(content: &YangContent, again: &Overlay, change: ChangeNo) -> Result<(), Fail> {
    holds(content.has_mark(again, change), "what comes stays")?;
    holds(counts_of(again)? == (5, 4), "rows and a mark")
}

// The mark goes and comes in one edit.
fn mark_stays(
    content: &YangContent,
    alloc: Global,
    marked: &Overlay,
    change: ChangeNo,
) -> Result<(), Fail>
    requires { Belongs content.now marked.now }
{
    let again = edited(content, alloc, marked, "{}", marks_of(1, 1))?;
    is_marked(content, &again, change)
}

fn mark_comes(
    content: &YangContent,
    alloc: Global,
    config: &Overlay,
    change: ChangeNo,
) -> Result<(), Fail>
    requires { Belongs content.now config.now }
{
    holds(counts_of(config)? == (4, 4), "rows")?;
    let marked = edited(content, alloc, config, "{}", marks_of(1, 0))?;
    mark_stays(content, alloc, &marked, change)
}

// The mark of change set 1 comes, and then goes and comes in one edit.
fn marks_come(content: &YangContent, alloc: Global, change: ChangeNo) -> Result<(), Fail> {
    let config = config_of(content, alloc, SYSTEM)?;
    mark_comes(content, alloc, &config, change)
}

// An edit names a mark.
fn names(content: &YangContent, alloc: Global) -> Result<(), Fail> {
    let mark = "{\"netm-marker:changes\":{\"applied\":[{\"change\":7}]}}";
    holds(names_marks(&edit_of(content, alloc, mark)?), mark)
}

fn marks_so(content: &YangContent, alloc: Global) -> Result<(), Fail> {
    names(content, alloc)?;
    match ChangeNo::new(1) {
        Some(change) => marks_come(content, alloc, change),
        None => Err(Fail::from("no change set")),
    }
}

#[test]
fn marks_are_told(rt: HostRuntime) -> Result<(), Fail> {
    marks_so(&content_of(rt.alloc())?, rt.alloc())
}
