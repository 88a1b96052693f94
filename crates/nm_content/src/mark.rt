//! The marks of change sets. They are rows, and most calls on them take no memory: those walk over the rows below the
//! container of all marks, by its path, and look at the steps of each path.

ghost use Rattle.std.specs.Prelude.{◌≡◌, ◌≤◌, ◌+◌, IfOk, OnOk, cond, is_some, option_copied};
ghost use Rattle.nm_types.specs.Chosen.{choice_of};
ghost use Rattle.nm_config.specs.Under.{is_whole as takes_whole, without_under};
ghost use Rattle.nm_proto.specs.Content.{counted_rows, is_taken};
ghost use Rattle.nm_content.specs.Mark as spec;

use nm_base::{ChangeNo, Label, MARKER, NoMemory};
use nm_config::{Config, RowMap};
use nm_content_place::next_below;
use nm_edit::Edit;
use nm_overlay::Overlay;
use nm_proto::Marks;
use nm_types::{Chosen, Path, Step, Value};
use std::alloc::Global;

// ---- the path of a mark

#[tactic(auto, unfolding(crate::specs::Mark::changes_name, nm_base::specs::Words::marker_name))]
fn changes_step(alloc: Global) -> Result<Step, NoMemory>
    ensures { IfOk result (λ step. step ≡ spec.changes_step) }
{
    Ok(Step {
        module: Label::new(alloc, MARKER)?,
        name: Label::new(alloc, "changes")?,
        chosen: Chosen::Whole,
    })
}

#[tactic(auto, unfolding(crate::specs::Mark::applied_name, nm_base::specs::Words::marker_name))]
fn entry_step(alloc: Global, number: u32) -> Result<Step, NoMemory>
    ensures { IfOk result (λ step. step ≡ spec.entry_step number) }
{
    let mut keys = Vec::new(alloc);
    keys.push(Value::Int(i128::from(number)))?;
    Ok(Step {
        module: Label::new(alloc, MARKER)?,
        name: Label::new(alloc, "applied")?,
        chosen: Chosen::Keys(keys),
    })
}

/// The path of the container of all marks: `/netm-marker:changes`.
pub fn marks_path(alloc: Global) -> Result<Path, NoMemory>
    ensures { IfOk result (λ path. path ≡ spec.marks_path) }
{
    let mut steps = Vec::new(alloc);
    steps.push(changes_step(alloc)?)?;
    Ok(Path { steps })
}

/// The path of a mark: `/netm-marker:changes/applied[change='NUMBER']`.
pub fn mark_path(alloc: Global, number: u32) -> Result<Path, NoMemory>
    ensures { IfOk result (λ path. path ≡ spec.mark_path number) }
{
    let mut steps = Vec::new(alloc);
    steps.push(changes_step(alloc)?)?;
    steps.push(entry_step(alloc, number)?)?;
    Ok(Path { steps })
}

// ---- which paths are marks

#[tactic(auto, unfolding(nm_base::specs::Words::marker_name))]
fn is_of_marker(step: &Step) -> bool
    ensures { result ≡ spec.is_of_marker step.now }
{
    step.module.as_str() == MARKER
}

#[tactic(auto, unfolding(crate::specs::Mark::changes_name))]
fn is_changes(step: &Step) -> bool
    ensures { result ≡ spec.is_changes step.now }
{
    is_of_marker(step) && step.name.as_str() == "changes" && is_whole(&step.chosen)
}

fn is_whole(chosen: &Chosen) -> bool
    ensures { result ≡ takes_whole (choice_of chosen.now) }
{
    match chosen {
        Chosen::Whole => true,
        Chosen::Keys(_) => false,
        Chosen::Entry(_) => false,
    }
}

#[tactic(auto, unfolding(crate::specs::Mark::applied_name))]
fn is_applied(step: &Step) -> bool
    ensures { result ≡ spec.is_applied step.now }
{
    is_of_marker(step) && step.name.as_str() == "applied"
}

// Whether a value is a number, as 0 or a greater one.
fn is_natural(value: &Value) -> bool
    ensures { result ≡ is_some (spec.number_in value.now) }
{
    match value {
        Value::Int(number) => *number >= 0,
        _ => false,
    }
}

fn is_number(value: &Value, number: u32) -> bool
    ensures { result ≡ spec.is_given number (spec.number_in value.now) }
{
    match value {
        Value::Int(own) => *own == i128::from(number),
        _ => false,
    }
}

// The value that alone is the key of an entry.
fn only_key(chosen: &Chosen) -> Option<&Value>
    ensures { option_copied result ≡ spec.only_key (choice_of chosen.now) }
{
    match chosen {
        Chosen::Keys(values) => match values.as_slice() {
            [value] => Some(value),
            _ => None,
        },
        _ => None,
    }
}

// The value that alone is the key of an entry of the list of marks, where a path leads to one.
fn key_of(path: &Path) -> Option<&Value>
    ensures { option_copied result ≡ spec.key_at path.now }
{
    match path.steps.as_slice() {
        [changes, entry] => {
            if is_changes(changes) && is_applied(entry) {
                return only_key(&entry.chosen);
            }
            None
        }
        _ => None,
    }
}

// Whether a path is a mark.
fn is_mark(path: &Path) -> bool
    ensures { result ≡ spec.is_mark path.now }
{
    match key_of(path) {
        None => false,
        Some(value) => is_natural(value),
    }
}

// Whether a path is the mark of a number.
fn is_mark_of(path: &Path, number: u32) -> bool
    ensures { result ≡ spec.is_mark_of number path.now }
{
    match key_of(path) {
        None => false,
        Some(value) => is_number(value, number),
    }
}

/// Whether the mark of a number is a row. It takes no memory.
pub(crate) fn has_mark<M: RowMap>(rows: &M, marks: &Path, number: u32) -> bool
    requires { marks.now ≡ spec.marks_path }
    ensures { result ≡ spec.has_mark (M.rows rows.now) number }
{
    let mut passed = marks;
    'walk: while let Some(next) = next_below(rows, marks, passed) {
        if is_mark_of(next, number) {
            return true;
        }
        passed = next;
    }
    false
}

// Whether each mark of the one is a mark of the other.
fn has_marks_of<M: RowMap>(other: &M, one: &M, marks: &Path) -> bool
    requires { marks.now ≡ spec.marks_path }
    ensures { result ≡ spec.has_marks_of (M.rows other.now) (M.rows one.now) }
{
    let mut passed = marks;
    'walk: while let Some(next) = next_below(one, marks, passed) {
        if is_mark(next) && other.value(next).is_none() {
            return false;
        }
        passed = next;
    }
    true
}

/// Whether two configurations have the same marks. It takes no memory.
pub(crate) fn same_marks<M: RowMap>(one: &M, other: &M, marks: &Path) -> bool
    requires { marks.now ≡ spec.marks_path }
    ensures { result ≡ spec.same_marks (M.rows one.now) (M.rows other.now) }
{
    has_marks_of(other, one, marks) && has_marks_of(one, other, marks)
}

// Whether a path is at or below container `changes`.
fn is_in_marker(path: &Path) -> bool
    ensures { result ≡ spec.is_in_marker path.now }
{
    match path.steps.first() {
        None => false,
        Some(step) => is_changes(step),
    }
}

/// Whether an edit names a node at or below `/netm-marker:changes`, the container of the marks.
pub fn names_marks(edit: &Edit) -> bool
    ensures { result ≡ spec.names_marks edit.now }
{
    for node in &edit.nodes {
        if is_in_marker(&node.path) {
            return true;
        }
    }
    false
}

// ---- marks go and come

// Whether the mark of a change set is one that goes.
fn takes(marks: &Marks, number: u32) -> bool
    requires low { 1 ≤ number }
    requires high { number ≤ 64 }
    ensures { result ≡ is_taken marks.now number }
{
    match ChangeNo::new(number) {
        Some(change) => marks.remove.contains(change),
        None => false,
    }
}

// Takes away the mark of a number, and all below it.
fn take_mark<M: RowMap>(alloc: Global, rows: &mut M, number: u32) -> Result<(), NoMemory>
    ensures rows { OnOk result (M.rows rows.new ≡ without_under (M.rows rows.old) (spec.mark_path number)) }
    ensures base { M.base rows.new ≡ M.base rows.old }
{
    let mark = mark_path(alloc, number)?;
    rows.take_under(&mark)
}

// Takes away the marks of `remove`.
fn take_marks<M: RowMap>(alloc: Global, rows: &mut M, marks: Marks) -> Result<(), NoMemory>
    ensures rows { OnOk result (M.rows rows.new ≡ spec.without_marks (M.rows rows.old) marks) }
    ensures base { M.base rows.new ≡ M.base rows.old }
{
    for number in 1..ChangeNo::LIMIT + 1 {
        if takes(&marks, number) {
            take_mark(alloc, rows, number)?;
        }
    }
    Ok(())
}

// The marks of `remove` go, then the mark of `add` comes.
fn put_marks<M: RowMap>(alloc: Global, rows: &mut M, marks: Option<Marks>) -> Result<(), NoMemory>
    ensures rows { OnOk result (M.rows rows.new ≡ spec.marked (M.rows rows.old) marks) }
    ensures base { M.base rows.new ≡ M.base rows.old }
{
    let Some(marks) = marks else {
        return Ok(());
    };
    take_marks(alloc, rows, marks)?;
    rows.put(mark_path(alloc, marks.add.get())?, Value::Present)
}

/// The configuration once marks went and came.
pub(crate) fn marked(
    alloc: Global,
    mut config: Overlay,
    marks: Option<Marks>,
) -> Result<Overlay, NoMemory>
    ensures { IfOk result (λ new. new ≡ record { base = config.base; rows = spec.marked config.rows marks }) }
{
    put_marks(alloc, &mut config, marks)?;
    Ok(config)
}

// ---- what isn't a mark

// Whether a row stands outside the module of the marks.
fn is_outside(path: &Path) -> bool
    ensures { result ≡ spec.is_outside path.now }
{
    match path.steps.first() {
        None => true,
        Some(step) => !is_of_marker(step),
    }
}

/// How many rows of a configuration by itself stand outside the module of the marks, and 4294967295 where there are more.
/// It takes no memory.
pub fn outside_rows(config: &Config) -> u32
    ensures { result ≡ counted_rows (spec.outside_rows config.now) }
{
    let mut count = 0u32;
    for (path, _) in config.iter() {
        if is_outside(path) {
            count = count.saturating_add(1);
        }
    }
    count
}

// A count with a row: one more where it stands outside the module of the marks, up to the greatest number that is told.
fn counted_with(count: u32, path: &Path) -> u32
    ensures { result ≡ counted_rows (count + cond (spec.is_outside path.now) 1 0) }
{
    if is_outside(path) {
        return count.saturating_add(1);
    }
    count
}

/// The same of rows that may lie over others.
pub(crate) fn rows_outside<M: RowMap>(rows: &M) -> u32
    ensures { result ≡ counted_rows (spec.outside_rows (M.rows rows.now)) }
{
    let mut count = 0u32;
    let mut passed = None;
    'walk: while let Some(next) = rows.next_after(passed) {
        count = counted_with(count, next);
        passed = Some(next);
    }
    count
}
