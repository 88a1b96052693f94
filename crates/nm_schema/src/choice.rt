//! The choices of the given modules and their cases, and the case of each node.

ghost use Rattle.std.specs.Prelude.{◌≡◌, ◌<◌, ◌≤◌, ◌^◌, [], IfOk, OnOk, None, Some, length, map, replicate, slice_range, slice_set};
ghost use Rattle.nm_schema_nodes.specs.Forks as forks;
ghost use Rattle.nm_schema_uses.specs.Outline.{outline};
ghost use Rattle.nm_schema_faults.specs.Facts.{definitions};
ghost use Rattle.nm_schema.specs.Choices as spec;

use crate::kind::says_true;
use crate::node::{argument_at, name_of};
use nm_base::{Label, NoMemory};
use nm_schema_faults::Grounds;
use nm_schema_nodes::{Branch, Choices, Fork, Forks, choices_of};
use nm_schema_statements::{Rows, Word};
use nm_schema_tree::{CaseNode, ChoiceNode, Schema};
use std::alloc::Global;

// A place in which nodes stand: in which node, of which module's tree, with which row.
#[derive(Clone, Copy)]
struct Place {
    parent: Option<usize>,
    owner: usize,
    row: usize,
}

fn shifted(count: usize, case: Option<usize>) -> Option<usize>
    requires { forks.IsRoom count case }
    ensures { result ≡ forks.shifted count case }
{
    match case {
        None => None,
        Some(case) => Some(count + case),
    }
}

// A choice of a place, behind so many cases.
#[tactic(auto, unfolding(crate::specs::Choices::choice_node))]
fn choice_node(
    alloc: Global,
    rows: &Rows,
    names: &[Label],
    place: Place,
    cases: usize,
    fork: Fork,
) -> Result<ChoiceNode, NoMemory>
    requires names { names.now ≡ spec.module_names rows.now }
    requires room { forks.IsRoom cases fork.case_in }
    ensures { IfOk result (λ node. node ≡ spec.choice_node rows.now (spec.place_for place.parent place.owner place.row) cases fork) }
{
    Ok(ChoiceNode {
        parent: place.parent,
        case_in: shifted(cases, fork.case_in),
        module: name_of(alloc, names, place.owner)?,
        name: argument_at(alloc, rows, fork.row)?,
        mandatory: says_true(rows, fork.row, Word::Mandatory),
    })
}

// A case of a choice behind so many choices.
#[tactic(auto, unfolding(crate::specs::Choices::case_node))]
fn case_node(
    alloc: Global,
    rows: &Rows,
    choices: usize,
    branch: Branch,
) -> Result<CaseNode, NoMemory>
    requires { forks.IsRoom choices (Some branch.choice) }
    ensures { IfOk result (λ node. node ≡ spec.case_node rows.now choices branch) }
{
    Ok(CaseNode {
        choice: choices + branch.choice,
        name: argument_at(alloc, rows, branch.row)?,
    })
}

// Puts some cases, of choices behind so many, at the end of those of a tree.
fn put_cases(
    alloc: Global,
    rows: &Rows,
    branches: &[Branch],
    choices: usize,
    schema: &mut Schema,
) -> Result<(), NoMemory>
    requires { spec.AreOfChoices choices (length schema.old.choices) branches.now }
    ensures { OnOk result (schema.new ≡ spec.with_cases schema.old (map (spec.case_node rows.now choices) branches.now)) }
{
    let _count = schema.choices().len();
    for branch in branches {
        let case = case_node(alloc, rows, choices, *branch)?;
        schema.push_case(case)?;
    }
    Ok(())
}

// How many cases come before a choice, of which so many are there already.
fn cases_until(done: usize, fork: Fork) -> usize
    requires { forks.IsRoom 1 fork.case_in }
    ensures { result ≡ spec.cases_until done fork }
{
    match fork.case_in {
        None => done,
        Some(case) => {
            if case < done {
                return done;
            }
            case + 1
        }
    }
}

// How many cases a place has: few enough that those before them can be added.
fn count_branches(branches: &[Branch]) -> usize
    ensures count { result ≡ length branches.now }
    ensures few { result < 2 ^ 63 }
{
    branches.len()
}

// How many cases a tree has: few enough that those of a place can be added.
fn count_cases(cases: &[CaseNode]) -> usize
    ensures count { result ≡ length cases.now }
    ensures few { result < 2 ^ 63 }
{
    cases.len()
}

// The cases from one on, before another.
fn between(branches: &[Branch], from: usize, to: usize) -> &[Branch]
    requires { (from ≤ to) × (to ≤ length branches.now) }
    ensures { result.now ≡ slice_range branches.now from to }
{
    &branches[from..to]
}

// Puts the choices and cases of a place at the end of those of a tree, each after what it stands in.
fn put_place(
    alloc: Global,
    rows: &Rows,
    names: &[Label],
    place: Place,
    forks: &Forks,
    schema: &mut Schema,
) -> Result<(), NoMemory>
    requires { names.now ≡ spec.module_names rows.now }
    ensures { OnOk result (schema.new ≡ spec.with_place rows.now (spec.place_for place.parent place.owner place.row) forks.now schema.old) }
{
    forks.laws();
    let first_choice = schema.choices().len();
    let first_case = count_cases(schema.cases());
    let branches = forks.cases();
    let count = count_branches(branches);
    let mut done = 0;
    for fork in forks.choices() {
        let until = cases_until(done, *fork);
        let cases = between(branches, done, until);
        put_cases(alloc, rows, cases, first_choice, schema)?;
        done = until;
        let choice = choice_node(alloc, rows, names, place, first_case, *fork)?;
        schema.push_choice(choice)?;
    }
    let cases = between(branches, done, count);
    put_cases(alloc, rows, cases, first_choice, schema)
}

// Gives a node a case, if there is the node.
fn put_spot(case_in: &mut Vec<Option<usize>>, node: usize, case: Option<usize>)
    ensures { case_in.new.items ≡ slice_set case_in.old.items node case }
{
    if node < case_in.len() {
        case_in[node] = case;
    }
}

// Gives the nodes of a place their cases, behind so many others.
fn put_spots(
    case_in: &mut Vec<Option<usize>>,
    nodes: &[usize],
    spots: &[Option<usize>],
    cases: usize,
)
    requires room { spec.AreRoom cases spots.now }
    ensures { case_in.new.items ≡ spec.with_spots case_in.old.items nodes.now spots.now cases }
{
    for at in 0..nodes.len() {
        if at < spots.len() {
            put_spot(case_in, nodes[at], shifted(cases, spots[at]));
        }
    }
}

// Puts the choices of a place, in which some nodes stand, and gives the nodes their cases.
fn add_place(
    alloc: Global,
    grounds: &Grounds<'_, '_>,
    names: &[Label],
    choices: &Choices<'_>,
    place: Place,
    nodes: &[usize],
    schema: &mut Schema,
    case_in: &mut Vec<Option<usize>>,
) -> Result<(), NoMemory>
    requires names { names.now ≡ spec.module_names grounds.now.rows }
    requires choices { choices.now ≡ outline grounds.now.rows (definitions grounds.now.rows) }
    ensures schema { OnOk result (schema.new ≡ spec.with_forks grounds.now.rows (spec.place_for place.parent place.owner place.row) schema.old) }
    ensures cases { OnOk result (case_in.new.items ≡ spec.cased grounds.now.rows place.row schema.old nodes.now case_in.old.items) }
{
    let Some(shared) = choices.forks_of(alloc, place.row)? else {
        return Ok(());
    };
    let forks = shared.get();
    forks.laws();
    let _count = count_branches(forks.cases());
    let cases = count_cases(schema.cases());
    put_place(alloc, grounds.rows(), names, place, forks, schema)?;
    put_spots(case_in, nodes, forks.spots(), cases);
    Ok(())
}

// Puts the choices at the tops of the modules.
fn add_tops(
    alloc: Global,
    grounds: &Grounds<'_, '_>,
    names: &[Label],
    choices: &Choices<'_>,
    schema: &mut Schema,
    case_in: &mut Vec<Option<usize>>,
) -> Result<(), NoMemory>
    requires names { names.now ≡ spec.module_names grounds.now.rows }
    requires choices { choices.now ≡ outline grounds.now.rows (definitions grounds.now.rows) }
    requires none { spec.HasChosen grounds.now 0 schema.old case_in.old.items }
    ensures chosen { OnOk result (spec.HasChosen grounds.now (spec.top_count grounds.now) schema.new case_in.new.items) }
    ensures nodes { OnOk result (schema.new.nodes ≡ schema.old.nodes) }
    ensures modules { OnOk result (schema.new.modules ≡ schema.old.modules) }
{
    let roots = grounds.rows().roots();
    let expansion = grounds.expansion();
    expansion.laws();
    for owner in 0..roots.len() {
        let place = Place {
            parent: None,
            owner,
            row: roots[owner],
        };
        let nodes = expansion.tops(owner);
        add_place(
            alloc, grounds, names, choices, place, nodes, schema, case_in,
        )?;
    }
    Ok(())
}

// Puts the choices in the nodes.
fn add_nodes(
    alloc: Global,
    grounds: &Grounds<'_, '_>,
    names: &[Label],
    choices: &Choices<'_>,
    schema: &mut Schema,
    case_in: &mut Vec<Option<usize>>,
) -> Result<(), NoMemory>
    requires names { names.now ≡ spec.module_names grounds.now.rows }
    requires choices { choices.now ≡ outline grounds.now.rows (definitions grounds.now.rows) }
    requires tops { spec.HasChosen grounds.now (spec.top_count grounds.now) schema.old case_in.old.items }
    ensures chosen { OnOk result (spec.HasChosen grounds.now (spec.place_count grounds.now) schema.new case_in.new.items) }
    ensures nodes { OnOk result (schema.new.nodes ≡ schema.old.nodes) }
    ensures modules { OnOk result (schema.new.modules ≡ schema.old.modules) }
{
    let expansion = grounds.expansion();
    expansion.laws();
    let all = expansion.nodes();
    for at in 0..all.len() {
        let place = Place {
            parent: Some(at),
            owner: all[at].owner,
            row: all[at].row,
        };
        let nodes = expansion.children(at);
        add_place(
            alloc, grounds, names, choices, place, nodes, schema, case_in,
        )?;
    }
    Ok(())
}

// No case for each of so many nodes.
fn no_cases(alloc: Global, count: usize) -> Result<Vec<Option<usize>>, NoMemory>
    ensures { IfOk result (λ case_in. case_in.items ≡ replicate count None) }
{
    let mut case_in = Vec::with_capacity(alloc, count)?;
    for _at in 0..count {
        case_in.push(None)?;
    }
    Ok(case_in)
}

/// Puts the choices of some modules and their cases into a tree that has none, and answers for each node the innermost case that
/// it stands in.
pub(crate) fn put_choices(
    alloc: Global,
    grounds: &Grounds<'_, '_>,
    names: &[Label],
    schema: &mut Schema,
) -> Result<Vec<Option<usize>>, NoMemory>
    requires names { names.now ≡ spec.module_names grounds.now.rows }
    requires choices { schema.old.choices ≡ [] }
    requires cases { schema.old.cases ≡ [] }
    ensures choices { OnOk result (schema.new.choices ≡ spec.tree_choices grounds.now.rows grounds.now.facts) }
    ensures cases { OnOk result (schema.new.cases ≡ spec.tree_cases grounds.now.rows grounds.now.facts) }
    ensures case_in { IfOk result (λ case_in. spec.AreCases grounds.now.rows grounds.now.facts case_in.items) }
    ensures nodes { OnOk result (schema.new.nodes ≡ schema.old.nodes) }
    ensures modules { OnOk result (schema.new.modules ≡ schema.old.modules) }
{
    grounds.expansion().laws();
    let choices = choices_of(alloc, grounds.shape())?;
    let mut case_in = no_cases(alloc, grounds.expansion().nodes().len())?;
    add_tops(alloc, grounds, names, &choices, schema, &mut case_in)?;
    add_nodes(alloc, grounds, names, &choices, schema, &mut case_in)?;
    Ok(case_in)
}
