//! For each choice and for each case, the nodes that stand in it: found in one pass over the nodes (RFC 7950 section 7.9).

ghost use Rattle.std.specs.Prelude.{◌≡◌, IfOk, OnOk};
ghost use Rattle.nm_validate_rules.specs.Cases.{outwards};
ghost use Rattle.nm_validate_places.specs.Tables as spec;

use nm_base::NoMemory;
use nm_schema_tree::Schema;
use std::alloc::Global;

/// What nodes are grouped by: the choices or the cases that they stand in.
#[derive(Clone, Copy)]
pub enum By {
    Choice,
    Case,
}

// The number of the group of the nodes in a case: of its choice, or of the case itself.
fn group_of(schema: &Schema, by: By, case: usize) -> Option<usize>
    ensures { result ≡ spec.group_of by schema.now case }
{
    match by {
        By::Choice => schema.choice_of(case),
        By::Case => Some(case),
    }
}

// So many groups without nodes.
fn no_nodes(alloc: Global, count: usize) -> Result<Vec<Vec<usize>>, NoMemory>
    ensures { IfOk result (λ groups. spec.AreNone count groups.items) }
{
    let mut groups = Vec::with_capacity(alloc, count)?;
    for _at in 0..count {
        groups.push(Vec::new(alloc))?;
    }
    Ok(groups)
}

// Whether a node is the last of some.
fn ends_with(nodes: &[usize], at: usize) -> bool
    ensures { result ≡ spec.ends_with at nodes.now }
{
    match nodes.last() {
        None => false,
        Some(last) => *last == at,
    }
}

// Puts a node behind others, where it isn't the last of them.
fn push_once(nodes: &mut Vec<usize>, at: usize) -> Result<(), NoMemory>
    ensures { OnOk result (nodes.new.items ≡ spec.once at nodes.old.items) }
{
    if ends_with(nodes, at) {
        return Ok(());
    }
    nodes.push(at)?;
    Ok(())
}

// Puts a node into a group, where there is this group and the node isn't its last.
fn put_once(groups: &mut Vec<Vec<usize>>, group: Option<usize>, at: usize) -> Result<(), NoMemory>
    ensures { OnOk result (spec.PutsOnce at group groups.old.items groups.new.items) }
{
    let Some(number) = group else {
        return Ok(());
    };
    if let Some(nodes) = groups.get_mut(number) {
        push_once(nodes, at)?;
    }
    Ok(())
}

// Puts a node into the groups of a case and of those outwards of it, of which at most so many are looked at.
fn put_outwards(
    groups: &mut Vec<Vec<usize>>,
    schema: &Schema,
    by: By,
    at: usize,
    most: usize,
    from: Option<usize>,
) -> Result<(), NoMemory>
    ensures { OnOk result (spec.PutsInto schema.now by at (outwards schema.now most from) groups.old.items groups.new.items) }
{
    let mut over = from;
    let mut left = most;
    'outwards: while left > 0 {
        let Some(own) = over else {
            return Ok(());
        };
        put_once(groups, group_of(schema, by, own), at)?;
        over = schema.outer_case(own);
        left -= 1;
    }
    Ok(())
}

// So many groups, by choices or by cases, with the nodes that stand in each.
fn group_nodes(
    alloc: Global,
    schema: &Schema,
    by: By,
    count: usize,
) -> Result<Vec<Vec<usize>>, NoMemory>
    ensures { IfOk result (λ groups. spec.AreBy schema.now by count groups.items) }
{
    let most = schema.cases().len();
    let mut groups = no_nodes(alloc, count)?;
    for at in 0..schema.len() {
        put_outwards(&mut groups, schema, by, at, most, schema.case_in(at))?;
    }
    Ok(groups)
}

/// For each choice, the nodes that stand in it.
pub fn by_choice(alloc: Global, schema: &Schema) -> Result<Vec<Vec<usize>>, NoMemory>
    ensures { IfOk result (λ groups. spec.AreOfChoices schema.now groups.items) }
{
    let groups = group_nodes(alloc, schema, By::Choice, schema.choices().len())?;
    Ok(groups)
}

/// For each case, the nodes that stand in it, directly or in a case of a choice that is nested in it.
pub fn by_case(alloc: Global, schema: &Schema) -> Result<Vec<Vec<usize>>, NoMemory>
    ensures { IfOk result (λ groups. spec.AreOfCases schema.now groups.items) }
{
    let groups = group_nodes(alloc, schema, By::Case, schema.cases().len())?;
    Ok(groups)
}

/// The nodes of a group, and none where there is no group of this number.
pub fn nodes_in(groups: &[Vec<usize>], at: usize) -> &[usize]
    ensures { result.now ≡ spec.nodes_in groups.now at }
{
    match groups.get(at) {
        None => &[],
        Some(nodes) => nodes.as_slice(),
    }
}
