//! The cases that nodes stand in, and whether they hold (RFC 7950 section 7.9.2).

ghost use Rattle.std.specs.Prelude.{◌≡◌, ◌&&◌, ◌==◌, IfOk, filter, not};
ghost use Rattle.std.specs.List.{list_any};
ghost use Rattle.nm_base.specs.Numbers.{is_among};
ghost use Rattle.nm_schema_tree.specs.Nodes.{case_at};
ghost use Rattle.nm_validate_rules.specs.Cases as spec;
ghost use Rattle.nm_validate_places.specs.Groups.{IsGrouped};
ghost use Rattle.nm_validate_places.specs.Members.{AreOthers};
ghost use Rattle.nm_validate_places.specs.Tables.{AreOfCases};

use crate::areas::Grouped;
use crate::tables::nodes_in;
use nm_base::{Label, NoMemory};
use nm_config::RowMap;
use nm_schema_tree::Schema;
use nm_types::{Chosen, Path, Step};
use std::alloc::Global;

// Whether a case is among this one and those outwards of it, of which at most so many are looked at.
fn is_outwards(schema: &Schema, case: usize, most: usize, from: Option<usize>) -> bool
    ensures { result ≡ is_among case (spec.outwards schema.now most from) }
{
    let mut over = from;
    let mut left = most;
    'outwards: while left > 0 {
        let Some(own) = over else {
            return false;
        };
        if own == case {
            return true;
        }
        over = schema.outer_case(own);
        left -= 1;
    }
    false
}

// Whether a node stands in a case, in it directly or in a case of a choice that is nested in it.
#[tactic(auto, unfolding(nm_validate_rules::specs::Cases::cases_over))]
fn is_in_case(schema: &Schema, case: usize, at: usize) -> bool
    ensures { result ≡ spec.is_in_case schema.now case at }
{
    is_outwards(schema, case, schema.cases().len(), schema.case_in(at))
}

// The nodes that stand in a case.
fn nodes_of(alloc: Global, schema: &Schema, case: usize) -> Result<Vec<usize>, NoMemory>
    ensures { IfOk result (λ all. all.items ≡ filter (spec.is_in_case schema.now case) (spec.numbers schema.now.nodes)) }
{
    let mut all = Vec::new(alloc);
    for at in 0..schema.len() {
        if is_in_case(schema, case, at) {
            all.push(at)?;
        }
    }
    Ok(all)
}

// The nodes of some that are other than one of them.
fn others_in(alloc: Global, nodes: &[usize], at: usize) -> Result<Vec<usize>, NoMemory>
    ensures { IfOk result (λ all. all.items ≡ filter (λ other. not (other == at)) nodes.now) }
{
    let mut all = Vec::new(alloc);
    for other in nodes {
        if *other != at {
            all.push(*other)?;
        }
    }
    Ok(all)
}

// The nodes of a case other than one of them.
fn others_in_case(
    alloc: Global,
    schema: &Schema,
    cases: &[Vec<usize>],
    case: usize,
    at: usize,
) -> Result<Vec<usize>, NoMemory>
    requires { AreOfCases schema.now cases.now }
    ensures { IfOk result (λ all. all.items ≡ filter (λ other. not (other == at) && spec.is_in_case schema.now case other) (spec.numbers schema.now.nodes)) }
{
    if case < cases.len() {
        let all = others_in(alloc, nodes_in(cases, case), at)?;
        return Ok(all);
    }
    let nodes = nodes_of(alloc, schema, case)?;
    let all = others_in(alloc, &nodes, at)?;
    Ok(all)
}

/// The other nodes of the case that a node stands in, and None where it stands in none.
pub fn others_of(
    alloc: Global,
    schema: &Schema,
    cases: &[Vec<usize>],
    at: usize,
) -> Result<Option<Vec<usize>>, NoMemory>
    requires { AreOfCases schema.now cases.now }
    ensures { IfOk result (AreOthers schema.now at (case_at schema.now.nodes at)) }
{
    match schema.case_in(at) {
        None => Ok(None),
        Some(case) => Ok(Some(others_in_case(alloc, schema, cases, case, at)?)),
    }
}

/// The step to a node that chooses no entry.
pub fn bare(alloc: Global, schema: &Schema, at: usize) -> Result<Step, NoMemory>
    ensures { IfOk result (λ step. step ≡ spec.bare schema.now.nodes at) }
{
    let Some(node) = schema.node(at) else {
        return Ok(Step {
            module: Label::new(alloc, "")?,
            name: Label::new(alloc, "")?,
            chosen: Chosen::Whole,
        });
    };
    Ok(Step {
        module: node.module.copy()?,
        name: node.name.copy()?,
        chosen: Chosen::Whole,
    })
}

// Whether a node exists at a place.
fn exists_at<M: RowMap>(
    alloc: Global,
    schema: &Schema,
    config: &M,
    above: &Path,
    at: usize,
) -> Result<bool, NoMemory>
    ensures { IfOk result (λ there. there ≡ spec.exists_at schema.now (M.rows config.now) above.now at) }
{
    let step = bare(alloc, schema, at)?;
    let path = above.with_step(alloc, step)?;
    Ok(config.any_under(&path))
}

/// Whether one of some nodes exists at a place.
pub fn any_at<M: RowMap>(
    alloc: Global,
    schema: &Schema,
    config: &M,
    above: &Path,
    nodes: &[usize],
) -> Result<bool, NoMemory>
    ensures { IfOk result (λ there. there ≡ list_any (spec.exists_at schema.now (M.rows config.now) above.now) nodes.now) }
{
    for at in nodes {
        if exists_at(alloc, schema, config, above, *at)? {
            return Ok(true);
        }
    }
    Ok(false)
}

// Whether a case holds at a place: one of its nodes exists there. Of a case that isn't there, the nodes are found among all.
fn case_holds<M: RowMap>(
    alloc: Global,
    schema: &Schema,
    config: &M,
    cases: &[Vec<usize>],
    above: &Path,
    case: usize,
) -> Result<bool, NoMemory>
    requires { AreOfCases schema.now cases.now }
    ensures { IfOk result (λ holds. holds ≡ spec.case_holds schema.now (M.rows config.now) above.now case) }
{
    if case < cases.len() {
        let there = any_at(alloc, schema, config, above, nodes_in(cases, case))?;
        return Ok(there);
    }
    let nodes = nodes_of(alloc, schema, case)?;
    let there = any_at(alloc, schema, config, above, &nodes)?;
    Ok(there)
}

/// Whether what stands in a case, or in none, may be wanted at a place, by the nodes of each case.
pub fn is_allowed_in<M: RowMap>(
    alloc: Global,
    schema: &Schema,
    config: &M,
    cases: &[Vec<usize>],
    above: &Path,
    case: Option<usize>,
) -> Result<bool, NoMemory>
    requires { AreOfCases schema.now cases.now }
    ensures { IfOk result (λ allowed. allowed ≡ spec.is_allowed schema.now (M.rows config.now) above.now case) }
{
    match case {
        None => Ok(true),
        Some(case) => case_holds(alloc, schema, config, cases, above, case),
    }
}

/// Whether what stands in a case, or in none, may be wanted at a place.
pub fn is_allowed<M: RowMap>(
    alloc: Global,
    schema: &Schema,
    config: &M,
    grouped: &Grouped<'_>,
    above: &Path,
    case: Option<usize>,
) -> Result<bool, NoMemory>
    requires { IsGrouped schema.now (M.rows config.now) grouped.now }
    ensures { IfOk result (λ allowed. allowed ≡ spec.is_allowed schema.now (M.rows config.now) above.now case) }
{
    is_allowed_in(alloc, schema, config, &grouped.cases, above, case)
}
