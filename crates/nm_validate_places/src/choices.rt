//! The rule of mandatory choices: one of their nodes is there, where their guards hold.

ghost use Rattle.std.specs.Prelude.{◌≡◌, IfOk, MatchOption, None, Some, filter, length, slice_get};
ghost use Rattle.std.specs.List.{find, flat_map};
ghost use Rattle.nm_schema_tree.specs.Nodes.{choice_at};
ghost use Rattle.nm_path.specs.Sound.{IsSound};
ghost use Rattle.nm_validate_rules.specs.declared.rule.Rule.TheVariants as rule;
ghost use Rattle.nm_validate_rules.specs.Cases as spec;
ghost use Rattle.nm_validate_rules.specs.Places as place_spec;
ghost use Rattle.nm_validate_rules.specs.Violated.{is_of_choice};
ghost use Rattle.nm_validate_rules.specs.Violation.{least_at};
ghost use Rattle.nm_validate_places.specs.Groups as group;
ghost use Rattle.nm_validate_places.specs.Least.{least_with};
ghost use Rattle.nm_validate_places.specs.Choosing.{is_within, missing_by, missing_places};

use crate::areas::{Grouped, areas};
use crate::cases::{any_at, is_allowed};
use crate::least::with_path;
use crate::tables::{by_choice, nodes_in};
use nm_base::NoMemory;
use nm_config::RowMap;
use nm_schema_tree::{ChoiceNode, Schema};
use nm_types::{Chosen, Path, Step};
use std::alloc::Global;

// Whether a case is of a choice.
fn is_of(schema: &Schema, choice: usize, case: usize) -> bool
    ensures { result ≡ spec.is_choice choice (choice_at schema.now.cases case) }
{
    match schema.choice_of(case) {
        None => false,
        Some(other) => other == choice,
    }
}

// The first case of a choice among a case and those outwards of it, of which at most so many are looked at.
fn first_outwards(schema: &Schema, choice: usize, most: usize, from: Option<usize>) -> Option<usize>
    ensures { result ≡ find (λ c. spec.is_choice choice (choice_at schema.now.cases c)) (spec.outwards schema.now most from) }
{
    let mut over = from;
    let mut left = most;
    'outwards: while left > 0 {
        let Some(own) = over else {
            return None;
        };
        if is_of(schema, choice, own) {
            return Some(own);
        }
        over = schema.outer_case(own);
        left -= 1;
    }
    None
}

/// The case of a choice that a node stands in.
#[tactic(auto, unfolding(nm_validate_rules::specs::Cases::cases_over, nm_validate_rules::specs::Cases::case_of_choice))]
pub fn case_of_choice(schema: &Schema, choice: usize, at: usize) -> Option<usize>
    ensures { result ≡ spec.case_of_choice schema.now choice at }
{
    first_outwards(schema, choice, schema.cases().len(), schema.case_in(at))
}

// Whether what a choice stands in is there: a node, or the top.
fn is_within(schema: &Schema, parent: Option<usize>) -> bool
    ensures { result ≡ is_within schema.now parent }
{
    match parent {
        None => true,
        Some(at) => at < schema.len(),
    }
}

/// The step by which a choice is printed.
pub fn choice_step(choice: &ChoiceNode) -> Result<Step, NoMemory>
    ensures { IfOk result (λ step. step ≡ place_spec.choice_step choice.now) }
{
    Ok(Step {
        module: choice.module.copy()?,
        name: choice.name.copy()?,
        chosen: Chosen::Whole,
    })
}

// The lesser of what was found so far and the path of a choice at a place, where it may be wanted there and none of its nodes is there.
fn with_missing<M: RowMap>(
    alloc: Global,
    schema: &Schema,
    config: &M,
    grouped: &Grouped<'_>,
    above: &Path,
    choice: &ChoiceNode,
    nodes: &[usize],
    found: Option<Path>,
) -> Result<Option<Path>, NoMemory>
    requires { group.IsGrouped schema.now (M.rows config.now) grouped.now }
    ensures { IfOk result (λ least. least ≡ least_with found (missing_by schema.now (M.rows config.now) choice.now nodes.now above.now)) }
{
    if !is_allowed(alloc, schema, config, grouped, above, choice.case_in)? {
        return Ok(found);
    }
    if any_at(alloc, schema, config, above, nodes)? {
        return Ok(found);
    }
    let step = choice_step(choice)?;
    let path = above.with_step(alloc, step)?;
    Ok(with_path(found, path))
}

// The least of what was found so far and of the paths of a choice at these places, where none of its nodes is.
fn least_among<M: RowMap>(
    alloc: Global,
    schema: &Schema,
    config: &M,
    grouped: &Grouped<'_>,
    areas: &[Path],
    choice: &ChoiceNode,
    nodes: &[usize],
    found: Option<Path>,
) -> Result<Option<Path>, NoMemory>
    requires { group.IsGrouped schema.now (M.rows config.now) grouped.now }
    ensures { IfOk result (λ least. least ≡ least_with found (flat_map (missing_by schema.now (M.rows config.now) choice.now nodes.now) areas.now)) }
{
    let mut least = found;
    for above in areas {
        least = with_missing(alloc, schema, config, grouped, above, choice, nodes, least)?;
    }
    Ok(least)
}

/// The choice of a number from 0, and None past the last.
pub fn choice_of(schema: &Schema, at: usize) -> Option<&ChoiceNode>
    ensures { MatchOption result (slice_get schema.now.choices at ≡ None) (λ choice. slice_get schema.now.choices at ≡ Some choice.now) }
{
    schema.choices().get(at)
}

// The least of what was found so far and of the places at which a choice has none of its nodes.
fn least_at_choice<M: RowMap>(
    alloc: Global,
    schema: &Schema,
    config: &M,
    grouped: &Grouped<'_>,
    at: usize,
    nodes: &[usize],
    found: Option<Path>,
) -> Result<Option<Path>, NoMemory>
    requires sound { IsSound schema.now.nodes }
    requires grouped { group.IsGrouped schema.now (M.rows config.now) grouped.now }
    requires nodes { nodes.now ≡ filter (is_of_choice schema.now at) (spec.numbers schema.now.nodes) }
    ensures { IfOk result (λ least. least ≡ least_with found (missing_places schema.now (M.rows config.now) at)) }
{
    let Some(choice) = choice_of(schema, at) else {
        return Ok(found);
    };
    if !choice.mandatory {
        return Ok(found);
    }
    if !is_within(schema, choice.parent) {
        return Ok(found);
    }
    let above = areas(alloc, schema, config, grouped, choice.parent)?;
    let least = least_among(alloc, schema, config, grouped, &above, choice, nodes, found)?;
    Ok(least)
}

/// How many choices there are.
pub fn choice_count(schema: &Schema) -> usize
    ensures { result ≡ length schema.now.choices }
{
    schema.choices().len()
}

/// The least path of a mandatory choice without any node, where its guard holds (RFC 7950 section 7.9.4).
pub fn least_missing_choice<M: RowMap>(
    alloc: Global,
    schema: &Schema,
    config: &M,
    grouped: &Grouped<'_>,
) -> Result<Option<Path>, NoMemory>
    requires sound { IsSound schema.now.nodes }
    requires grouped { group.IsGrouped schema.now (M.rows config.now) grouped.now }
    ensures { IfOk result (λ found. found ≡ least_at schema.now (M.rows config.now) rule.MandatoryChoice) }
{
    let table = by_choice(alloc, schema)?;
    let choices = table.as_slice();
    let mut least = None;
    for at in 0..choice_count(schema) {
        let nodes = nodes_in(choices, at);
        least = least_at_choice(alloc, schema, config, grouped, at, nodes, least)?;
    }
    Ok(least)
}
