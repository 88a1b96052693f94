//! The paths at which a row may be read.

ghost use Rattle.std.specs.Prelude.{◌≡◌, ◌∷◌, ◌++◌, [], IfOk, OnOk, filter, map as each, slice_get};
ghost use Rattle.std.specs.List.{flat_map};
ghost use Rattle.nm_validate_rules.specs.Cases.{numbers};
ghost use Rattle.nm_validate_rules.specs.Places as place;
ghost use Rattle.nm_validate_rules.specs.Values as value;
ghost use Rattle.nm_validate_rules.specs.Candidates as spec;
ghost use Rattle.nm_incremental.specs.Candidates as own;

use crate::paths::{begin, front_count, is_above};
use nm_base::NoMemory;
use nm_schema_tree::{ChoiceNode, Schema};
use nm_types::Path;
use nm_validate_places::values::path_in;
use nm_validate_places::{choice_count, choice_of, choice_step};
use nm_validate_rules::Rule;
use std::alloc::Global;

// The paths that a path begins with, from the top to the path itself.
fn fronts_of(alloc: Global, path: &Path) -> Result<Vec<Path>, NoMemory>
    ensures { IfOk result (λ fronts. fronts.items ≡ spec.fronts_of path.now) }
{
    let mut fronts = Vec::new(alloc);
    for count in 0..front_count(path) {
        let front = begin(alloc, path, count)?;
        fronts.push(front)?;
    }
    Ok(fronts)
}

// Puts the paths of a node below some places, by steps that choose no entries, behind others.
fn put_below(
    alloc: Global,
    schema: &Schema,
    fronts: &[Path],
    at: usize,
    paths: &mut Vec<Path>,
) -> Result<(), NoMemory>
    ensures { OnOk result
        (paths.new.items ≡ paths.old.items ++ each (λ above. value.path_in schema.now above at) (filter (spec.is_above schema.now at) fronts.now)) }
{
    for above in fronts {
        if is_above(schema, at, above) {
            paths.push(path_in(alloc, schema, above, at)?)?;
        }
    }
    Ok(())
}

// The paths of a node below some places.
fn paths_below(
    alloc: Global,
    schema: &Schema,
    fronts: &[Path],
    at: usize,
) -> Result<Vec<Path>, NoMemory>
    ensures { IfOk result (λ paths. paths.items ≡ each (λ above. value.path_in schema.now above at) (filter (spec.is_above schema.now at) fronts.now)) }
{
    let mut paths = Vec::new(alloc);
    put_below(alloc, schema, fronts, at, &mut paths)?;
    Ok(paths)
}

// Whether a rule on single nodes is said of a node.
fn has_rule(schema: &Schema, rule: Rule, at: usize) -> bool
    ensures { result ≡ own.has_rule schema.now rule at }
{
    match rule {
        Rule::Mandatory => schema.is_mandatory(at),
        Rule::MinElements => schema.elements(at).min.is_some(),
        Rule::MaxElements => schema.elements(at).max.is_some(),
        _ => false,
    }
}

// The candidates of a rule on single nodes.
fn of_nodes(alloc: Global, schema: &Schema, rule: Rule, row: &Path) -> Result<Vec<Path>, NoMemory>
    ensures { IfOk result
        (λ paths. paths.items ≡ flat_map (spec.below_fronts schema.now row.now) (filter (own.has_rule schema.now rule) (numbers schema.now.nodes))) }
{
    let fronts = fronts_of(alloc, row)?;
    let mut paths = Vec::new(alloc);
    for at in 0..schema.len() {
        if has_rule(schema, rule, at) {
            put_below(alloc, schema, &fronts, at, &mut paths)?;
        }
    }
    Ok(paths)
}

// The places directly below what a choice stands in, below the fronts of a row.
fn areas_below(
    alloc: Global,
    schema: &Schema,
    fronts: &[Path],
    parent: Option<usize>,
) -> Result<Vec<Path>, NoMemory>
    ensures { IfOk result (λ areas. areas.items ≡ own.areas_of schema.now fronts.now parent) }
{
    match parent {
        Some(at) => paths_below(alloc, schema, fronts, at),
        None => {
            let mut top = Vec::new(alloc);
            let steps = Vec::new(alloc);
            top.push(Path { steps })?;
            Ok(top)
        }
    }
}

// Puts the paths of a choice at some places behind others.
fn put_choice(
    alloc: Global,
    areas: &[Path],
    choice: &ChoiceNode,
    paths: &mut Vec<Path>,
) -> Result<(), NoMemory>
    ensures { OnOk result (paths.new.items ≡ paths.old.items ++ each (λ above. above ++ place.choice_step choice.now ∷ []) areas.now) }
{
    for above in areas {
        let step = choice_step(choice)?;
        paths.push(above.with_step(alloc, step)?)?;
    }
    Ok(())
}

// Puts the candidates of a choice of a number behind others, where it is mandatory.
fn put_mandatory(
    alloc: Global,
    schema: &Schema,
    fronts: &[Path],
    at: usize,
    paths: &mut Vec<Path>,
) -> Result<(), NoMemory>
    ensures { OnOk result (paths.new.items ≡ paths.old.items ++ own.mandatory_at schema.now fronts.now (slice_get schema.now.choices at)) }
{
    let Some(choice) = choice_of(schema, at) else {
        return Ok(());
    };
    if !choice.mandatory {
        return Ok(());
    }
    let areas = areas_below(alloc, schema, fronts, choice.parent)?;
    put_choice(alloc, &areas, choice, paths)
}

// The candidates of the rule of mandatory choices.
fn of_choices(alloc: Global, schema: &Schema, row: &Path) -> Result<Vec<Path>, NoMemory>
    ensures { IfOk result (λ paths. paths.items ≡ own.choices_of schema.now row.now) }
{
    let fronts = fronts_of(alloc, row)?;
    let mut paths = Vec::new(alloc);
    for at in 0..choice_count(schema) {
        put_mandatory(alloc, schema, &fronts, at, &mut paths)?;
    }
    Ok(paths)
}

/// A path alone.
pub fn alone(alloc: Global, path: &Path) -> Result<Vec<Path>, NoMemory>
    ensures { IfOk result (λ paths. paths.items ≡ path.now ∷ []) }
{
    let copy = path.copy(alloc)?;
    let mut paths = Vec::new(alloc);
    paths.push(copy)?;
    Ok(paths)
}

/// The paths at which a rule may read a row.
pub fn candidates(
    alloc: Global,
    schema: &Schema,
    rule: Rule,
    row: &Path,
) -> Result<Vec<Path>, NoMemory>
    ensures { IfOk result (λ paths. paths.items ≡ spec.candidates schema.now rule row.now) }
{
    match rule {
        Rule::ValueType => alone(alloc, row),
        Rule::Key => alone(alloc, row),
        Rule::Mandatory => of_nodes(alloc, schema, rule, row),
        Rule::MinElements => of_nodes(alloc, schema, rule, row),
        Rule::MaxElements => of_nodes(alloc, schema, rule, row),
        Rule::MandatoryChoice => of_choices(alloc, schema, row),
        Rule::Leafref => Ok(Vec::new(alloc)),
        Rule::Unique => Ok(Vec::new(alloc)),
        Rule::OneCase => Ok(Vec::new(alloc)),
    }
}
