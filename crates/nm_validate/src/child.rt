//! Children of choices, and the first that is of another case than the first.

ghost use Rattle.std.specs.Prelude.{◌≡◌, ◌&&◌, IfOk, length, nat_lt};
ghost use Rattle.nm_path.specs.Spelling as path_spec;
ghost use Rattle.nm_config.specs.Under as under_spec;
ghost use Rattle.nm_validate_rules.specs.Violated as rule_spec;
ghost use Rattle.nm_validate.specs.Others as spec;

use crate::places::beginning;
use nm_base::NoMemory;
use nm_config::{RowMap, is_under};
use nm_path::node_of;
use nm_schema_tree::Schema;
use nm_types::Path;
use nm_validate_places::case_of_choice;
use std::alloc::Global;
use std::marker::Model;

/// A child of a choice that exists at a place.
#[derive(Drop)]
pub struct Child {
    pub path: Path,
    /// The case of the choice that it is of.
    pub case_is: usize,
}

impl Model for Child {
    ghost use Rattle.nm_validate_rules.specs.Violated.{Child as TheChild};

    ghost Value = { TheChild };

    ghost view = { λ c. record { path = c.path; case_is = c.case_is } };
}

// The case of a choice that the node at a path stands in.
fn case_at(schema: &Schema, choice: usize, path: &Path) -> Option<usize>
    ensures { result ≡ rule_spec.case_of_node schema.now choice (path_spec.node_of schema.now path.now) }
{
    let Some(at) = node_of(schema, path) else {
        return None;
    };
    case_of_choice(schema, choice, at)
}

// Whether a path leads below a place.
fn is_below(above: &Path, path: &Path) -> bool
    ensures { result ≡ (under_spec.is_under above.now path.now && nat_lt (length above.now) (length path.now)) }
{
    is_under(above, path) && above.steps.len() < path.steps.len()
}

// The child of a choice at a place that a row is at or below.
fn child_over(
    alloc: Global,
    schema: &Schema,
    choice: usize,
    above: &Path,
    path: &Path,
) -> Result<Option<Child>, NoMemory>
    ensures { IfOk result (λ child. child ≡ rule_spec.child_over schema.now choice above.now path.now) }
{
    if !is_below(above, path) {
        return Ok(None);
    }
    let path = beginning(alloc, path, above.steps.len() + 1)?;
    match case_at(schema, choice, &path) {
        None => Ok(None),
        Some(case_is) => Ok(Some(Child { path, case_is })),
    }
}

// Whether a child is of another case than the first, if there was one.
fn is_other(first: Option<usize>, child: &Option<Child>) -> bool
    ensures { result ≡ spec.is_other first child.now }
{
    match (first, child) {
        (Some(case), Some(child)) => child.case_is != case,
        _ => false,
    }
}

// The case of the first child, once one child more was come to.
fn first_case(first: Option<usize>, child: &Option<Child>) -> Option<usize>
    ensures { result ≡ spec.first_case first child.now }
{
    match (first, child) {
        (Some(case), _) => Some(case),
        (None, Some(child)) => Some(child.case_is),
        (None, None) => None,
    }
}

/// The first child of a choice at a place that is of another case than the first, as rows stand in path order.
#[tactic(auto, unfolding(nm_validate_rules::specs::Violated::children_of))]
pub fn first_other<M: RowMap>(
    alloc: Global,
    schema: &Schema,
    config: &M,
    choice: usize,
    above: &Path,
) -> Result<Option<Child>, NoMemory>
    ensures { IfOk result (λ child. child ≡ rule_spec.first_other (rule_spec.children_of schema.now (M.rows config.now) choice above.now)) }
{
    let mut first = None;
    let mut at = config.next_after(Some(above));
    'rows: while let Some(path) = at {
        if !is_under(above, path) {
            return Ok(None);
        }
        let child = child_over(alloc, schema, choice, above, path)?;
        if is_other(first, &child) {
            return Ok(child);
        }
        first = first_case(first, &child);
        at = config.next_after(Some(path));
    }
    Ok(None)
}
