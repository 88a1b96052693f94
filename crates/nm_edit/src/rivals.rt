//! Nodes of other cases of one choice (RFC 7950 section 7.9).

ghost use Rattle.std.specs.Prelude.{◌≡◌};
ghost use Rattle.std.specs.List.{list_any};
ghost use Rattle.nm_schema_tree.specs.Nodes.{same_parent};
ghost use Rattle.nm_validate_rules.specs.Cases.{cases_over, outwards};
ghost use Rattle.nm_edit.specs.Rivals as spec;

use nm_schema_tree::Schema;

// Whether two cases are other cases of one choice.
fn is_other_case(schema: &Schema, case: usize, other: usize) -> bool
    ensures { result ≡ spec.is_other_case schema.now case other }
{
    if other == case {
        return false;
    }
    match (schema.choice_of(case), schema.choice_of(other)) {
        (Some(choice), Some(others)) => choice == others,
        _ => false,
    }
}

// Whether another case of its choice is among a case and those outwards of it, of which at most so many are looked at.
fn any_other(schema: &Schema, case: usize, most: usize, from: Option<usize>) -> bool
    ensures { result ≡ list_any (spec.is_other_case schema.now case) (outwards schema.now most from) }
{
    let mut over = from;
    let mut left = most;
    'outwards: while left > 0 {
        let Some(own) = over else {
            return false;
        };
        if is_other_case(schema, case, own) {
            return true;
        }
        over = schema.outer_case(own);
        left -= 1;
    }
    false
}

// Whether a node stands in another case of the choice of a case.
#[tactic(auto, unfolding(nm_validate_rules::specs::Cases::cases_over, crate::specs::Rivals::is_in_other))]
fn is_in_other(schema: &Schema, other: usize, case: usize) -> bool
    ensures { result ≡ spec.is_in_other schema.now other case }
{
    any_other(schema, case, schema.cases().len(), schema.case_in(other))
}

// Whether a node stands in another case of the choice of a case that is among this one and those outwards of it, of which
// at most so many are looked at.
fn any_rival(schema: &Schema, other: usize, most: usize, from: Option<usize>) -> bool
    ensures { result ≡ list_any (spec.is_in_other schema.now other) (outwards schema.now most from) }
{
    let mut over = from;
    let mut left = most;
    'outwards: while left > 0 {
        let Some(own) = over else {
            return false;
        };
        if is_in_other(schema, other, own) {
            return true;
        }
        over = schema.outer_case(own);
        left -= 1;
    }
    false
}

fn is_same_parent(one: Option<usize>, other: Option<usize>) -> bool
    ensures { result ≡ same_parent one other }
{
    match (one, other) {
        (None, None) => true,
        (Some(one), Some(other)) => one == other,
        _ => false,
    }
}

/// Whether two nodes stand in one node, in two cases of one choice.
#[tactic(auto, unfolding(nm_validate_rules::specs::Cases::cases_over, crate::specs::Rivals::are_rivals))]
pub fn are_rivals(schema: &Schema, one: usize, other: usize) -> bool
    ensures { result ≡ spec.are_rivals schema.now one other }
{
    if !is_same_parent(schema.parent(one), schema.parent(other)) {
        return false;
    }
    any_rival(schema, other, schema.cases().len(), schema.case_in(one))
}
