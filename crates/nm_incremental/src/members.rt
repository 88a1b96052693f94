//! The nodes of a case that isn't among those of the schema.

ghost use Rattle.std.specs.Prelude.{◌≡◌, IfOk, filter};
ghost use Rattle.nm_base.specs.Numbers.{is_among};
ghost use Rattle.nm_validate_rules.specs.Cases as spec;

use nm_base::NoMemory;
use nm_schema_tree::Schema;
use std::alloc::Global;

// Whether a case is among this one and those outwards of it, of which at most so many are looked at.
fn is_outwards(schema: &Schema, case: usize, most: usize, from: Option<usize>) -> bool
    ensures { result ≡ is_among case (spec.outwards schema.now most from) }
{
    let mut over = from;
    let mut left = most;
    'outwards: while left > 0 {
        let Some(own) = over else {
            return false;
        };
        if own == case {
            return true;
        }
        over = schema.outer_case(own);
        left -= 1;
    }
    false
}

// Whether a node stands in a case, in it directly or in a case of a choice that is nested in it.
#[tactic(auto, unfolding(nm_validate_rules::specs::Cases::cases_over))]
fn is_in_case(schema: &Schema, case: usize, at: usize) -> bool
    ensures { result ≡ spec.is_in_case schema.now case at }
{
    is_outwards(schema, case, schema.cases().len(), schema.case_in(at))
}

/// The nodes that stand in a case.
pub fn nodes_of(alloc: Global, schema: &Schema, case: usize) -> Result<Vec<usize>, NoMemory>
    ensures { IfOk result (λ all. all.items ≡ filter (spec.is_in_case schema.now case) (spec.numbers schema.now.nodes)) }
{
    let mut all = Vec::new(alloc);
    for at in 0..schema.len() {
        if is_in_case(schema, case, at) {
            all.push(at)?;
        }
    }
    Ok(all)
}
