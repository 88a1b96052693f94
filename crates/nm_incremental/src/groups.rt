//! What is found of a schema once, before rules are judged at many paths.

ghost use Rattle.std.specs.Prelude.{IfOk};
ghost use Rattle.nm_incremental.specs.Members.{AreMembers};

use nm_base::NoMemory;
use nm_schema_tree::Schema;
use nm_validate_places::tables::{by_case, by_choice};
use std::alloc::Global;

/// The nodes of each case and of each choice.
#[derive(Drop)]
pub struct Members {
    pub cases: Vec<Vec<usize>>,
    pub choices: Vec<Vec<usize>>,
}

/// The nodes of each case and of each choice of a schema.
pub fn members_of(alloc: Global, schema: &Schema) -> Result<Members, NoMemory>
    ensures { IfOk result (AreMembers schema.now) }
{
    let cases = by_case(alloc, schema)?;
    let choices = by_choice(alloc, schema)?;
    Ok(Members { cases, choices })
}
