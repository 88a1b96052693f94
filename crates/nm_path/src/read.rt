//! Reading the text of a path.

ghost use Rattle.std.specs.Prelude.{◌≡◌, List, IfOk, IsErrOf, Ok, Err};
ghost use Rattle.nm_types.specs.Path.{PathStep};
ghost use Rattle.nm_path.specs.Spelling.{SpellsPath, IsUnknown, IsFullPath};
ghost use Rattle.nm_path.specs.Reading as spec;

use crate::choice::step_of;
use crate::fault::PathFault;
use crate::form::Written;
use crate::place::{Place, are_named, found};
use crate::steps::steps_of;
use nm_schema_tree::Schema;
use nm_types::{Path, Step};
use std::alloc::Global;

// The step of a path that a written step is from a place, and the node that it leads to.
fn next_of(
    alloc: Global,
    schema: &Schema,
    place: Place,
    step: &Written,
) -> Result<(usize, Step), PathFault>
    ensures { spec.Gives (λ x. x) result (spec.next_of schema.now.nodes place step.now) }
{
    let Some(at) = found(schema, place, step) else {
        return Err(PathFault::BadText);
    };
    match step_of(alloc, schema, at, step) {
        Ok(next) => Ok((at, next)),
        Err(error) => Err(error),
    }
}

// The steps of a path that written steps are from the top.
fn path_from(alloc: Global, schema: &Schema, steps: &[Written]) -> Result<Vec<Step>, PathFault>
    ensures { spec.Gives (λ v. v.items) result (spec.path_from schema.now.nodes Place.Top steps.now) }
{
    let mut all = Vec::new(alloc);
    let mut place = Place::Top;
    let mut rest = steps;
    'steps: while let [step, more @ ..] = rest {
        match next_of(alloc, schema, place, step) {
            Ok((at, next)) => {
                all.push(next)?;
                place = Place::Within(at);
            }
            Err(error) => return Err(error),
        }
        rest = more;
    }
    Ok(all)
}

// What reading a text gives.
#[tactic(auto, unfolding(crate::specs::Reading::path_of, crate::specs::Reading::path_by))]
fn path_of(alloc: Global, schema: &Schema, text: &str) -> Result<Path, PathFault>
    ensures { spec.Answers result (spec.path_of schema.now text.now) }
{
    let steps = match steps_of(alloc, text) {
        Ok(steps) => steps,
        Err(error) => return Err(error),
    };
    if !are_named(schema, &steps) {
        return Err(PathFault::Unknown);
    }
    match path_from(alloc, schema, &steps) {
        Ok(steps) => Ok(Path { steps }),
        Err(error) => Err(error),
    }
}

/// The path of a schema that a text spells, as `/module:name/name[key='value']/..`.
///
/// Keys stand in any order, values in any spelling of their types. A module may stand at each step and must at the
/// top. Between double quotes all bytes stand for themselves; between single quotes a single quote is doubled.
pub fn read_path(alloc: Global, schema: &Schema, text: &str) -> Result<Path, PathFault>
    // Ok exactly for the spellings of a path.
    ensures found { IfOk result (SpellsPath schema.now text.now) }
    ensures read { (path : List PathStep) → SpellsPath schema.now text.now path → spec.Answers result (Ok path) }
    // Unknown exactly where the text has the form of a path and a name isn't in the schema.
    ensures unknown { IsErrOf result PathFault.Unknown → IsUnknown schema.now text.now }
    ensures not_known { IsUnknown schema.now text.now → spec.Answers result (Err PathFault.Unknown) }
    // BadText exactly where it is neither a spelling nor unknown.
    ensures bad_text { IsErrOf result PathFault.BadText → ((path : List PathStep) → ¬ SpellsPath schema.now text.now path) × ¬ IsUnknown schema.now text.now }
    ensures neither { ((path : List PathStep) → ¬ SpellsPath schema.now text.now path) → ¬ IsUnknown schema.now text.now
        → spec.Answers result (Err PathFault.BadText) }
    // What is read is a path of the schema without a bare list.
    ensures full { IfOk result (IsFullPath schema.now) }
    // The answer as a function of the text.
    ensures exact { spec.Answers result (spec.path_of schema.now text.now) }
{
    path_of(alloc, schema, text)
}
