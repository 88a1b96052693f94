//! Lists whose items stand for the arguments of a word, or of a pair.

ghost use Rattle.std.specs.Prelude.{◌≡◌, ℕ, Bool, Some, None};
ghost use Rattle.serde_json.specs.Find.{at, as_array};
ghost use Rattle.serde_json.specs.View.{view, items_view};
ghost use Rattle.nm_scenario_form.specs.Reading.{count_of, Gives, under};
ghost use Rattle.nm_scenario_form.specs.Says.{takes};
ghost use Rattle.nm_scenario_form.specs.Read.{read, slot_read, takes_read, line_read};

use crate::places::{fault_at, fault_here, seen_from_outside};
use crate::reader::Reader;
use crate::{ReadError, ScenarioKind, Step};
use serde_json::Value;
use std::alloc::Global;

/// A list of so many items, its word among them.
pub fn takes(alloc: Global, whole: &Value, fewest: usize, most: usize) -> Result<(), ReadError>
    ensures { Gives result (takes_read (takes fewest most (as_array (view whole.now)))) }
{
    if has_count(whole, fewest, most) {
        return Ok(());
    }
    fault_here(alloc, ScenarioKind::BadValue)
}

fn has_count(whole: &Value, fewest: usize, most: usize) -> bool
    ensures { result ≡ takes fewest most (as_array (view whole.now)) }
{
    match whole.as_array() {
        None => false,
        Some(items) => is_between(items.as_slice(), fewest, most),
    }
}

#[tactic(auto, using(crate::proofs::Counts::counts))]
fn is_between(items: &[Value], fewest: usize, most: usize) -> bool
    ensures { result ≡ takes fewest most (Some (items_view items.now)) }
{
    fewest <= items.len() && items.len() <= most
}

/// The argument at a place, which has to be there.
pub fn argument<R: Reader>(
    alloc: Global,
    whole: &Value,
    place: usize,
    reader: &R,
) -> Result<R::Out, ReadError>
    ensures { Gives result (slot_read (read (R.form reader.now)) (Step.Item place) None (at place (view whole.now))) }
{
    match whole.get(place) {
        None => fault_at(alloc, ScenarioKind::Missing, Step::Item(place)),
        Some(part) => inside_item(alloc, place, reader, part),
    }
}

/// The argument at a place, or what stands for it where it isn't there.
pub fn or_else<R: Reader>(
    alloc: Global,
    whole: &Value,
    place: usize,
    otherwise: R::Out,
    reader: &R,
) -> Result<R::Out, ReadError>
    ensures { Gives result (slot_read (read (R.form reader.now)) (Step.Item place) (Some otherwise) (at place (view whole.now))) }
{
    match whole.get(place) {
        None => Ok(otherwise),
        Some(part) => inside_item(alloc, place, reader, part),
    }
}

fn inside_item<R: Reader>(
    alloc: Global,
    place: usize,
    reader: &R,
    part: &Value,
) -> Result<R::Out, ReadError>
    ensures { Gives result (under (Step.Item place) (read (R.form reader.now) (view part.now))) }
{
    match reader.read(alloc, part) {
        Ok(value) => Ok(value),
        Err(error) => seen_from_outside(error, Step::Item(place)),
    }
}

/// A list whose word is none of a table.
pub fn no_word<T>(alloc: Global, whole: &Value) -> Result<T, ReadError>
    ensures { Gives result (line_read (at 0 (view whole.now))) }
{
    match whole.get(0) {
        None => fault_here(alloc, ScenarioKind::BadValue),
        Some(_) => fault_at(alloc, ScenarioKind::BadValue, Step::Item(0)),
    }
}
