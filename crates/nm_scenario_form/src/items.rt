//! Lists: each item is read by its number and by the list that it stands in.

ghost use Rattle.std.specs.Prelude.{◌≡◌, ℕ, [], Bool, nat_lt};
ghost use Rattle.serde_json.specs.Data.{Data};
ghost use Rattle.serde_json.specs.View.{view, items_view};
ghost use Rattle.serde_json.specs.Find.{as_array};
ghost use Rattle.nm_scenario_form.specs.Form.{Form, list};
ghost use Rattle.nm_scenario_form.specs.Says.{total};
ghost use Rattle.nm_scenario_form.specs.Leafs.{one};
ghost use Rattle.nm_scenario_form.specs.Reading.{Gives, under};
ghost use Rattle.nm_scenario_form.specs.Read.{read, items_after, fits, items_read};

use crate::places::{fault_here, seen_from_outside};
use crate::{ReadError, ScenarioKind, Step};
use nm_proto::Listed;
use serde_json::Value;
use std::alloc::Global;

/// Reads one item of a list.
pub trait ItemReader {
    type Out: Drop;

    /// The form of an item, by the whole list and the item's number from 0.
    ghost form: { Self → Data → ℕ → Form Self.Out };

    fn read(
        &self,
        alloc: Global,
        whole: &Value,
        place: usize,
        part: &Value,
    ) -> Result<Self::Out, ReadError>
        ensures { Gives result (read (form self.now (view whole.now) place) (view part.now)) };
}

/// How much the items of a list weigh.
pub trait Weigh {
    ghost weight: { Self → Data → ℕ };

    fn weight(&self, part: &Value) -> u64
        ensures { result ≡ weight self.now (view part.now) };
}

/// A list of `fewest` to `most` items.
pub fn read_list<R: ItemReader>(
    alloc: Global,
    whole: &Value,
    fewest: usize,
    most: usize,
    reader: &R,
) -> Result<Listed<R::Out>, ReadError>
    ensures { Gives result (read (list fewest most one (R.form reader.now (view whole.now))) (view whole.now)) }
{
    match whole.as_array() {
        None => fault_here(alloc, ScenarioKind::BadValue),
        Some(items) => {
            fits_count(alloc, items.as_slice(), fewest, most)?;
            read_items(alloc, whole, items.as_slice(), reader)
        }
    }
}

#[tactic(auto, using(crate::proofs::Counts::counts))]
fn fits_count(alloc: Global, items: &[Value], fewest: usize, most: usize) -> Result<(), ReadError>
    ensures { Gives result (fits fewest most one (items_view items.now)) }
{
    if items.len() < fewest {
        return fault_here(alloc, ScenarioKind::BadValue);
    }
    if items.len() > most {
        return fault_here(alloc, ScenarioKind::TooMany);
    }
    Ok(())
}

/// A list of `fewest` items or more, which weigh `most` together at most.
pub fn read_weighed<W: Weigh, R: ItemReader>(
    alloc: Global,
    whole: &Value,
    fewest: usize,
    most: u64,
    scale: &W,
    reader: &R,
) -> Result<Listed<R::Out>, ReadError>
    ensures { Gives result (read (list fewest most (W.weight scale.now) (R.form reader.now (view whole.now))) (view whole.now)) }
{
    match whole.as_array() {
        None => fault_here(alloc, ScenarioKind::BadValue),
        Some(items) => {
            fits_weight(alloc, items.as_slice(), fewest, most, scale)?;
            read_items(alloc, whole, items.as_slice(), reader)
        }
    }
}

#[tactic(auto, using(crate::proofs::Counts::counts))]
fn fits_weight<W: Weigh>(
    alloc: Global,
    items: &[Value],
    fewest: usize,
    most: u64,
    scale: &W,
) -> Result<(), ReadError>
    ensures { Gives result (fits fewest most (W.weight scale.now) (items_view items.now)) }
{
    if items.len() < fewest {
        return fault_here(alloc, ScenarioKind::BadValue);
    }
    if is_too_heavy(items, most, scale) {
        return fault_here(alloc, ScenarioKind::TooMany);
    }
    Ok(())
}

// Whether items weigh more than they may.
fn is_too_heavy<W: Weigh>(items: &[Value], most: u64, scale: &W) -> bool
    ensures { result ≡ nat_lt most (total (W.weight scale.now) (items_view items.now)) }
{
    let mut left = most;
    for item in items {
        let weight = scale.weight(item);
        if weight > left {
            return true;
        }
        left -= weight;
    }
    false
}

fn read_items<R: ItemReader>(
    alloc: Global,
    whole: &Value,
    items: &[Value],
    reader: &R,
) -> Result<Listed<R::Out>, ReadError>
    ensures { Gives result (items_after (λ n part. read (R.form reader.now (view whole.now) n) part) [] 0 (items_view items.now)) }
{
    let mut found = Listed::new(alloc);
    for (place, item) in items.iter().enumerate() {
        let value = read_item(alloc, whole, place, reader, item)?;
        found.push(value)?;
    }
    Ok(found)
}

fn read_item<R: ItemReader>(
    alloc: Global,
    whole: &Value,
    place: usize,
    reader: &R,
    item: &Value,
) -> Result<R::Out, ReadError>
    ensures { Gives result (under (Step.Item place) (read (R.form reader.now (view whole.now) place) (view item.now))) }
{
    match reader.read(alloc, whole, place, item) {
        Ok(value) => Ok(value),
        Err(error) => seen_from_outside(error, Step::Item(place)),
    }
}
