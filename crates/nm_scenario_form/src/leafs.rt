//! Readers of parts without parts of their own.

ghost use Rattle.std.specs.Prelude.{◌≡◌, ◌≤◌, ◌<◌, IfOk};
ghost use Rattle.serde_json.specs.View.{view};
ghost use Rattle.nm_scenario_form.specs.Reading.{Gives};
ghost use Rattle.nm_scenario_form.specs.Read.{read};
ghost use Rattle.nm_scenario_form.specs.Leafs.{number, above, switch, text};

use crate::places::fault_here;
use crate::reader::Reader;
use crate::{ReadError, ScenarioKind};
use nm_base::Label;
use serde_json::Value;
use std::alloc::Global;

/// A number from `low` to `high`.
#[derive(Drop)]
pub struct Number {
    pub low: u64,
    pub high: u64,
}

impl Reader for Number {
    type Out = u64;

    ghost form = { λ r. number r.low r.high };

    fn read(&self, alloc: Global, part: &Value) -> Result<u64, ReadError> {
        read_number(alloc, part, self.low, self.high)
    }
}

/// A number from `low` to `high`, known to be there.
#[tactic(auto, unfolding(crate::specs::Leafs::number_said))]
pub fn read_number(alloc: Global, part: &Value, low: u64, high: u64) -> Result<u64, ReadError>
    ensures value { Gives result (read (number low high) (view part.now)) }
    ensures range { IfOk result (λ n. (low ≤ n) × (n ≤ high)) }
{
    match part.as_u64() {
        Some(number) if low <= number && number <= high => Ok(number),
        _ => fault_here(alloc, ScenarioKind::BadValue),
    }
}

/// A number above `below`, up to `high`, known to be there.
#[tactic(auto, unfolding(crate::specs::Leafs::above_said))]
pub fn read_above(alloc: Global, part: &Value, below: u64, high: u64) -> Result<u64, ReadError>
    ensures value { Gives result (read (above below high) (view part.now)) }
    ensures range { IfOk result (λ n. (below < n) × (n ≤ high)) }
{
    match part.as_u64() {
        Some(number) if below < number && number <= high => Ok(number),
        _ => fault_here(alloc, ScenarioKind::BadValue),
    }
}

/// A switch.
#[derive(Drop)]
pub struct Switch;

impl Reader for Switch {
    type Out = bool;

    ghost form = { λ _. switch };

    #[tactic(auto, unfolding(crate::specs::Leafs::switch_said))]
    fn read(&self, alloc: Global, part: &Value) -> Result<bool, ReadError> {
        match part.as_bool() {
            None => fault_here(alloc, ScenarioKind::BadValue),
            Some(on) => Ok(on),
        }
    }
}

/// A text of `low` to `high` bytes.
#[derive(Drop)]
pub struct Text {
    pub low: usize,
    pub high: usize,
}

impl Reader for Text {
    type Out = Label;

    ghost form = { λ r. text r.low r.high };

    #[tactic(auto, unfolding(crate::specs::Leafs::text_said))]
    fn read(&self, alloc: Global, part: &Value) -> Result<Label, ReadError> {
        match part.as_str() {
            Some(text) if self.low <= text.len() && text.len() <= self.high => {
                Ok(Label::new(alloc, text)?)
            }
            _ => fault_here(alloc, ScenarioKind::BadValue),
        }
    }
}
