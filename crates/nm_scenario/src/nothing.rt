//! Members that have to be empty lists: what they would say isn't built, or has no place there.

ghost use Rattle.serde_json.specs.View.{items_view};
ghost use Rattle.nm_scenario_form.specs.Reading.{Gives};
ghost use Rattle.nm_scenario_form.specs.Read.{told};
ghost use Rattle.nm_scenario.specs.Nothing.{nothing, nothing_of};

use nm_scenario_form::places::fault_here;
use nm_scenario_form::{ReadError, Reader, ScenarioKind};
use serde_json::Value;
use std::alloc::Global;

/// A list that has to be empty, and the kind of the fault of one that isn't.
#[derive(Drop)]
pub struct Nothing {
    pub otherwise: ScenarioKind,
}

impl Reader for Nothing {
    type Out = ();

    ghost form = { λ r. nothing r.otherwise };

    #[tactic(auto, unfolding(crate::specs::Nothing::nothing_said))]
    fn read(&self, alloc: Global, part: &Value) -> Result<(), ReadError> {
        match part.as_array() {
            None => fault_here(alloc, ScenarioKind::BadValue),
            Some(items) => only_empty(alloc, items.as_slice(), self.otherwise),
        }
    }
}

#[tactic(auto, using(crate::proofs::Counts::counts))]
fn only_empty(alloc: Global, items: &[Value], otherwise: ScenarioKind) -> Result<(), ReadError>
    ensures { Gives result (told (nothing_of otherwise (items_view items.now))) }
{
    if items.is_empty() {
        return Ok(());
    }
    fault_here(alloc, otherwise)
}
