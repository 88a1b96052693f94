//! Actions by their words.

ghost use Rattle.std.specs.Prelude.{Some};
ghost use Rattle.nm_scenario_form.specs.Reading.{Gives};
ghost use Rattle.nm_scenario_form.specs.Read.{told};
ghost use Rattle.nm_access_form.specs.Parts.{action, action_in};

use nm_access::Action;
use nm_scenario_form::places::fault_here;
use nm_scenario_form::{ReadError, Reader, ScenarioKind};
use serde_json::Value;
use std::alloc::Global;

/// `permit` or `deny`.
#[derive(Drop)]
pub(crate) struct ActionWord;

impl Reader for ActionWord {
    type Out = Action;

    ghost form = { λ _. action };

    #[tactic(auto, unfolding(crate::specs::Parts::action_said))]
    fn read(&self, alloc: Global, part: &Value) -> Result<Action, ReadError> {
        match part.as_str() {
            None => fault_here(alloc, ScenarioKind::BadValue),
            Some(word) => read_action(alloc, word),
        }
    }
}

fn read_action(alloc: Global, word: &str) -> Result<Action, ReadError>
    ensures { Gives result (told (action_in (Some word.now))) }
{
    if word == "permit" {
        return Ok(Action::Permit);
    }
    if word == "deny" {
        return Ok(Action::Deny);
    }
    fault_here(alloc, ScenarioKind::BadValue)
}
