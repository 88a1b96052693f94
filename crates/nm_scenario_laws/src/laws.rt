//! Laws of what is read and of what is refused. Each function does nothing: its contract is the law.

ghost use Rattle.std.specs.Prelude.{◌≡◌, List, ℕ, Some, Result};
ghost use Rattle.json.specs.Json.{Json};
ghost use Rattle.serde_json.specs.Data.{Data, Members};
ghost use Rattle.serde_json.specs.Find.{as_object};
ghost use Rattle.nm_scenario_form.specs.declared.fault.Cause.{Cause};
ghost use Rattle.nm_scenario_form.specs.declared.fault.Fault.{Fault};
ghost use Rattle.nm_scenario_form.specs.declared.fault.Step.{Step};
ghost use Rattle.nm_scenario.specs.declared.scenario.Scenario.{Scenario};
ghost use Rattle.nm_scenario.specs.Scenario.{ReadsBytes, SaysBytes, WrongBytes, WrongScenario, json_of};
ghost use Rattle.nm_scenario_form.specs.Exact.{Somewhere};
ghost use Rattle.nm_scenario_form.specs.Order.{IsFirst};
ghost use Rattle.nm_scenario_form.specs.Places.{walked, IsPlace};
ghost use Rattle.nm_scenario_laws.specs.Kept.{ScenarioKeeps};
ghost use Rattle.nm_scenario_laws.specs.Order.{Ascending, Reordered, Spells};
ghost use Rattle.nm_scenario_laws.specs.Placed.{IsPlaced};

/// The place of a fault leads to a part of the scenario; that of a missing member to an object that doesn't have it.
pub fn place_is_a_part()
    ensures all { (whole : Data) (cause : Cause) (place : List Step) → Somewhere (WrongScenario whole) cause place → IsPlace cause.kind place whole }
    ensures first { (bytes : List ℕ) (fault : Fault) → IsFirst (WrongBytes bytes) fault → IsPlaced bytes fault }
{}

/// A scenario that bytes say is within all limits.
pub fn limits_kept()
    ensures { (bytes : List ℕ) (scenario : Scenario) → SaysBytes bytes scenario → ScenarioKeeps scenario }
{}

/// Texts that differ in the order of members of different names are read as the same scenario, or have the same fault.
#[tactic(auto, using(crate::proofs::Reordering::outcome_same))]
pub fn order_of_members()
    ensures { (one other : List ℕ) (value another : Json) → Spells one value → Spells other another → Reordered value another
        → (outcome : Result Scenario Fault) → ReadsBytes one outcome → ReadsBytes other outcome }
{}

/// The members of each object in what is read of bytes ascend by their names.
#[tactic(auto, using(crate::proofs::Tidy::parts_ascend))]
pub fn members_ascend()
    ensures { (bytes : List ℕ) (whole : Data) (place : List Step) (part : Data) (members : Members) → json_of bytes ≡ Some whole
        → walked place whole ≡ Some part → as_object part ≡ Some members → Ascending members }
{}
