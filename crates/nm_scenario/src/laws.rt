//! Laws of what is said and of what is wrong. Each function does nothing: its contract is the law.

ghost use Rattle.std.specs.Prelude.{ℕ, List};
ghost use Rattle.serde_json.specs.Data.{Data};
ghost use Rattle.nm_scenario_form.specs.Exact.{AreExact};
ghost use Rattle.nm_scenario.specs.Scenario.{SaysBytes, SaysScenario, WrongBytes, WrongScenario};

/// Bytes say one scenario exactly where nothing is wrong with them, and where anything is, they have one first fault.
#[tactic(auto, using(crate::proofs::Whole::bytes_exact))]
pub fn bytes_are_exact()
    ensures { (bytes : List ℕ) → AreExact (SaysBytes bytes) (WrongBytes bytes) }
{}

/// So it is with a JSON value.
#[tactic(auto, using(crate::proofs::Whole::scenarios_exact))]
pub fn scenarios_are_exact()
    ensures { (whole : Data) → AreExact (SaysScenario whole) (WrongScenario whole) }
{}
