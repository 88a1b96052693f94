//! Laws of what is said and of what is wrong. Each function does nothing: its contract is the law.

ghost use Rattle.std.specs.Prelude.{◌≡◌, ◌↔◌, ℕ, List, Some, Ok};
ghost use Rattle.serde_json.specs.Data.{Data};
ghost use Rattle.nm_scenario_form.specs.declared.fault.Cause.{Cause};
ghost use Rattle.nm_scenario_form.specs.declared.fault.Step.{Step};
ghost use Rattle.nm_scenario_form.specs.Exact.{IsExact, IsWrong};
ghost use Rattle.nm_scenario_form.specs.Places.{IsPlace, IsThere};
ghost use Rattle.nm_access.specs.declared.rule.Accesses.{Accesses};
ghost use Rattle.nm_access_form.specs.Words.{accesses_in, SpellsAccesses};
ghost use Rattle.nm_access_form.specs.Table.{access_form, Written};

/// A text is read as accesses exactly where it spells them: `*`, or words that one space parts, each once.
pub fn accesses_are_spelled()
    ensures { (text : List ℕ) (a : Accesses) → (accesses_in (Some text) ≡ Ok a) ↔ SpellsAccesses text a }
{}

/// A part says one set of rules exactly where nothing is wrong with it, and where anything is, it has one first fault.
#[tactic(auto, using(nm_scenario_form::proofs::Exact::exact))]
pub fn access_is_exact()
    ensures { (path : Written) (whole : Data) → IsExact (access_form path) whole }
{}

/// The place of each fault leads to a part of the rules, or is that of a missing member, if no path tells that a member is missing.
pub fn access_places_are_parts()
    ensures { (path : Written) → ((whole : Data) → IsThere (path whole)) → (whole : Data) (cause : Cause) (place : List Step)
        → IsWrong (access_form path) whole cause place → IsPlace cause.kind place whole }
{}
