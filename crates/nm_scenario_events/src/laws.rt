//! Laws of the events of a scenario. Each function does nothing: its contract is the law.

ghost use Rattle.std.specs.Prelude.{List};
ghost use Rattle.serde_json.specs.Data.{Data};
ghost use Rattle.nm_scenario_form.specs.declared.fault.Cause.{Cause};
ghost use Rattle.nm_scenario_form.specs.declared.fault.Step.{Step};
ghost use Rattle.nm_scenario_form.specs.Exact.{IsExact, IsWrong};
ghost use Rattle.nm_scenario_form.specs.Places.{InOrder, IsPlace};
ghost use Rattle.nm_scenario_form.specs.Says.{Says};
ghost use Rattle.nm_scenario_events.specs.declared.arguments.Counts.{Counts};
ghost use Rattle.nm_scenario_events.specs.declared.event.ReadEvent.{ReadEvent};
ghost use Rattle.nm_scenario_events.specs.Events.{events_form};
ghost use Rattle.nm_scenario_events.specs.Kept.{EventsKeep};

use nm_scenario_form::Reader;

/// A value says one list of events exactly where nothing is wrong with it, and else it has one first fault.
#[tactic(auto, using(nm_scenario_form::proofs::Exact::exact))]
pub fn events_are_exact<R: Reader>(edits: &R)
    ensures { (c : Counts) (whole : Data) → IsExact (events_form (R.form edits.now) c) whole }
{}

/// Events that are read speak of what there is, and they aren't too many.
#[tactic(auto, using(crate::proofs::Weights::events_keep))]
pub fn events_are_kept<R: Reader>(edits: &R)
    ensures { (c : Counts) (whole : Data) (events : List (ReadEvent R.Out)) → Says (events_form (R.form edits.now) c) whole events
        → EventsKeep c events }
{}

/// The place of each fault of events leads to a part of them, or is that of a missing member, if the faults of edits have places.
#[tactic(auto, using(crate::proofs::Order::events_placed))]
pub fn event_places_are_parts<R: Reader>(edits: &R)
    ensures { InOrder (R.form edits.now) → (c : Counts) (whole : Data) (cause : Cause) (place : List Step)
        → IsWrong (events_form (R.form edits.now) c) whole cause place → IsPlace cause.kind place whole }
{}
