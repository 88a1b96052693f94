//! The part of a JSON value that a place leads to.

ghost use Rattle.std.specs.Prelude.{◌≡◌, option_map};
ghost use Rattle.serde_json.specs.View.{view};
ghost use Rattle.nm_scenario_form.specs.Places.{stepped, walked};

use nm_scenario_form::Step;
use serde_json::Value;

// What is there one step further in.
fn stepped<'a>(step: &Step, part: &'a Value) -> Option<&'a Value>
    ensures { option_map (λ inner. view inner.now) result ≡ stepped step.now (view part.now) }
{
    match step {
        Step::Name(name) => part.get(name.as_str()),
        Step::Item(place) => part.get(*place),
    }
}

/// The part that a place leads to, if there is one.
pub(crate) fn part_at<'a>(place: &[Step], whole: &'a Value) -> Option<&'a Value>
    ensures { option_map (λ part. view part.now) result ≡ walked place.now (view whole.now) }
{
    let mut part = whole;
    for step in place {
        part = stepped(step, part)?;
    }
    Some(part)
}
