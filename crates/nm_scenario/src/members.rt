//! The members of a scenario after its head, by whatever contents they are written.

ghost use Rattle.std.specs.Prelude.{◌≡◌};
ghost use Rattle.serde_json.specs.View.{view};
ghost use Rattle.nm_scenario_form.specs.Reading.{Gives};
ghost use Rattle.nm_scenario_form.specs.Read.{read};
ghost use Rattle.nm_scenario.specs.Counts.{count_in, counts_of};
ghost use Rattle.nm_scenario.specs.Members.{knows_scenario, members_form};

use crate::changes::Changes;
use crate::contents::{Edits, Written};
use crate::devices::Devices;
use crate::nothing::Nothing;
use crate::operators::Operators;
use crate::scenario::ReadChange;
use nm_base::Label;
use nm_proto::Listed;
use nm_scenario_events::{Counts, Events, ReadEvent};
use nm_scenario_form::lists::item_count;
use nm_scenario_form::places::KnownNames;
use nm_scenario_form::{
    ReadError, ScenarioKind, Switch, no_other_names, optional, read_object, required,
};
use serde_json::Value;
use std::alloc::Global;

/// The members of a scenario after its head, as they were read.
#[derive(Drop)]
pub struct Members<C, E> {
    pub devices: Listed<C>,
    pub changes: Listed<ReadChange<E>>,
    pub rest: Rest<E>,
}

/// Those after the change sets.
#[derive(Drop)]
pub struct Rest<E> {
    pub operators: Listed<Label>,
    pub events: Listed<ReadEvent<E>>,
    pub drain: bool,
    pub trace: bool,
    pub notices: bool,
}

#[derive(Drop)]
struct ScenarioNames;

impl KnownNames for ScenarioNames {
    ghost knows = { λ _. knows_scenario };

    fn knows(&self, name: &str) -> bool {
        name == "netm"
            || name == "contents"
            || name == "modules"
            || name == "devices"
            || name == "changes"
            || name == "operators"
            || name == "faults"
            || name == "events"
            || name == "drain"
            || name == "trace"
            || name == "notices"
    }
}

// How many items a member has.
fn count_in(whole: &Value, name: &str) -> usize
    ensures { result ≡ count_in name.now (view whole.now) }
{
    match whole.get(name) {
        None => 0,
        Some(part) => item_count(part),
    }
}

// How many change sets, devices and operators there are, by the members.
fn counts_of(whole: &Value) -> Counts
    ensures { result ≡ counts_of (view whole.now) }
{
    Counts {
        changes: count_in(whole, "changes"),
        devices: count_in(whole, "devices"),
        operators: count_in(whole, "operators"),
    }
}

/// The members after the head, where these contents say how configurations and edits are written.
#[tactic(auto, unfolding(crate::specs::Members::members_form))]
pub fn read_members<W: Written>(
    alloc: Global,
    whole: &Value,
    contents: &W,
) -> Result<Members<W::Config, W::Edit>, ReadError>
    ensures { Gives result (read (members_form (W.config_said contents.now) (W.edit_said contents.now)) (view whole.now)) }
{
    let counts = counts_of(whole);
    let edits = Edits { contents };
    let devices = Devices { contents };
    let changes = Changes {
        devices: counts.devices,
        contents,
    };
    let none = Nothing {
        otherwise: ScenarioKind::NotBuilt,
    };
    let events = Events {
        counts: &counts,
        edits: &edits,
    };
    read_object(alloc, whole)?;
    let devices = required(alloc, whole, "devices", &devices)?;
    let changes = optional(alloc, whole, "changes", Listed::new(alloc), &changes)?;
    let operators = optional(alloc, whole, "operators", Listed::new(alloc), &Operators)?;
    optional(alloc, whole, "faults", (), &none)?;
    let events = optional(alloc, whole, "events", Listed::new(alloc), &events)?;
    let drain = optional(alloc, whole, "drain", false, &Switch)?;
    let trace = optional(alloc, whole, "trace", false, &Switch)?;
    let notices = optional(alloc, whole, "notices", false, &Switch)?;
    no_other_names(alloc, whole, &ScenarioNames)?;
    Ok(Members {
        devices,
        changes,
        rest: Rest {
            operators,
            events,
            drain,
            trace,
            notices,
        },
    })
}
