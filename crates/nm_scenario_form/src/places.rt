//! Faults as they travel outwards, and the names of members.

ghost use Rattle.std.specs.Prelude.{◌≡◌, ℕ, List, Bool, Result};
ghost use Rattle.nm_scenario_form.specs.declared.fault.Fault.{Fault};
ghost use Rattle.nm_scenario_form.specs.Reading.{Gives, here, there, under};

use crate::fault::{Cause, Fault, ReadError, Step};
use nm_base::Label;
use nm_proto::{Listed, ScenarioKind};
use std::alloc::Global;

/// A fault of the part that is looked at.
pub fn fault_here<T>(alloc: Global, kind: ScenarioKind) -> Result<T, ReadError>
    ensures { Gives result (here kind) }
{
    Err(ReadError::Bad(Fault {
        cause: Cause { kind, inner: None },
        place: Listed::new(alloc),
    }))
}

/// A fault of the part one step further in.
pub fn fault_at<T>(alloc: Global, kind: ScenarioKind, step: Step) -> Result<T, ReadError>
    ensures { Gives result (there kind step) }
{
    let mut place = Listed::new(alloc);
    place.push(step)?;
    Err(ReadError::Bad(Fault {
        cause: Cause { kind, inner: None },
        place,
    }))
}

/// The error, seen from one step further out.
pub fn seen_from_outside<T>(error: ReadError, step: Step) -> Result<T, ReadError>
    ensures { (read : Result T Fault) → Gives (Err error) read → Gives result (under step read) }
{
    match error {
        ReadError::Bad(mut fault) => {
            fault.place.push_front(step)?;
            Err(ReadError::Bad(fault))
        }
        ReadError::NoMemory => Err(ReadError::NoMemory),
    }
}

/// The step to a member of this name.
pub fn named(alloc: Global, name: &str) -> Result<Step, ReadError>
    ensures { Gives result (Ok (Step.Name name.now)) }
{
    Ok(Step::Name(Label::new(alloc, name)?))
}

/// A fault of a member that has to be there.
pub fn missing<T>(alloc: Global, name: &str) -> Result<T, ReadError>
    ensures { Gives result (there ScenarioKind.Missing (Step.Name name.now)) }
{
    let step = named(alloc, name)?;
    fault_at(alloc, ScenarioKind::Missing, step)
}

/// The names that the members of an object may have.
pub trait KnownNames {
    ghost knows: { Self → List ℕ → Bool };

    fn knows(&self, name: &str) -> bool
        ensures { result ≡ knows self.now name.now };
}
