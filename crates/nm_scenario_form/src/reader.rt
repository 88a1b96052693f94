//! Readers of parts, and of the members of objects. Each gives what `read` of its form does.

ghost use Rattle.std.specs.Prelude.{◌≡◌, ℕ, List, Bool, Some, None, Ok, Result};
ghost use Rattle.serde_json.specs.Data.{Data};
ghost use Rattle.serde_json.specs.Find.{get, as_object};
ghost use Rattle.serde_json.specs.View.{view, members_view};
ghost use Rattle.nm_scenario_form.specs.declared.fault.Fault.{Fault};
ghost use Rattle.nm_scenario_form.specs.declared.fault.Step.TheVariants.{Name};
ghost use Rattle.nm_scenario_form.specs.Form.{Form};
ghost use Rattle.nm_scenario_form.specs.Reading.{Gives, here, there, under};
ghost use Rattle.nm_scenario_form.specs.Read.{read, told, slot_read, object_from, names_read, names_from};

use crate::places::{KnownNames, fault_at, fault_here, missing, named, seen_from_outside};
use crate::{Cause, Fault, ReadError, ScenarioKind};
use nm_proto::Listed;
use serde_json::{Map, Value};
use std::alloc::Global;

/// Reads a part of a JSON value by its form.
pub trait Reader {
    type Out: Drop;

    /// The part's form.
    ghost form: { Self → Form Self.Out };

    fn read(&self, alloc: Global, part: &Value) -> Result<Self::Out, ReadError>
        ensures { Gives result (read (form self.now) (view part.now)) };
}

/// A fault of the part that is looked at, as a lower reader told it.
pub fn fault_told<T>(alloc: Global, cause: Cause) -> Result<T, ReadError>
    ensures { Gives result (told (Result.Err cause)) }
{
    Err(ReadError::Bad(Fault {
        cause,
        place: Listed::new(alloc),
    }))
}

/// The member of a name, which has to be there.
pub fn required<R: Reader>(
    alloc: Global,
    whole: &Value,
    name: &str,
    reader: &R,
) -> Result<R::Out, ReadError>
    ensures { Gives result (slot_read (read (R.form reader.now)) (Name name.now) None (get name.now (view whole.now))) }
{
    match whole.get(name) {
        None => missing(alloc, name),
        Some(part) => inside(alloc, name, reader, part),
    }
}

/// The member of a name, or what stands for it where it isn't there.
pub fn optional<R: Reader>(
    alloc: Global,
    whole: &Value,
    name: &str,
    otherwise: R::Out,
    reader: &R,
) -> Result<R::Out, ReadError>
    ensures { Gives result (slot_read (read (R.form reader.now)) (Name name.now) (Some otherwise) (get name.now (view whole.now))) }
{
    match whole.get(name) {
        None => Ok(otherwise),
        Some(part) => inside(alloc, name, reader, part),
    }
}

// What was read one step further in. The step is made only where there is a fault.
fn inside<R: Reader>(
    alloc: Global,
    name: &str,
    reader: &R,
    part: &Value,
) -> Result<R::Out, ReadError>
    ensures { Gives result (under (Name name.now) (read (R.form reader.now) (view part.now))) }
{
    match reader.read(alloc, part) {
        Ok(value) => Ok(value),
        Err(error) => {
            let step = named(alloc, name)?;
            seen_from_outside(error, step)
        }
    }
}

/// An object, whatever its members.
pub fn read_object(alloc: Global, whole: &Value) -> Result<(), ReadError>
    ensures { Gives result (object_from (as_object (view whole.now))) }
{
    match whole.as_object() {
        None => fault_here(alloc, ScenarioKind::BadValue),
        Some(_) => Ok(()),
    }
}

/// An object without members of other names.
pub fn no_other_names<N: KnownNames>(
    alloc: Global,
    whole: &Value,
    names: &N,
) -> Result<(), ReadError>
    ensures { Gives result (names_from (N.knows names.now) (as_object (view whole.now))) }
{
    match whole.as_object() {
        None => fault_here(alloc, ScenarioKind::BadValue),
        Some(members) => no_others(alloc, members, names),
    }
}

fn no_others<N: KnownNames>(
    alloc: Global,
    members: &Map<String, Value>,
    names: &N,
) -> Result<(), ReadError>
    ensures { Gives result (names_read (N.knows names.now) (members_view members.now.entries)) }
{
    for (name, _) in members {
        if !names.knows(name.as_str()) {
            let step = named(alloc, name.as_str())?;
            return fault_at(alloc, ScenarioKind::Unknown, step);
        }
    }
    Ok(())
}
