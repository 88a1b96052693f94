//! Objects whose members have any names.

ghost use Rattle.std.specs.Prelude.{◌≡◌, ℕ, List, [], Some};
ghost use Rattle.serde_json.specs.View.{view, members_view};
ghost use Rattle.serde_json.specs.Find.{as_object};
ghost use Rattle.nm_scenario_form.specs.Form.{Form};
ghost use Rattle.nm_scenario_form.specs.Reading.{Gives};
ghost use Rattle.nm_scenario_form.specs.Read.{read};
ghost use Rattle.nm_access_form.specs.Entries.{entries, entries_all, entries_in, entries_read};

use nm_proto::Listed;
use nm_scenario_form::places::fault_here;
use nm_scenario_form::{ReadError, Reader, ScenarioKind, required};
use serde_json::{Map, Value};
use std::alloc::Global;

/// Reads one member of an object, by its name.
pub trait EntryReader {
    type Out: Drop;

    /// The form of a member, by its name.
    ghost form: { Self → List ℕ → Form Self.Out };

    fn read(&self, alloc: Global, name: &str, part: &Value) -> Result<Self::Out, ReadError>
        ensures { Gives result (read (form self.now name.now) (view part.now)) };
}

// The member of a name.
#[derive(Drop)]
struct Entry<'a, R> {
    name: &'a str,
    reader: &'a R,
}

impl<'a, R: EntryReader> Reader for Entry<'a, R> {
    type Out = R::Out;

    ghost form = { λ e. R.form e.reader.now e.name.now };

    fn read(&self, alloc: Global, part: &Value) -> Result<R::Out, ReadError> {
        self.reader.read(alloc, self.name, part)
    }
}

/// An object of at most so many members: what each says, in the order of their names.
#[tactic(auto, unfolding(crate::specs::Entries::entries))]
pub fn read_entries<R: EntryReader>(
    alloc: Global,
    whole: &Value,
    most: usize,
    reader: &R,
) -> Result<Listed<R::Out>, ReadError>
    ensures { Gives result (read (entries most (R.form reader.now)) (view whole.now)) }
{
    match whole.as_object() {
        None => fault_here(alloc, ScenarioKind::BadValue),
        Some(members) => read_within(alloc, whole, members, most, reader),
    }
}

#[tactic(auto, using(crate::proofs::Counts::member_count_is))]
fn read_within<R: EntryReader>(
    alloc: Global,
    whole: &Value,
    members: &Map<String, Value>,
    most: usize,
    reader: &R,
) -> Result<Listed<R::Out>, ReadError>
    requires { as_object (view whole.now) ≡ Some (members_view members.now.entries) }
    ensures { Gives result (read (entries_in most (R.form reader.now) (members_view members.now.entries)) (view whole.now)) }
{
    if members.len() > most {
        return fault_here(alloc, ScenarioKind::TooMany);
    }
    read_all(alloc, whole, members, reader)
}

fn read_all<R: EntryReader>(
    alloc: Global,
    whole: &Value,
    members: &Map<String, Value>,
    reader: &R,
) -> Result<Listed<R::Out>, ReadError>
    requires { as_object (view whole.now) ≡ Some (members_view members.now.entries) }
    ensures { Gives result (read (entries_all (R.form reader.now) (members_view members.now.entries)) (view whole.now)) }
{
    read_each(alloc, whole, members, reader)
}

fn read_each<R: EntryReader>(
    alloc: Global,
    whole: &Value,
    members: &Map<String, Value>,
    reader: &R,
) -> Result<Listed<R::Out>, ReadError>
    ensures { Gives result (entries_read (λ name part. read (R.form reader.now name) part) (view whole.now) [] (members_view members.now.entries)) }
{
    let mut found = Listed::new(alloc);
    for (name, _) in members {
        let entry = Entry {
            name: name.as_str(),
            reader,
        };
        let value = required(alloc, whole, name.as_str(), &entry)?;
        found.push(value)?;
    }
    Ok(found)
}
