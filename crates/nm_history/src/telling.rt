//! Devices with what their histories tell of outcomes: each history is gone through once, for the outcomes of all change sets.

ghost use Rattle.std.specs.Prelude.{◌≡◌, filter, map, IfOk};
ghost use Rattle.nm_history.specs.Effect.{tells};

use crate::event::Noted;
use crate::outcome::{Outcome, outcome_by, tells};
use crate::recorded::Recorded;
use nm_base::{Label, NoMemory};
use nm_proto::Content;
use std::alloc::Global;
use std::marker::Model;

/// A device with its history, and the entries of that at which something became of a commit: no other changes an outcome.
pub struct Telling<'d, C: Content> {
    recorded: &'d Recorded<C>,
    // Oldest first.
    entries: Vec<&'d Noted>,
}

impl<'d, C: Content> Drop for Telling<'d, C> {
    fn drop(self) {
        let Telling {
            recorded: _,
            entries,
        } = self;
        drop(entries);
    }
}

impl<'d, C: Content> Model for Telling<'d, C> {
    ghost use Rattle.std.specs.Prelude.{◌≡◌, filter, map};
    ghost use Rattle.nm_history.specs.Effect.{tells};
    ghost use Rattle.nm_history.specs.History.{RecordedState};

    ghost Value = { RecordedState C.Config C.Node };

    ghost view = { λ t. t.recorded.now };

    ghost invariant = { λ t. map (λ entry. entry.now) t.entries.items ≡ filter tells t.recorded.now.history };
}

impl<'d, C: Content> Telling<'d, C> {
    ghost use Rattle.nm_history.specs.Outcome.{outcome_of};

    // It goes through the history.
    fn new(alloc: Global, recorded: &'d Recorded<C>) -> Result<Telling<'d, C>, NoMemory>
        ensures { IfOk result (λ telling. telling ≡ recorded.now) }
    {
        let entries = entries_of(alloc, recorded.history())?;
        Ok(Telling { recorded, entries })
    }

    /// The device with its history.
    pub fn recorded(&self) -> &Recorded<C>
        ensures { result.now ≡ self.now }
    {
        self.recorded
    }

    /// The outcome of the change set with this token at the device.
    pub fn outcome(&self, token: &Label) -> Outcome
        ensures { result ≡ outcome_of token.now self.now.history }
    {
        outcome_by(token, self.entries.as_slice())
    }
}

// The entries of a history at which something became of a commit.
fn entries_of(alloc: Global, history: &[Noted]) -> Result<Vec<&Noted>, NoMemory>
    ensures { IfOk result (λ entries. map (λ entry. entry.now) entries.items ≡ filter tells history.now) }
{
    let mut entries = Vec::new(alloc);
    for entry in history {
        if tells(entry) {
            entries.push(entry)?;
        }
    }
    Ok(entries)
}

/// Devices with what their histories tell. Each history is gone through once.
pub fn tellings_of<C: Content>(
    alloc: Global,
    devices: &[Recorded<C>],
) -> Result<Vec<Telling<C>>, NoMemory>
    ensures { IfOk result (λ tellings. tellings.items ≡ devices.now) }
{
    let mut tellings = Vec::with_capacity(alloc, devices.len())?;
    for device in devices {
        tellings.push(Telling::new(alloc, device)?)?;
    }
    Ok(tellings)
}
