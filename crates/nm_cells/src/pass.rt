//! What one caller keeps of its own calls.

ghost use Rattle.std.specs.Prelude.{◌≡◌};

use nm_base::{ChangeNo, DeviceNo};
use nm_history::Noted;
use std::alloc::Global;
use std::marker::Model;

/// Whose calls they are.
#[derive(Clone, Copy, PartialEq, Eq)]
pub enum PassOwner {
    /// The coordinator of a change set.
    Coordinator { change: ChangeNo },
    /// An operator, by its number from 1.
    Operator { operator: u32 },
}

/// One entry of a device's history, as a caller found it.
#[derive(Drop)]
pub struct PassEntry {
    pub device: DeviceNo,
    /// The place of the entry in the device's history, from 1, and 0 where it has none.
    pub position: u32,
    pub noted: Noted,
}

/// The entries of one caller, oldest first.
#[derive(Drop)]
pub struct Pass {
    pub(crate) owner: PassOwner,
    // Only the calls of this crate add to them, so each is one that a device gave.
    pub(crate) entries: Vec<PassEntry>,
}

impl Model for Pass {
    ghost use Rattle.nm_cells.specs.Pass.{PassState};

    ghost Value = { PassState };

    ghost view = { λ p. record { owner = p.owner; entries = p.entries.items } };
}

impl Pass {
    ghost use Rattle.nm_cells.specs.Pass.{fresh_pass};

    /// A pass without entries. It takes no memory.
    pub fn new(alloc: Global, owner: PassOwner) -> Pass
        ensures { result ≡ fresh_pass owner }
    {
        Pass {
            owner,
            entries: Vec::new(alloc),
        }
    }

    /// Whose it is.
    pub fn owner(&self) -> PassOwner
        ensures { result ≡ self.now.owner }
    {
        self.owner
    }

    /// The entries, oldest first.
    pub fn entries(&self) -> &[PassEntry]
        ensures { result.now ≡ self.now.entries }
    {
        self.entries.as_slice()
    }
}
