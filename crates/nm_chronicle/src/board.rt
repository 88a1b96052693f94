//! The board: a line for each change set.

ghost use Rattle.std.specs.Prelude.{◌≡◌, slice_get, option_copied, ◌-◌};

use crate::line::BoardLine;
use nm_base::ChangeNo;
use std::marker::Model;

/// The board of a run.
#[derive(Drop)]
pub struct Board {
    pub(crate) devices: u8,
    pub(crate) lines: Vec<BoardLine>,
}

impl Model for Board {
    ghost use Rattle.nm_chronicle.specs.Board.{BoardState};

    ghost Value = { BoardState };

    ghost view = { λ b. record { devices = b.devices; lines = b.lines.items } };
}

impl Board {
    /// How many devices the run has.
    pub fn devices(&self) -> u8
        ensures { result ≡ self.now.devices }
    {
        self.devices
    }

    /// The lines, in the order of the change sets.
    pub fn lines(&self) -> &[BoardLine]
        ensures { result.now ≡ self.now.lines }
    {
        self.lines.as_slice()
    }

    /// The line of a change set, and None where the run has no such change set.
    pub fn line(&self, change: ChangeNo) -> Option<&BoardLine>
        ensures { option_copied result ≡ slice_get self.now.lines (change - 1) }
    {
        self.lines.as_slice().get(change.get() as usize - 1)
    }
}
