//! The beginning of a run's ledger: its chronicle and its shares.

ghost use Rattle.std.specs.Prelude.{◌≡◌, ◌≤◌, ◌<◌, ◌+◌, ℕ, List, IfOk, length, map, replicate};
ghost use Rattle.nm_chronicle.specs.Line.{fresh_line};
ghost use Rattle.nm_chronicle.specs.Board.{devices_of, fresh_chronicle, BoardHolds};
ghost use Rattle.nm_chronicle.specs.Shares.{fresh_slot};

use crate::board::Board;
use crate::chronicle::Chronicle;
use crate::line::BoardLine;
use crate::shares::{BookShare, CellShare, Shares, SlotShares};
use nm_base::NoMemory;
use nm_proto::ChangePlan;
use nm_run_plan::RunPlans;
use std::alloc::Global;
use std::sync::ledger::{Blank, Share};

impl<N: RunPlans> Chronicle<N> {
    /// The chronicle of a run in which nothing has happened yet, and all that its callers keep: the ledger is split into
    /// a slot for each change set, a share for each device and the journal's.
    pub fn reserve(
        alloc: Global,
        blank: Blank,
        changes: &[ChangePlan],
        devices: u8,
    ) -> Result<(Chronicle<N>, Shares<N>), NoMemory>
        requires name { blank.name ≡ N.name }
        requires parts { blank.parts ≡ N.parts }
        requires one_each { blank.parts ≡ length changes.now + devices + 1 }
        requires changes { changes.now ≡ N.changes }
        requires devices { devices ≡ N.devices }
        ensures chronicle { IfOk result (λ r. r.0 ≡ fresh_chronicle devices changes.now) }
        ensures slots { IfOk result (λ r. r.1.slots.items ≡ replicate (length changes.now) fresh_slot) }
        ensures cells { IfOk result (λ r. r.1.cells.items ≡ replicate devices 0) }
        ensures book { IfOk result (λ r. r.1.book ≡ 0) }
    {
        let (book, mut rest) = blank.open::<N>();
        let slots = slots_of(alloc, changes.len(), &mut rest)?;
        let cells = cells_of(alloc, devices as usize, &mut rest)?;
        let lines = lines_of(alloc, changes, devices)?;
        let chronicle = Chronicle {
            board: Board { devices, lines },
            strays: Vec::new(alloc),
            spare: 0,
            book,
        };
        let shares = Shares {
            slots,
            cells,
            book: BookShare { share: rest },
        };
        Ok((chronicle, shares))
    }
}

// A line for each change set.
fn lines_of(alloc: Global, changes: &[ChangePlan], devices: u8) -> Result<Vec<BoardLine>, NoMemory>
    ensures { IfOk result (λ lines. lines.items ≡ map (λ plan. fresh_line devices (devices_of plan)) changes.now) }
{
    let mut lines = Vec::with_capacity(alloc, changes.len())?;
    for plan in changes {
        lines.push(BoardLine::new(alloc, plan.devices(), devices)?)?;
    }
    Ok(lines)
}

// A slot for each change set.
fn slots_of<N: RunPlans>(
    alloc: Global,
    count: usize,
    rest: &mut Share<N>,
) -> Result<Vec<SlotShares<N>>, NoMemory>
    requires parts { count < rest.old.parts }
    requires amount { rest.old.amount ≡ 0 }
    ensures slots { IfOk result (λ slots. slots.items ≡ replicate count fresh_slot) }
    ensures parts { IfOk result (λ slots. rest.new.parts + count ≡ rest.old.parts) }
    ensures amount { rest.new.amount ≡ 0 }
{
    let mut slots = Vec::with_capacity(alloc, count)?;
    for made in 0..count {
        slots.push(SlotShares {
            asked: 0,
            acked: 0,
            verdict: None,
            share: rest.split_off(1, 0),
        })?;
    }
    Ok(slots)
}

// A share for each device.
fn cells_of<N: RunPlans>(
    alloc: Global,
    count: usize,
    rest: &mut Share<N>,
) -> Result<Vec<CellShare<N>>, NoMemory>
    requires parts { count < rest.old.parts }
    requires amount { rest.old.amount ≡ 0 }
    ensures cells { IfOk result (λ cells. cells.items ≡ replicate count 0) }
    ensures parts { IfOk result (λ cells. rest.new.parts + count ≡ rest.old.parts) }
    ensures amount { rest.new.amount ≡ 0 }
{
    let mut cells = Vec::with_capacity(alloc, count)?;
    for made in 0..count {
        cells.push(CellShare {
            share: rest.split_off(1, 0),
        })?;
    }
    Ok(cells)
}
