//! The board with the calls that it couldn't take, and the ledger's sum of all calls.

ghost use Rattle.std.specs.Prelude.{◌≡◌, ◌≤◌, ◌<◌, ◌+◌, ◌^◌, None, OnOk, OnErr, length, vec_capacity};
ghost use Rattle.std.specs.List.{All};
ghost use Rattle.nm_chronicle.specs.Line.{LineHolds, weight_of};
ghost use Rattle.nm_chronicle.specs.Board.{BoardHolds, MarksLines, MarksBoard, counted, noted, with_room};
ghost use Rattle.nm_chronicle.specs.Shares.{slot_asked, slot_acked, slot_decided};

use crate::board::Board;
use crate::line::BoardLine;
use crate::mark::{Mark, Stray};
use crate::shares::{BookShare, CellShare, SlotShares};
use nm_base::{ChangeNo, DeviceNo, NoMemory};
use nm_proto::Verdict;
use nm_run_plan::RunPlans;
use std::marker::Model;
use std::sync::ledger::{Book, Share};

/// The board of a run, with the calls that it couldn't take, and the sum of all calls in the run's ledger.
#[derive(Drop)]
pub struct Chronicle<N: RunPlans> {
    pub(crate) board: Board,
    pub(crate) strays: Vec<Stray>,
    // How many more strays there is room for, at least.
    pub(crate) spare: usize,
    pub(crate) book: Book<N>,
}

impl<N: RunPlans> Model for Chronicle<N> {
    ghost use Rattle.std.specs.Prelude.{◌≡◌, ◌≤◌, ◌+◌, length, vec_capacity};
    ghost use Rattle.nm_chronicle.specs.Board.{ChronicleState, BoardHolds, counted};

    ghost Value = { ChronicleState };

    ghost view = { λ c. record { board = c.board; strays = c.strays.items; spare = c.spare; total = c.book.total } };

    ghost invariant = { λ c. BoardHolds N.devices N.changes c.board × (c.book.total ≡ counted c.board.lines c.strays.items)
        × (c.spare + length c.strays.items ≤ vec_capacity c.strays) };
}

impl<N: RunPlans> Chronicle<N> {
    /// The board. It takes no memory.
    pub fn board(&self) -> &Board
        ensures board { result.now ≡ self.now.board }
        ensures holds { BoardHolds N.devices N.changes result.now }
        ensures counted { self.now.total ≡ counted result.now.lines self.now.strays }
    {
        &self.board
    }

    /// The calls that the board couldn't take, oldest first. It takes no memory.
    pub fn strays(&self) -> &[Stray]
        ensures { result.now ≡ self.now.strays }
    {
        self.strays.as_slice()
    }

    /// Makes room for four calls. Each call uses up one place.
    pub fn room(&mut self) -> Result<(), NoMemory>
        ensures ok { OnOk result (self.new ≡ with_room self.old) }
        ensures err { OnErr result (self.new ≡ self.old) }
    {
        if self.spare >= 4 {
            return Ok(());
        }
        self.strays.reserve(4)?;
        self.spare = 4;
        Ok(())
    }
}

// The calls. None takes memory.
impl<N: RunPlans> Chronicle<N> {
    /// A device is asked for the confirmed commit of a change set.
    pub fn asked(&mut self, change: ChangeNo, device: DeviceNo, slot: &mut SlotShares<N>)
        requires room { 1 ≤ self.old.spare }
        requires few { slot.old.asked + 1 < 2 ^ 32 }
        ensures noted { self.new ≡ noted self.old change (Mark.Asked device) }
        ensures slot { slot.new ≡ slot_asked slot.old }
    {
        self.note(change, Mark::Asked { device }, &mut slot.share);
        slot.asked += 1;
    }

    /// A device did that commit.
    pub fn applied(&mut self, change: ChangeNo, device: DeviceNo, cell: &mut CellShare<N>)
        requires room { 1 ≤ self.old.spare }
        ensures noted { self.new ≡ noted self.old change (Mark.Applied device) }
        ensures cell { cell.new ≡ cell.old + 1 }
    {
        self.note(change, Mark::Applied { device }, &mut cell.share);
    }

    /// The reply to it came.
    pub fn acked(&mut self, change: ChangeNo, device: DeviceNo, slot: &mut SlotShares<N>)
        requires room { 1 ≤ self.old.spare }
        requires few { slot.old.acked + 1 < 2 ^ 32 }
        ensures noted { self.new ≡ noted self.old change (Mark.Acked device) }
        ensures slot { slot.new ≡ slot_acked slot.old }
    {
        self.note(change, Mark::Acked { device }, &mut slot.share);
        slot.acked += 1;
    }

    /// The verdict of a change set stands.
    pub fn decided(
        &mut self,
        change: ChangeNo,
        verdict: Verdict,
        slot: &mut SlotShares<N>,
        book: &mut BookShare<N>,
    )
        requires room { 1 ≤ self.old.spare }
        requires undecided { slot.old.verdict ≡ None }
        ensures noted { self.new ≡ noted self.old change (Mark.Decided verdict) }
        ensures slot { slot.new ≡ slot_decided slot.old verdict }
        ensures book { book.new ≡ book.old + 1 }
    {
        let Chronicle {
            board,
            strays,
            spare,
            book: total,
        } = self;
        let kept = again(&verdict);
        mark_board(&mut board.lines, strays, change, Mark::Decided { verdict });
        *spare -= 1;
        total.add(&mut slot.share, 1);
        total.add(&mut book.share, 1);
        slot.verdict = Some(kept);
    }

    /// A device confirmed its commit.
    pub fn confirmed(&mut self, change: ChangeNo, device: DeviceNo, cell: &mut CellShare<N>)
        requires room { 1 ≤ self.old.spare }
        ensures noted { self.new ≡ noted self.old change (Mark.Confirmed device) }
        ensures cell { cell.new ≡ cell.old + 1 }
    {
        self.note(change, Mark::Confirmed { device }, &mut cell.share);
    }

    /// A timer, the end of a session or a restart undid it.
    pub fn undone(&mut self, change: ChangeNo, device: DeviceNo, cell: &mut CellShare<N>)
        requires room { 1 ≤ self.old.spare }
        ensures noted { self.new ≡ noted self.old change (Mark.Undone device) }
        ensures cell { cell.new ≡ cell.old + 1 }
    {
        self.note(change, Mark::Undone { device }, &mut cell.share);
    }

    /// A cancel undid it.
    pub fn cancelled(&mut self, change: ChangeNo, device: DeviceNo, cell: &mut CellShare<N>)
        requires room { 1 ≤ self.old.spare }
        ensures noted { self.new ≡ noted self.old change (Mark.Cancelled device) }
        ensures cell { cell.new ≡ cell.old + 1 }
    {
        self.note(change, Mark::Cancelled { device }, &mut cell.share);
    }

    // One call of one caller.
    fn note(&mut self, change: ChangeNo, mark: Mark, share: &mut Share<N>)
        requires room { 1 ≤ self.old.spare }
        requires part { share.old.parts ≡ 1 }
        requires once { weight_of mark ≡ 1 }
        ensures noted { self.new ≡ noted self.old change mark }
        ensures amount { share.new.amount ≡ share.old.amount + 1 }
        ensures parts { share.new.parts ≡ 1 }
    {
        let Chronicle {
            board,
            strays,
            spare,
            book,
        } = self;
        mark_board(&mut board.lines, strays, change, mark);
        *spare -= 1;
        book.add(share, 1);
    }
}

// Marks the line of a change set, or keeps the call as a stray.

fn mark_board(lines: &mut Vec<BoardLine>, strays: &mut Vec<Stray>, change: ChangeNo, mark: Mark)
    requires holds { All LineHolds lines.old.items }
    requires room { length strays.old.items < vec_capacity strays.old }
    ensures marks { MarksBoard lines.old.items lines.new.items strays.old.items strays.new.items change mark }
    ensures capacity { vec_capacity strays.new ≡ vec_capacity strays.old }
{
    if !mark_line(lines, change, &mark) {
        strays.push_reserved(Stray { change, mark });
    }
}

// Marks the line of a change set, and tells whether it could.

fn mark_line(lines: &mut Vec<BoardLine>, change: ChangeNo, mark: &Mark) -> bool
    requires holds { All LineHolds lines.old.items }
    ensures { MarksLines result lines.old.items lines.new.items change mark.now }
{
    match lines.get_mut(change.get() as usize - 1) {
        Some(line) => line.take(mark),
        None => false,
    }
}

// The same verdict.
fn again(verdict: &Verdict) -> Verdict
    ensures { result ≡ verdict.now }
{
    *verdict
}
