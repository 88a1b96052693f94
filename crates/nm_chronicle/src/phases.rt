//! The phases of all change sets at a device.

ghost use Rattle.std.specs.Prelude.{◌≡◌, ◌≤◌, ◌<◌, ◌+◌, ◌++◌, ◌∷◌, List, [], Some, IfOk, length};
ghost use Rattle.nm_history.specs.Effect.{noted_effect, effect_of, effect_if, effect_of_commit, is_done_reply};
ghost use Rattle.nm_history.specs.Effect.Effect.{Begins, Ends, Undoes};
ghost use Rattle.std.specs.List.{sum_by};
ghost use Rattle.nm_base.specs.Token.{token_of};
ghost use Rattle.nm_history.specs.Outcome.{outcome_of};
ghost use Rattle.nm_chronicle.specs.Line.{phase_weight};
ghost use Rattle.nm_chronicle.specs.Board.{noted};
ghost use Rattle.nm_chronicle.specs.Phases.{Follow, Goes, GoesAlong, fresh_phases, phase_at, begun_by, begun_by_call, called, come_to, outcome_phase, finished_effect, finished_phase, finished_mark};

use crate::token::named_by;
use crate::waiting::Waiting;
use crate::{CellShare, Chronicle, Mark};
use nm_base::{ChangeNo, DeviceNo, Label, NoMemory};
use nm_history::{DeviceEvent, Noted, Undoing};
use nm_proto::{Reply, Request};
use nm_run_plan::RunPlans;
use std::alloc::Global;
use std::marker::Model;

/// How far each change set has come at a device, with the device's share of the run's ledger.
#[derive(Drop)]
pub struct Phases<N: RunPlans> {
    // Of each change set there may be.
    phases: Vec<u8>,
    waiting: Waiting,
    share: CellShare<N>,
}

impl<N: RunPlans> Model for Phases<N> {
    ghost use Rattle.nm_chronicle.specs.Phases.{PhasesState, AreCounted};

    ghost Value = { PhasesState };

    ghost view = { λ p. record { phases = p.phases.items; waiting = p.waiting } };

    ghost invariant = { λ p. AreCounted (record { phases = p.phases.items; waiting = p.waiting }) p.share };
}

impl<N: RunPlans> Phases<N> {
    /// The phases at a device where nothing has happened yet.
    pub fn new(alloc: Global, share: CellShare<N>) -> Result<Phases<N>, NoMemory>
        requires share { share ≡ 0 }
        ensures fresh { IfOk result (λ phases. phases ≡ fresh_phases) }
        ensures follow { IfOk result (λ phases. Follow phases []) }
    {
        Ok(Phases {
            phases: vec![in alloc; 0u8; 64]?,
            waiting: Waiting::Nothing,
            share,
        })
    }

    /// The phase of a change set: 0 none, 1 applied, 2 confirmed, 3 undone by a timer, the end of a session or a restart,
    /// 4 cancelled. It is that of the change set's outcome by the history that the phases follow. It takes no memory.
    pub fn phase(&self, change: ChangeNo) -> u8
        ensures phase { result ≡ phase_at self.now change }
        ensures follows { (history : List Noted) → Follow self.now history → result ≡ outcome_phase (outcome_of (token_of change) history) }
    {
        self.phases[place_of(change)]
    }

    /// The device's share. It takes no memory.
    pub fn into_share(self) -> CellShare<N>
        ensures { result ≡ sum_by phase_weight self.phases }
    {
        let Phases {
            phases,
            waiting: _,
            share,
        } = self;
        drop(phases);
        share
    }

    /// Goes on with the entries that a device's history gained, each of which makes one call on the board at most. It takes
    /// no memory.
    pub fn tell(&mut self, board: &mut Chronicle<N>, device: DeviceNo, entries: &[Noted])
        requires room { length entries.now ≤ board.old.spare }
        ensures goes { GoesAlong self.old self.new board.old board.new device entries.now }
        ensures follow { (history : List Noted) → Follow self.old history → Follow self.new (history ++ entries.now) }
        ensures room { board.old.spare ≤ board.new.spare + length entries.now }
    {
        for entry in entries {
            self.note(board, device, entry);
        }
    }

    /// Goes on with one entry of the device's history.
    pub fn note(&mut self, board: &mut Chronicle<N>, device: DeviceNo, entry: &Noted)
        requires room { 1 ≤ board.old.spare }
        ensures goes { Goes self.old self.new board.old board.new device (noted_effect entry.now) }
        ensures follow { (history : List Noted) → Follow self.old history → Follow self.new (history ++ entry.now ∷ []) }
        ensures room { board.old.spare ≤ board.new.spare + 1 }
    {
        let _ = &self.phases;
        self.go(board, device, entry)
    }

    // The same, by what the entry tells.
    fn go(&mut self, board: &mut Chronicle<N>, device: DeviceNo, entry: &Noted)
        requires room { 1 ≤ board.old.spare }
        ensures { Goes self.old self.new board.old board.new device (noted_effect entry.now) }
    {
        match &entry.event {
            DeviceEvent::Asked { request, .. } => {
                self.ask(board, device, request, is_done(&entry.reply), entry.undone)
            }
            DeviceEvent::Entered { .. } => {}
            DeviceEvent::Lost { .. } => self.undo_if(board, device, entry.undone, Undoing::End),
            DeviceEvent::Advanced { .. } => {
                self.undo_if(board, device, entry.undone, Undoing::Timer)
            }
            DeviceEvent::Restarted => {
                self.undo_if(board, device, entry.undone, Undoing::Restart)
            }
        }
    }
}

// By what an entry tells.
impl<N: RunPlans> Phases<N> {
    // A request, with whether it was done and whether it undid what waited.
    fn ask(
        &mut self,
        board: &mut Chronicle<N>,
        device: DeviceNo,
        request: &Request,
        done: bool,
        undone: bool,
    )
        requires room { 1 ≤ board.old.spare }
        ensures { Goes self.old self.new board.old board.new device (effect_of request.now done undone) }
    {
        match request {
            Request::Commit {
                confirmed,
                persist,
                ..
            } => self.commit_if(board, device, done, *confirmed, persist),
            Request::CancelCommit { .. } => self.undo_if(board, device, done, Undoing::Cancel),
            Request::Kill { .. } => self.undo_if(board, device, undone, Undoing::End),
            Request::CloseSession => self.undo_if(board, device, undone, Undoing::End),
            _ => {}
        }
    }

    // A commit, where it was done.
    fn commit_if(
        &mut self,
        board: &mut Chronicle<N>,
        device: DeviceNo,
        done: bool,
        confirmed: bool,
        persist: &Option<Label>,
    )
        requires room { 1 ≤ board.old.spare }
        ensures { Goes self.old self.new board.old board.new device (effect_if done (effect_of_commit confirmed persist.now)) }
    {
        if !done {
            return;
        }
        if !confirmed {
            return self.finish(board, device, None);
        }
        self.begin(board, device, persist)
    }

    // What waited was undone, or nothing was.
    fn undo_if(&mut self, board: &mut Chronicle<N>, device: DeviceNo, undone: bool, by: Undoing)
        requires room { 1 ≤ board.old.spare }
        ensures { Goes self.old self.new board.old board.new device (effect_if undone (Undoes by)) }
    {
        if !undone {
            return;
        }
        self.finish(board, device, Some(by))
    }

    // A confirmed commit begins, or goes on with what waits.
    fn begin(&mut self, board: &mut Chronicle<N>, device: DeviceNo, persist: &Option<Label>)
        requires room { 1 ≤ board.old.spare }
        ensures { Goes self.old self.new board.old board.new device (Begins persist.now) }
    {
        match &self.waiting {
            Waiting::Nothing => self.begin_as(board, device, named_by(persist)),
            Waiting::Other => {}
            Waiting::Of { .. } => {}
        }
    }

    // A confirmed commit begins, of the change set that its token names.
    fn begin_as(&mut self, board: &mut Chronicle<N>, device: DeviceNo, named: Option<ChangeNo>)
        requires room { 1 ≤ board.old.spare }
        ensures phases { self.new ≡ begun_by self.old named }
        ensures board { board.new ≡ called board.old (begun_by_call self.old device named) }
    {
        match named {
            Some(change) => {
                if self.phase(change) != 0 {
                    self.waiting = Waiting::Other;
                    return;
                }
                self.apply(board, device, change)
            }
            None => self.waiting = Waiting::Other,
        }
    }

    // What waits comes to an end: it is confirmed, or undone by something.
    fn finish(&mut self, board: &mut Chronicle<N>, device: DeviceNo, by: Option<Undoing>)
        requires room { 1 ≤ board.old.spare }
        ensures { Goes self.old self.new board.old board.new device (finished_effect by) }
    {
        match &self.waiting {
            Waiting::Nothing => {}
            Waiting::Other => self.waiting = Waiting::Nothing,
            Waiting::Of { change } => {
                let change = *change;
                self.leave(board, device, change, by)
            }
        }
    }
}

// The calls on the board.
impl<N: RunPlans> Phases<N> {
    // The first confirmed commit of a change set waits.
    fn apply(&mut self, board: &mut Chronicle<N>, device: DeviceNo, change: ChangeNo)
        requires room { 1 ≤ board.old.spare }
        requires first { phase_at self.old change ≡ 0 }
        ensures phases { self.new ≡ come_to self.old change 1 (Waiting.Of change) }
        ensures board { board.new ≡ noted board.old change (Mark.Applied device) }
    {
        let Phases {
            phases,
            waiting,
            share,
        } = self;
        board.applied(change, device, share);
        phases[place_of(change)] = 1;
        *waiting = Waiting::Of { change };
    }

    // The change set that waits is confirmed, or undone by something.
    fn leave(
        &mut self,
        board: &mut Chronicle<N>,
        device: DeviceNo,
        change: ChangeNo,
        by: Option<Undoing>,
    )
        requires room { 1 ≤ board.old.spare }
        requires waits { phase_at self.old change ≡ 1 }
        ensures phases { self.new ≡ come_to self.old change (finished_phase by) Waiting.Nothing }
        ensures board { board.new ≡ noted board.old change (finished_mark device by) }
    {
        let Phases {
            phases,
            waiting,
            share,
        } = self;
        call(board, share, change, device, by);
        phases[place_of(change)] = phase_after(by);
        *waiting = Waiting::Nothing;
    }
}

// Tells the board what became of a change set that waited.
fn call<N: RunPlans>(
    board: &mut Chronicle<N>,
    share: &mut CellShare<N>,
    change: ChangeNo,
    device: DeviceNo,
    by: Option<Undoing>,
)
    requires room { 1 ≤ board.old.spare }
    ensures board { board.new ≡ noted board.old change (finished_mark device by) }
    ensures share { share.new ≡ share.old + 1 }
{
    match by {
        None => board.confirmed(change, device, share),
        Some(Undoing::Cancel) => board.cancelled(change, device, share),
        Some(Undoing::End) => board.undone(change, device, share),
        Some(Undoing::Timer) => board.undone(change, device, share),
        Some(Undoing::Restart) => board.undone(change, device, share),
    }
}

// The phase of a change set that waited, once it is confirmed, or undone by something.
fn phase_after(by: Option<Undoing>) -> u8
    ensures { result ≡ finished_phase by }
{
    match by {
        None => 2,
        Some(Undoing::Cancel) => 4,
        Some(Undoing::End) => 3,
        Some(Undoing::Timer) => 3,
        Some(Undoing::Restart) => 3,
    }
}

// The place of a change set among all, from 0.
fn place_of(change: ChangeNo) -> usize
    ensures place { result + 1 ≡ change }
    ensures low { 1 ≤ change }
    ensures few { result < 64 }
{
    change.get() as usize - 1
}

// Whether a reply is Done.
fn is_done(reply: &Option<Reply>) -> bool
    ensures { result ≡ is_done_reply reply.now }
{
    matches!(reply, Some(Reply::Done))
}
