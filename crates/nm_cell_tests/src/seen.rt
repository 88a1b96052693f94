//! What is seen of a run at its end.

use crate::begun::{Rest, device_of};
use crate::play::{halves, is_number};
use nm_base::{ChangeNo, SessionId};
use nm_cells::{CellState, Pass};
use nm_chronicle::Chronicle;
use nm_flat::{FlatConfig, FlatContent, FlatEdit};
use nm_history::{DeviceEvent, Noted};
use nm_proto::Verdict;
use nm_run_plan::{RunName, RunPlans};
use std::process::Abort;
use std::sync::Wait;

// Whether an entry stands in a history, at its place.
fn is_entry(history: &[Noted], position: u32, entry: &Noted) -> bool {
    if position == 0 {
        return false;
    }
    match history.get(position as usize - 1) {
        Some(noted) => noted.same(entry),
        None => false,
    }
}

// Whether each entry of a pass does.
fn is_found(pass: &Pass, history: &[Noted]) -> bool {
    for entry in pass.entries() {
        if !is_entry(history, entry.position, &entry.noted) {
            return false;
        }
    }
    true
}

// Whether a history ends with the loss of session 1.
fn is_lost(rt: &impl Abort, history: &[Noted]) -> bool {
    let session = SessionId::new(1).expect(rt, "1");
    match history.last() {
        Some(last) => last.event.same(&DeviceEvent::Lost { session }),
        None => false,
    }
}

// What device 1 tells, and whether all that callers found is in its history.
fn at_device<N: RunName<FlatContent, FlatConfig, FlatEdit>>(
    rt: &impl Abort,
    cell: &CellState<FlatContent, N>,
    rest: &Rest<N>,
    change: ChangeNo,
    name: &str,
) -> Option<u64> {
    let history = cell.history();
    match name {
        "history" => Some(history.len() as u64),
        "clock" => Some(cell.device().clock()),
        "phase" => Some(u64::from(cell.phase(change))),
        "lost" => Some(u64::from(is_lost(rt, history))),
        "found" => Some(u64::from(is_found(&rest.pass, history) && is_found(&rest.other, history))),
        _ => None,
    }
}

// What callers have: two passes, the phases that follow the history of device 2, and the coordinator's slot.
fn at_callers<N: RunPlans>(rest: &Rest<N>, change: ChangeNo, name: &str) -> Option<u64> {
    match name {
        "pass" => Some(rest.pass.entries().len() as u64),
        "other" => Some(rest.other.entries().len() as u64),
        "followed" => Some(u64::from(rest.phases.phase(change))),
        "slot" => Some(u64::from(rest.slot.acked())),
        _ => None,
    }
}

// What the board tells of change set 1, and how many calls it couldn't take.
fn at_board<N: RunPlans>(
    rt: &impl Abort,
    board: &Chronicle<N>,
    change: ChangeNo,
    name: &str,
) -> Option<u64> {
    let line = board.board().line(change)?;
    let (name, device) = halves(name, ":");
    match name {
        "asked" => Some(u64::from(line.asked())),
        "acked" => Some(u64::from(line.acked())),
        "decided" => Some(u64::from(line.verdict().is_some())),
        "commit" => Some(u64::from(line.verdict() == Some(Verdict::Commit))),
        "strays" => Some(board.strays().len() as u64),
        "board" => Some(u64::from(line.phase(device_of(rt, device)))),
        _ => None,
    }
}

// Whether a word is so, as `history=3`.
fn is_so<N: RunName<FlatContent, FlatConfig, FlatEdit>, R: Wait + Abort>(
    rt: &R,
    cell: &CellState<FlatContent, N>,
    rest: &Rest<N>,
    word: &str,
) -> bool {
    let (name, want) = halves(word, "=");
    let change = ChangeNo::new(1).expect(rt, "1");
    let told = at_device(rt, cell, rest, change, name).or(at_callers(rest, change, name));
    match told {
        Some(number) => is_number(number, want),
        None => {
            let board = rest.chronicle.lock(rt);
            match at_board(rt, &board, change, name) {
                Some(number) => is_number(number, want),
                None => false,
            }
        }
    }
}

// Whether all words are.
pub(crate) fn are_so<N: RunName<FlatContent, FlatConfig, FlatEdit>, R: Wait + Abort>(
    rt: &R,
    cell: &CellState<FlatContent, N>,
    rest: &Rest<N>,
    words: &str,
) -> bool {
    for word in words.split(' ') {
        if !is_so(rt, cell, rest, word) {
            return false;
        }
    }
    true
}
