//! Calls on the board by those who hold shares of its ledger. The coordinator's slot counts its own; whoever calls for
//! a device has the share of device 3.

use crate::begun::{Rest, device_of};
use nm_base::{ChangeNo, DeviceNo};
use nm_proto::{AbortCause, Verdict};
use nm_run_plan::RunPlans;
use std::process::Abort;
use std::sync::Wait;

// The verdict of change set 1 is decided, once.
fn decide<N: RunPlans, R: Wait + Abort>(rt: &R, rest: &mut Rest<N>, word: &str) {
    let change = ChangeNo::new(1).expect(rt, "1");
    assert!(rt; rest.slot.verdict().is_none());
    let verdict = if word == "commit" {
        Verdict::Commit
    } else {
        Verdict::Abort(AbortCause::Forgotten)
    };
    let mut board = rest.chronicle.lock(rt);
    board.room().expect(rt, "memory");
    board.decided(change, verdict, &mut rest.slot, &mut rest.book);
}

// A call of the coordinator. Its slot counts few of them.
fn call_for_slot<N: RunPlans, R: Wait + Abort>(
    rt: &R,
    rest: &mut Rest<N>,
    verb: &str,
    device: DeviceNo,
) {
    let change = ChangeNo::new(1).expect(rt, "1");
    assert!(rt; rest.slot.asked() < 9 && rest.slot.acked() < 9);
    let mut board = rest.chronicle.lock(rt);
    board.room().expect(rt, "memory");
    if verb == "asked" {
        board.asked(change, device, &mut rest.slot);
    } else {
        board.acked(change, device, &mut rest.slot);
    }
}

// Whether a verb is a call for a device, which is then done.
fn call_for_device<N: RunPlans, R: Wait + Abort>(
    rt: &R,
    rest: &mut Rest<N>,
    verb: &str,
    device: DeviceNo,
) -> bool {
    let change = ChangeNo::new(1).expect(rt, "1");
    let mut board = rest.chronicle.lock(rt);
    board.room().expect(rt, "memory");
    match verb {
        "applied" => board.applied(change, device, &mut rest.share),
        "confirmed" => board.confirmed(change, device, &mut rest.share),
        "undone" => board.undone(change, device, &mut rest.share),
        "cancelled" => board.cancelled(change, device, &mut rest.share),
        _ => return false,
    }
    true
}

// Whether a verb is a call, which is then done: of this verdict, or about this device.
pub(crate) fn calls<N: RunPlans, R: Wait + Abort>(
    rt: &R,
    rest: &mut Rest<N>,
    verb: &str,
    of: &str,
) -> bool {
    match verb {
        "decided" => decide(rt, rest, of),
        "asked" | "acked" => call_for_slot(rt, rest, verb, device_of(rt, of)),
        _ => return call_for_device(rt, rest, verb, device_of(rt, of)),
    }
    true
}
