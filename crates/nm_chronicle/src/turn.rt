//! What the coordinator of a change set may ask of a device, by what it called on the board.

ghost use Rattle.std.specs.Prelude.{◌≡◌, Some};
ghost use Rattle.nm_chronicle.specs.Line.{is_abort, is_commit};
ghost use Rattle.nm_chronicle.specs.Turn.{allows, allows_commit, commits_for, is_change, is_last_asked};

use crate::count::count_to;
use crate::shares::SlotShares;
use crate::token::named_by;
use nm_base::{ChangeNo, DeviceNo, Label};
use nm_proto::{ChangePlan, Request, Verdict};
use nm_run_plan::RunPlans;

impl<N: RunPlans> SlotShares<N> {
    /// Whether the coordinator of a change set, whose slot it is, may ask this of a device: the change set's confirmed commit
    /// where this device is the last that the board was told is asked for it, a commit that confirms after the verdict Commit,
    /// a cancel after an Abort, and all else at any time.
    pub fn allows(
        &self,
        changes: &[ChangePlan],
        change: ChangeNo,
        device: DeviceNo,
        request: &Request,
    ) -> bool
        ensures { result ≡ allows changes.now change device self.now request.now }
    {
        match request {
            Request::Commit {
                confirmed,
                persist,
                ..
            } => self.allows_commit(changes, change, device, *confirmed, persist),
            Request::CancelCommit { .. } => is_abort(&self.verdict()),
            _ => true,
        }
    }

    // The same of a commit.
    fn allows_commit(
        &self,
        changes: &[ChangePlan],
        change: ChangeNo,
        device: DeviceNo,
        confirmed: bool,
        persist: &Option<Label>,
    ) -> bool
        ensures { result ≡ allows_commit changes.now change device self.now confirmed persist.now }
    {
        if !confirmed {
            return is_commit(&self.verdict());
        }
        if !is_change(change, named_by(persist)) {
            return true;
        }
        match changes.get(change.get() as usize - 1) {
            Some(plan) => is_last_asked(plan, self.asked(), device),
            None => false,
        }
    }
}

/// Whether a request is a confirmed commit that gives the token of the change set.
pub fn commits_for(change: ChangeNo, request: &Request) -> bool
    ensures { result ≡ commits_for change request.now }
{
    match request {
        Request::Commit {
            confirmed,
            persist,
            ..
        } => *confirmed && is_change(change, named_by(persist)),
        _ => false,
    }
}

// Whether a token named this change set.
fn is_change(change: ChangeNo, named: Option<ChangeNo>) -> bool
    ensures { result ≡ is_change change named }
{
    match named {
        Some(other) => other == change,
        None => false,
    }
}

// Whether the device is the last of so many of the change set's that were asked for its commit.
fn is_last_asked(plan: &ChangePlan, asked: u32, device: DeviceNo) -> bool
    ensures { result ≡ is_last_asked (Some plan.now) asked device }
{
    let devices = plan.devices();
    devices.contains(device) && count_to(devices, device.get()) == asked
}

fn is_commit(verdict: &Option<Verdict>) -> bool
    ensures { result ≡ is_commit verdict.now }
{
    matches!(verdict, Some(Verdict::Commit))
}

fn is_abort(verdict: &Option<Verdict>) -> bool
    ensures { result ≡ is_abort verdict.now }
{
    matches!(verdict, Some(Verdict::Abort(_)))
}
