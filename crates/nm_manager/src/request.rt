//! The requests of the manager.

ghost use Rattle.std.specs.Prelude.{◌≡◌, IfOk, true, false, Some, None, option_copied, find};
ghost use Rattle.nm_base.specs.Token.{token_of};
ghost use Rattle.nm_base.specs.Words.{manager};
ghost use Rattle.nm_proto.specs.declared.message.Request.TheVariants.{OpenSession, Commit, CancelCommit};
ghost use Rattle.nm_proto.specs.declared.ask.Ask.TheVariants as ask;
ghost use Rattle.nm_manager.specs.Requests.{is_of_device, edit_for, marks_for, request_for};

use nm_base::token::token_of;
use nm_base::words::MANAGER;
use nm_base::{ChangeNo, DeviceNo, Label, NoMemory};
use nm_proto::{Ask, ChangePlan, Entry, Marks, PlannedEdit, Request, Store};
use nm_recovery::ended_on;
use std::alloc::Global;

/// The request that asks this of a device for a change set, by the entries of the journal. None for an edit of a device that has
/// none, and for what isn't known yet.
pub fn request_for(
    alloc: Global,
    plan: &ChangePlan,
    entries: &[Entry],
    change: ChangeNo,
    device: DeviceNo,
    ask: Ask,
) -> Result<Option<Request>, NoMemory>
    ensures { IfOk result (λ request. request ≡ request_for plan.now entries.now change device ask) }
{
    match ask {
        Ask::OpenSession => opening(alloc),
        Ask::LockRunning => Ok(Some(Request::Lock {
            store: Store::Running,
        })),
        Ask::LockCandidate => Ok(Some(Request::Lock {
            store: Store::Candidate,
        })),
        Ask::Edit => Ok(edit_request(plan, entries, change, device)),
        Ask::Validate => Ok(Some(Request::Validate)),
        Ask::CommitConfirmed => confirmed_commit(alloc, plan.timeout, change),
        Ask::Renew => follow_up(alloc, plan.timeout, change),
        Ask::Confirm => confirming_commit(alloc, change),
        Ask::Cancel => cancelling(alloc, change),
        Ask::HasMark => Ok(Some(Request::HasMark { change })),
        Ask::Discard => Ok(Some(Request::Discard)),
        Ask::CloseSession => Ok(Some(Request::CloseSession)),
        Ask::Resync => Ok(None),
    }
}

// The request for a session.
fn opening(alloc: Global) -> Result<Option<Request>, NoMemory>
    ensures { IfOk result (λ request. request ≡ Some (OpenSession manager)) }
{
    Ok(Some(Request::OpenSession {
        user: Label::new(alloc, MANAGER)?,
    }))
}

// The confirmed commit of a change set, under its token.
fn confirmed_commit(
    alloc: Global,
    timeout: u32,
    change: ChangeNo,
) -> Result<Option<Request>, NoMemory>
    ensures { IfOk result (λ request. request ≡ Some (Commit true (Some timeout) (Some (token_of change)) None)) }
{
    Ok(Some(Request::Commit {
        confirmed: true,
        timeout: Some(timeout),
        persist: Some(token_of(alloc, change)?),
        persist_id: None,
    }))
}

// The follow-up to a confirmed commit, which sets its timer anew.
fn follow_up(alloc: Global, timeout: u32, change: ChangeNo) -> Result<Option<Request>, NoMemory>
    ensures { IfOk result (λ request. request ≡ Some (Commit true (Some timeout) None (Some (token_of change)))) }
{
    Ok(Some(Request::Commit {
        confirmed: true,
        timeout: Some(timeout),
        persist: None,
        persist_id: Some(token_of(alloc, change)?),
    }))
}

// The commit that confirms a change set.
fn confirming_commit(alloc: Global, change: ChangeNo) -> Result<Option<Request>, NoMemory>
    ensures { IfOk result (λ request. request ≡ Some (Commit false None None (Some (token_of change)))) }
{
    Ok(Some(Request::Commit {
        confirmed: false,
        timeout: None,
        persist: None,
        persist_id: Some(token_of(alloc, change)?),
    }))
}

// The cancel of a confirmed commit.
fn cancelling(alloc: Global, change: ChangeNo) -> Result<Option<Request>, NoMemory>
    ensures { IfOk result (λ request. request ≡ Some (CancelCommit (Some (token_of change)))) }
{
    Ok(Some(Request::CancelCommit {
        persist_id: Some(token_of(alloc, change)?),
    }))
}

// The edit of a device, whose marks are those of the change sets that are ended there, and its own.
fn edit_request(
    plan: &ChangePlan,
    entries: &[Entry],
    change: ChangeNo,
    device: DeviceNo,
) -> Option<Request>
    ensures { result ≡ request_for plan.now entries.now change device ask.Edit }
{
    let planned = edit_for(plan, device)?;
    Some(Request::Edit {
        edit: planned.edit,
        default_operation: planned.default_operation,
        marks: Some(Marks {
            add: change,
            remove: ended_on(entries, planned.device),
        }),
    })
}

// The edit of a device in a plan.
fn edit_for(plan: &ChangePlan, device: DeviceNo) -> Option<&PlannedEdit>
    ensures { option_copied result ≡ edit_for plan.now device }
{
    plan.edits
        .as_slice()
        .iter()
        .find(|edit| is_of_device(device, edit))
}

fn is_of_device(device: DeviceNo, edit: &PlannedEdit) -> bool
    ensures { result ≡ is_of_device device edit.now }
{
    edit.device.get() == device.get()
}
