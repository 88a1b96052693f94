//! The requests of a change set at a device: which comes where so many of the six are done, and what may follow them.

ghost use Rattle.std.specs.Prelude.{◌≡◌, option_copied};
ghost use Rattle.nm_base.specs.Token.{token_of};
ghost use Rattle.nm_history.specs.Outcome.{is_token};
ghost use Rattle.nm_cells.specs.Kept.{opens};
ghost use Rattle.nm_cells.specs.Ended.{is_opening_of, opened_in};
ghost use Rattle.nm_manager.specs.Requests.{is_of_device, edit_for};
ghost use Rattle.nm_slots.specs.Course.{same_operation, is_number, is_running, is_planned_edit, adds_mark, is_named, brings, confirms, follows_six, is_later_request, is_nth, is_next_request};

use nm_base::{ChangeNo, DeviceNo, EditNo, Label, SessionId};
use nm_cells::PassEntry;
use nm_chronicle::named_by;
use nm_proto::{ChangePlan, DefaultOperation, Marks, PlannedEdit, Reply, Request, Store};

// ---- whose session

fn opens(session: u32, reply: &Option<Reply>) -> bool
    ensures { result ≡ opens session reply.now }
{
    match reply {
        Some(Reply::Opened(other)) => other.get() == session,
        _ => false,
    }
}

fn is_opening_of(device: DeviceNo, session: u32, entry: &PassEntry) -> bool
    ensures { result ≡ is_opening_of device session entry.now }
{
    entry.device == device && opens(session, &entry.noted.reply)
}

/// Whether a pass opened a session, by its id, at a device. It takes time as there are entries.
pub(crate) fn opened_in(device: DeviceNo, session: u32, entries: &[PassEntry]) -> bool
    ensures { result ≡ opened_in device session entries.now }
{
    entries
        .iter()
        .any(|entry| is_opening_of(device, session, entry))
}

// ---- parts of requests

fn same_operation(one: DefaultOperation, other: DefaultOperation) -> bool
    ensures { result ≡ same_operation one other }
{
    match (one, other) {
        (DefaultOperation::Merge, DefaultOperation::Merge) => true,
        (DefaultOperation::Replace, DefaultOperation::Replace) => true,
        (DefaultOperation::Nothing, DefaultOperation::Nothing) => true,
        _ => false,
    }
}

fn is_number(number: u32, other: &Option<u32>) -> bool
    ensures { result ≡ is_number number other.now }
{
    match other {
        Some(other) => *other == number,
        None => false,
    }
}

/// Whether a session is this one.
pub(crate) fn is_session(session: SessionId, other: &Option<SessionId>) -> bool
    ensures { result ≡ is_number session other.now }
{
    match other {
        Some(other) => *other == session,
        None => false,
    }
}

fn is_running(store: &Store) -> bool
    ensures { result ≡ is_running store.now }
{
    matches!(store, Store::Running)
}

fn is_of_device(device: DeviceNo, edit: &PlannedEdit) -> bool
    ensures { result ≡ is_of_device device edit.now }
{
    edit.device.get() == device.get()
}

fn edit_for(plan: &ChangePlan, device: DeviceNo) -> Option<&PlannedEdit>
    ensures { option_copied result ≡ edit_for plan.now device }
{
    plan.edits
        .as_slice()
        .iter()
        .find(|edit| is_of_device(device, edit))
}

// Whether this is the edit that a plan has for a device.
fn is_its_edit(
    plan: &ChangePlan,
    device: DeviceNo,
    edit: EditNo,
    operation: DefaultOperation,
) -> bool
    ensures { result ≡ is_planned_edit (edit_for plan.now device) edit operation }
{
    match edit_for(plan, device) {
        Some(planned) => {
            planned.edit.0 == edit.0 && same_operation(planned.default_operation, operation)
        }
        None => false,
    }
}

fn adds_mark(change: ChangeNo, marks: &Option<Marks>) -> bool
    ensures { result ≡ adds_mark change marks.now }
{
    match marks {
        Some(marks) => marks.add == change,
        None => false,
    }
}

fn is_named(change: ChangeNo, named: Option<ChangeNo>) -> bool
    ensures { result ≡ is_named change named }
{
    match named {
        Some(other) => change == other,
        None => false,
    }
}

// Whether a token is there and is the change set's.
#[tactic(auto, using(crate::proofs::Tokens::its_token))]
fn is_token(change: ChangeNo, token: &Option<Label>) -> bool
    ensures { result ≡ is_token (token_of change) token.now }
{
    prove!(change.get() <= ChangeNo::LIMIT);
    is_named(change, named_by(token))
}

// ---- requests

// The commit that brings a change set, which waits so many seconds to be confirmed.
fn brings(
    seconds: u32,
    change: ChangeNo,
    confirmed: bool,
    timeout: &Option<u32>,
    persist: &Option<Label>,
    persist_id: &Option<Label>,
) -> bool
    ensures { result ≡ brings seconds change confirmed timeout.now persist.now persist_id.now }
{
    confirmed && is_number(seconds, timeout) && is_token(change, persist) && persist_id.is_none()
}

// The commit that confirms it.
fn confirms(
    change: ChangeNo,
    confirmed: bool,
    persist: &Option<Label>,
    persist_id: &Option<Label>,
) -> bool
    ensures { result ≡ confirms change confirmed persist.now persist_id.now }
{
    !confirmed && persist.is_none() && is_token(change, persist_id)
}

fn follows_six(change: ChangeNo, request: &Request) -> bool
    ensures { result ≡ follows_six change request.now }
{
    match request {
        Request::Lock { store } => !is_running(store),
        Request::Discard => true,
        Request::HasMark { change: other } => *other == change,
        Request::Commit {
            confirmed,
            persist,
            persist_id,
            ..
        } => confirms(change, *confirmed, persist, persist_id),
        Request::CancelCommit { persist_id } => is_token(change, persist_id),
        Request::CloseSession => true,
        _ => false,
    }
}

/// Whether a request may follow the six: another's kill of a session that the pass opened, or one that the coordinator makes.
pub(crate) fn is_later_request(
    change: ChangeNo,
    device: DeviceNo,
    before: &[PassEntry],
    asker: SessionId,
    request: &Request,
) -> bool
    ensures { result ≡ is_later_request change device before.now asker request.now }
{
    match request {
        Request::Kill { session } => {
            opened_in(device, *session, before) && !opened_in(device, asker.get(), before)
        }
        _ => follows_six(change, request),
    }
}

// The request that comes where so many of the six are done.
fn is_nth(
    plan: &ChangePlan,
    change: ChangeNo,
    device: DeviceNo,
    done: u32,
    request: &Request,
) -> bool
    ensures { result ≡ is_nth plan.now change device done request.now }
{
    match request {
        Request::Lock { store } => {
            if is_running(store) {
                done == 1
            } else {
                done == 2
            }
        }
        Request::Edit {
            edit,
            default_operation,
            marks,
        } => {
            done == 3
                && is_its_edit(plan, device, *edit, *default_operation)
                && adds_mark(change, marks)
        }
        Request::Validate => done == 4,
        Request::Commit {
            confirmed,
            timeout,
            persist,
            persist_id,
        } => done == 5
            && brings(
                plan.timeout,
                change,
                *confirmed,
                timeout,
                persist,
                persist_id,
            ),
        _ => false,
    }
}

/// Whether the next of the six is asked on the session that they have.
pub(crate) fn is_next_request(
    plan: &ChangePlan,
    change: ChangeNo,
    device: DeviceNo,
    done: u32,
    session: &Option<SessionId>,
    asker: SessionId,
    request: &Request,
) -> bool
    ensures { result ≡ is_next_request plan.now change device done session.now asker request.now }
{
    is_session(asker, session) && is_nth(plan, change, device, done, request)
}
