//! The numbers of the edits and selections that operators ask for: given once all events are read, behind those of the
//! change sets.

ghost use Rattle.std.specs.Prelude.{◌≡◌, ◌++◌, ◌+◌, length, OnOk, IfOk};
ghost use Rattle.nm_scenario_events.specs.Numbered.{events_from, edits_of_events, selects_of_events, numbered_event, numbered_request, edit_of_event, edit_of_request, select_of_event, select_of_request, user_of};

use crate::event::{ReadEvent, ReadRequest};
use nm_base::{EditNo, Label, NoMemory, SelectNo};
use nm_proto::{Event, Listed, Request};
use std::alloc::Global;

/// The number of the edit that stands so many places after the first. More than 2^32 edits would not fit into memory.
pub fn edit_number(first: usize, place: usize) -> Result<EditNo, NoMemory>
    ensures { IfOk result (λ n. n.0 ≡ first + place) }
{
    match first.checked_add(place) {
        Some(sum) if sum <= u32::MAX as usize => Ok(EditNo(sum as u32)),
        _ => Err(NoMemory),
    }
}

/// Gives the edits of the events the numbers after those of `edits`, and appends them there; their selections likewise after those of
/// `selects`. Sessions that operators open get their users' names.
pub fn with_event_numbers<E: Drop>(
    alloc: Global,
    users: &Listed<Label>,
    reads: Listed<ReadEvent<E>>,
    edits: &mut Listed<E>,
    selects: &mut Listed<Listed<Label>>,
) -> Result<Listed<Event>, NoMemory>
    ensures events { IfOk result (λ events. events ≡ events_from users.now (length edits.old) (length selects.old) reads) }
    ensures edits { OnOk result (edits.new ≡ edits.old ++ edits_of_events reads) }
    ensures selects { OnOk result (selects.new ≡ selects.old ++ selects_of_events reads) }
{
    let mut events = Listed::new(alloc);
    let mut rest = reads.into_vec().into_iter();
    while let Some(read) = rest.next() {
        let event = numbered_event(alloc, users, read, edits, selects)?;
        events.push(event)?;
    }
    Ok(events)
}

// The user of an operator.
fn user_of(alloc: Global, users: &Listed<Label>, operator: u32) -> Result<Label, NoMemory>
    ensures { IfOk result (λ user. user ≡ user_of users.now operator) }
{
    match users.get(operator.saturating_sub(1) as usize) {
        None => Label::new(alloc, ""),
        Some(user) => user.copy(),
    }
}

fn numbered_event<E: Drop>(
    alloc: Global,
    users: &Listed<Label>,
    read: ReadEvent<E>,
    edits: &mut Listed<E>,
    selects: &mut Listed<Listed<Label>>,
) -> Result<Event, NoMemory>
    ensures event { IfOk result (λ event. event ≡ numbered_event users.now (length edits.old) (length selects.old) read) }
    ensures edits { OnOk result (edits.new ≡ edits.old ++ edit_of_event read) }
    ensures selects { OnOk result (selects.new ≡ selects.old ++ select_of_event read) }
{
    match read {
        ReadEvent::Other(event) => Ok(event),
        ReadEvent::Asked {
            operator,
            device,
            request,
        } => Ok(Event::Foreign {
            operator,
            device,
            request: numbered_request(alloc, users, operator, request, edits, selects)?,
        }),
    }
}

fn numbered_request<E: Drop>(
    alloc: Global,
    users: &Listed<Label>,
    operator: u32,
    read: ReadRequest<E>,
    edits: &mut Listed<E>,
    selects: &mut Listed<Listed<Label>>,
) -> Result<Request, NoMemory>
    ensures request { IfOk result (λ request. request ≡ numbered_request (user_of users.now operator) (length edits.old) (length selects.old) read) }
    ensures edits { OnOk result (edits.new ≡ edits.old ++ edit_of_request read) }
    ensures selects { OnOk result (selects.new ≡ selects.old ++ select_of_request read) }
{
    match read {
        ReadRequest::Open => Ok(Request::OpenSession {
            user: user_of(alloc, users, operator)?,
        }),
        ReadRequest::Known(request) => Ok(request),
        ReadRequest::WithEdit {
            default_operation,
            edit,
        } => {
            let number = edit_number(edits.len(), 0)?;
            edits.push(edit)?;
            Ok(Request::Edit {
                edit: number,
                default_operation,
                marks: None,
            })
        }
        ReadRequest::WithSelect { texts } => {
            let EditNo(number) = edit_number(selects.len(), 0)?;
            selects.push(texts)?;
            Ok(Request::PartialLock {
                select: SelectNo(number),
            })
        }
    }
}
