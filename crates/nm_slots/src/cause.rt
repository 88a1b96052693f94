//! Why a change set is aborted, read from its coordinator's pass.

ghost use Rattle.std.specs.Prelude.{◌≡◌};
ghost use Rattle.std.specs.List.{list_any};
ghost use Rattle.nm_base.specs.Tag.{tag_number};
ghost use Rattle.nm_cells.specs.Ended.{is_kill};
ghost use Rattle.nm_slots.specs.Course.{is_tag, is_refused_with, session_of, breaks_course, may_break, cause_stands};

use crate::course::{Reached, progress};
use crate::requests::is_session;
use nm_base::{ChangeNo, DeviceNo, SessionId, Tag};
use nm_cells::PassEntry;
use nm_history::DeviceEvent;
use nm_proto::{AbortCause, ChangePlan, Request};

fn is_tag(tag: Tag, refused: &Option<Tag>) -> bool
    ensures { result ≡ is_tag tag refused.now }
{
    match refused {
        Some(other) => other.number() == tag.number(),
        None => false,
    }
}

// Whether the last of the six was refused with this tag.
fn is_refused_with(tag: Tag, at: &Option<Reached>) -> bool
    ensures { result ≡ is_refused_with tag at.now }
{
    match at {
        None => false,
        Some(Reached::Six { .. }) => false,
        Some(Reached::Over { refused, .. }) => is_tag(tag, refused),
    }
}

// The session of the six.
fn session_of(at: &Option<Reached>) -> Option<SessionId>
    ensures { result ≡ session_of at.now }
{
    match at {
        None => None,
        Some(Reached::Six { session, .. }) => *session,
        Some(Reached::Over { session, .. }) => *session,
    }
}

fn is_kill(request: &Request) -> bool
    ensures { result ≡ is_kill request.now }
{
    matches!(request, Request::Kill { .. })
}

fn breaks_course(session: &Option<SessionId>, event: &DeviceEvent) -> bool
    ensures { result ≡ breaks_course session.now event.now }
{
    match event {
        DeviceEvent::Entered { .. } => false,
        DeviceEvent::Asked { request, .. } => is_kill(request),
        DeviceEvent::Lost { session: other } => is_session(*other, session),
        DeviceEvent::Advanced { .. } => false,
        DeviceEvent::Restarted => true,
    }
}

// Whether an entry may have broken the course at a device.
fn may_break(device: DeviceNo, session: &Option<SessionId>, entry: &PassEntry) -> bool
    ensures { result ≡ may_break device session.now entry.now }
{
    entry.device == device && (entry.position == 0 || breaks_course(session, &entry.noted.event))
}

fn any_may_break(device: DeviceNo, session: &Option<SessionId>, entries: &[PassEntry]) -> bool
    ensures { result ≡ list_any (may_break device session.now) entries.now }
{
    entries
        .iter()
        .any(|entry| may_break(device, session, entry))
}

/// Whether a pass has why its change set is aborted: the refusal of one of the six requests, or what broke their course at the
/// device. It takes time as there are entries.
pub fn cause_stands(
    plan: &ChangePlan,
    change: ChangeNo,
    entries: &[PassEntry],
    why: &AbortCause,
) -> bool
    ensures { result ≡ cause_stands plan.now change entries.now why.now }
{
    match why {
        AbortCause::Refused { device, tag } => {
            is_refused_with(*tag, &progress(plan, change, *device, entries))
        }
        AbortCause::Broken { device } => {
            let session = session_of(&progress(plan, change, *device, entries));
            any_may_break(*device, &session, entries)
        }
        AbortCause::Forgotten => false,
        AbortCause::Lapsed { .. } => false,
    }
}
