//! What happens at a device, and the entry that its history has of it.

ghost use Rattle.std.specs.Prelude.{◌≡◌, ◌↔◌, IsTrue, IfOk};

use nm_base::{Label, NoMemory, SessionId};
use nm_proto::{Reply, Request};

/// One thing that happens at a device.
#[derive(Drop)]
pub enum DeviceEvent {
    /// A user asks for a session (RFC 6241 section 8.1).
    Entered {
        user: Label,
    },
    /// A session asks something.
    Asked {
        session: SessionId,
        request: Request,
    },
    /// A session ends without a close (RFC 6241 section 8.4.1).
    Lost {
        session: SessionId,
    },
    /// The clock rises.
    Advanced {
        seconds: u32,
    },
    /// The device restarts.
    Restarted,
}

impl DeviceEvent {
    /// An equal event. It copies no bytes of a text.
    pub fn copy(&self) -> Result<DeviceEvent, NoMemory>
        ensures { IfOk result (λ event. event ≡ self.now) }
    {
        let event = match self {
            DeviceEvent::Entered { user } => DeviceEvent::Entered { user: user.copy()? },
            DeviceEvent::Asked { session, request } => DeviceEvent::Asked {
                session: *session,
                request: request.copy()?,
            },
            DeviceEvent::Lost { session } => DeviceEvent::Lost { session: *session },
            DeviceEvent::Advanced { seconds } => DeviceEvent::Advanced { seconds: *seconds },
            DeviceEvent::Restarted => DeviceEvent::Restarted,
        };
        Ok(event)
    }

    /// Whether the two are equal.
    pub fn same(&self, other: &DeviceEvent) -> bool
        ensures { IsTrue result ↔ (self.now ≡ other.now) }
    {
        match (self, other) {
            (DeviceEvent::Entered { user }, DeviceEvent::Entered { user: other }) => user.same(
                other,
            ),
            (
                DeviceEvent::Asked { session, request },
                DeviceEvent::Asked {
                    session: asker,
                    request: other,
                },
            ) => session.get() == asker.get() && request.same(other),
            (DeviceEvent::Lost { session }, DeviceEvent::Lost { session: other }) => {
                session.get() == other.get()
            }
            (DeviceEvent::Advanced { seconds }, DeviceEvent::Advanced { seconds: other }) => {
                *seconds == *other
            }
            (DeviceEvent::Restarted, DeviceEvent::Restarted) => true,
            _ => false,
        }
    }
}

/// One entry of a device's history: what happened, what was answered, and whether it undid a pending commit other than
/// by a cancel.
#[derive(Drop)]
pub struct Noted {
    pub event: DeviceEvent,
    pub reply: Option<Reply>,
    pub undone: bool,
}

impl Noted {
    /// An equal entry. It copies no bytes of a text.
    pub fn copy(&self) -> Result<Noted, NoMemory>
        ensures { IfOk result (λ entry. entry ≡ self.now) }
    {
        let reply = copy_reply(&self.reply)?;
        match self.event.copy() {
            Ok(event) => Ok(Noted {
                event,
                reply,
                undone: self.undone,
            }),
            Err(fault) => {
                drop(reply);
                Err(fault)
            }
        }
    }

    /// Whether the two are equal.
    pub fn same(&self, other: &Noted) -> bool
        ensures { IsTrue result ↔ (self.now ≡ other.now) }
    {
        self.event.same(&other.event)
            && same_reply(&self.reply, &other.reply)
            && self.undone == other.undone
    }
}

fn copy_reply(reply: &Option<Reply>) -> Result<Option<Reply>, NoMemory>
    ensures { IfOk result (λ copied. copied ≡ reply.now) }
{
    match reply {
        Some(reply) => Ok(Some(reply.copy()?)),
        None => Ok(None),
    }
}

fn same_reply(one: &Option<Reply>, other: &Option<Reply>) -> bool
    ensures { IsTrue result ↔ (one.now ≡ other.now) }
{
    match (one, other) {
        (Some(one), Some(other)) => one.same(other),
        (None, None) => true,
        _ => false,
    }
}
