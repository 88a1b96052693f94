//! One link: its past exchanges, the one on its way, and whether the device's side is open.

ghost use Rattle.std.specs.Prelude.{◌≡◌, ◌<◌, length, vec_capacity, true, IsSome, option_copied, IfOk, OnOk, OnErr};
ghost use Rattle.nm_wire.specs.Link.{session_in, ends, closes, greatest_number};

use nm_base::{NoMemory, SessionId};
use nm_proto::{Reply, Request};
use std::alloc::Global;
use std::marker::Model;
use std::mem;

/// A request with its reply.
#[derive(Drop)]
pub struct Exchange {
    pub request: Request,
    pub reply: Reply,
}

/// What is on its way on a link.
#[derive(Drop)]
pub enum Way {
    /// Nothing: every reply is handled.
    Quiet,
    /// The device hasn't answered.
    Asked(Request),
    /// The manager hasn't handled the reply.
    Told(Exchange),
}

/// The manager's connection to a device, which carries one NETCONF session (RFC 6241 section 4.1). Its replies are
/// numbered from 1.
#[derive(Drop)]
pub struct Link {
    // The exchanges that the manager has handled, oldest first, with room for one more where one is on its way.
    past: Vec<Exchange>,
    way: Way,
    // Whether the device's side is open.
    is_open: bool,
    // The session that was opened first: a look through the past would take time.
    session: Option<SessionId>,
}

impl Model for Link {
    ghost use Rattle.std.specs.Prelude.{◌≡◌, length, vec_capacity};
    ghost use Rattle.nm_wire.specs.Link.{LinkState, session_of, IsRoomFor};

    ghost Value = { LinkState };

    ghost view = { λ link. record { past = link.past.items; way = link.way; is_open = link.is_open } };

    ghost invariant = { λ link. (link.session ≡ session_of (record { past = link.past.items; way = link.way; is_open = link.is_open }))
        × IsRoomFor link.way (length link.past.items) (vec_capacity link.past) };
}

/// The greatest number of a link and of a reply.
pub const GREATEST_NUMBER: u32 = u32::MAX;

impl Link {
    ghost use Rattle.nm_wire.specs.Link.{fresh_link, outstanding, is_quiet, replies_sent, replies_handled, due_on, session_of, sent_on, told_on, handled_on, closed_link};

    /// A new link, on which a request is sent.
    pub fn begin(alloc: Global, request: Request) -> Result<Link, NoMemory>
        ensures { IfOk result (λ link. link ≡ sent_on request fresh_link) }
    {
        match Vec::with_capacity(alloc, 1) {
            Ok(past) => Ok(Link {
                past,
                way: Way::Asked(request),
                is_open: true,
                session: None,
            }),
            Err(_) => {
                drop(request);
                Err(NoMemory)
            }
        }
    }

    /// Sends a request. It takes the room for the exchange, so that its delivery and its handling take none.
    ///
    /// Finds no room too where 4294967295 replies were handled, since there is no number for the next.
    pub fn send(&mut self, request: Request) -> Result<(), NoMemory>
        requires quiet { is_quiet self.old ≡ true }
        ensures sent { OnOk result (self.new ≡ sent_on request self.old) }
        ensures unchanged { OnErr result (self.new ≡ self.old) }
    {
        match make_room(&mut self.past) {
            Ok(()) => {
                drop(mem::replace(&mut self.way, Way::Asked(request)));
                Ok(())
            }
            Err(fault) => {
                drop(request);
                Err(fault)
            }
        }
    }

    /// The request that isn't delivered, and None exactly where there is none or the device's side is closed.
    pub fn outstanding(&self) -> Option<&Request>
        ensures { option_copied result ≡ outstanding self.now }
    {
        match &self.way {
            Way::Asked(request) if self.is_open => Some(request),
            _ => None,
        }
    }

    /// Whether nothing is on its way.
    pub fn is_quiet(&self) -> bool
        ensures { result ≡ is_quiet self.now }
    {
        matches!(self.way, Way::Quiet)
    }

    /// The device answers the request that is outstanding. It takes no memory.
    pub fn tell(&mut self, reply: Reply)
        requires outstanding { IsSome (outstanding self.old) }
        ensures { self.new ≡ told_on reply self.old }
    {
        let request = match mem::replace(&mut self.way, Way::Quiet) {
            Way::Asked(request) => request,
            way => {
                drop(way);
                drop(reply);
                return;
            }
        };
        if self.session.is_none() {
            self.session = session_in(&reply);
        }
        self.is_open = self.is_open && !closes(&request, &reply);
        drop(mem::replace(&mut self.way, Way::Told(Exchange { request, reply })));
    }

    /// The exchange whose reply is handled next, where the number is that of its reply.
    pub fn due(&self, number: u32) -> Option<&Exchange>
        ensures { option_copied result ≡ due_on number self.now }
    {
        match &self.way {
            Way::Told(exchange) if number as usize == self.past.len() + 1 => Some(exchange),
            _ => None,
        }
    }

    /// The manager handles the reply that was told, where there is one. It takes no memory.
    pub fn handle(&mut self)
        ensures { self.new ≡ handled_on self.old }
    {
        match mem::replace(&mut self.way, Way::Quiet) {
            Way::Told(exchange) => self.past.push_reserved(exchange),
            way => drop(mem::replace(&mut self.way, way)),
        }
    }

    /// The device's side ends, and what was outstanding is dropped.
    pub fn close(&mut self)
        ensures { self.new ≡ closed_link self.old }
    {
        self.is_open = false;
    }

    /// Whether the device's side is open.
    pub fn is_open(&self) -> bool
        ensures { result ≡ self.now.is_open }
    {
        self.is_open
    }

    /// How many replies were sent, and how many of them were handled.
    pub fn replies(&self) -> (u32, u32)
        ensures { result ≡ (replies_sent self.now, replies_handled self.now) }
    {
        let handled = self.past.len() as u32;
        match self.way {
            Way::Told(_) => (handled + 1, handled),
            _ => (handled, handled),
        }
    }

    /// The session of the first Opened that was sent on the link, and None exactly where none was.
    pub fn session(&self) -> Option<SessionId>
        ensures { result ≡ session_of self.now }
    {
        self.session
    }
}

// Takes the room for one more exchange, where there is a number for its reply.
fn make_room(past: &mut Vec<Exchange>) -> Result<(), NoMemory>
    ensures room { OnOk result ((length past.new.items < vec_capacity past.new) × (length past.new.items < greatest_number)) }
    ensures same { past.new.items ≡ past.old.items }
{
    if past.len() >= GREATEST_NUMBER as usize {
        return Err(NoMemory);
    }
    past.reserve(1)?;
    Ok(())
}

// The session that a reply opens.
fn session_in(reply: &Reply) -> Option<SessionId>
    ensures { result ≡ session_in reply.now }
{
    match reply {
        Reply::Opened(session) => Some(*session),
        _ => None,
    }
}

// Whether the manager is done with a link once it has handled this reply.
pub(crate) fn ends(request: &Request, reply: &Reply) -> bool
    ensures { result ≡ ends request.now reply.now }
{
    match request {
        Request::CloseSession => true,
        Request::OpenSession { .. } => matches!(reply, Reply::Error { .. }),
        _ => false,
    }
}

// Whether the device's side ends with this reply.
fn closes(request: &Request, reply: &Reply) -> bool
    ensures { result ≡ closes request.now reply.now }
{
    match request {
        Request::CloseSession => matches!(reply, Reply::Done),
        Request::OpenSession { .. } => matches!(reply, Reply::Error { .. }),
        _ => false,
    }
}
