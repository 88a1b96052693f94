//! All links of a change set to a device, of which one at most is current.

ghost use Rattle.std.specs.Prelude.{◌≡◌, ◌<◌, ℕ, if◌then◌else◌, false, IfSome, IfNone, ◌≢◌, ◌↔◌, ◌≤◌, length, map, take, true, None, Some, IsSome, IsErr, option_copied, IfOk, OnOk, OnErr, is_some};
ghost use Rattle.std.specs.List.{list_any};
ghost use Rattle.nm_wire.specs.Link.{closed_link, greatest_number};
ghost use Rattle.nm_wire.specs.Wire.{has_outstanding, AreClosed};

use crate::link::{Exchange, Link, ends};
use nm_base::{NoMemory, SessionId};
use nm_proto::{Reply, Request};
use std::alloc::Global;
use std::marker::Model;

/// The links of a change set to a device, by numbers from 1 in the order in which they were made.
#[derive(Drop)]
pub struct Wire {
    alloc: Global,
    links: Vec<Link>,
    current: Option<u32>,
    // So many links at the front are closed: what looks for open ones begins behind them.
    closed: usize,
}

impl Model for Wire {
    ghost use Rattle.std.specs.Prelude.{◌≤◌, length, take};
    ghost use Rattle.nm_wire.specs.Link.{greatest_number};
    ghost use Rattle.nm_wire.specs.Wire.{WireState, AreClosed};

    ghost Value = { WireState };

    ghost view = { λ wire. record { links = wire.links.items; current = wire.current } };

    ghost invariant = { λ wire. (length wire.links.items ≤ greatest_number) × (wire.closed ≤ length wire.links.items)
        × AreClosed (take wire.closed wire.links.items) };
}

impl Wire {
    ghost use Rattle.nm_wire.specs.Wire.{no_links, link_at, may_send, outstanding_at, session_at, is_open_at, is_left_open, counts_of, due, begun, sent, told, handled, broken, lost, restarted};

    /// No link. It takes no memory.
    pub fn new(alloc: Global) -> Wire
        ensures { result ≡ no_links }
    {
        Wire {
            alloc,
            links: Vec::new(alloc),
            current: None,
            closed: 0,
        }
    }

    /// Makes a link, which is the current one then, and sends a request on it.
    ///
    /// Finds no room too where there are 4294967295 links, since there is no number for the next.
    pub fn begin(&mut self, request: Request) -> Result<(), NoMemory>
        ensures begun { OnOk result (self.new ≡ begun self.old request) }
        ensures full { length self.old.links ≡ greatest_number → IsErr result }
        ensures unchanged { OnErr result (self.new ≡ self.old) }
    {
        let Some(number) = self.links().checked_add(1) else {
            drop(request);
            return Err(NoMemory);
        };
        self.links.push(Link::begin(self.alloc, request)?)?;
        self.current = Some(number);
        Ok(())
    }

    /// Whether a request may be sent: there is a current link, nothing on it is undelivered, and every reply is handled.
    pub fn may_send(&self) -> bool
        ensures { result ≡ may_send self.now }
    {
        match self.current {
            Some(number) => self.link(number).is_some_and(|link| link.is_quiet()),
            None => false,
        }
    }

    /// Sends a request on the current link. It takes the room for the exchange, so that its delivery and its handling
    /// take none.
    pub fn send(&mut self, request: Request) -> Result<(), NoMemory>
        requires quiet { may_send self.old ≡ true }
        ensures sent { OnOk result (self.new ≡ sent self.old request) }
        ensures unchanged { OnErr result (self.new ≡ self.old) }
    {
        let place = self.current.unwrap() as usize - 1;
        self.links[place].send(request)
    }

    /// The request that a link has outstanding, and None exactly where there is none, or no such link, or the device's side is
    /// closed.
    pub fn outstanding(&self, link: u32) -> Option<&Request>
        ensures { option_copied result ≡ outstanding_at self.now link }
    {
        match self.link(link) {
            Some(link) => link.outstanding(),
            None => None,
        }
    }

    /// The device answers the request that a link has outstanding. It takes no memory.
    pub fn delivered(&mut self, link: u32, reply: Reply)
        requires outstanding { IsSome (outstanding_at self.old link) }
        ensures { self.new ≡ told self.old link reply }
    {
        self.links[link as usize - 1].tell(reply);
    }

    /// The exchange whose reply the manager handles next, and None exactly where the link isn't current, or the number, from 1,
    /// isn't that of the next reply on it, or this reply wasn't sent.
    pub fn due(&self, link: u32, number: u32) -> Option<&Exchange>
        ensures { option_copied result ≡ due self.now link number }
    {
        if self.current != Some(link) {
            return None;
        }
        match self.link(link) {
            Some(link) => link.due(number),
            None => None,
        }
    }

    /// The manager handles the reply of this number on a link, which ends where the reply closes or refuses its session. Answers
    /// whether the reply was due. It takes no memory.
    pub fn answer(&mut self, link: u32, number: u32) -> bool
        ensures value { result ≡ is_some (due self.old link number) }
        ensures handled { self.new ≡ handled self.old link number }
    {
        let Some(exchange) = self.due(link, number) else {
            return false;
        };
        let is_last = ends(&exchange.request, &exchange.reply);
        self.links[link as usize - 1].handle();
        self.current = current_after(self.current, is_last);
        true
    }

    /// The manager's side of the current link ends. Answers whether there was one.
    pub fn break_current(&mut self) -> bool
        ensures value { result ≡ is_some self.old.current }
        ensures broken { self.new ≡ broken self.old }
    {
        self.current.take().is_some()
    }

    /// The device's side of a link ends, and what was outstanding on it is dropped. Answers whether it was open.
    pub fn drop_link(&mut self, link: u32) -> bool
        ensures value { result ≡ is_open_at self.old link }
        ensures lost { self.new ≡ lost self.old link }
    {
        let was_open = self.is_open(link);
        if 0 < link && link <= self.links() {
            self.links[link as usize - 1].close();
            self.closed = first_open(self.links.as_slice(), self.closed);
        }
        was_open
    }

    /// The device restarts: its sides of all links end, and what was outstanding is dropped. It takes time as links were made
    /// since the last restart.
    pub fn restart(&mut self)
        ensures { self.new ≡ restarted self.old }
    {
        close_from(&mut self.links, self.closed);
        self.closed = self.links.len();
    }

    /// How many links were made.
    pub fn links(&self) -> u32
        ensures { result ≡ length self.now.links }
    {
        self.links.len() as u32
    }

    /// The number of the current link, and None exactly where there is none.
    pub fn current(&self) -> Option<u32>
        ensures { result ≡ self.now.current }
    {
        self.current
    }

    /// Whether the device's side of a link is open.
    pub fn is_open(&self, link: u32) -> bool
        ensures { result ≡ is_open_at self.now link }
    {
        match self.link(link) {
            Some(link) => link.is_open(),
            None => false,
        }
    }

    /// How many replies were sent on a link, and how many of them were handled, both 0 where it wasn't made.
    pub fn replies(&self, link: u32) -> (u32, u32)
        ensures { result ≡ counts_of (link_at self.now link) }
    {
        match self.link(link) {
            Some(link) => link.replies(),
            None => (0, 0),
        }
    }

    /// The session of the first Opened that was sent on a link, and None exactly where none was.
    pub fn session_of(&self, link: u32) -> Option<SessionId>
        ensures { result ≡ session_at self.now link }
    {
        match self.link(link) {
            Some(link) => link.session(),
            None => None,
        }
    }

    /// The least link that isn't current and whose side at the device is open, and None exactly where there is none. It passes
    /// over the closed links at the front that a `drop_link` or `restart` has passed over.
    pub fn first_left_open(&self) -> Option<u32>
        ensures found { IfSome result (λ number. is_left_open self.now number ≡ true) }
        ensures least { IfSome result (λ number. (other : ℕ) → other < number → is_left_open self.now other ≡ false) }
        ensures none { IfNone result ((other : ℕ) → is_left_open self.now other ≡ false) }
    {
        for place in self.closed..self.links.len() {
            let number = place as u32 + 1;
            if self.is_open(number) && self.current != Some(number) {
                return Some(number);
            }
        }
        None
    }

    /// Whether a link has a request outstanding. It takes time as there are links.
    pub fn has_outstanding(&self) -> bool
        ensures { result ≡ list_any has_outstanding self.now.links }
    {
        self.links.iter().any(|link| link.outstanding().is_some())
    }

    // The link of a number.
    fn link(&self, number: u32) -> Option<&Link>
        ensures { option_copied result ≡ link_at self.now number }
    {
        if number == 0 {
            return None;
        }
        self.links.get(number as usize - 1)
    }
}

// The number of the current link once a reply on it was handled: there is none after its last one.
fn current_after(current: Option<u32>, is_last: bool) -> Option<u32>
    ensures { result ≡ (if is_last then None else current) }
{
    if is_last { None } else { current }
}

// The device's sides of all links end, of which those before a place have ended.
fn close_from(links: &mut Vec<Link>, from: usize)
    requires within { from ≤ length links.old.items }
    requires closed { AreClosed (take from links.old.items) }
    ensures { links.new.items ≡ map closed_link links.old.items }
{
    for place in from..links.len() {
        links[place].close();
    }
}

// The place of the first link whose side at the device is open, from a place on before which none is; the number of links where
// there is none.
fn first_open(links: &[Link], from: usize) -> usize
    requires within { from ≤ length links.now }
    requires closed { AreClosed (take from links.now) }
    ensures within { result ≤ length links.now }
    ensures closed { AreClosed (take result links.now) }
{
    for place in from..links.len() {
        if links[place].is_open() {
            return place;
        }
    }
    links.len()
}
