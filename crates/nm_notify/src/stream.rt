//! A stream of notices, and those who subscribed to it.

ghost use Rattle.std.specs.Prelude.{◌≡◌, ◌↔◌, ◌++◌, ◌^◌, ◌-◌, ◌<◌, ◌≤◌, IfOk, OnOk, OnErr, false, length, option_to_list};
ghost use Rattle.nm_notify.specs.Notices.{is_standing};
ghost use Rattle.nm_notify.specs.Stream.{number_after};

use crate::fault::SubscribeFault;
use crate::notice::{Notice, notice_of, push_if};
use crate::subscriber::{Subscriber, any_before, any_numbered, drop_numbered, take_place};
use nm_base::NoMemory;
use nm_device::PendingView;
use nm_history::Noted;
use std::alloc::Global;
use std::marker::Model;

/// How many may be subscribed at once. It bounds what one entry costs.
pub const SUBSCRIBER_LIMIT: usize = 16;

/// The notices of a device's confirmed commits (RFC 6470 section 2.2), for those who subscribed. Subscribers are numbered 1, 2, 3
/// and so on, and no number is used again (this project's own).
#[derive(Drop)]
pub struct Stream {
    // How many entries of the device's history were observed.
    entries: u32,
    // The last number that a subscriber got, 0 before the first.
    last: u32,
    // How many notices are gone: each subscriber has taken them.
    gone: usize,
    // Those after them, oldest first.
    notices: Vec<Notice>,
    subscribers: Vec<Subscriber>,
}

impl Model for Stream {
    ghost use Rattle.std.specs.Prelude.{◌+◌, ◌≤◌, ◌<◌, ◌^◌, length};
    ghost use Rattle.std.specs.List.{All};
    ghost use Rattle.nm_notify.specs.Stream.{StreamState};
    ghost use Rattle.nm_notify.specs.Subscribers.{IsSubscriber, left_of};

    ghost Value = { StreamState };

    ghost view = { λ s. record { entries = s.entries; last = s.last; left = left_of s.gone s.notices.items s.subscribers.items } };

    ghost invariant = { λ s. All (IsSubscriber s.last s.gone (s.gone + length s.notices.items)) s.subscribers.items
        × (s.gone + length s.notices.items ≤ s.entries) × (s.entries < 2 ^ 32) };
}

impl Stream {
    ghost use Rattle.nm_notify.specs.declared.fault.SubscribeFault.TheVariants as subscribe;
    ghost use Rattle.nm_notify.specs.Stream.{after_taking, fresh_stream, is_subscribed, left_for, next_number, observed, subscribed, subscriber_limit, taken_from, unsubscribed};

    /// A stream that observes a device from its beginning, and nobody has subscribed. It takes no memory.
    pub fn new(alloc: Global) -> Stream
        ensures { result ≡ fresh_stream }
    {
        Stream {
            entries: 0,
            last: 0,
            gone: 0,
            notices: Vec::new(alloc),
            subscribers: Vec::new(alloc),
        }
    }

    /// Subscribes somebody, who gets what is told from now on, and answers the number, one above the last.
    ///
    /// Answers Full exactly where 16 are subscribed or the number 4294967295 was given.
    pub fn subscribe(&mut self) -> Result<u32, SubscribeFault>
        ensures full { (result ≡ Err subscribe.Full) ↔ (next_number self.old ≡ None) }
        ensures number { IfOk result (λ number. next_number self.old ≡ Some number) }
        ensures fresh { IfOk result (λ number. left_for self.old.left number ≡ None) }
        ensures after { OnOk result (self.new ≡ subscribed self.old) }
        ensures few { OnOk result (length self.new.left ≤ subscriber_limit) }
        ensures unchanged { OnErr result (self.new ≡ self.old) }
    {
        let Some(number) = number_after(self.subscribers.len(), self.last) else {
            return Err(SubscribeFault::Full);
        };
        let place = self.gone + self.notices.len();
        self.subscribers.push(Subscriber { number, place })?;
        self.last = number;
        Ok(number)
    }

    /// Observes the next entry of the device's history: each subscriber gets what it tells. `before` and `after` are what the
    /// device told of its pending commit before the entry and after it.
    ///
    /// A stream observes at most 4294967295 entries.
    pub fn observe(
        &mut self,
        before: PendingView,
        after: PendingView,
        noted: &Noted,
    ) -> Result<(), NoMemory>
        requires room { self.old.entries < 2 ^ 32 - 1 }
        ensures observed { OnOk result (self.new ≡ observed self.old (is_standing before) (is_standing after) noted.now) }
        ensures unchanged { OnErr result (self.new ≡ self.old) }
    {
        self.forget_taken();
        let position = self.entries + 1;
        let told = notice_of(position, noted, is_standing(&before), is_standing(&after));
        push_if(&mut self.notices, &told)?;
        self.entries = position;
        Ok(())
    }

    /// The oldest notice that is left for a subscriber, who has it then.
    ///
    /// Answers None exactly where there is no such subscriber, or it has taken all that was told since it subscribed.
    pub fn take(&mut self, subscriber: u32) -> Option<Notice>
        ensures notice { result ≡ taken_from (left_for self.old.left subscriber) }
        ensures after { self.new ≡ after_taking self.old subscriber }
    {
        let end = self.gone + self.notices.len();
        let Some(place) = take_place(&mut self.subscribers, subscriber, end) else {
            return None;
        };
        Some(self.notices[place - self.gone])
    }

    /// Ends a subscription, and what is left for it goes.
    ///
    /// Answers false exactly where there is no such subscriber.
    pub fn unsubscribe(&mut self, subscriber: u32) -> bool
        ensures answer { result ≡ is_subscribed self.old subscriber }
        ensures after { self.new ≡ unsubscribed self.old subscriber }
        ensures unchanged { result ≡ false → self.new ≡ self.old }
    {
        if !self.is_subscribed(subscriber) {
            return false;
        }
        drop_numbered(&mut self.subscribers, subscriber);
        true
    }

    // Whether somebody has this number.
    fn is_subscribed(&self, subscriber: u32) -> bool
        ensures { result ≡ is_subscribed self.now subscriber }
    {
        any_numbered(self.subscribers.as_slice(), subscriber)
    }

    // Lets go of the notices once every subscriber has taken all of them. What is left for each stays as it is.
    fn forget_taken(&mut self)
        ensures { self.new ≡ self.old }
    {
        let end = self.gone + self.notices.len();
        if any_before(self.subscribers.as_slice(), end) {
            return;
        }
        self.notices.clear();
        self.gone = end;
    }
}

// The number of the next subscriber.
fn number_after(count: usize, last: u32) -> Option<u32>
    ensures { result ≡ number_after count last }
{
    if count >= SUBSCRIBER_LIMIT {
        return None;
    }
    last.checked_add(1)
}

// Whether a commit is pending.
fn is_standing(view: &PendingView) -> bool
    ensures { result ≡ is_standing view.now }
{
    matches!(view, PendingView::Standing { .. })
}
