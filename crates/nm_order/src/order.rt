//! The change sets in the order in which they were submitted, and what happens to them there.

ghost use Rattle.std.specs.Prelude.{◌≡◌, ◌≢◌, ◌≤◌, ◌<◌, ◌↔◌, ◌++◌, [], ◌∷◌, ℕ, List, true, false, IsSome, IsNone, IfSome, IfNone, length, take, drop};
ghost use Rattle.nm_base.specs.Mask.{AddsToMask};

use crate::queue::heads_all;
use crate::ticket::Ticket;
use arrayvec::ArrayVec;
use nm_base::{ChangeMask, ChangeNo, DeviceMask};
use std::marker::Model;

/// The change sets that were submitted, in their order, with those that are taken and those that are
/// finished. It takes no memory.
#[derive(Drop)]
pub struct Order {
    tickets: ArrayVec<Ticket, 64>,
    finished: ChangeMask,
    taken: ChangeMask,
}

impl Model for Order {
    ghost use Rattle.nm_order.specs.Queue.{OrderState, IsOnce};

    ghost Value = { OrderState };

    ghost view = { λ order. record { tickets = order.tickets.items; finished = order.finished.0; taken = order.taken.0 } };

    ghost invariant = { λ order. IsOnce order.tickets.items };
}

impl Order {
    ghost use Rattle.nm_order.specs.Queue.{no_tickets, is_submitted, is_finished, is_ready, is_free};

    /// No change set was submitted.
    pub fn new() -> Order
        ensures { result ≡ no_tickets }
    {
        Order {
            tickets: ArrayVec::new(),
            finished: ChangeMask(0),
            taken: ChangeMask(0),
        }
    }

    /// Puts a change set at the end of the queues of its devices.
    pub fn submit(&mut self, change: ChangeNo, devices: DeviceMask)
        requires some { devices.0 ≢ 0 }
        requires once { is_submitted self.old change ≡ false }
        ensures { self.new ≡ record self.old { tickets = self.old.tickets ++ record { change = change; devices = devices } ∷ [] } }
    {
        // So many numbers there are, and each has been submitted at most once.
        prove!(change.get() <= ChangeNo::LIMIT);
        self.tickets.push(Ticket { change, devices });
    }

    /// Whether a change set is unfinished and heads the queues of all its devices.
    pub fn is_ready(&self, change: ChangeNo) -> bool
        ensures { result ≡ is_ready self.now change }
    {
        if self.finished.contains(change) {
            return false;
        }
        let tickets = self.tickets.as_slice();
        for (place, ticket) in tickets.iter().enumerate() {
            if change.get() == ticket.change.get()
                && heads_all(self.finished, &tickets[..place], ticket)
            {
                return true;
            }
        }
        false
    }

    /// The least ready change set that nobody took, which is taken then.
    pub fn take_ready(&mut self) -> Option<ChangeNo>
        ensures free { IfSome result (λ change. is_free self.old change ≡ true) }
        ensures least { IfSome result (λ change. (other : ℕ) → 1 ≤ other → other < change → is_free self.old other ≡ false) }
        ensures none { IsNone result ↔ ((change : ℕ) → 1 ≤ change → change ≤ 64 → is_free self.old change ≡ false) }
        ensures taken { IfSome result (λ change. AddsToMask self.old.taken self.new.taken change) }
        ensures others { self.new ≡ record self.old { taken = self.new.taken } }
        ensures unchanged { IfNone result (self.new ≡ self.old) }
    {
        for number in 1..ChangeNo::LIMIT + 1 {
            let change = ChangeNo::new(number).unwrap();
            if self.is_free(change) {
                self.taken = self.taken.with(change);
                return Some(change);
            }
        }
        None
    }

    // Whether a change set is ready and nobody took it.
    fn is_free(&self, change: ChangeNo) -> bool
        ensures { result ≡ is_free self.now change }
    {
        self.is_ready(change) && !self.taken.contains(change)
    }

    /// Leaves an unfinished change set to its owner: nobody else takes it, and it keeps its place.
    pub fn put_off(&mut self, change: ChangeNo)
        requires submitted { is_submitted self.old change ≡ true }
        requires unfinished { is_finished self.old change ≡ false }
        ensures taken { AddsToMask self.old.taken self.new.taken change }
        ensures others { self.new ≡ record self.old { taken = self.new.taken } }
    {
        self.taken = self.taken.with(change);
    }

    /// Takes an unfinished change set out of the queues of its devices.
    pub fn finish(&mut self, change: ChangeNo)
        requires submitted { is_submitted self.old change ≡ true }
        requires unfinished { is_finished self.old change ≡ false }
        ensures finished { AddsToMask self.old.finished self.new.finished change }
        ensures others { self.new ≡ record self.old { finished = self.new.finished } }
    {
        self.finished = self.finished.with(change);
    }
}
