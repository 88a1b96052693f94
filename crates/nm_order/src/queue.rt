//! Which change sets are ready, by the queues of their devices: the unfinished one that was submitted first always is.

ghost use Rattle.std.specs.Prelude.{◌≡◌, ◌++◌, ◌∷◌, ℕ, List, true, false};
ghost use Rattle.std.specs.List.{list_all, list_any};
ghost use Rattle.nm_order.specs.Queue.{heads_all, waits_for, share_device, is_done, OrderState, is_ready, ready_tickets, are_apart};
ghost use Rattle.nm_order.specs.declared.ticket.Ticket.{Ticket as ATicket};

use crate::ticket::Ticket;
use nm_base::{ChangeMask, DeviceMask};

// Whether a ticket is unfinished and shares no device with an unfinished one before it.
pub(crate) fn heads_all(finished: ChangeMask, before: &[Ticket], ticket: &Ticket) -> bool
    ensures { result ≡ heads_all finished.0 before.now ticket.now }
{
    !finished.contains(ticket.change) && !is_behind(finished, before, ticket)
}

// Whether a ticket is behind an unfinished one of these.
fn is_behind(finished: ChangeMask, before: &[Ticket], ticket: &Ticket) -> bool
    ensures { result ≡ list_any (waits_for finished.0 ticket.now) before.now }
{
    before
        .iter()
        .any(|earlier| waits_for(finished, ticket, earlier))
}

// Whether a ticket is behind another, unfinished one in the queue of a device.
fn waits_for(finished: ChangeMask, ticket: &Ticket, earlier: &Ticket) -> bool
    ensures { result ≡ waits_for finished.0 ticket.now earlier.now }
{
    !finished.contains(earlier.change) && share_device(earlier.devices, ticket.devices)
}

// Whether two sets of devices have one in common.
fn share_device(one: DeviceMask, other: DeviceMask) -> bool
    ensures { result ≡ share_device one.0 other.0 }
{
    one.0 & other.0 != 0
}

/// The unfinished change set that was submitted first is ready, and two that are ready share no device.
pub fn queues_move_on()
    ensures first { (finished taken : ℕ) (before later : List ATicket) (ticket : ATicket)
        → list_all (is_done finished) before ≡ true → is_done finished ticket ≡ false
        → is_ready (record { tickets = before ++ ticket ∷ later; finished = finished; taken = taken }) ticket.change ≡ true }
    ensures apart { (order : OrderState) → are_apart (ready_tickets order) ≡ true }
{}
