//! What comes next, by the seats of all devices: which device is asked, and when it is decided and ended.

ghost use Rattle.std.specs.Prelude.{◌≡◌, ◌≤◌, length, position, None, Some};
ghost use Rattle.std.specs.List.{list_any};
ghost use Rattle.nm_decider.specs.Course.{seat_count, awaits, wants_acknowledgement, wants_settling, may_send, choice_of, fewer, chosen, fewest_from, place_of, send_of, send_at, calm_action, undecided_action, kept_from, decided_action};

use crate::course::NextAction;
use crate::seat::Seat;
use nm_base::{DeviceMask, DeviceNo};
use nm_proto::{AbortCause, Verdict};

/// What comes next before the decision.
pub(crate) fn undecided_action(trouble: &Option<AbortCause>, seats: &[Seat]) -> NextAction
    requires { length seats.now ≤ seat_count }
    ensures { result ≡ undecided_action trouble.now seats.now }
{
    match trouble {
        Some(cause) => NextAction::Decide(Verdict::Abort(*cause)),
        None => calm_action(seats),
    }
}

// What comes next before the decision where there is no trouble.
fn calm_action(seats: &[Seat]) -> NextAction
    requires { length seats.now ≤ seat_count }
    ensures { result ≡ calm_action seats.now }
{
    if any_awaits(seats) {
        return NextAction::Wait;
    }
    if !any_wants_acknowledgement(seats) {
        return NextAction::Decide(Verdict::Commit);
    }
    send_at(&None, seats, first_unacknowledged(seats))
}

// The place of the least device that hasn't acknowledged.
fn first_unacknowledged(seats: &[Seat]) -> Option<usize>
    ensures { result ≡ position wants_acknowledgement seats.now }
{
    seats.iter().position(|seat| wants_acknowledgement(seat))
}

/// What comes next after the decision.
pub(crate) fn decided_action(verdict: &Verdict, seats: &[Seat]) -> NextAction
    requires { length seats.now ≤ seat_count }
    ensures { result ≡ decided_action verdict.now seats.now }
{
    if !any_wants_settling(seats) {
        return NextAction::Finish {
            kept: kept_in(seats),
        };
    }
    let verdict = Some(*verdict);
    send_at(&verdict, seats, fewest(&verdict, seats))
}

// The next request goes to the device at a place.
fn send_at(verdict: &Option<Verdict>, seats: &[Seat], place: Option<usize>) -> NextAction
    requires { length seats.now ≤ seat_count }
    ensures { result ≡ send_at verdict.now seats.now place }
{
    let Some(place) = place else {
        return NextAction::Wait;
    };
    let Some(seat) = seats.get(place) else {
        return NextAction::Wait;
    };
    let Some(ask) = seat.stage.next_ask(verdict) else {
        return NextAction::Wait;
    };
    NextAction::Send {
        device: DeviceNo::new(place as u8 + 1).unwrap(),
        ask,
    }
}

// The place of the device with the fewest requests since the decision, of those that may be asked, the first among equals.
fn fewest(verdict: &Option<Verdict>, seats: &[Seat]) -> Option<usize>
    ensures { result ≡ place_of (fewest_from verdict.now 0 seats.now) }
{
    let mut best = None;
    for place in (0..seats.len()).rev() {
        best = fewer(choice_of(verdict, place, &seats[place]), best);
    }
    match best {
        Some((_, place)) => Some(place),
        None => None,
    }
}

// A place and the number of requests that were sent there, where it may be asked.
fn choice_of(verdict: &Option<Verdict>, place: usize, seat: &Seat) -> Option<(u64, usize)>
    ensures { chosen result ≡ choice_of verdict.now place seat.now }
{
    if may_send(verdict, seat) {
        Some((seat.sent, place))
    } else {
        None
    }
}

// The better of two choices, the first among equals.
fn fewer(one: Option<(u64, usize)>, other: Option<(u64, usize)>) -> Option<(u64, usize)>
    ensures { chosen result ≡ fewer (chosen one) (chosen other) }
{
    match (one, other) {
        (None, other) => other,
        (one, None) => one,
        (Some((count, place)), Some((least, _))) if count <= least => Some((count, place)),
        (_, other) => other,
    }
}

// The devices that have kept the change set.
fn kept_in(seats: &[Seat]) -> DeviceMask
    requires { length seats.now ≤ seat_count }
    ensures { result.0 ≡ kept_from 0 seats.now }
{
    let mut kept = 0;
    for place in (0..seats.len()).rev() {
        if seats[place].is_member && seats[place].stage.has_kept() {
            kept |= 1u32 << place;
        }
    }
    DeviceMask(kept)
}

fn any_awaits(seats: &[Seat]) -> bool
    ensures { result ≡ list_any awaits seats.now }
{
    seats.iter().any(|seat| awaits(seat))
}

fn any_wants_acknowledgement(seats: &[Seat]) -> bool
    ensures { result ≡ list_any wants_acknowledgement seats.now }
{
    seats.iter().any(|seat| wants_acknowledgement(seat))
}

fn any_wants_settling(seats: &[Seat]) -> bool
    ensures { result ≡ list_any wants_settling seats.now }
{
    seats.iter().any(|seat| wants_settling(seat))
}

fn awaits(seat: &Seat) -> bool
    ensures { result ≡ awaits seat.now }
{
    seat.is_member && seat.awaited.is_some()
}

fn wants_acknowledgement(seat: &Seat) -> bool
    ensures { result ≡ wants_acknowledgement seat.now }
{
    seat.is_member && !seat.stage.is_acknowledged()
}

fn wants_settling(seat: &Seat) -> bool
    ensures { result ≡ wants_settling seat.now }
{
    seat.is_member && !seat.stage.is_settled()
}

fn may_send(verdict: &Option<Verdict>, seat: &Seat) -> bool
    ensures { result ≡ may_send verdict.now seat.now }
{
    seat.is_member && seat.awaited.is_none() && seat.stage.next_ask(verdict).is_some()
}
