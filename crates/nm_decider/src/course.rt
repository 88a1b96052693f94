//! The course of a change set: a seat for each device, the verdict, and the trouble that was noted first.

ghost use Rattle.std.specs.Prelude.{◌≡◌, ◌-◌, length, slice_get, map, Some};
ghost use Rattle.nm_decider.specs.Course.{seat_count, seats_from, seat_of, lost_memory, noted, decided_seat};

use crate::choice::{decided_action, undecided_action};
use crate::seat::Seat;
use arrayvec::ArrayVec;
use nm_base::{ChangeNo, DeviceMask, DeviceNo};
use nm_decider_stage::{Stage, trouble_in};
use nm_proto::{AbortCause, Ask, Reply, Verdict};
use std::marker::Model;

/// What the manager does next for a change set.
#[derive(Clone, Copy, PartialEq, Eq)]
pub enum NextAction {
    /// Nothing: a reply is awaited.
    Wait,
    /// Asks a device.
    Send { device: DeviceNo, ask: Ask },
    /// Decides.
    Decide(Verdict),
    /// Ends the change set, which these devices have kept.
    Finish { kept: DeviceMask },
}

/// The course of one change set. No call takes memory.
#[derive(Drop)]
pub struct Course {
    change: ChangeNo,
    verdict: Option<Verdict>,
    trouble: Option<AbortCause>,
    // The seat of device d at place d - 1.
    seats: ArrayVec<Seat, 32>,
}

impl Model for Course {
    ghost use Rattle.std.specs.Prelude.{◌≡◌, length};
    ghost use Rattle.nm_decider.specs.Course.{CourseState, seat_count};

    ghost Value = { CourseState };

    ghost view = { λ course. record { change = course.change; verdict = course.verdict; trouble = course.trouble; seats = course.seats.items } };

    ghost invariant = { λ course. length course.seats.items ≡ seat_count };
}

impl Course {
    ghost use Rattle.nm_decider.specs.Course.{new_course, recovered_course, with_seat, with_sent, with_renewed, with_reply, with_break, with_verdict, with_settled, next_action, may_renew};

    /// The course of a change set that was submitted, to which no link was made.
    pub fn new(change: ChangeNo, devices: DeviceMask) -> Course
        ensures { result ≡ new_course change devices.0 }
    {
        Course {
            change,
            verdict: None,
            trouble: None,
            seats: seats_of(devices, Stage::Live { done: 0 }),
        }
    }

    /// The course of a submitted change set whose memory was lost, by its verdict in the journal.
    pub fn recovered(change: ChangeNo, devices: DeviceMask, verdict: Option<Verdict>) -> Course
        ensures { result ≡ recovered_course change devices.0 verdict }
    {
        Course {
            change,
            verdict,
            trouble: lost_memory(&verdict),
            seats: seats_of(devices, Stage::Resync),
        }
    }

    /// The change set.
    pub fn change(&self) -> ChangeNo
        ensures { result ≡ self.now.change }
    {
        self.change
    }

    /// The verdict, where it stands.
    pub fn verdict(&self) -> Option<Verdict>
        ensures { result ≡ self.now.verdict }
    {
        self.verdict
    }

    /// What the manager knows of a device.
    pub fn seat(&self, device: DeviceNo) -> Seat
        ensures { slice_get self.now.seats (device - 1) ≡ Some result }
    {
        self.seats.as_slice()[place_of(device)]
    }

    /// What the manager does next. It takes time as there are devices.
    pub fn next_action(&self) -> NextAction
        ensures { result ≡ next_action self.now }
    {
        match &self.verdict {
            None => undecided_action(&self.trouble, self.seats.as_slice()),
            Some(verdict) => decided_action(verdict, self.seats.as_slice()),
        }
    }

    /// What is asked of a device next was sent.
    pub fn on_sent(&mut self, device: DeviceNo)
        ensures { self.new ≡ with_sent self.old device }
    {
        let seat = self.seat(device);
        let awaited = seat.stage.next_ask(&self.verdict);
        self.put(
            device,
            Seat {
                awaited,
                sent: seat.sent.saturating_add(1),
                ..seat
            },
        );
    }

    /// Whether the timer of a device's pending commit may be set anew (RFC 6241 section 8.4.1): undecided and without trouble, the
    /// device has acknowledged and awaits no reply.
    pub fn may_renew(&self, device: DeviceNo) -> bool
        ensures { result ≡ may_renew self.now device }
    {
        let seat = self.seat(device);
        self.verdict.is_none()
            && self.trouble.is_none()
            && seat.is_member
            && seat.awaited.is_none()
            && seat.stage.is_acknowledged()
    }

    /// A renewal was sent to a device.
    pub fn on_renewed(&mut self, device: DeviceNo)
        ensures { self.new ≡ with_renewed self.old device }
    {
        let seat = self.seat(device);
        self.put(
            device,
            Seat {
                awaited: Some(Ask::Renew),
                sent: seat.sent.saturating_add(1),
                ..seat
            },
        );
    }

    /// The reply to what was asked of a device is handled. Where nothing was, nothing changes.
    pub fn on_reply(&mut self, device: DeviceNo, reply: &Reply)
        ensures { self.new ≡ with_reply self.old device reply.now }
    {
        let seat = self.seat(device);
        let Some(ask) = seat.awaited else {
            return;
        };
        let stage = seat.stage.learnt(&self.verdict, ask, reply);
        self.trouble = noted(&self.verdict, &self.trouble, trouble_in(device, ask, reply));
        self.put(
            device,
            Seat {
                stage,
                awaited: None,
                ..seat
            },
        );
    }

    /// The link to a device broke.
    pub fn on_break(&mut self, device: DeviceNo)
        ensures { self.new ≡ with_break self.old device }
    {
        let seat = self.seat(device);
        self.trouble = noted(
            &self.verdict,
            &self.trouble,
            Some(AbortCause::Broken { device }),
        );
        self.put(
            device,
            Seat {
                stage: seat.stage.broken(),
                awaited: None,
                ..seat
            },
        );
    }

    /// The verdict stands.
    pub fn on_decided(&mut self, verdict: Verdict)
        ensures { self.new ≡ with_verdict self.old verdict }
    {
        self.verdict = Some(verdict);
        decide_all(self.seats.as_mut_slice(), &verdict);
    }

    /// The resynchronisation of a device has found whether it kept the change set. Where it isn't in one, nothing changes.
    pub fn on_settled(&mut self, device: DeviceNo, kept: bool)
        ensures { self.new ≡ with_settled self.old device kept }
    {
        let seat = self.seat(device);
        if matches!(seat.stage, Stage::Resync) {
            self.put(
                device,
                Seat {
                    stage: Stage::Settled { kept },
                    awaited: None,
                    ..seat
                },
            );
        }
    }

    // A device's seat is another now.
    fn put(&mut self, device: DeviceNo, seat: Seat)
        ensures { self.new ≡ with_seat self.old device seat }
    {
        self.seats.as_mut_slice()[place_of(device)] = seat;
    }
}

// The place of a device's seat.
fn place_of(device: DeviceNo) -> usize
    ensures { result ≡ device - 1 }
{
    usize::from(device.get()) - 1
}

// Seats of which none has been asked anything.
fn seats_of(devices: DeviceMask, stage: Stage) -> ArrayVec<Seat, 32>
    ensures seats { result.items ≡ seats_from devices.0 stage 1 seat_count }
    ensures long { length result.items ≡ seat_count }
{
    let mut seats = ArrayVec::new();
    for number in 1..DeviceNo::LIMIT + 1 {
        let device = DeviceNo::new(number).unwrap();
        seats.push(Seat {
            is_member: devices.contains(device),
            stage,
            awaited: None,
            sent: 0,
        });
    }
    seats
}

// The trouble of a change set whose memory was lost.
fn lost_memory(verdict: &Option<Verdict>) -> Option<AbortCause>
    ensures { result ≡ lost_memory verdict.now }
{
    match verdict {
        None => Some(AbortCause::Forgotten),
        Some(_) => None,
    }
}

// The trouble that is noted: the first while it is undecided.
fn noted(
    verdict: &Option<Verdict>,
    trouble: &Option<AbortCause>,
    later: Option<AbortCause>,
) -> Option<AbortCause>
    ensures { result ≡ noted verdict.now trouble.now later }
{
    match trouble {
        Some(first) => Some(*first),
        None => match verdict {
            None => later,
            Some(_) => None,
        },
    }
}

// The verdict comes to each seat.
fn decide_all(seats: &mut [Seat], verdict: &Verdict)
    ensures { seats.new ≡ map (decided_seat verdict.now) seats.old }
{
    for place in 0..seats.len() {
        seats[place] = decided_seat(seats[place], verdict);
    }
}

fn decided_seat(seat: Seat, verdict: &Verdict) -> Seat
    ensures { result ≡ decided_seat verdict.now seat }
{
    let stage = match verdict {
        Verdict::Commit => seat.stage,
        Verdict::Abort(_) => seat.stage.aborted(seat.awaited.is_some()),
    };
    Seat {
        stage,
        sent: 0,
        ..seat
    }
}
