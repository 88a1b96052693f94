//! What a worker keeps of one change set.

ghost use Rattle.std.specs.Prelude.{◌≡◌, ◌-◌, ◌<◌, length, map, replicate, slice_get, slice_set, Some, IfOk};
ghost use Rattle.nm_decider.specs.Course.{seat_count, next_action, with_sent};
ghost use Rattle.nm_manager.specs.Slot.{awaits_resync, learns, settled_by, resync_goes_on, is_commit, to_commit};
ghost use Rattle.nm_work.specs.Work.{fresh_side, fresh_work, side_at, session_at, asked_at, heard, heard_by, answered_on, answered, begins_again, broken, decided, anew};

use crate::side::Side;
use nm_base::{ChangeNo, DeviceMask, DeviceNo, NoMemory, SessionId};
use nm_decider::{Course, NextAction};
use nm_proto::{Ask, Reply, Verdict};
use std::alloc::Global;
use std::marker::Model;

/// What a worker keeps of a change set. Once it is begun no call takes memory, so that want of memory loses nothing of it.
#[derive(Drop)]
pub struct Work {
    course: Course,
    // The side of device d at place d - 1.
    sides: Vec<Side>,
}

impl Model for Work {
    ghost use Rattle.std.specs.Prelude.{◌≡◌, length};
    ghost use Rattle.nm_decider.specs.Course.{seat_count};
    ghost use Rattle.nm_work.specs.Work.{WorkState};

    ghost Value = { WorkState };

    ghost view = { λ work. record { course = work.course; sides = work.sides.items } };

    ghost invariant = { λ work. length work.sides.items ≡ seat_count };
}

impl Work {
    /// What is kept of a change set for which nothing was asked.
    pub fn new(alloc: Global, change: ChangeNo, devices: DeviceMask) -> Result<Work, NoMemory>
        ensures { IfOk result (λ work. work ≡ fresh_work change devices.0) }
    {
        let sides = fresh_sides(alloc)?;
        Ok(Work {
            course: Course::new(change, devices),
            sides,
        })
    }

    /// What comes next.
    pub fn next_action(&self) -> NextAction
        ensures { result ≡ next_action self.now.course }
    {
        self.course.next_action()
    }

    /// The session that is asked on at a device, where one is open.
    pub fn session(&self, device: DeviceNo) -> Option<SessionId>
        ensures { result ≡ session_at self.now device }
    {
        self.sides[place_of(device)].session()
    }

    /// What is asked of a device in fact: in a resynchronisation what that asks next.
    pub fn asked_in_fact(&self, device: DeviceNo, ask: Ask) -> Ask
        ensures { result ≡ asked_at self.now device ask }
    {
        self.sides[place_of(device)].asked_in_fact(ask)
    }

    /// What comes next was asked of a device, in fact this, and was answered. Answers whether a resynchronisation begins again,
    /// since it was refused before it held the lock.
    pub fn on_answered(&mut self, device: DeviceNo, ask: Ask, reply: &Reply) -> bool
        ensures heard { self.new ≡ answered self.old device ask reply.now }
        ensures again { result ≡ begins_again self.old device ask reply.now }
    {
        let Work { course, sides } = self;
        course.on_sent(device);
        let resyncs = awaits_resync(course, device);
        let side = &mut sides[place_of(device)];
        hear(course, side, resyncs, device, ask, reply);
        resyncs && side.is_opening()
    }

    /// What comes next was asked of a device, and the call was broken.
    pub fn on_broken(&mut self, device: DeviceNo)
        ensures { self.new ≡ broken self.old device }
    {
        let commit = to_commit(&self.course.verdict());
        self.course.on_sent(device);
        self.course.on_break(device);
        self.sides[place_of(device)].cut_off(commit);
    }

    /// The verdict stands.
    pub fn on_decided(&mut self, verdict: Verdict)
        ensures { self.new ≡ decided self.old verdict }
    {
        self.course.on_decided(verdict);
        all_anew(&mut self.sides, is_commit(&verdict));
    }
}

// What a reply tells the course, and the side of the device.
fn hear(
    course: &mut Course,
    side: &mut Side,
    resyncs: bool,
    device: DeviceNo,
    ask: Ask,
    reply: &Reply,
)
    ensures course { course.new ≡ learns resyncs course.old device reply.now (resync_goes_on resyncs side.old.resync reply.now) }
    ensures side { side.new ≡ heard resyncs ask reply.now side.old }
{
    course.on_reply(device, reply);
    side.hear(resyncs, ask, reply);
    if !resyncs {
        return;
    }
    settle(course, device, side.settled());
}

// What a resynchronisation found comes to the course.
fn settle(course: &mut Course, device: DeviceNo, found: Option<bool>)
    ensures { course.new ≡ settled_by course.old device found }
{
    if let Some(kept) = found {
        course.on_settled(device, kept);
    }
}

// The place of a device's side.
fn place_of(device: DeviceNo) -> usize
    ensures value { result ≡ device - 1 }
    ensures within { result < seat_count }
{
    usize::from(device.get()) - 1
}

// Whether the reply to a request of a resynchronisation is awaited.
fn awaits_resync(course: &Course, device: DeviceNo) -> bool
    ensures { result ≡ awaits_resync (slice_get course.now.seats (device - 1)) }
{
    matches!(course.seat(device).awaited, Some(Ask::Resync))
}

fn is_commit(verdict: &Verdict) -> bool
    ensures { result ≡ is_commit verdict.now }
{
    matches!(verdict, Verdict::Commit)
}

fn to_commit(verdict: &Option<Verdict>) -> bool
    ensures { result ≡ to_commit verdict.now }
{
    match verdict {
        Some(verdict) => is_commit(verdict),
        None => false,
    }
}

// A side for each device, of which nothing was asked.
fn fresh_sides(alloc: Global) -> Result<Vec<Side>, NoMemory>
    ensures { IfOk result (λ sides. sides.items ≡ replicate seat_count fresh_side) }
{
    let mut sides = Vec::with_capacity(alloc, DeviceNo::LIMIT as usize)?;
    for _ in 0..DeviceNo::LIMIT {
        sides.push(Side::new())?;
    }
    Ok(sides)
}

// What became of each device is to be found out.
fn all_anew(sides: &mut Vec<Side>, commit: bool)
    ensures { sides.new.items ≡ map (anew commit) sides.old.items }
{
    for place in 0..sides.len() {
        sides[place].anew(commit);
    }
}
