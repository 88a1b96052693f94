//! What the manager keeps of one change set: its course, and the links and the resynchronisation of each device.

ghost use Rattle.std.specs.Prelude.{◌≡◌, ◌<◌, ◌++◌, length, map, replicate, slice_get, take, drop, ℕ, ◌-◌, true, false, Some, IsSome, IfSome, IfOk, OnOk, OnErr};
ghost use Rattle.nm_decider.specs.Course.{seat_count};
ghost use Rattle.nm_decider.specs.Course as course;
ghost use Rattle.nm_manager.specs.Slot.{SideState, fresh_side, asked_in_fact, opens, may_go, gone, number_of, is_resync, awaits_resync, settled_by, learns, resync_goes_on, is_commit, to_commit, anew, cut_off, with_wire, told_wire, lost_wire, IsNoneLeft, sends_pair, renews_pair, receives_pair, breaks_pair};
ghost use Rattle.nm_manager.specs.declared.action.Action.TheVariants as action;
ghost use Rattle.nm_wire.specs.Wire.{outstanding_at, is_open_at, is_left_open, restarted};
ghost use Rattle.nm_recovery.specs.Recovery.{verdict_in};
ghost use Rattle.nm_manager.specs.Manager.{starts_anew, course_after};

use crate::action::Action;
use crate::request::request_for;
use nm_base::{ChangeNo, DeviceMask, DeviceNo, NoMemory};
use nm_decider::Course;
use nm_proto::{Ask, ChangePlan, Entry, Reply, Request, Verdict};
use nm_recovery::{is_ended_in, is_started, verdict_in};
use nm_resync::Resync;
use nm_wire::Wire;
use std::alloc::Global;
use std::marker::Model;

/// The links to a device, and its resynchronisation.
#[derive(Drop)]
pub(crate) struct Side {
    pub(crate) wire: Wire,
    pub(crate) resync: Resync,
}

impl Model for Side {
    ghost use Rattle.nm_manager.specs.Slot.{SideState};

    ghost Value = { SideState };

    ghost view = { λ side. record { wire = side.wire; resync = side.resync } };
}

impl Side {
    // No link was made.
    fn new(alloc: Global) -> Side
        ensures { result ≡ fresh_side }
    {
        Side {
            wire: Wire::new(alloc),
            resync: Resync::new(false),
        }
    }

    // What is asked in fact.
    fn asked_in_fact(&self, ask: Ask) -> Ask
        ensures { result ≡ asked_in_fact self.now.resync ask }
    {
        match ask {
            Ask::Resync => self.resync.next(),
            _ => ask,
        }
    }

    // Whether a request may go out, on a new link or on the current one.
    fn may_go(&self, new: bool) -> bool
        ensures { result ≡ may_go new self.now.wire }
    {
        new || self.wire.may_send()
    }

    // A request goes out. The action that tells so carries an equal one, which is made first.
    fn go_out(&mut self, new: bool, device: DeviceNo, request: Request) -> Result<Action, NoMemory>
        requires { may_go new self.old.wire ≡ true }
        ensures gone { OnOk result (self.new ≡ with_wire self.old (gone new self.old.wire request)) }
        ensures told { IfOk result (λ told. told ≡ action.Sent device (number_of (gone new self.old.wire request).current) request) }
        ensures unchanged { OnErr result (self.new ≡ self.old) }
    {
        let sent = request.copy()?;
        let link = self.carry(new, sent)?;
        Ok(Action::Sent {
            device,
            link,
            request,
        })
    }

    // A link carries a request. Answers the number of the link.
    fn carry(&mut self, new: bool, request: Request) -> Result<u32, NoMemory>
        requires { may_go new self.old.wire ≡ true }
        ensures gone { OnOk result (self.new ≡ with_wire self.old (gone new self.old.wire request)) }
        ensures number { IfOk result (λ number. number ≡ number_of (gone new self.old.wire request).current) }
        ensures unchanged { OnErr result (self.new ≡ self.old) }
    {
        if new {
            self.wire.begin(request)?;
            return Ok(self.current_number());
        }
        self.wire.send(request)?;
        Ok(self.current_number())
    }

    // The number of the current link, 0 where there is none.
    fn current_number(&self) -> u32
        ensures { result ≡ number_of self.now.wire.current }
    {
        self.wire.current().unwrap_or(0)
    }

    // The device answers the request that a link has outstanding.
    fn delivered(&mut self, link: u32, reply: Reply)
        requires outstanding { IsSome (outstanding_at self.old.wire link) }
        ensures { self.new ≡ with_wire self.old (told_wire link reply self.old.wire) }
    {
        self.wire.delivered(link, reply);
    }

    // The device's side of a link ends.
    fn drop_link(&mut self, link: u32) -> bool
        ensures value { result ≡ is_open_at self.old.wire link }
        ensures lost { self.new ≡ with_wire self.old (lost_wire link self.old.wire) }
    {
        self.wire.drop_link(link)
    }

    // The device restarts: its sides of all links end.
    fn restart(&mut self)
        ensures { self.new ≡ with_wire self.old (restarted self.old.wire) }
    {
        self.wire.restart();
    }

    // Whether a link that isn't current is open at the device.
    fn has_left_open(&self) -> bool
        ensures { result ≡ false → (link : ℕ) → is_left_open self.now.wire link ≡ false }
    {
        self.wire.first_left_open().is_some()
    }

    // What became of the device is to be found out from the beginning.
    fn anew(&mut self, commit: bool)
        ensures { self.new ≡ anew commit self.old }
    {
        self.resync = Resync::new(commit);
    }

    // The current link is no more.
    fn cut_off(&mut self, commit: bool)
        ensures { self.new ≡ cut_off commit self.old }
    {
        self.wire.break_current();
        self.resync = Resync::new(commit);
    }
}

/// What is kept of one change set. The side of device d stands at place d - 1.
#[derive(Drop)]
pub(crate) struct Slot {
    course: Course,
    sides: Vec<Side>,
}

impl Model for Slot {
    ghost use Rattle.std.specs.Prelude.{◌≡◌, length};
    ghost use Rattle.nm_decider.specs.Course.{seat_count};
    ghost use Rattle.nm_manager.specs.Slot.{SlotState};

    ghost Value = { SlotState };

    ghost view = { λ slot. record { course = slot.course; sides = slot.sides.items } };

    ghost invariant = { λ slot. length slot.sides.items ≡ seat_count };
}

impl Slot {
    ghost use Rattle.nm_manager.specs.Slot.{fresh_slot, side_at, sends, renews, receives, decided, breaks, lost_memory, wires_on, wire_of_side, restarted_slot};

    /// What is kept of a change set that isn't submitted.
    pub(crate) fn new(
        alloc: Global,
        change: ChangeNo,
        devices: DeviceMask,
    ) -> Result<Slot, NoMemory>
        ensures { IfOk result (λ slot. slot ≡ fresh_slot change devices.0) }
    {
        let sides = fresh_sides(alloc)?;
        Ok(Slot {
            course: Course::new(change, devices),
            sides,
        })
    }

    /// The course of the change set.
    pub(crate) fn course(&self) -> &Course
        ensures { result.now ≡ self.now.course }
    {
        &self.course
    }

    /// The links to a device, and its resynchronisation.
    pub(crate) fn side(&self, device: DeviceNo) -> &Side
        ensures { side_at self.now device ≡ Some result.now }
    {
        &self.sides[place_of(device)]
    }

    /// Whether a link that isn't current may be open at its device. Where it is false none is.
    pub(crate) fn has_left_open(&self) -> bool
        ensures { result ≡ false → IsNoneLeft self.now.sides }
    {
        any_left_open(self.sides.as_slice())
    }

    /// Asks this of a device. Where there is no memory nothing changes.
    pub(crate) fn send(
        &mut self,
        alloc: Global,
        plan: &ChangePlan,
        entries: &[Entry],
        device: DeviceNo,
        ask: Ask,
    ) -> Result<Action, NoMemory>
        ensures sent { IfOk result (λ action. record { action = action; slot = self.new } ≡ sends plan.now entries.now self.old device ask) }
        ensures unchanged { OnErr result (self.new ≡ self.old) }
    {
        let side = &mut self.sides[place_of(device)];
        send_on(alloc, plan, entries, &mut self.course, side, device, ask)
    }

    /// The timer of the pending commit of a device is set anew, where it may be. Where there is no memory nothing changes.
    pub(crate) fn renew(
        &mut self,
        alloc: Global,
        plan: &ChangePlan,
        entries: &[Entry],
        device: DeviceNo,
    ) -> Result<Action, NoMemory>
        ensures sent { IfOk result (λ action. record { action = action; slot = self.new } ≡ renews plan.now entries.now self.old device) }
        ensures unchanged { OnErr result (self.new ≡ self.old) }
    {
        let side = &mut self.sides[place_of(device)];
        renew_on(alloc, plan, entries, &mut self.course, side, device)
    }

    /// The reply of this number on a link is handled, where it is the next one on the current link. It takes no memory.
    pub(crate) fn receive(&mut self, device: DeviceNo, link: u32, number: u32) -> Action
        ensures { record { action = result; slot = self.new } ≡ receives self.old device link number }
    {
        let side = &mut self.sides[place_of(device)];
        receive_on(&mut self.course, side, device, link, number)
    }

    /// The current link to a device breaks, where there is one.
    pub(crate) fn break_link(&mut self, device: DeviceNo) -> Action
        ensures { record { action = result; slot = self.new } ≡ breaks self.old device }
    {
        let side = &mut self.sides[place_of(device)];
        break_on(&mut self.course, side, device)
    }

    /// The device answers the request that a link has outstanding. It takes no memory.
    pub(crate) fn delivered(&mut self, device: DeviceNo, link: u32, reply: Reply)
        requires outstanding { IsSome (outstanding_at (wire_of_side (side_at self.old device)) link) }
        ensures { self.new ≡ wires_on (told_wire link reply) self.old device (side_at self.old device) }
    {
        self.sides[place_of(device)].delivered(link, reply);
    }

    /// The device's side of a link ends, and what was outstanding on it is dropped. Answers whether it was open.
    pub(crate) fn drop_link(&mut self, device: DeviceNo, link: u32) -> bool
        ensures value { result ≡ is_open_at (wire_of_side (side_at self.old device)) link }
        ensures lost { self.new ≡ wires_on (lost_wire link) self.old device (side_at self.old device) }
    {
        self.sides[place_of(device)].drop_link(link)
    }

    /// The device restarts: its sides of all links end, and what was outstanding is dropped.
    pub(crate) fn restart(&mut self, device: DeviceNo)
        ensures { self.new ≡ restarted_slot device self.old }
    {
        self.sides[place_of(device)].restart();
    }

    /// The verdict stands.
    pub(crate) fn decide(&mut self, verdict: Verdict)
        ensures { self.new ≡ decided self.old verdict }
    {
        self.course.on_decided(verdict);
        all_anew(&mut self.sides, is_commit(&verdict));
    }

    /// All memory is lost: the change set goes on from its verdict in the journal where it was submitted and isn't ended, and else
    /// from the beginning.
    pub(crate) fn start_anew(&mut self, entries: &[Entry], change: ChangeNo, devices: DeviceMask)
        ensures { self.new ≡ starts_anew entries.now change devices.0 self.old }
    {
        let verdict = verdict_in(entries, change);
        let commit = to_commit(&verdict);
        self.course = course_after(entries, change, devices, verdict);
        all_cut_off(&mut self.sides, commit);
    }

    /// What was known is lost: the change set goes on from its verdict in the journal, and no link is current.
    pub(crate) fn forget(&mut self, devices: DeviceMask, verdict: Option<Verdict>)
        ensures { self.new ≡ lost_memory self.old devices.0 verdict }
    {
        let commit = to_commit(&verdict);
        let change = self.course.change();
        self.course = Course::recovered(change, devices, verdict);
        all_cut_off(&mut self.sides, commit);
    }
}

// This is asked of a device.
fn send_on(
    alloc: Global,
    plan: &ChangePlan,
    entries: &[Entry],
    course: &mut Course,
    side: &mut Side,
    device: DeviceNo,
    ask: Ask,
) -> Result<Action, NoMemory>
    ensures sent { IfOk result (λ action. record { action = action; course = course.new; side = side.new }
        ≡ sends_pair plan.now entries.now device ask course.old side.old) }
    ensures course_unchanged { OnErr result (course.new ≡ course.old) }
    ensures side_unchanged { OnErr result (side.new ≡ side.old) }
{
    let in_fact = side.asked_in_fact(ask);
    let Some(request) = request_for(alloc, plan, entries, course.change(), device, in_fact)? else {
        return Ok(Action::Idle);
    };
    if !side.may_go(opens(in_fact)) {
        drop(request);
        return Ok(Action::Idle);
    }
    let action = side.go_out(opens(in_fact), device, request)?;
    course.on_sent(device);
    Ok(action)
}

// The timer of the pending commit of a device is set anew, where it may be.
fn renew_on(
    alloc: Global,
    plan: &ChangePlan,
    entries: &[Entry],
    course: &mut Course,
    side: &mut Side,
    device: DeviceNo,
) -> Result<Action, NoMemory>
    ensures sent { IfOk result (λ action. record { action = action; course = course.new; side = side.new }
        ≡ renews_pair plan.now entries.now device course.old side.old) }
    ensures course_unchanged { OnErr result (course.new ≡ course.old) }
    ensures side_unchanged { OnErr result (side.new ≡ side.old) }
{
    if !course.may_renew(device) {
        return Ok(Action::Idle);
    }
    let Some(request) = request_for(alloc, plan, entries, course.change(), device, Ask::Renew)?
    else {
        return Ok(Action::Idle);
    };
    if !side.may_go(false) {
        drop(request);
        return Ok(Action::Idle);
    }
    let action = side.go_out(false, device, request)?;
    course.on_renewed(device);
    Ok(action)
}

// The reply of this number on a link is handled, where it is the next one on the current link.
fn receive_on(
    course: &mut Course,
    side: &mut Side,
    device: DeviceNo,
    link: u32,
    number: u32,
) -> Action
    ensures { record { action = result; course = course.new; side = side.new } ≡ receives_pair device link number course.old side.old }
{
    let resyncs = awaits_resync(course, device);
    let Some(exchange) = side.wire.due(link, number) else {
        return Action::Idle;
    };
    hear(course, &mut side.resync, device, &exchange.reply, resyncs);
    side.wire.answer(link, number);
    Action::Handled
}

// What a reply tells the course, and the resynchronisation where it is one to that.
fn hear(course: &mut Course, resync: &mut Resync, device: DeviceNo, reply: &Reply, resyncs: bool)
    ensures course { course.new ≡ learns resyncs course.old device reply.now (resync_goes_on resyncs resync.old reply.now) }
    ensures resync { resync.new ≡ resync_goes_on resyncs resync.old reply.now }
{
    course.on_reply(device, reply);
    if !resyncs {
        return;
    }
    resync.on_reply(reply);
    settle(course, device, resync.settled());
}

// The current link to a device breaks, where there is one.
fn break_on(course: &mut Course, side: &mut Side, device: DeviceNo) -> Action
    ensures { record { action = result; course = course.new; side = side.new } ≡ breaks_pair device course.old side.old }
{
    if side.wire.current().is_none() {
        return Action::Idle;
    }
    side.cut_off(to_commit(&course.verdict()));
    course.on_break(device);
    Action::Broken
}

// How a change set goes on where all memory is lost.
fn course_after(
    entries: &[Entry],
    change: ChangeNo,
    devices: DeviceMask,
    verdict: Option<Verdict>,
) -> Course
    requires { verdict ≡ verdict_in change entries.now }
    ensures { result ≡ course_after entries.now change devices.0 }
{
    if is_started(entries, change) && !is_ended_in(entries, change) {
        Course::recovered(change, devices, verdict)
    } else {
        Course::new(change, devices)
    }
}

// The place of a device's side.
fn place_of(device: DeviceNo) -> usize
    ensures value { result ≡ device - 1 }
    ensures within { result < seat_count }
{
    usize::from(device.get()) - 1
}

// Whether a request is for a session, which comes with a new link.
fn opens(ask: Ask) -> bool
    ensures { result ≡ opens ask }
{
    matches!(ask, Ask::OpenSession)
}

// Whether the reply to a request of a resynchronisation is awaited.
fn awaits_resync(course: &Course, device: DeviceNo) -> bool
    ensures { result ≡ awaits_resync (slice_get course.now.seats (device - 1)) }
{
    matches!(course.seat(device).awaited, Some(Ask::Resync))
}

// What a resynchronisation found comes to the course.
fn settle(course: &mut Course, device: DeviceNo, found: Option<bool>)
    ensures { course.new ≡ settled_by course.old device found }
{
    if let Some(kept) = found {
        course.on_settled(device, kept);
    }
}

fn is_commit(verdict: &Verdict) -> bool
    ensures { result ≡ is_commit verdict.now }
{
    matches!(verdict, Verdict::Commit)
}

fn to_commit(verdict: &Option<Verdict>) -> bool
    ensures { result ≡ to_commit verdict.now }
{
    match verdict {
        Some(verdict) => is_commit(verdict),
        None => false,
    }
}

// A side for each device, to none of which a link was made.
fn fresh_sides(alloc: Global) -> Result<Vec<Side>, NoMemory>
    ensures { IfOk result (λ sides. sides.items ≡ replicate seat_count fresh_side) }
{
    let mut sides = Vec::with_capacity(alloc, DeviceNo::LIMIT as usize)?;
    for _ in 0..DeviceNo::LIMIT {
        sides.push(Side::new(alloc))?;
    }
    Ok(sides)
}

// What became of each device is to be found out from the beginning.
fn all_anew(sides: &mut Vec<Side>, commit: bool)
    ensures { sides.new.items ≡ map (anew commit) sides.old.items }
{
    for place in 0..sides.len() {
        sides[place].anew(commit);
    }
}

// No link of any device is current.
fn all_cut_off(sides: &mut Vec<Side>, commit: bool)
    ensures { sides.new.items ≡ map (cut_off commit) sides.old.items }
{
    for place in 0..sides.len() {
        sides[place].cut_off(commit);
    }
}

// Whether one of the sides has a link that isn't current and is open at its device.
fn any_left_open(sides: &[Side]) -> bool
    ensures { result ≡ false → IsNoneLeft sides.now }
{
    for side in sides {
        if side.has_left_open() {
            return true;
        }
    }
    false
}
