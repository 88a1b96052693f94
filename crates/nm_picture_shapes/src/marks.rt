//! What holds at a device while a run goes on: who locked its datastores, its pending commit, and where its running changed.

ghost use Rattle.std.specs.Prelude.{◌≡◌, ◌≤◌, ◌<◌, ◌+◌, ◌++◌, length, map, slice_get, IfOk, OnOk, option_copied};
ghost use Rattle.std.specs.List.{flat_map};
ghost use Rattle.nm_picture_shapes.specs.Marks as spec;

use crate::effect::{Effect, effect_of, misses_pending};
use crate::rows::Row;
use nm_base::{DeviceNo, NoMemory};
use nm_history::{Noted, Recorded};
use nm_proto::{Content, Event, Store};
use nm_world::TraceEntry;
use std::alloc::Global;

/// What holds at a device for some time.
#[derive(Clone, Copy)]
pub enum BarKind {
    /// Its running is locked.
    Running,
    /// Its candidate is locked.
    Candidate,
    /// A confirmed commit waits to be confirmed (RFC 6241 section 8.4).
    Pending,
}

/// That something held at a device.
#[derive(Clone, Copy)]
pub struct Bar {
    pub kind: BarKind,
    /// The place in the trail of the event that began it.
    pub place: usize,
    /// The line of that event.
    pub from: u32,
    /// The line of the event that ended it, and None where it holds at the end.
    pub to: Option<u32>,
}

/// What a picture shows at the lane of a device, beside the events themselves.
#[derive(Clone, Copy)]
pub enum DeviceMark {
    Held(Bar),
    /// A commit of an edited candidate: the event's place in the trail and its line.
    Changed { place: usize, line: u32 },
    /// Running became what it was before the pending commit.
    Undone { line: u32 },
    /// After the clock rose, the pending commit waits so many more seconds.
    Left { line: u32, seconds: u64 },
    /// What was refused wants a pending commit, and there was none.
    NothingPending { line: u32 },
}

/// What a picture shows at a lane.
#[derive(Clone, Copy)]
pub struct LaneMark {
    pub device: DeviceNo,
    pub mark: DeviceMark,
}

/// A row of an event that a device has noted.
#[derive(Clone, Copy)]
pub struct LaneRow {
    pub place: usize,
    pub line: u32,
}

// A lock that a session holds, and the event that began it.
#[derive(Clone, Copy)]
struct Hold {
    session: u32,
    place: usize,
    since: u32,
}

// A confirmed commit that waits so many seconds, and the event that began it.
#[derive(Clone, Copy)]
struct Wait {
    place: usize,
    since: u32,
    left: u64,
}

// What holds at a device at a moment.
#[derive(Clone, Copy)]
struct Lane {
    running: Option<Hold>,
    candidate: Option<Hold>,
    pending: Option<Wait>,
    is_edited: bool,
}

// ---- the rows of a device

// The device that notes an event.
fn noting(event: &Event) -> Option<DeviceNo>
    ensures { result ≡ spec.noting event.now }
{
    match event {
        Event::Deliver { device, .. } => Some(*device),
        Event::Lose { device, .. } => Some(*device),
        Event::Advance { device, .. } => Some(*device),
        Event::Restart { device } => Some(*device),
        Event::Foreign { device, .. } => Some(*device),
        Event::Leave { device, .. } => Some(*device),
        _ => None,
    }
}

fn is_noted_by(event: &Event, device: DeviceNo) -> bool
    ensures { result ≡ spec.is_noted_by event.now device }
{
    match noting(event) {
        Some(other) => other.get() == device.get(),
        None => false,
    }
}

fn push_lane_row(
    rows: &mut Vec<LaneRow>,
    passed: Option<&TraceEntry>,
    device: DeviceNo,
    row: &Row,
) -> Result<(), NoMemory>
    ensures { OnOk result (rows.new.items ≡ rows.old.items ++ spec.lane_row_if (option_copied passed.entry) device row.now) }
{
    if let Some(passed) = passed {
        if is_noted_by(&passed.event, device) {
            rows.push(LaneRow {
                place: row.place,
                line: row.line,
            })?;
        }
    }
    Ok(())
}

// The same by the trail.
#[tactic(auto, unfolding(crate::specs::Marks::lane_row))]
fn push_row_at(
    rows: &mut Vec<LaneRow>,
    trail: &[TraceEntry],
    device: DeviceNo,
    row: &Row,
) -> Result<(), NoMemory>
    ensures { OnOk result (rows.new.items ≡ rows.old.items ++ spec.lane_row device trail.now row.now) }
{
    push_lane_row(rows, trail.get(row.place), device, row)
}

// The rows of the events that a device has noted.
fn lane_rows_of(
    alloc: Global,
    device: DeviceNo,
    trail: &[TraceEntry],
    rows: &[Row],
) -> Result<Vec<LaneRow>, NoMemory>
    ensures { IfOk result (λ lane. lane.items ≡ flat_map (spec.lane_row device trail.now) rows.now) }
{
    let mut lane = Vec::new(alloc);
    for row in rows {
        push_row_at(&mut lane, trail, device, row)?;
    }
    Ok(lane)
}

// ---- what holds after an entry

fn holds(hold: &Option<Hold>, session: u32) -> bool
    ensures { result ≡ spec.holds hold.now session }
{
    match hold {
        Some(hold) => hold.session == session,
        None => false,
    }
}

// A lock after a session ended.
fn without(hold: &Option<Hold>, session: u32) -> Option<Hold>
    ensures { result ≡ spec.without hold.now session }
{
    match hold {
        Some(hold) => {
            if hold.session == session {
                return None;
            }
            Some(*hold)
        }
        None => None,
    }
}

fn taken(session: u32, row: &LaneRow) -> Option<Hold>
    ensures { result ≡ spec.taken session row.now }
{
    Some(Hold {
        session,
        place: row.place,
        since: row.line,
    })
}

fn running_after(hold: &Option<Hold>, effect: &Effect, row: &LaneRow) -> Option<Hold>
    ensures { result ≡ spec.running_after hold.now effect.now row.now }
{
    match effect {
        Effect::Locks { store, session } => match store {
            Store::Running => taken(*session, row),
            Store::Candidate => *hold,
        },
        Effect::Unlocks { store } => match store {
            Store::Running => None,
            Store::Candidate => *hold,
        },
        Effect::Ends { session } => without(hold, *session),
        Effect::Restarts => None,
        _ => *hold,
    }
}

fn candidate_after(hold: &Option<Hold>, effect: &Effect, row: &LaneRow) -> Option<Hold>
    ensures { result ≡ spec.candidate_after hold.now effect.now row.now }
{
    match effect {
        Effect::Locks { store, session } => match store {
            Store::Candidate => taken(*session, row),
            Store::Running => *hold,
        },
        Effect::Unlocks { store } => match store {
            Store::Candidate => None,
            Store::Running => *hold,
        },
        Effect::Ends { session } => without(hold, *session),
        Effect::Restarts => None,
        _ => *hold,
    }
}

// A pending commit that is confirmed anew goes on, with its time set anew.
fn begun(wait: &Option<Wait>, timeout: u32, row: &LaneRow) -> Option<Wait>
    ensures { result ≡ spec.begun wait.now timeout row.now }
{
    match wait {
        Some(wait) => Some(Wait {
            place: wait.place,
            since: wait.since,
            left: u64::from(timeout),
        }),
        None => Some(Wait {
            place: row.place,
            since: row.line,
            left: u64::from(timeout),
        }),
    }
}

fn later(wait: &Option<Wait>, seconds: u32) -> Option<Wait>
    ensures { result ≡ spec.later wait.now seconds }
{
    match wait {
        Some(wait) => Some(Wait {
            place: wait.place,
            since: wait.since,
            left: wait.left.saturating_sub(u64::from(seconds)),
        }),
        None => None,
    }
}

fn pending_after(wait: &Option<Wait>, effect: &Effect, undone: bool, row: &LaneRow) -> Option<Wait>
    ensures { result ≡ spec.pending_after wait.now effect.now undone row.now }
{
    if undone {
        return None;
    }
    match effect {
        Effect::Begins { timeout } => begun(wait, *timeout, row),
        Effect::Passes { seconds } => later(wait, *seconds),
        Effect::Confirms => None,
        Effect::Cancels => None,
        Effect::Restarts => None,
        _ => *wait,
    }
}

fn edited_after(lane: &Lane, effect: &Effect) -> bool
    ensures { result ≡ spec.edited_after lane.now effect.now }
{
    match effect {
        Effect::Edits => true,
        Effect::Discards => false,
        Effect::Begins { .. } => false,
        Effect::Confirms => false,
        Effect::Restarts => false,
        Effect::Unlocks { store } => match store {
            Store::Candidate => false,
            Store::Running => lane.is_edited,
        },
        Effect::Ends { session } => lane.is_edited && !holds(&lane.candidate, *session),
        _ => lane.is_edited,
    }
}

fn lane_after(lane: &Lane, effect: &Effect, undone: bool, row: &LaneRow) -> Lane
    ensures { result ≡ spec.lane_after lane.now effect.now undone row.now }
{
    Lane {
        running: running_after(&lane.running, effect, row),
        candidate: candidate_after(&lane.candidate, effect, row),
        pending: pending_after(&lane.pending, effect, undone, row),
        is_edited: edited_after(lane, effect),
    }
}

// ---- what is shown of it

fn push_lock(
    marks: &mut Vec<DeviceMark>,
    kind: BarKind,
    before: &Option<Hold>,
    after: &Option<Hold>,
    to: Option<u32>,
) -> Result<(), NoMemory>
    ensures { OnOk result (marks.new.items ≡ marks.old.items ++ spec.lock_ended kind before.now after.now to) }
{
    if after.is_some() {
        return Ok(());
    }
    if let Some(hold) = before {
        marks.push(DeviceMark::Held(Bar {
            kind,
            place: hold.place,
            from: hold.since,
            to,
        }))?;
    }
    Ok(())
}

fn push_wait(
    marks: &mut Vec<DeviceMark>,
    before: &Option<Wait>,
    after: &Option<Wait>,
    to: Option<u32>,
) -> Result<(), NoMemory>
    ensures { OnOk result (marks.new.items ≡ marks.old.items ++ spec.wait_ended before.now after.now to) }
{
    if after.is_some() {
        return Ok(());
    }
    if let Some(wait) = before {
        marks.push(DeviceMark::Held(Bar {
            kind: BarKind::Pending,
            place: wait.place,
            from: wait.since,
            to,
        }))?;
    }
    Ok(())
}

// What held and holds no more.
fn push_bars(
    marks: &mut Vec<DeviceMark>,
    before: &Lane,
    after: &Lane,
    to: Option<u32>,
) -> Result<(), NoMemory>
    ensures { OnOk result (marks.new.items ≡ marks.old.items ++ spec.bars_ended before.now after.now to) }
{
    push_lock(marks, BarKind::Running, &before.running, &after.running, to)?;
    push_lock(
        marks,
        BarKind::Candidate,
        &before.candidate,
        &after.candidate,
        to,
    )?;
    push_wait(marks, &before.pending, &after.pending, to)
}

fn is_commit(effect: &Effect) -> bool
    ensures { result ≡ spec.is_commit effect.now }
{
    matches!(effect, Effect::Begins { .. } | Effect::Confirms)
}

fn is_cancel(effect: &Effect) -> bool
    ensures { result ≡ spec.is_cancel effect.now }
{
    matches!(effect, Effect::Cancels)
}

fn push_changed(
    marks: &mut Vec<DeviceMark>,
    before: &Lane,
    effect: &Effect,
    row: &LaneRow,
) -> Result<(), NoMemory>
    ensures { OnOk result (marks.new.items ≡ marks.old.items ++ spec.changed_at before.now effect.now row.now) }
{
    if before.is_edited && is_commit(effect) {
        marks.push(DeviceMark::Changed {
            place: row.place,
            line: row.line,
        })?;
    }
    Ok(())
}

fn push_undone(
    marks: &mut Vec<DeviceMark>,
    effect: &Effect,
    undone: bool,
    row: &LaneRow,
) -> Result<(), NoMemory>
    ensures { OnOk result (marks.new.items ≡ marks.old.items ++ spec.undone_at effect.now undone row.now) }
{
    if undone || is_cancel(effect) {
        marks.push(DeviceMark::Undone { line: row.line })?;
    }
    Ok(())
}

fn push_left(
    marks: &mut Vec<DeviceMark>,
    after: &Lane,
    effect: &Effect,
    row: &LaneRow,
) -> Result<(), NoMemory>
    ensures { OnOk result (marks.new.items ≡ marks.old.items ++ spec.left_at after.now effect.now row.now) }
{
    if let Effect::Passes { .. } = effect {
        if let Some(wait) = &after.pending {
            marks.push(DeviceMark::Left {
                line: row.line,
                seconds: wait.left,
            })?;
        }
    }
    Ok(())
}

fn push_missing(
    marks: &mut Vec<DeviceMark>,
    before: &Lane,
    entry: &Noted,
    row: &LaneRow,
) -> Result<(), NoMemory>
    ensures { OnOk result (marks.new.items ≡ marks.old.items ++ spec.missing_at before.now entry.now row.now) }
{
    if before.pending.is_none() && misses_pending(entry) {
        marks.push(DeviceMark::NothingPending { line: row.line })?;
    }
    Ok(())
}

// What an entry shows, by what it does and what holds before and after it.
fn push_marks(
    marks: &mut Vec<DeviceMark>,
    before: &Lane,
    after: &Lane,
    entry: &Noted,
    effect: &Effect,
    row: &LaneRow,
) -> Result<(), NoMemory>
    ensures { OnOk result (marks.new.items ≡ marks.old.items ++ spec.marks_at before.now after.now entry.now effect.now row.now) }
{
    push_bars(marks, before, after, Some(row.line))?;
    push_changed(marks, before, effect, row)?;
    push_undone(marks, effect, entry.undone, row)?;
    push_left(marks, after, effect, row)?;
    push_missing(marks, before, entry, row)
}

// An entry of a history, where there is one: what it shows, and what holds after it.
fn step(
    marks: &mut Vec<DeviceMark>,
    lane: &Lane,
    entry: Option<&Noted>,
    row: &LaneRow,
) -> Result<Lane, NoMemory>
    ensures shown { OnOk result (marks.new.items ≡ marks.old.items ++ spec.marks_if (option_copied entry.entry) lane.now row.now) }
    ensures after { IfOk result (λ after. after ≡ spec.lane_if (option_copied entry.entry) lane.now row.now) }
{
    match entry {
        Some(entry) => {
            let effect = effect_of(entry);
            let after = lane_after(lane, &effect, entry.undone, row);
            push_marks(marks, lane, &after, entry, &effect, row)?;
            Ok(after)
        }
        None => Ok(*lane),
    }
}

// The same by the history.
fn step_at(
    marks: &mut Vec<DeviceMark>,
    lane: &Lane,
    history: &[Noted],
    place: usize,
    row: &LaneRow,
) -> Result<Lane, NoMemory>
    ensures shown { OnOk result (marks.new.items ≡ marks.old.items ++ spec.marks_if (slice_get history.now place) lane.now row.now) }
    ensures after { IfOk result (λ after. after ≡ spec.lane_if (slice_get history.now place) lane.now row.now) }
{
    step(marks, lane, history.get(place), row)
}

const NOTHING: Lane = Lane {
    running: None,
    candidate: None,
    pending: None,
    is_edited: false,
};

// What the entries of a history show, with what holds at the end.
fn marks_by(alloc: Global, rows: &[LaneRow], history: &[Noted]) -> Result<Vec<DeviceMark>, NoMemory>
    ensures { IfOk result (λ marks. marks.items ≡ spec.marks_from history.now 0 spec.nothing rows.now) }
{
    let mut marks = Vec::new(alloc);
    let mut lane = NOTHING;
    for (place, row) in rows.iter().enumerate() {
        lane = step_at(&mut marks, &lane, history, place, row)?;
    }
    let nothing = NOTHING;
    push_bars(&mut marks, &lane, &nothing, None)?;
    Ok(marks)
}

// What holds at a device while a run goes on: the entries of its history, in order, at the rows of the events that it noted.
fn marks_of(
    alloc: Global,
    device: DeviceNo,
    trail: &[TraceEntry],
    rows: &[Row],
    history: &[Noted],
) -> Result<Vec<DeviceMark>, NoMemory>
    ensures { IfOk result (λ marks. marks.items ≡ spec.marks_of device trail.now rows.now history.now) }
{
    let lane = lane_rows_of(alloc, device, trail, rows)?;
    marks_by(alloc, lane.as_slice(), history)
}

// The device at a place.
fn device_in(place: usize) -> DeviceNo
    requires { place < 32 }
    ensures { result ≡ place + 1 }
{
    DeviceNo::new(place as u8 + 1).unwrap()
}

// What a device shows comes to the rest.
fn push_all(all: &mut Vec<LaneMark>, device: DeviceNo, marks: &[DeviceMark]) -> Result<(), NoMemory>
    ensures { OnOk result (all.new.items ≡ all.old.items ++ map (spec.at_device device) marks.now) }
{
    for mark in marks {
        all.push(LaneMark {
            device,
            mark: *mark,
        })?;
    }
    Ok(())
}

#[tactic(auto, unfolding(crate::specs::Marks::device_marks))]
fn push_device(
    alloc: Global,
    all: &mut Vec<LaneMark>,
    device: DeviceNo,
    trail: &[TraceEntry],
    rows: &[Row],
    history: &[Noted],
) -> Result<(), NoMemory>
    ensures { OnOk result (all.new.items ≡ all.old.items ++ spec.device_marks device trail.now rows.now history.now) }
{
    let marks = marks_of(alloc, device, trail, rows, history)?;
    push_all(all, device, marks.as_slice())
}

/// What holds at each device while a run goes on, device 1 first: the entries of its history, in order, at the rows of the events that it
/// noted.
pub fn lane_marks_of<C: Content>(
    alloc: Global,
    trail: &[TraceEntry],
    rows: &[Row],
    devices: &[Recorded<C>],
) -> Result<Vec<LaneMark>, NoMemory>
    requires { length devices.now ≤ 32 }
    ensures { IfOk result (λ marks. marks.items ≡ spec.lane_marks trail.now rows.now 1 devices.now) }
{
    let mut all = Vec::new(alloc);
    for (place, device) in devices.iter().enumerate() {
        push_device(
            alloc,
            &mut all,
            device_in(place),
            trail,
            rows,
            device.history(),
        )?;
    }
    Ok(all)
}
