//! Which events are drawn, and on which line. Long stretches in which nothing is decided, fails or is refused are folded.

ghost use Rattle.std.specs.Prelude.{◌≡◌, ◌++◌, true, IfOk, OnOk};
ghost use Rattle.nm_picture_shapes.specs.Rows as spec;

use nm_base::NoMemory;
use nm_proto::Reply;
use nm_world::{Happened, TraceEntry};
use std::alloc::Global;

/// So many rows are drawn without a fold: what a browser scrolls with ease.
pub const MOST_ROWS: usize = 2000;

/// So many rows stand open on either side of a decision, a fault or a refusal, and at both ends.
pub const MARGIN: usize = 3;

// A row, and those that stand open on its sides.
const REACH: usize = 7;

/// An event that did something.
#[derive(Clone, Copy)]
pub struct Active {
    /// Its place in the trail, from 0.
    pub place: usize,
    /// Whether it is a decision, a fault or a refusal.
    pub is_notable: bool,
}

/// An event that did something, and whether it is drawn for itself.
#[derive(Clone, Copy)]
pub struct Kept {
    pub place: usize,
    pub is_kept: bool,
}

/// How an event is drawn.
#[derive(Clone, Copy)]
pub enum Look {
    /// On a line of its own.
    Shown,
    /// It begins a fold of so many events, which has a line.
    Folds { count: usize },
    /// It lies in a fold.
    Hidden,
}

/// An event that did something, with its line.
#[derive(Clone, Copy)]
pub struct Row {
    /// Its place in the trail, from 0.
    pub place: usize,
    /// Its line in the picture, from 0.
    pub line: u32,
    pub look: Look,
}

fn is_idle(happened: &Happened) -> bool
    ensures { result ≡ spec.is_idle happened.now }
{
    matches!(happened, Happened::Idle)
}

fn is_refusal(reply: &Reply) -> bool
    ensures { result ≡ spec.is_refusal reply.now }
{
    matches!(reply, Reply::Error { .. })
}

/// Whether what came of an event is a decision, a fault or a refusal.
pub fn is_notable(happened: &Happened) -> bool
    ensures { result ≡ spec.is_notable happened.now }
{
    match happened {
        Happened::Idle => false,
        Happened::Started => false,
        Happened::Sent { .. } => false,
        Happened::Decided(_) => true,
        Happened::Ended => false,
        Happened::Replied { reply, undone } => *undone || is_refusal(reply),
        Happened::Handled => false,
        Happened::Broken => true,
        Happened::Lost { .. } => true,
        Happened::Left { .. } => true,
        Happened::Now { .. } => true,
        Happened::Restarted { .. } => true,
        Happened::Forgot => true,
        Happened::Crashed => true,
    }
}

fn push_active(actives: &mut Vec<Active>, place: usize, happened: &Happened) -> Result<(), NoMemory>
    ensures { OnOk result (actives.new.items ≡ actives.old.items ++ spec.active_if place happened.now) }
{
    if is_idle(happened) {
        return Ok(());
    }
    actives.push(Active {
        place,
        is_notable: is_notable(happened),
    })?;
    Ok(())
}

// The events that did something.
fn actives_of(alloc: Global, trail: &[TraceEntry]) -> Result<Vec<Active>, NoMemory>
    ensures { IfOk result (λ actives. actives.items ≡ spec.actives_from 0 trail.now) }
{
    let mut actives = Vec::new(alloc);
    for (place, passed) in trail.iter().enumerate() {
        push_active(&mut actives, place, &passed.happened)?;
    }
    Ok(actives)
}

fn has_notable(actives: &[Active]) -> bool
    ensures { result ≡ spec.has_notable actives.now }
{
    for active in actives {
        if active.is_notable {
            return true;
        }
    }
    false
}

// Whether an event is drawn for itself.
#[tactic(auto, unfolding(crate::specs::Rows::is_kept))]
fn is_kept(actives: &[Active], place: usize, active: &Active) -> bool
    ensures { result ≡ spec.is_kept actives.now place active.now }
{
    if active.is_notable {
        return true;
    }
    if actives.len() <= MOST_ROWS {
        return true;
    }
    if place < MARGIN {
        return true;
    }
    if actives.len().saturating_sub(place) <= MARGIN {
        return true;
    }
    let first = place - MARGIN;
    has_notable(&actives[first..first + REACH])
}

// Each event that did something, and whether it is drawn for itself.
fn kept_of(alloc: Global, actives: &[Active]) -> Result<Vec<Kept>, NoMemory>
    ensures { IfOk result (λ kept. kept.items ≡ spec.kept_from actives.now 0 actives.now) }
{
    let mut kept = Vec::new(alloc);
    for (place, active) in actives.iter().enumerate() {
        kept.push(Kept {
            place: active.place,
            is_kept: is_kept(actives, place, active),
        })?;
    }
    Ok(kept)
}

// How many events at the beginning aren't drawn for themselves.
fn stretch(kept: &[Kept]) -> usize
    ensures { result ≡ spec.stretch kept.now }
{
    let mut count = 0;
    for one in kept {
        if one.is_kept {
            return count;
        }
        count += 1;
    }
    count
}

// How the first of these events is drawn, by whether the one before it is drawn for itself.
fn look_of(before: bool, kept: &[Kept]) -> Look
    ensures { result ≡ spec.look_of before kept.now }
{
    match kept {
        [] => Look::Shown,
        [one, ..] => {
            if one.is_kept {
                return Look::Shown;
            }
            if before {
                return Look::Folds {
                    count: stretch(kept),
                };
            }
            Look::Hidden
        }
    }
}

// The line of an event, where the next free line is this.
fn line_of(look: &Look, next: u32) -> u32
    ensures { result ≡ spec.line_of look.now next }
{
    match look {
        Look::Shown => next,
        Look::Folds { .. } => next,
        Look::Hidden => next.saturating_sub(1),
    }
}

// The next free line behind an event. There are lines for 32 bits.
fn line_behind(look: &Look, next: u32) -> Result<u32, NoMemory>
    ensures { IfOk result (λ behind. behind ≡ spec.line_behind look.now next) }
{
    match look {
        Look::Hidden => Ok(next),
        _ => match next.checked_add(1) {
            Some(behind) => Ok(behind),
            None => Err(NoMemory),
        },
    }
}

// The rows of events.
fn rows_by(alloc: Global, kept: &[Kept]) -> Result<Vec<Row>, NoMemory>
    ensures { IfOk result (λ rows. rows.items ≡ spec.rows_from true 0 kept.now) }
{
    let mut rows = Vec::new(alloc);
    let mut before = true;
    let mut next = 0u32;
    for (place, one) in kept.iter().enumerate() {
        let look = look_of(before, &kept[place..]);
        rows.push(Row {
            place: one.place,
            line: line_of(&look, next),
            look,
        })?;
        next = line_behind(&look, next)?;
        before = one.is_kept;
    }
    Ok(rows)
}

/// A row for each event that did something, in order. Where there are more than 2,000, the middle of each stretch without a decision, a
/// fault or a refusal is folded into one line.
pub fn rows_of(alloc: Global, trail: &[TraceEntry]) -> Result<Vec<Row>, NoMemory>
    ensures { IfOk result (λ rows. rows.items ≡ spec.rows_of trail.now) }
{
    let actives = actives_of(alloc, trail)?;
    let kept = kept_of(alloc, actives.as_slice())?;
    rows_by(alloc, kept.as_slice())
}

/// How many lines rows take. There are lines for 32 bits.
pub fn lines_of(rows: &[Row]) -> Result<u32, NoMemory>
    ensures { IfOk result (λ lines. lines ≡ spec.lines_of rows.now) }
{
    match rows.last() {
        Some(row) => match row.line.checked_add(1) {
            Some(lines) => Ok(lines),
            None => Err(NoMemory),
        },
        None => Ok(0),
    }
}

/// The line of the first row from a place of the trail on: where a run is brought to rest.
pub fn line_from(rows: &[Row], place: usize) -> Option<u32>
    ensures { result ≡ spec.line_from rows.now place }
{
    for row in rows {
        if place <= row.place {
            return Some(row.line);
        }
    }
    None
}
