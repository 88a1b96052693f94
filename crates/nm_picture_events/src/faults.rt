//! What goes wrong: at a lane, with a sign of its own.

ghost use Rattle.std.specs.Prelude.{◌≡◌, ◌++◌, IfOk, OnOk};
ghost use Rattle.nm_picture_events.specs.Faults as spec;

use crate::messages::prefixed;
use crate::pieces::{level, push, sign, words_amid};
use crate::scene::Place;
use nm_base::NoMemory;
use nm_picture_frame::{left_of, right_of};
use nm_picture_svg::{Anchor, Fault, Shape, Stroke, Tip, Tone};
use nm_picture_words::{put, put_broken, put_forgot, put_left, put_passed};
use nm_proto::Event;
use std::alloc::Global;

// At the lane of a device: its words end at the lane, since what holds there is told on its other side.
fn push_at_device(
    shapes: &mut Vec<Shape>,
    lane: u32,
    y: u32,
    fault: Fault,
    words: Vec<u8>,
) -> Result<(), NoMemory>
    ensures { OnOk result (shapes.new.items ≡ shapes.old.items ++ spec.at_device lane y fault words.items) }
{
    push(shapes, sign(lane, y, fault))?;
    push(
        shapes,
        words_amid(left_of(lane, 14), y, Anchor::End, Tone::Refused, words),
    )
}

// At the manager's lane.
fn push_at_manager(
    shapes: &mut Vec<Shape>,
    place: &Place,
    fault: Fault,
    words: Vec<u8>,
) -> Result<(), NoMemory>
    ensures { OnOk result (shapes.new.items ≡ shapes.old.items ++ spec.at_manager place.now fault words.items) }
{
    let lane = place.frame.manager_x();
    push(shapes, sign(lane, place.y, fault))?;
    let x = right_of(lane, 16);
    push(
        shapes,
        words_amid(x, place.y, Anchor::Start, Tone::Refused, words),
    )
}

// A break in the manager's lane: two lines across it.
fn push_gap(shapes: &mut Vec<Shape>, place: &Place) -> Result<(), NoMemory>
    ensures { OnOk result (shapes.new.items ≡ shapes.old.items ++ spec.gap_shapes place.now) }
{
    let lane = place.frame.manager_x();
    let from = left_of(lane, 14);
    let to = right_of(lane, 14);
    let above = left_of(place.y, 10);
    push(
        shapes,
        level(from, to, above, Tip::Bare, Stroke::Whole, Tone::Refused),
    )?;
    let below = right_of(place.y, 10);
    push(
        shapes,
        level(from, to, below, Tip::Bare, Stroke::Whole, Tone::Refused),
    )
}

/// The manager's side of a link ended.
#[tactic(auto, unfolding(crate::specs::Faults::broken_shapes))]
pub fn push_broken(
    alloc: Global,
    shapes: &mut Vec<Shape>,
    place: &Place,
    event: &Event,
) -> Result<(), NoMemory>
    ensures { OnOk result (shapes.new.items ≡ shapes.old.items ++ spec.broken_shapes place.now event.now) }
{
    let mut words = prefixed(alloc, place)?;
    put_link(&mut words, event)?;
    push_at_manager(shapes, place, Fault::Break, words)
}

fn put_link(words: &mut Vec<u8>, event: &Event) -> Result<(), NoMemory>
    ensures { OnOk result (words.new.items ≡ words.old.items ++ spec.link_words event.now) }
{
    match event {
        Event::Break { device, .. } => put_broken(words, *device),
        _ => put(words, "link broken"),
    }
}

/// The device's side of a link ended.
#[tactic(auto, unfolding(crate::specs::Faults::lost_shapes))]
pub fn push_lost(
    alloc: Global,
    shapes: &mut Vec<Shape>,
    place: &Place,
    lane: u32,
) -> Result<(), NoMemory>
    ensures { OnOk result (shapes.new.items ≡ shapes.old.items ++ spec.lost_shapes place.now lane) }
{
    let mut words = prefixed(alloc, place)?;
    put(&mut words, "session lost")?;
    push_at_device(shapes, lane, place.y, Fault::Loss, words)
}

fn put_leaving(words: &mut Vec<u8>, event: &Event) -> Result<(), NoMemory>
    ensures { OnOk result (words.new.items ≡ words.old.items ++ spec.leaving_words event.now) }
{
    match event {
        Event::Leave { operator, .. } => put_left(words, *operator),
        _ => put(words, "session lost"),
    }
}

/// An operator's session was lost.
#[tactic(auto, unfolding(crate::specs::Faults::left_shapes))]
pub fn push_left(
    alloc: Global,
    shapes: &mut Vec<Shape>,
    place: &Place,
    lane: u32,
    event: &Event,
) -> Result<(), NoMemory>
    ensures { OnOk result (shapes.new.items ≡ shapes.old.items ++ spec.left_shapes place.now lane event.now) }
{
    let mut words = Vec::new(alloc);
    put_leaving(&mut words, event)?;
    push_at_device(shapes, lane, place.y, Fault::Loss, words)
}

fn put_time(words: &mut Vec<u8>, event: &Event) -> Result<(), NoMemory>
    ensures { OnOk result (words.new.items ≡ words.old.items ++ spec.time_words event.now) }
{
    match event {
        Event::Advance { seconds, .. } => put_passed(words, *seconds),
        _ => put(words, "time passes"),
    }
}

/// The clock of a device rose.
#[tactic(auto, unfolding(crate::specs::Faults::now_shapes))]
pub fn push_now(
    alloc: Global,
    shapes: &mut Vec<Shape>,
    place: &Place,
    lane: u32,
    event: &Event,
) -> Result<(), NoMemory>
    ensures { OnOk result (shapes.new.items ≡ shapes.old.items ++ spec.now_shapes place.now lane event.now) }
{
    let mut words = Vec::new(alloc);
    put_time(&mut words, event)?;
    push_at_device(shapes, lane, place.y, Fault::Timer, words)
}

/// A device restarted.
#[tactic(auto, unfolding(crate::specs::Faults::restarted_shapes))]
pub fn push_restarted(
    alloc: Global,
    shapes: &mut Vec<Shape>,
    place: &Place,
    lane: u32,
) -> Result<(), NoMemory>
    ensures { OnOk result (shapes.new.items ≡ shapes.old.items ++ spec.restarted_shapes place.now lane) }
{
    let mut words = Vec::new(alloc);
    put(&mut words, "restart")?;
    push_at_device(shapes, lane, place.y, Fault::Restart, words)
}

fn put_forgotten(words: &mut Vec<u8>, event: &Event) -> Result<(), NoMemory>
    ensures { OnOk result (words.new.items ≡ words.old.items ++ spec.forgotten_words event.now) }
{
    match event {
        Event::Forget { change } => put_forgot(words, *change),
        _ => put(words, "forgotten"),
    }
}

/// What the manager knew of a change set was lost.
#[tactic(auto, unfolding(crate::specs::Faults::forgot_shapes))]
pub fn push_forgot(
    alloc: Global,
    shapes: &mut Vec<Shape>,
    place: &Place,
    event: &Event,
) -> Result<(), NoMemory>
    ensures { OnOk result (shapes.new.items ≡ shapes.old.items ++ spec.forgot_shapes place.now event.now) }
{
    let mut words = Vec::new(alloc);
    put_forgotten(&mut words, event)?;
    push_gap(shapes, place)?;
    push_at_manager(shapes, place, Fault::Forgetting, words)
}

#[tactic(auto, unfolding(crate::specs::Faults::crash_words))]
fn crash_words(alloc: Global) -> Result<Vec<u8>, NoMemory>
    ensures { IfOk result (λ words. words.items ≡ spec.crash_words) }
{
    let mut words = Vec::new(alloc);
    put(&mut words, "crash: it goes on from its journal")?;
    Ok(words)
}

/// All that the manager knew was lost.
#[tactic(auto, unfolding(crate::specs::Faults::crashed_shapes))]
pub fn push_crashed(alloc: Global, shapes: &mut Vec<Shape>, place: &Place) -> Result<(), NoMemory>
    ensures { OnOk result (shapes.new.items ≡ shapes.old.items ++ spec.crashed_shapes place.now) }
{
    let words = crash_words(alloc)?;
    push_gap(shapes, place)?;
    push_at_manager(shapes, place, Fault::Crash, words)
}
