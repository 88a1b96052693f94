//! Requests and replies: an arrow between two lanes, with its words above it.

ghost use Rattle.std.specs.Prelude.{◌≡◌, ◌++◌, max, length, IfOk, OnOk};
ghost use Rattle.nm_picture_events.specs.Messages as spec;
ghost use Rattle.nm_picture_words.specs.Words.{prefix_words, request_words, reply_words};

use crate::fate::Fate;
use crate::pieces::{cross, level, push, words_above, words_amid};
use crate::scene::Place;
use nm_base::{DeviceNo, NoMemory};
use nm_picture_frame::{left_of, right_of};
use nm_picture_svg::{Anchor, Point, Shape, Stroke, Tip, Tone};
use nm_picture_words::{put, put_prefix, put_reply, put_request};
use nm_proto::{Reply, Request};
use std::alloc::Global;

/// The way of a message: its ends, where it ends that doesn't arrive, and its height.
#[derive(Clone, Copy)]
pub struct Way {
    pub from: u32,
    pub to: u32,
    pub short: u32,
    pub y: u32,
    pub tone: Tone,
}

// An arrow where a message arrives. What waits to the end is dashed and short of it, and what is lost ends in a cross.
fn push_way(shapes: &mut Vec<Shape>, way: &Way, fate: Fate) -> Result<(), NoMemory>
    ensures { OnOk result (shapes.new.items ≡ shapes.old.items ++ spec.way_shapes way.now fate) }
{
    match fate {
        Fate::Arrives => push(
            shapes,
            level(way.from, way.to, way.y, Tip::Arrow, Stroke::Whole, way.tone),
        ),
        Fate::Waits => push(
            shapes,
            level(
                way.from,
                way.short,
                way.y,
                Tip::Bare,
                Stroke::Dashed,
                way.tone,
            ),
        ),
        Fate::IsLost => {
            push(
                shapes,
                level(
                    way.from,
                    way.short,
                    way.y,
                    Tip::Bare,
                    Stroke::Whole,
                    way.tone,
                ),
            )?;
            push(shapes, cross(way.short, way.y))
        }
    }
}

fn is_refusal(reply: &Reply) -> bool
    ensures { result ≡ spec.is_refusal reply.now }
{
    matches!(reply, Reply::Error { .. })
}

// The tone of a reply: a refusal stands out.
fn answer_tone(reply: &Reply) -> Tone
    ensures { result ≡ spec.answer_tone reply.now }
{
    if is_refusal(reply) {
        Tone::Refused
    } else {
        Tone::Answer
    }
}

/// Words that begin with the number of the change set, where that is to be named.
pub fn prefixed(alloc: Global, place: &Place) -> Result<Vec<u8>, NoMemory>
    ensures { IfOk result (λ words. words.items ≡ prefix_words place.now.named) }
{
    let mut words = Vec::new(alloc);
    put_prefix(&mut words, place.named)?;
    Ok(words)
}

// ---- the manager's

fn request_way(place: &Place, device: DeviceNo) -> Way
    ensures { result ≡ spec.request_way place.now device }
{
    let lane = place.frame.device_x(device);
    Way {
        from: place.frame.manager_x(),
        to: left_of(lane, 8),
        short: left_of(lane, 48),
        y: right_of(place.y, 5),
        tone: Tone::Ask,
    }
}

/// A request of the manager.
#[tactic(auto, unfolding(crate::specs::Messages::sent_shapes))]
pub fn push_sent(
    alloc: Global,
    shapes: &mut Vec<Shape>,
    place: &Place,
    device: DeviceNo,
    request: &Request,
    fate: Fate,
) -> Result<(), NoMemory>
    ensures { OnOk result (shapes.new.items ≡ shapes.old.items ++ spec.sent_shapes place.now device request.now fate) }
{
    let mut words = prefixed(alloc, place)?;
    put_request(&mut words, request)?;
    push_way(shapes, &request_way(place, device), fate)?;
    let x = right_of(place.frame.manager_x(), 10);
    push(shapes, words_above(x, place.y, Tone::Ask, words))
}

fn reply_way(place: &Place, lane: u32, tone: Tone) -> Way
    ensures { result ≡ spec.reply_way place.now lane tone }
{
    let manager = place.frame.manager_x();
    Way {
        from: left_of(lane, 8),
        to: manager,
        short: right_of(manager, 40),
        y: right_of(place.y, 5),
        tone,
    }
}

/// A reply to the manager.
#[tactic(auto, unfolding(crate::specs::Messages::told_shapes))]
pub fn push_told(
    alloc: Global,
    shapes: &mut Vec<Shape>,
    place: &Place,
    lane: u32,
    reply: &Reply,
    fate: Fate,
) -> Result<(), NoMemory>
    ensures { OnOk result (shapes.new.items ≡ shapes.old.items ++ spec.told_shapes place.now lane reply.now fate) }
{
    let mut words = prefixed(alloc, place)?;
    put_reply(&mut words, reply)?;
    let tone = answer_tone(reply);
    push_way(shapes, &reply_way(place, lane, tone), fate)?;
    let x = right_of(place.frame.manager_x(), 10);
    push(shapes, words_above(x, place.y, tone, words))
}

/// That the manager handled a reply.
#[tactic(auto, unfolding(crate::specs::Messages::handled_shapes))]
pub fn push_handled(alloc: Global, shapes: &mut Vec<Shape>, place: &Place) -> Result<(), NoMemory>
    ensures { OnOk result (shapes.new.items ≡ shapes.old.items ++ spec.handled_shapes place.now) }
{
    let mut words = prefixed(alloc, place)?;
    put(&mut words, "handled")?;
    let lane = place.frame.manager_x();
    push(
        shapes,
        Shape::Dot {
            center: Point {
                x: lane,
                y: place.y,
            },
            tone: Tone::Answer,
        },
    )?;
    let x = right_of(lane, 10);
    push(
        shapes,
        words_amid(x, place.y, Anchor::Start, Tone::Soft, words),
    )
}

// ---- an operator's

// How wide words are at most, in pixels: 7 a letter.
fn width_of(words: &[u8]) -> u32
    ensures { result ≡ spec.width_of words.now }
{
    if words.len() < 1000 {
        words.len() as u32 * 7
    } else {
        7000
    }
}

fn larger(one: u32, other: u32) -> u32
    ensures { result ≡ max one other }
{
    if one < other { other } else { one }
}

// Where the words of a reply to an operator begin: they end at the device's lane, and stand behind those of the request.
#[tactic(auto, unfolding(crate::specs::Messages::behind_request))]
fn behind_request(operator: u32, lane: u32, request: &[u8], reply: &[u8]) -> u32
    ensures { result ≡ spec.behind_request operator lane request.now reply.now }
{
    larger(
        left_of(left_of(lane, 12), width_of(reply)),
        right_of(right_of(operator, 22), width_of(request)),
    )
}

fn words_of_request(alloc: Global, request: &Request) -> Result<Vec<u8>, NoMemory>
    ensures { IfOk result (λ words. words.items ≡ request_words request.now) }
{
    let mut words = Vec::new(alloc);
    put_request(&mut words, request)?;
    Ok(words)
}

fn words_of_reply(alloc: Global, reply: &Reply) -> Result<Vec<u8>, NoMemory>
    ensures { IfOk result (λ words. words.items ≡ reply_words reply.now) }
{
    let mut words = Vec::new(alloc);
    put_reply(&mut words, reply)?;
    Ok(words)
}

// The two arrows of a request of an operator and its reply.
fn push_there_and_back(
    shapes: &mut Vec<Shape>,
    y: u32,
    operator: u32,
    lane: u32,
    tone: Tone,
) -> Result<(), NoMemory>
    ensures { OnOk result (shapes.new.items ≡ shapes.old.items ++ spec.there_and_back y operator lane tone) }
{
    let end = left_of(lane, 8);
    let there = level(
        operator,
        end,
        right_of(y, 3),
        Tip::Arrow,
        Stroke::Whole,
        Tone::Ask,
    );
    push(shapes, there)?;
    let back = level(
        end,
        operator,
        right_of(y, 8),
        Tip::Arrow,
        Stroke::Whole,
        tone,
    );
    push(shapes, back)
}

/// A request of an operator, by the operator's lane and the device's, with the reply.
#[tactic(auto, unfolding(crate::specs::Messages::asked_shapes))]
pub fn push_asked(
    alloc: Global,
    shapes: &mut Vec<Shape>,
    place: &Place,
    operator: u32,
    lane: u32,
    request: &Request,
    reply: &Reply,
) -> Result<(), NoMemory>
    ensures { OnOk result (shapes.new.items ≡ shapes.old.items ++ spec.asked_shapes place.now operator lane request.now reply.now) }
{
    let asked = words_of_request(alloc, request)?;
    let told = words_of_reply(alloc, reply)?;
    let tone = answer_tone(reply);
    let x = behind_request(operator, lane, asked.as_slice(), told.as_slice());
    push_there_and_back(shapes, place.y, operator, lane, tone)?;
    push(
        shapes,
        words_above(right_of(operator, 8), place.y, Tone::Ask, asked),
    )?;
    push(shapes, words_above(x, place.y, tone, told))
}
