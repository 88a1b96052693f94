//! Places as JSON pointers (RFC 6901).

ghost use Rattle.std.specs.Prelude.{◌≡◌, ◌++◌, ◌≤◌, ◌+◌, length, take, get_or, IfOk, OnOk, OnErr, decimal};
ghost use Rattle.std.specs.List.{flat_map};
ghost use Rattle.nm_scenario_form.specs.Pointer.{begins_character, cut_place, cut_text, escaped, pointer_of, step_text, way_text};

use crate::fault::Step;
use itoa::Buffer;
use nm_base::NoMemory;
use std::alloc::Global;

/// How many bytes a pointer has at most: a line of output stays short, whatever names the input has.
pub const POINTER_LIMIT: usize = 4096;

/// Appends a place as a JSON pointer: `/` and its name or number for each step, `/` for the whole.
///
/// `~` and `/` in a name are written `~0` and `~1` (RFC 6901 section 3) and a character below U+0020 is written `?`
/// (this project's own). A pointer above 4096 bytes is cut at the end of a character; of a longer one no more than a
/// byte above that is ever written.
pub fn write_place(alloc: Global, out: &mut Vec<u8>, place: &[Step]) -> Result<(), NoMemory>
    ensures ok { OnOk result (out.new.items ≡ out.old.items ++ pointer_of place.now) }
    ensures err { OnErr result (out.new.items ≡ out.old.items) }
{
    let pointer = pointer(alloc, place)?;
    out.extend_from_slice(pointer.as_slice())?;
    Ok(())
}

// One byte more than the limit tells where the last character ends.
#[tactic(auto, using(crate::proofs::Fronts::cut_pointer))]
fn pointer(alloc: Global, place: &[Step]) -> Result<Vec<u8>, NoMemory>
    ensures { IfOk result (λ pointer. pointer.items ≡ pointer_of place.now) }
{
    let mut front = way_front(alloc, POINTER_LIMIT + 1, place)?;
    cut(&mut front, POINTER_LIMIT);
    Ok(front)
}

#[tactic(auto, unfolding(crate::specs::Pointer::cut_text))]
fn cut(text: &mut Vec<u8>, limit: usize)
    ensures { text.new.items ≡ cut_text limit text.old.items }
{
    let end = character_end(text.as_slice(), limit);
    text.truncate(end);
}

// The first bytes of a way.
fn way_front(alloc: Global, room: usize, place: &[Step]) -> Result<Vec<u8>, NoMemory>
    ensures { IfOk result (λ front. front.items ≡ take room (way_text place.now)) }
{
    let mut front = Vec::new(alloc);
    if place.is_empty() {
        put_front(&mut front, room, b"/")?;
    } else {
        put_steps(&mut front, room, place)?;
    }
    Ok(front)
}

// Appends what there is room for.
fn put_front(front: &mut Vec<u8>, room: usize, piece: &[u8]) -> Result<(), NoMemory>
    requires { length front.old.items ≤ room }
    ensures ok { OnOk result (front.new.items ≡ take room (front.old.items ++ piece.now)) }
    ensures short { OnOk result (length front.new.items ≤ room) }
{
    let left = room - front.len();
    let taken = piece.len().min(left);
    front.extend_from_slice(&piece[..taken])?;
    Ok(())
}

#[tactic(auto, using(crate::proofs::Fronts::piece_more, crate::proofs::Fronts::room_over, crate::proofs::Fronts::all_written))]
fn put_steps(front: &mut Vec<u8>, room: usize, place: &[Step]) -> Result<(), NoMemory>
    requires { length front.old.items ≤ room }
    ensures { OnOk result (front.new.items ≡ take room (front.old.items ++ flat_map step_text place.now)) }
{
    for step in place {
        if front.len() >= room {
            return Ok(());
        }
        put_step(front, room, step)?;
    }
    Ok(())
}

fn put_step(front: &mut Vec<u8>, room: usize, step: &Step) -> Result<(), NoMemory>
    requires { length front.old.items ≤ room }
    ensures ok { OnOk result (front.new.items ≡ take room (front.old.items ++ step_text step.now)) }
    ensures short { OnOk result (length front.new.items ≤ room) }
{
    put_front(front, room, b"/")?;
    match step {
        Step::Name(name) => put_name(front, room, name.as_str().as_bytes()),
        Step::Item(place) => put_number(front, room, *place),
    }
}

fn put_number(front: &mut Vec<u8>, room: usize, number: usize) -> Result<(), NoMemory>
    requires { length front.old.items ≤ room }
    ensures ok { OnOk result (front.new.items ≡ take room (front.old.items ++ decimal number)) }
    ensures short { OnOk result (length front.new.items ≤ room) }
{
    let mut buffer = Buffer::new();
    put_front(front, room, buffer.format(number as u64).as_bytes())
}

#[tactic(auto, using(crate::proofs::Fronts::piece_more, crate::proofs::Fronts::room_over, crate::proofs::Fronts::all_written))]
fn put_name(front: &mut Vec<u8>, room: usize, name: &[u8]) -> Result<(), NoMemory>
    requires { length front.old.items ≤ room }
    ensures ok { OnOk result (front.new.items ≡ take room (front.old.items ++ flat_map escaped name.now)) }
    ensures short { OnOk result (length front.new.items ≤ room) }
{
    for byte in name {
        if front.len() >= room {
            return Ok(());
        }
        put_escaped(front, room, *byte)?;
    }
    Ok(())
}

fn put_escaped(front: &mut Vec<u8>, room: usize, byte: u8) -> Result<(), NoMemory>
    requires { length front.old.items ≤ room }
    ensures ok { OnOk result (front.new.items ≡ take room (front.old.items ++ escaped byte)) }
    ensures short { OnOk result (length front.new.items ≤ room) }
{
    match byte {
        0..=31 => put_front(front, room, b"?"),
        b'~' => put_front(front, room, b"~0"),
        b'/' => put_front(front, room, b"~1"),
        _ => put_front(front, room, &[byte]),
    }
}

// The greatest place up to a limit at which a character ends.
fn character_end(text: &[u8], limit: usize) -> usize
    ensures { result ≡ cut_place text.now limit }
{
    let mut end = limit;
    while end > 0 {
        if may_cut(text, end) {
            return end;
        }
        end -= 1;
    }
    0
}

fn may_cut(text: &[u8], end: usize) -> bool
    ensures { result ≡ begins_character (get_or text.now end 0) }
{
    match text.get(end) {
        None => true,
        Some(byte) => *byte < 128 || *byte >= 192,
    }
}
