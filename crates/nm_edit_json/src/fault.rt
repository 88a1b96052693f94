//! What can be wrong with the JSON of an edit, and which of two faults is the lesser.

ghost use Rattle.std.specs.Prelude.{◌≡◌, IfOk, OnOk, Some, if◌then◌else◌};
ghost use Rattle.nm_edit_json.specs.Findings as found;
ghost use Rattle.nm_edit_json.specs.Whole as spec;

use nm_base::{NoMemory, Tag};
use nm_json::JsonKind;
use nm_json::fault::{Fault as JsonFault, Place};
use nm_json::gathered::place_steps;
use nm_types::Path;
use std::alloc::Global;
use std::cmp::Ordering;
use std::mem;

/// What is wrong with a part of an edit. At one place an earlier kind comes before a later one.
#[derive(Clone, Copy, PartialEq, Eq)]
pub enum FaultKind {
    /// A member whose name leads to no node of the schema.
    Unknown,
    /// A list entry without one of its keys.
    Missing,
    /// A JSON value of another kind than the node wants or that its type hasn't, or a node that is named twice.
    Invalid,
    /// An annotation that says no operation, or one that may not stand there.
    Annotation,
}

/// A fault of an edit with its place.
#[derive(Drop)]
pub struct Fault {
    pub kind: FaultKind,
    pub place: Place,
}

/// What of an edit is wrong as it is of a configuration.
pub fn kind_of(kind: JsonKind) -> FaultKind
    ensures { result ≡ found.kind_of kind }
{
    match kind {
        JsonKind::Unknown => FaultKind::Unknown,
        JsonKind::MissingKey => FaultKind::Missing,
        JsonKind::BadForm | JsonKind::BadValue | JsonKind::Repeated => FaultKind::Invalid,
    }
}

/// A fault of a configuration as one of an edit.
pub fn fault_of(fault: JsonFault) -> Fault
    ensures { result ≡ found.fault_of fault }
{
    Fault {
        kind: kind_of(fault.kind),
        place: fault.place,
    }
}

/// A fault at a path.
pub fn fault_at(path: Path, kind: FaultKind) -> Fault
    ensures { result ≡ found.fault_at path kind }
{
    let place = Place { path, below: None };
    Fault { kind, place }
}

fn rank(kind: FaultKind) -> u8
    ensures { result ≡ spec.kind_rank kind }
{
    match kind {
        FaultKind::Unknown => 0,
        FaultKind::Missing => 1,
        FaultKind::Invalid => 2,
        FaultKind::Annotation => 3,
    }
}

/// The error tag of a kind of fault (RFC 6241 appendix A).
pub fn tag_of(kind: FaultKind) -> Tag
    ensures { result ≡ spec.tag_of kind }
{
    match kind {
        FaultKind::Unknown => Tag::UnknownElement,
        FaultKind::Missing => Tag::MissingElement,
        FaultKind::Invalid => Tag::InvalidValue,
        FaultKind::Annotation => Tag::BadAttribute,
    }
}

// The order of two faults: by their places, and at one place by their kinds.
#[tactic(auto, unfolding(crate::specs::Whole::fault_cmp))]
fn order(alloc: Global, one: &Fault, other: &Fault) -> Result<Ordering, NoMemory>
    ensures { IfOk result (λ order. order ≡ spec.fault_cmp one.now other.now) }
{
    let ours = place_steps(alloc, &one.place)?;
    match place_steps(alloc, &other.place) {
        Ok(theirs) => {
            let places = ours.as_slice().cmp(theirs.as_slice());
            drop(theirs);
            drop(ours);
            Ok(places.then(rank(one.kind).cmp(&rank(other.kind))))
        }
        Err(error) => {
            drop(ours);
            Err(error)
        }
    }
}

// Whether a fault is the least with those that were found.
fn is_lesser(alloc: Global, least: &Option<Fault>, fault: &Fault) -> Result<bool, NoMemory>
    ensures { IfOk result (λ lesser. spec.lesser least.now fault.now ≡ (if lesser then Some fault.now else least.now)) }
{
    match least {
        None => Ok(true),
        Some(before) => Ok(order(alloc, fault, before)?.is_lt()),
    }
}

/// Keeps the least of a fault and those that were found.
pub fn note_lesser(alloc: Global, least: &mut Option<Fault>, fault: Fault) -> Result<(), NoMemory>
    ensures { OnOk result (least.new ≡ spec.lesser least.old fault) }
{
    match is_lesser(alloc, least, &fault) {
        Ok(true) => {
            drop(mem::replace(least, Some(fault)));
            Ok(())
        }
        Ok(false) => {
            drop(fault);
            Ok(())
        }
        Err(error) => {
            drop(fault);
            Err(error)
        }
    }
}
