//! Faults of a scenario: what is wrong and where, with what a lower reader told.

ghost use Rattle.std.specs.Prelude.{◌≡◌};
ghost use Rattle.nm_scenario_form.specs.declared.fault.ReadError.TheVariants.{NoMemory};

use nm_base::Label;
use nm_proto::{Listed, ScenarioKind};
use std::alloc::{AllocError, AllocFailed};

/// One step of the way to a part of a JSON value.
#[derive(Drop)]
pub enum Step {
    /// The member of an object.
    Name(Label),
    /// The item of an array, from 0.
    Item(usize),
}

/// Where a lower reader found a fault.
#[derive(Drop)]
pub enum InnerPlace {
    /// So many bytes from the beginning of a module's text.
    Byte(u32),
    /// At the path of a node of a configuration or an edit.
    Path(Label),
}

/// What a lower reader told of a module's text, a configuration or an edit.
#[derive(Drop)]
pub struct Inner {
    /// The kind of the fault: the lower reader's own word for it.
    pub what: Label,
    /// The keyword or the name in the module's text that is wrong, where the lower reader names one.
    pub about: Option<Label>,
    pub place: InnerPlace,
}

/// Why a part is wrong: the kind of the fault, and what a lower reader told, where one found it.
#[derive(Drop)]
pub struct Cause {
    pub kind: ScenarioKind,
    pub inner: Option<Inner>,
}

/// The first fault of a part: its cause and its place, the way from the part to what is faulty in it.
#[derive(Drop)]
pub struct Fault {
    pub cause: Cause,
    pub place: Listed<Step>,
}

/// Why a part isn't read.
#[derive(Drop)]
pub enum ReadError {
    Bad(Fault),
    NoMemory,
}

impl From<nm_base::NoMemory> for ReadError {
    ghost from_gives = { λ _ error. error ≡ NoMemory };

    fn from(_error: nm_base::NoMemory) -> ReadError {
        ReadError::NoMemory
    }
}

impl From<AllocError> for ReadError {
    ghost from_gives = { λ _ error. error ≡ NoMemory };

    fn from(_error: AllocError) -> ReadError {
        ReadError::NoMemory
    }
}

impl<T: Drop> From<AllocFailed<T>> for ReadError {
    ghost from_gives = { λ _ error. error ≡ NoMemory };

    fn from(_error: AllocFailed<T>) -> ReadError {
        ReadError::NoMemory
    }
}
