//! What can be wrong with a configuration in JSON.

ghost use Rattle.std.specs.Prelude.{◌≡◌};
ghost use Rattle.nm_json.specs.declared.fault.Refusal.TheVariants.{NoMemory};

use nm_base::Label;
use nm_types::Path;

/// What is wrong with a part of a JSON value. At one place an earlier kind comes before a later one.
#[derive(Clone, Copy, PartialEq, Eq)]
pub enum JsonKind {
    /// A member whose name leads to no node of the schema.
    Unknown,
    /// A JSON value of another kind than the node wants.
    BadForm,
    /// A value of that kind that the type of the leaf hasn't.
    BadValue,
    /// A list entry without one of its keys.
    MissingKey,
    /// A second member for one node, or a second row with one path.
    Repeated,
}

/// Where a fault is: at a path of the schema, which may end in a bare list, or at a name below it.
#[derive(Drop)]
pub struct Place {
    pub path: Path,
    pub below: Option<Label>,
}

/// A fault of a JSON value with its place.
#[derive(Drop)]
pub struct Fault {
    pub kind: JsonKind,
    pub place: Place,
}

/// Why a JSON value isn't a configuration.
#[derive(Drop)]
pub enum JsonFault {
    /// The text is no JSON (RFC 8259).
    NotJson,
    /// The least fault: its kind and the text of its place.
    Bad { kind: JsonKind, path: Label },
    /// More than 20,000 rows.
    TooManyRows,
    NoMemory,
}

/// Why a JSON value isn't the value of a leaf.
#[derive(Drop)]
pub enum Refusal {
    Bad(JsonKind),
    NoMemory,
}

/// Why a key isn't read.
#[derive(Drop)]
pub enum Stop {
    Bad(Fault),
    NoMemory,
}

impl From<nm_base::NoMemory> for JsonFault {
    ghost use Rattle.nm_json.specs.declared.fault.JsonFault.TheVariants.{NoMemory as NoRoom};

    ghost from_gives = { λ _ fault. fault ≡ NoRoom };

    fn from(_error: nm_base::NoMemory) -> JsonFault {
        JsonFault::NoMemory
    }
}

impl From<nm_base::NoMemory> for Stop {
    ghost use Rattle.nm_json.specs.declared.fault.Stop.TheVariants.{NoMemory as OutOfMemory};

    ghost from_gives = { λ _ stop. stop ≡ OutOfMemory };

    fn from(_error: nm_base::NoMemory) -> Stop {
        Stop::NoMemory
    }
}

impl From<nm_base::NoMemory> for Refusal {
    ghost from_gives = { λ _ refusal. refusal ≡ NoMemory };

    fn from(_error: nm_base::NoMemory) -> Refusal {
        Refusal::NoMemory
    }
}
