//! The statements and the members of enumerations and bits, and what may be wrong with them: the words of the layers above.

use nm_base::{Label, NoMemory};

/// An `enum` or a `bit` statement: its name, and the argument of its `value` or its `position`.
#[derive(Drop)]
pub struct Listed {
    pub name: Label,
    /// The text of the number, if the statement has one.
    pub number: Option<Label>,
}

/// A name of an enumeration with its value, or of bits with its position.
#[derive(Drop)]
pub struct Member {
    pub name: Label,
    pub number: i64,
}

/// Which numbers the names of a type have.
#[derive(Clone, Copy)]
pub enum Numbering {
    /// Values of an enumeration: -2147483648 to 2147483647 (RFC 7950 section 9.6.4.2).
    Values,
    /// Positions of bits: 0 to 4294967295 (RFC 7950 section 9.7.4.2).
    Positions,
}

/// What is wrong with an `enum` or a `bit` statement.
#[derive(Clone, Copy)]
pub enum ListFlaw {
    /// A statement before it has its name.
    NameRepeated,
    /// Its number is no number of the numbering.
    BadNumber,
    /// A statement before it has its number.
    NumberRepeated,
    /// It has no number, and one above the highest is past the limit.
    NoNumberLeft,
    /// The type that is restricted has no such name.
    NotInBase,
    /// Its number is another than that of its name in the type that is restricted.
    OtherThanBase,
}

/// Why statements make no members.
#[derive(Clone, Copy)]
pub enum ListFault {
    /// The first statement with a flaw, from 0, and its flaw.
    Flawed { at: usize, flaw: ListFlaw },
    NoMemory,
}

impl From<NoMemory> for ListFault {
    ghost use Rattle.std.specs.Prelude.{◌≡◌};
    ghost use Rattle.nm_schema_derive.specs.declared.members.ListFault.TheVariants.{NoMemory as OutOfMemory};

    ghost from_gives = { λ _ fault. fault ≡ OutOfMemory };

    fn from(_error: NoMemory) -> ListFault {
        ListFault::NoMemory
    }
}
