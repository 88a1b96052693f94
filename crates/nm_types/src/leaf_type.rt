//! The types of leafs.

use crate::names::Names;
use crate::parts::Parts;
use std::marker::Model;

/// The built-in type of a leaf, with what restricts its spellings (RFC 7950 section 9).
#[derive(Drop)]
pub enum TypeKind {
    /// `int8` to `int64` and `uint8` to `uint64`, by their lowest and highest numbers.
    Integer { low: i128, high: i128 },
    /// `decimal64`, by its `fraction-digits`.
    Decimal { digits: u8 },
    Boolean,
    /// `string`.
    Text,
    /// `enumeration`, by its names.
    Names(Names),
    /// `bits`, by the names of the bits in order of position.
    Bits(Names),
    Empty,
}

/// The type of a leaf after its derivation. A leafref has the type of its target.
#[derive(Drop)]
pub struct LeafType {
    pub kind: TypeKind,
    /// The range or the length, where there is one: the nearest along the derivation, which is within those
    /// behind it.
    pub limits: Option<Parts>,
}

impl Model for LeafType {
    ghost use Rattle.nm_types.specs.LeafType.{TypeOfLeaf};

    ghost Value = { TypeOfLeaf };

    ghost use Rattle.nm_types.specs.TypeKind.{kind_of};

    ghost view = { λ t. record { kind = kind_of t.kind; limits = t.limits } };
}
