//! The steps of a path text as they are written, apart from any schema.

use nm_base::Label;
use std::marker::Model;

/// The quotes around a value.
#[derive(Clone, Copy)]
pub enum Quote {
    /// A single quote is doubled between them.
    Single,
    /// All bytes between them stand for themselves.
    Double,
}

/// A predicate of a step: `[key='value']`.
#[derive(Drop)]
pub struct Predicate {
    /// The name of a key, or `.` for the entry of a leaf-list.
    pub key: Label,
    pub quote: Quote,
    /// The value without its quotes, no quote doubled.
    pub value: Label,
}

/// A step as it is written.
#[derive(Drop)]
pub struct Written {
    /// The module before the name, if there is one.
    pub owner: Option<Label>,
    pub name: Label,
    pub predicates: Vec<Predicate>,
}

impl Model for Written {
    ghost use Rattle.nm_path.specs.Form.{WrittenStep};

    ghost Value = { WrittenStep };

    ghost view = { λ s. record { owner = s.owner; name = s.name; predicates = s.predicates.items } };
}
