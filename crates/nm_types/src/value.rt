//! Values of leafs and their order. All kinds are one type, so that a configuration is one map.

ghost use Rattle.std.specs.Prelude.{◌≡◌, ◌↔◌, IsTrue, IfOk, Some, refl};
ghost use Rattle.nm_types.specs.Value.{value_rank, value_number, value_digits, value_text, value_cmp, is_same_value};
ghost use Rattle.nm_types.specs.ValueLaws.{values_equiv, values_total, values_po};
ghost use Rattle.std.specs.Cmp;
ghost use Rattle.std.specs.Cmp.Lexicographic.{slice_cmp};
ghost use Rattle.std.specs.Ordering.{int_cmp, nat_cmp, ordering_then};

use nm_base::{Label, NoMemory};
use std::cmp::Ordering;

/// A value of a leaf (RFC 7950 section 9).
#[derive(Drop)]
pub enum Value {
    /// An integer.
    Int(i128),
    /// A decimal64: the scaled value, and how many of its digits are after the point.
    Decimal(i64, u8),
    Bool(bool),
    Text(Label),
    /// The name of an enumeration.
    Name(Label),
    /// The names of the bits that are set, in order of position and parted by one space.
    Bits(Label),
    /// The value of a leaf of type `empty`.
    Empty,
    /// A container with `presence`, or a list entry, which has no value but that it is there.
    Present,
}

impl Value {
    /// An equal value. It copies no bytes of texts.
    pub fn copy(&self) -> Result<Value, NoMemory>
        ensures { IfOk result (λ value. value ≡ self.now) }
    {
        Ok(match self {
            Value::Int(number) => Value::Int(*number),
            Value::Decimal(scaled, digits) => Value::Decimal(*scaled, *digits),
            Value::Bool(flag) => Value::Bool(*flag),
            Value::Text(text) => Value::Text(text.copy()?),
            Value::Name(name) => Value::Name(name.copy()?),
            Value::Bits(names) => Value::Bits(names.copy()?),
            Value::Empty => Value::Empty,
            Value::Present => Value::Present,
        })
    }

    /// Whether the two are one value.
    #[tactic(auto, using(crate::specs::ValueLaws::same_value_decides))]
    pub fn same(&self, other: &Value) -> bool
        ensures { IsTrue result ↔ (self.now ≡ other.now) }
    {
        self == other
    }

    fn rank(&self) -> u8
        ensures { result ≡ value_rank self.now }
    {
        match self {
            Value::Int(_) => 0,
            Value::Decimal(_, _) => 1,
            Value::Bool(_) => 2,
            Value::Text(_) => 3,
            Value::Name(_) => 4,
            Value::Bits(_) => 5,
            Value::Empty => 6,
            Value::Present => 7,
        }
    }

    fn number(&self) -> i128
        ensures { result ≡ value_number self.now }
    {
        match self {
            Value::Int(number) => *number,
            Value::Decimal(scaled, _) => i128::from(*scaled),
            Value::Bool(flag) => i128::from(*flag),
            _ => 0,
        }
    }

    fn digits(&self) -> u8
        ensures { result ≡ value_digits self.now }
    {
        match self {
            Value::Decimal(_, digits) => *digits,
            _ => 0,
        }
    }

    fn text(&self) -> &str
        ensures { result.now ≡ value_text self.now }
    {
        match self {
            Value::Text(text) => text.as_str(),
            Value::Name(name) => name.as_str(),
            Value::Bits(names) => names.as_str(),
            _ => "",
        }
    }

    // The order of two values of one kind: by number, then by the digits after the point, then by the bytes of the text.
    fn order_in_kind(&self, other: &Value) -> Ordering
        ensures { result ≡ ordering_then (int_cmp (value_number self.now) (value_number other.now))
            (ordering_then (nat_cmp (value_digits self.now) (value_digits other.now))
            (slice_cmp nat_cmp (value_text self.now) (value_text other.now))) }
    {
        let numbers = self.number().cmp(&other.number());
        let digits = self.digits().cmp(&other.digits());
        numbers.then(digits.then(self.text().cmp(other.text())))
    }
}

impl PartialEq for Value {
    ghost eq = { is_same_value };

    ghost laws = { Cmp.partial_equiv_from_equiv values_equiv };

    fn eq(&self, other: &Value) -> bool {
        self.cmp(other) == Ordering::Equal
    }
}

impl Eq for Value {
    ghost laws = { values_equiv };
}

impl PartialOrd for Value {
    ghost partial_cmp = { λ x y. Some (value_cmp x y) };

    ghost laws = { values_po };

    fn partial_cmp(&self, other: &Value) -> Option<Ordering> {
        Some(self.cmp(other))
    }
}

// By kind, then by number, then by the bytes of the text.
impl Ord for Value {
    ghost cmp = { value_cmp };

    ghost total = { values_total };

    ghost matches_partial_cmp = { λ x y. refl };

    ghost matches_eq = { λ x y. refl };

    #[tactic(auto, unfolding(crate::specs::Value::value_cmp))]
    fn cmp(&self, other: &Value) -> Ordering {
        match (self, other) {
            (Value::Text(ours), Value::Text(theirs)) => ours.cmp(theirs),
            (Value::Int(ours), Value::Int(theirs)) => ours.cmp(theirs),
            _ => self
                .rank()
                .cmp(&other.rank())
                .then(self.order_in_kind(other)),
        }
    }
}
