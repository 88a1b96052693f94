//! The built-in types by their names: those that this project has, in one table.

ghost use Rattle.std.specs.Prelude.{◌≡◌};
ghost use Rattle.nm_schema_derive.specs.BuiltIn.{built_in_of, integer_named, other_named};

/// A built-in type of RFC 7950 section 4.2.4 that this project has.
#[derive(Clone, Copy)]
pub enum BuiltIn {
    /// `int8` to `int64` and `uint8` to `uint64`, by their lowest and highest numbers.
    Integer { low: i128, high: i128 },
    Decimal64,
    Boolean,
    String,
    Enumeration,
    Bits,
    Empty,
    Leafref,
}

// An integer type of some bounds.
fn integer(low: i128, high: i128) -> Option<BuiltIn>
    ensures { result ≡ Some (BuiltIn.Integer low high) }
{
    Some(BuiltIn::Integer { low, high })
}

// The integer type of a name.
#[tactic(auto, unfolding(crate::specs::BuiltIn::integer_named))]
fn integer_named(name: &str) -> Option<BuiltIn>
    ensures { result ≡ integer_named name.now }
{
    match name {
        "int8" => integer(-128, 127),
        "int16" => integer(-32768, 32767),
        "int32" => integer(-2147483648, 2147483647),
        "int64" => integer(-9223372036854775808, 9223372036854775807),
        "uint8" => integer(0, 255),
        "uint16" => integer(0, 65535),
        "uint32" => integer(0, 4294967295),
        "uint64" => integer(0, 18446744073709551615),
        _ => None,
    }
}

// The type of a name that is no integer type.
#[tactic(auto, unfolding(crate::specs::BuiltIn::other_named))]
fn other_named(name: &str) -> Option<BuiltIn>
    ensures { result ≡ other_named name.now }
{
    match name {
        "decimal64" => Some(BuiltIn::Decimal64),
        "boolean" => Some(BuiltIn::Boolean),
        "string" => Some(BuiltIn::String),
        "enumeration" => Some(BuiltIn::Enumeration),
        "bits" => Some(BuiltIn::Bits),
        "empty" => Some(BuiltIn::Empty),
        "leafref" => Some(BuiltIn::Leafref),
        _ => None,
    }
}

/// The built-in type of a name, and `None` where the name is none of theirs.
pub fn built_in(name: &str) -> Option<BuiltIn>
    ensures { result ≡ built_in_of name.now }
{
    match integer_named(name) {
        Some(found) => Some(found),
        None => other_named(name),
    }
}
