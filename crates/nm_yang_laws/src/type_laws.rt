//! Laws of the texts of types. Each function does nothing: its contract is the law.

ghost use Rattle.std.specs.Prelude.{◌≡◌, ℕ, ℤ, pos, Bool, List, map, Some};
ghost use Rattle.std.specs.List.{list_any};
ghost use Rattle.nm_types.specs.Spells.{SpellsInteger, SpellsDecimal};
ghost use Rattle.nm_schema_derive.specs.declared.form.NumberForm.TheVariants.{Integer, Decimal, Length};
ghost use Rattle.nm_schema_derive.specs.declared.members.Member.{Member};
ghost use Rattle.nm_schema_derive.specs.Form.{number_of};
ghost use Rattle.nm_schema_derive.specs.Order.{bit_of, in_order};
ghost use Rattle.nm_yang_laws.specs.Rising.{Rise};

/// What a text spells as a bound of an integer's range or as the value of a name, it spells as a value of an integer type
/// (RFC 7950 sections 9.2.1 and 9.2.4).
pub fn integers_alike()
    ensures { (text : List ℕ) (z : ℤ) → number_of Integer text ≡ Some z → SpellsInteger text z }
{}

/// What a text spells as a bound of a length or as a position, it spells as a value of an integer type, without a sign before it
/// (RFC 7950 sections 9.4.4 and 9.7.4.2).
pub fn lengths_alike()
    ensures { (text : List ℕ) (z : ℤ) → number_of Length text ≡ Some z → SpellsInteger text z × ((n : ℕ) × (z ≡ pos n)) }
{}

/// What a text spells as a bound of a decimal's range, it spells as a value of `decimal64` with so many fraction digits
/// (RFC 7950 sections 9.3.1 and 9.3.4).
pub fn decimals_alike()
    ensures { (digits : ℕ) (text : List ℕ) (z : ℤ) → number_of (Decimal digits) text ≡ Some z → SpellsDecimal digits text z }
{}

/// The bits of a type, in whose order a value names those that are set, come by rising position (RFC 7950 section 9.7.4.2).
pub fn bits_rise()
    ensures { (members : List Member) → Rise (in_order (map bit_of members)) }
{}

/// They are the bits that the type was given, and no others.
pub fn bits_stay()
    ensures { (members : List Member) (test : List ℕ × ℕ → Bool) → list_any test (in_order (map bit_of members)) ≡ list_any test (map bit_of members) }
{}
