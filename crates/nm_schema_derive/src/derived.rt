//! A type on the way of its derivation, and what each restriction makes of it.

ghost use Rattle.std.specs.Prelude.{◌≡◌, List, Result, None, IfOk, All, map};
ghost use Rattle.nm_schema_derive.specs.declared.members.Member.{Member};
ghost use Rattle.nm_schema_derive.specs.declared.members.ListFault.{ListFault};
ghost use Rattle.nm_schema_derive.specs.Members.{IsPosition, Gives as GivesMembers};
ghost use Rattle.nm_types.specs.Spells.{IsOnce};
ghost use Rattle.nm_schema_derive.specs.Kinds.{leaf_type_of, member_name};
ghost use Rattle.nm_schema_derive.specs.Shape.{built_of};
ghost use Rattle.nm_schema_derive.specs.Step.{start, digits_read, narrowed, limited, step_fault, named, flagged, with_digits, with_range, with_length, with_names, with_bits, lacking, Gives};

use crate::assign::{numbered, restricted};
use crate::copies::{copy_limits, copy_shape, kind_of};
use crate::form::{NumberForm, read_number};
use crate::members::{ListFault, ListFlaw, Listed, Numbering};
use crate::names::BuiltIn;
use crate::ordered::{names_in_order, names_of};
use crate::parts::{read_parts, read_within};
use crate::taken::Taken;
use nm_base::NoMemory;
use nm_types::{LeafType, Names, Parts};
use std::alloc::{AllocFailed, Global};
use std::marker::Model;
use std::sync::Arc;

/// What a type is built as.
#[derive(Drop)]
pub enum TypeShape {
    /// An integer type, by its lowest and highest numbers.
    Integer { low: i128, high: i128 },
    /// `decimal64` without its fraction-digits.
    BareDecimal,
    /// `decimal64` with its fraction-digits.
    Decimal { digits: u8 },
    Boolean,
    /// `string`.
    Text,
    /// `enumeration` without a name.
    BareNames,
    /// `enumeration` with its names and their values, and the names that its leafs share.
    Names(Arc<Taken>, Names),
    /// `bits` without a name.
    BareBits,
    /// `bits` with its names and their positions, and the names that its leafs share, in order of position.
    Bits(Arc<Taken>, Names),
    Empty,
    /// `leafref`.
    Reference,
}

/// A type after some steps of its derivation (RFC 7950 section 4.2.4).
///
/// Of the ranges or lengths along the derivation it has the nearest, since that has only numbers of those behind it.
#[derive(Drop)]
pub struct Derived {
    shape: TypeShape,
    limits: Option<Parts>,
}

impl Model for Derived {
    ghost use Rattle.nm_schema_derive.specs.Built.{Derivation};

    ghost Value = { Derivation };

    ghost use Rattle.nm_schema_derive.specs.Shape.{HasNames, built_of};
    ghost use Rattle.nm_schema_derive.specs.Built.{HasPositions};

    ghost invariant = { λ d. HasPositions (built_of d.shape) × HasNames d.shape };

    ghost view = { λ d. record { built = built_of d.shape; limits = d.limits } };
}

/// Why a restriction makes no type.
#[derive(Clone, Copy)]
pub enum StepFault {
    /// The type that is restricted allows no such restriction.
    Misplaced,
    /// The argument is no restriction of that type.
    BadArgument,
    /// The first `enum` or `bit` statement with a flaw, from 0, and its flaw.
    Listed { at: usize, flaw: ListFlaw },
    NoMemory,
}

impl From<NoMemory> for StepFault {
    ghost use Rattle.std.specs.Prelude.{◌≡◌};
    ghost use Rattle.nm_schema_derive.specs.declared.derived.StepFault.TheVariants.{NoMemory as OutOfMemory};

    ghost from_gives = { λ _ fault. fault ≡ OutOfMemory };

    fn from(_error: NoMemory) -> StepFault {
        StepFault::NoMemory
    }
}

impl<T: Drop> From<AllocFailed<T>> for StepFault {
    ghost use Rattle.std.specs.Prelude.{◌≡◌};
    ghost use Rattle.nm_schema_derive.specs.declared.derived.StepFault.TheVariants.{NoMemory as OutOfMemory};

    ghost from_gives = { λ _ fault. fault ≡ OutOfMemory };

    fn from(_error: AllocFailed<T>) -> StepFault {
        StepFault::NoMemory
    }
}

/// A substatement of `type` that a built-in type cannot do without.
#[derive(Clone, Copy)]
pub enum Lacking {
    FractionDigits,
    Enum,
    Bit,
}

/// The scaled values of a decimal64: what 64 bits hold with a sign (RFC 7950 section 9.3.4).
const SCALED: (i128, i128) = (-9223372036854775808, 9223372036854775807);

/// The lengths of a string: what 64 bits hold (RFC 7950 section 9.4.4).
const LENGTHS: (i128, i128) = (0, 18446744073709551615);

// The shape of a built-in type.
fn shape_of(built_in: &BuiltIn) -> TypeShape
    ensures { built_of result ≡ start built_in.now }
{
    match built_in {
        BuiltIn::Integer { low, high } => TypeShape::Integer {
            low: *low,
            high: *high,
        },
        BuiltIn::Decimal64 => TypeShape::BareDecimal,
        BuiltIn::Boolean => TypeShape::Boolean,
        BuiltIn::String => TypeShape::Text,
        BuiltIn::Enumeration => TypeShape::BareNames,
        BuiltIn::Bits => TypeShape::BareBits,
        BuiltIn::Empty => TypeShape::Empty,
        BuiltIn::Leafref => TypeShape::Reference,
    }
}

// The fraction digits that a text gives.
#[tactic(auto, unfolding(crate::specs::Step::digits_read))]
fn read_digits(text: &str) -> Option<u8>
    ensures { result ≡ digits_read text.now }
{
    match read_number(&NumberForm::Length, text.as_bytes()) {
        Some(number) => {
            if number < 1 {
                return None;
            }
            if 18 < number {
                return None;
            }
            Some(number as u8)
        }
        None => None,
    }
}

// The parts that a text makes of the nearest range or length, or of the type's own bounds.
#[tactic(auto, unfolding(crate::specs::Step::nearest))]
fn narrowed(
    alloc: Global,
    form: &NumberForm,
    own: &(i128, i128),
    limits: &Option<Parts>,
    text: &str,
) -> Result<Option<Parts>, NoMemory>
    ensures { IfOk result (λ found. found ≡ narrowed form.now own.now limits.now text.now) }
{
    match limits {
        Some(parts) => read_within(alloc, form, text, parts),
        None => read_parts(alloc, form, text, &[*own]),
    }
}

// The fault of a restriction by `enum` or `bit` statements.
fn step_fault(fault: ListFault) -> StepFault
    ensures { result ≡ step_fault fault }
{
    match fault {
        ListFault::Flawed { at, flaw } => StepFault::Listed { at, flaw },
        ListFault::NoMemory => StepFault::NoMemory,
    }
}

// The enumeration of some members.
fn named(
    alloc: Global,
    limits: Option<Parts>,
    made: Result<Taken, ListFault>,
) -> Result<Derived, StepFault>
    requires { IfOk made (λ members. IsOnce (map member_name members)) }
    ensures { (meant : Result (List Member) ListFault) → GivesMembers made meant → Gives result (named limits meant) }
{
    match made {
        Ok(members) => {
            let names = names_of(alloc, members.as_slice())?;
            Ok(Derived {
                shape: TypeShape::Names(Arc::new(alloc, members)?, names),
                limits,
            })
        }
        Err(fault) => Err(step_fault(fault)),
    }
}

// The bits type of some members.
fn flagged(
    alloc: Global,
    limits: Option<Parts>,
    made: Result<Taken, ListFault>,
) -> Result<Derived, StepFault>
    requires positions { IfOk made (λ members. All IsPosition members) }
    requires once { IfOk made (λ members. IsOnce (map member_name members)) }
    ensures { (meant : Result (List Member) ListFault) → GivesMembers made meant → Gives result (flagged limits meant) }
{
    match made {
        Ok(members) => {
            let names = names_in_order(alloc, members.as_slice())?;
            Ok(Derived {
                shape: TypeShape::Bits(Arc::new(alloc, members)?, names),
                limits,
            })
        }
        Err(fault) => Err(step_fault(fault)),
    }
}

impl Derived {
    /// A built-in type, as a `type` statement names it.
    pub fn of_built_in(built_in: &BuiltIn) -> Derived
        ensures { result ≡ record { built = start built_in.now; limits = None } }
    {
        Derived {
            shape: shape_of(built_in),
            limits: None,
        }
    }

    /// The type with the fraction digits of a `fraction-digits` statement, 1 to 18 (RFC 7950 section 9.3.4).
    ///
    /// Misplaced where the type is another than `decimal64` without its fraction-digits.
    pub fn with_digits(self, text: &str) -> Result<Derived, StepFault>
        ensures exact { Gives result (with_digits self text.now) }
    {
        match &self.shape {
            TypeShape::BareDecimal => match read_digits(text) {
                Some(digits) => Ok(Derived {
                    shape: TypeShape::Decimal { digits },
                    limits: self.limits,
                }),
                None => Err(StepFault::BadArgument),
            },
            _ => Err(StepFault::Misplaced),
        }
    }

    // The type with a range or length in place of the one that it had.
    fn with_limit(self, parts: Option<Parts>) -> Result<Derived, StepFault>
        ensures { Gives result (limited self parts) }
    {
        match parts {
            Some(parts) => Ok(Derived {
                shape: self.shape,
                limits: Some(parts),
            }),
            None => Err(StepFault::BadArgument),
        }
    }

    // The type with the range or length that a text makes of its nearest, or of its own bounds.
    fn with_parts(
        self,
        alloc: Global,
        form: &NumberForm,
        own: &(i128, i128),
        text: &str,
    ) -> Result<Derived, StepFault>
        ensures { Gives result (limited self (narrowed form.now own.now self.limits text.now)) }
    {
        let parts = narrowed(alloc, form, own, &self.limits, text)?;
        self.with_limit(parts)
    }

    /// The type with the range of a `range` statement (RFC 7950 section 9.2.4).
    ///
    /// Misplaced where the type is neither an integer type nor `decimal64`. A `decimal64` without its
    /// fraction-digits stays as it is, since no number of it has a meaning.
    pub fn with_range(self, alloc: Global, text: &str) -> Result<Derived, StepFault>
        ensures exact { Gives result (with_range self text.now) }
    {
        match &self.shape {
            TypeShape::Integer { low, high } => {
                let own = (*low, *high);
                self.with_parts(alloc, &NumberForm::Integer, &own, text)
            }
            TypeShape::Decimal { digits } => {
                let form = NumberForm::Decimal { digits: *digits };
                self.with_parts(alloc, &form, &SCALED, text)
            }
            TypeShape::BareDecimal => Ok(self),
            _ => Err(StepFault::Misplaced),
        }
    }

    /// The type with the length of a `length` statement (RFC 7950 section 9.4.4).
    ///
    /// Misplaced where the type is no `string`.
    pub fn with_length(self, alloc: Global, text: &str) -> Result<Derived, StepFault>
        ensures exact { Gives result (with_length self text.now) }
    {
        match &self.shape {
            TypeShape::Text => self.with_parts(alloc, &NumberForm::Length, &LENGTHS, text),
            _ => Err(StepFault::Misplaced),
        }
    }

    /// The type with the names of `enum` statements (RFC 7950 section 9.6.4).
    ///
    /// Misplaced where the type is no `enumeration`.
    pub fn with_names(self, alloc: Global, statements: &[Listed]) -> Result<Derived, StepFault>
        ensures exact { Gives result (with_names self statements.now) }
    {
        match &self.shape {
            TypeShape::BareNames => {
                let made = numbered(alloc, &Numbering::Values, statements);
                named(alloc, self.limits, made)
            }
            TypeShape::Names(base, _) => {
                let made = restricted(alloc, &Numbering::Values, base, statements);
                named(alloc, self.limits, made)
            }
            _ => Err(StepFault::Misplaced),
        }
    }

    /// The type with the names of `bit` statements (RFC 7950 section 9.7.4).
    ///
    /// Misplaced where the type is no `bits`.
    pub fn with_bits(self, alloc: Global, statements: &[Listed]) -> Result<Derived, StepFault>
        ensures exact { Gives result (with_bits self statements.now) }
    {
        match &self.shape {
            TypeShape::BareBits => {
                let made = numbered(alloc, &Numbering::Positions, statements);
                flagged(alloc, self.limits, made)
            }
            TypeShape::Bits(base, _) => {
                let made = restricted(alloc, &Numbering::Positions, base, statements);
                flagged(alloc, self.limits, made)
            }
            _ => Err(StepFault::Misplaced),
        }
    }

    /// The statement that the type lacks, if it lacks one (RFC 7950 sections 9.3.4, 9.6.4 and 9.7.4).
    pub fn lacks(&self) -> Option<Lacking>
        ensures exact { result ≡ lacking self.now.built }
    {
        match &self.shape {
            TypeShape::BareDecimal => Some(Lacking::FractionDigits),
            TypeShape::BareNames => Some(Lacking::Enum),
            TypeShape::BareBits => Some(Lacking::Bit),
            _ => None,
        }
    }

    /// An equal type, which shares its names and its range.
    pub fn copy(&self) -> Result<Derived, NoMemory>
        ensures { IfOk result (λ copied. copied ≡ self.now) }
    {
        Ok(Derived {
            shape: copy_shape(&self.shape)?,
            limits: copy_limits(&self.limits)?,
        })
    }

    /// The type of a leaf, and `None` where a substatement lacks or the type is `leafref`. It shares this type's names
    /// and range.
    pub fn leaf_type(&self) -> Result<Option<LeafType>, NoMemory>
        ensures exact { IfOk result (λ found. found ≡ leaf_type_of self.now) }
    {
        match kind_of(&self.shape)? {
            Some(kind) => Ok(Some(LeafType {
                kind,
                limits: copy_limits(&self.limits)?,
            })),
            None => Ok(None),
        }
    }
}
