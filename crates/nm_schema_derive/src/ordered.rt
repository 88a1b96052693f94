//! The names that a leaf's type has of members, made once for all leafs of a type.

ghost use Rattle.std.specs.Prelude.{◌≡◌, All, IfOk, map};
ghost use Rattle.nm_types.specs.Spells.{IsOnce};
ghost use Rattle.nm_schema_derive.specs.Kinds.{member_name};
ghost use Rattle.nm_schema_derive.specs.Members.{IsPosition};
ghost use Rattle.nm_schema_derive.specs.Order.{bit_of, bit_name, in_order, names_in_order};

use crate::members::Member;
use nm_base::{Label, NoMemory};
use nm_types::Names;
use std::alloc::Global;

// The names of members, in a list.
fn listed_names(alloc: Global, members: &[Member]) -> Result<Vec<Label>, NoMemory>
    ensures { IfOk result (λ names. names.items ≡ map member_name members.now) }
{
    let mut names = Vec::with_capacity(alloc, members.len())?;
    for member in members {
        names.push(member.name.copy()?)?;
    }
    Ok(names)
}

// The names of bits with their positions.
fn bits_of(alloc: Global, members: &[Member]) -> Result<Vec<(Label, u32)>, NoMemory>
    requires { All IsPosition members.now }
    ensures { IfOk result (λ bits. bits.items ≡ map bit_of members.now) }
{
    let mut bits = Vec::with_capacity(alloc, members.len())?;
    for member in members {
        bits.push((member.name.copy()?, member.number as u32))?;
    }
    Ok(bits)
}

// The bits in order of position.
fn in_order(bits: Vec<(Label, u32)>) -> Result<Vec<(Label, u32)>, NoMemory>
    ensures { IfOk result (λ sorted. sorted.items ≡ in_order bits.items) }
{
    let mut sorted = bits;
    sorted.sort_by_key(|bit| bit.1)?;
    Ok(sorted)
}

// The names of bits, in a list.
fn bit_names(alloc: Global, bits: &[(Label, u32)]) -> Result<Vec<Label>, NoMemory>
    ensures { IfOk result (λ names. names.items ≡ map bit_name bits.now) }
{
    let mut names = Vec::with_capacity(alloc, bits.len())?;
    for bit in bits {
        names.push(bit.0.copy()?)?;
    }
    Ok(names)
}

// The names of an enumeration.
pub(crate) fn names_of(alloc: Global, members: &[Member]) -> Result<Names, NoMemory>
    requires once { IsOnce (map member_name members.now) }
    ensures { IfOk result (λ names. names ≡ map member_name members.now) }
{
    Names::new(alloc, listed_names(alloc, members)?)
}

// The names of bits in order of position.
pub(crate) fn names_in_order(alloc: Global, members: &[Member]) -> Result<Names, NoMemory>
    requires positions { All IsPosition members.now }
    requires once { IsOnce (map member_name members.now) }
    ensures { IfOk result (λ names. names ≡ names_in_order members.now) }
{
    let sorted = in_order(bits_of(alloc, members)?)?;
    Names::new(alloc, bit_names(alloc, &sorted)?)
}
