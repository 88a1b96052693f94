//! What the types of leafs take of a derived type: copies that share its memory.

ghost use Rattle.std.specs.Prelude.{◌≡◌, IfOk, option_map};
ghost use Rattle.nm_types.specs.TypeKind.{kind_of};
ghost use Rattle.nm_schema_derive.specs.Kinds.{kind_made};
ghost use Rattle.nm_schema_derive.specs.Shape.{HasNames, built_of};

use crate::derived::TypeShape;
use nm_base::NoMemory;
use nm_types::{Parts, TypeKind};
use std::sync::Arc;

// An equal range or length, if there is one.
pub(crate) fn copy_limits(limits: &Option<Parts>) -> Result<Option<Parts>, NoMemory>
    ensures { IfOk result (λ copied. copied ≡ limits.now) }
{
    match limits {
        Some(parts) => Ok(Some(parts.copy()?)),
        None => Ok(None),
    }
}

// An equal shape.
pub(crate) fn copy_shape(shape: &TypeShape) -> Result<TypeShape, NoMemory>
    requires { HasNames shape.now }
    ensures same { IfOk result (λ copied. built_of copied ≡ built_of shape.now) }
    ensures names { IfOk result HasNames }
{
    Ok(match shape {
        TypeShape::Integer { low, high } => TypeShape::Integer {
            low: *low,
            high: *high,
        },
        TypeShape::BareDecimal => TypeShape::BareDecimal,
        TypeShape::Decimal { digits } => TypeShape::Decimal { digits: *digits },
        TypeShape::Boolean => TypeShape::Boolean,
        TypeShape::Text => TypeShape::Text,
        TypeShape::BareNames => TypeShape::BareNames,
        TypeShape::Names(members, names) => TypeShape::Names(
            Arc::try_clone(members)?,
            names.copy()?,
        ),
        TypeShape::BareBits => TypeShape::BareBits,
        TypeShape::Bits(members, names) => TypeShape::Bits(Arc::try_clone(members)?, names.copy()?),
        TypeShape::Empty => TypeShape::Empty,
        TypeShape::Reference => TypeShape::Reference,
    })
}

// The kind of a leaf's type, where the shape lacks nothing and is no leafref.
pub(crate) fn kind_of(shape: &TypeShape) -> Result<Option<TypeKind>, NoMemory>
    requires { HasNames shape.now }
    ensures { IfOk result (λ found. option_map kind_of found ≡ kind_made (built_of shape.now)) }
{
    Ok(match shape {
        TypeShape::Integer { low, high } => Some(TypeKind::Integer {
            low: *low,
            high: *high,
        }),
        TypeShape::Decimal { digits } => Some(TypeKind::Decimal { digits: *digits }),
        TypeShape::Boolean => Some(TypeKind::Boolean),
        TypeShape::Text => Some(TypeKind::Text),
        TypeShape::Names(_, names) => Some(TypeKind::Names(names.copy()?)),
        TypeShape::Bits(_, names) => Some(TypeKind::Bits(names.copy()?)),
        TypeShape::Empty => Some(TypeKind::Empty),
        _ => None,
    })
}
