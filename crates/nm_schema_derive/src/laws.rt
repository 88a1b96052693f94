//! Laws of derivations. Each function does nothing: its contract is the law.

ghost use Rattle.std.specs.Prelude.{ℤ, List, Any};
ghost use Rattle.nm_types.specs.Limits.{IsWithin};
ghost use Rattle.nm_schema_derive.specs.Nearest.{Narrows, MeetsEach};

/// A number in the nearest range or length along a derivation is in each of those behind it, so that no other
/// need be kept (RFC 7950 sections 9.2.4 and 9.4.4).
pub fn nearest_stands_for_all()
    ensures meets_all { (number : ℤ) (nearest : List (ℤ × ℤ)) (further : List (List (ℤ × ℤ))) → Narrows nearest further
        → Any (IsWithin number) nearest → MeetsEach number further }
{}
