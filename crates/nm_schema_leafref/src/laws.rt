//! Laws of paths. Each function does nothing: its contract is the law.

ghost use Rattle.std.specs.Prelude.{◌≡◌, ℕ, List, Option};
ghost use Rattle.nm_schema_nodes.specs.Expansion.{Expanded};
ghost use Rattle.nm_schema_leafref.specs.declared.fault.PathFault.{PathFault};
ghost use Rattle.nm_schema_leafref.specs.Fault.{HasFault};

/// The path of a row has one fault or none.
pub fn one_fault()
    ensures { (typedefs : List (Option ℕ)) (t : Expanded) (p : ℕ) (found other : Option PathFault) → HasFault typedefs t p found
        → HasFault typedefs t p other → found ≡ other }
{}
