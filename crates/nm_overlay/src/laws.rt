//! Laws of what one configuration changes of another. Each function does nothing: its contract is the law.

ghost use Rattle.std.specs.Prelude.{◌≡◌, List};
ghost use Rattle.std.specs.FinMap as map;
ghost use Rattle.nm_types.specs.Path.{PathStep};
ghost use Rattle.nm_config.specs.Rows.{Rows};
ghost use Rattle.nm_overlay.specs.Differences.{difference_at, differences, overridden};

/// Two configurations differ at the paths of their differences and at no others.
pub fn differences_exact()
    ensures { (base rows : Rows) → (path : List PathStep) → map.get (differences base rows) path ≡ difference_at (map.get base path) (map.get rows path) }
{}

/// A configuration with what another one changes of it is that other one.
pub fn overridden_again()
    ensures { (base rows : Rows) → overridden base (differences base rows) ≡ rows }
{}
