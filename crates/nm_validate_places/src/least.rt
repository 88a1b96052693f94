//! The least of paths that are found one after another.

ghost use Rattle.std.specs.Prelude.{◌≡◌};
ghost use Rattle.nm_validate_places.specs.Least as spec;

use nm_types::Path;

// Whether a path stands before what was found so far.
fn is_first(path: &Path, found: &Option<Path>) -> bool
    ensures { result ≡ spec.is_first path.now found.now }
{
    match found {
        None => true,
        Some(other) => path < other,
    }
}

/// The lesser of what was found so far and one path more.
pub fn with_path(found: Option<Path>, path: Path) -> Option<Path>
    ensures { result ≡ spec.with_path found path }
{
    if is_first(&path, &found) {
        return Some(path);
    }
    found
}
