//! How many entries lists and leaf-lists have.

ghost use Rattle.std.specs.Prelude.{◌≡◌, ◌==◌, length, nat_lt};
ghost use Rattle.nm_validate_rules.specs.Values.{count_at};
ghost use Rattle.nm_validate_places.specs.Counts as spec;

use nm_config::{RowMap, is_under};
use nm_types::Path;

// Whether a path at or below that of a list or leaf-list has as many steps, and so is that of an entry.
fn is_as_long(path: &Path, other: &Path) -> bool
    ensures { result ≡ (length other.now == length path.now) }
{
    other.steps.len() == path.steps.len()
}

// Whether more than so many entries of a list or leaf-list stand after its path.
fn has_more_behind<M: RowMap>(config: &M, path: &Path, most: u64) -> bool
    ensures { result ≡ nat_lt most (spec.count_behind (M.rows config.now) path.now) }
{
    let mut left = most;
    let mut at = config.next_after(Some(path));
    'entries: while let Some(other) = at {
        if !is_under(path, other) {
            return false;
        }
        if is_as_long(path, other) {
            if left == 0 {
                return true;
            }
            left -= 1;
        }
        at = config.next_after(Some(other));
    }
    false
}

/// Whether a list or a leaf-list has more than so many entries at its path.
pub fn has_more<M: RowMap>(config: &M, path: &Path, most: u64) -> bool
    ensures { result ≡ nat_lt most (count_at (M.rows config.now) path.now) }
{
    let Some(_own) = config.value(path) else {
        return has_more_behind(config, path, most);
    };
    if most == 0 {
        return true;
    }
    has_more_behind(config, path, most - 1)
}
