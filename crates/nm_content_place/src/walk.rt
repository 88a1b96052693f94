//! A walk over the rows at or below a node, row after row. It takes no memory, and looks at no other row but the next one.

ghost use Rattle.std.specs.Prelude.{◌≡◌, false, option_copied};
ghost use Rattle.std.specs.Ordering.{is_lt};
ghost use Rattle.nm_types.specs.Path.{path_cmp};
ghost use Rattle.nm_content_place.specs.Walk.{GoesOn};

use nm_config::{RowMap, is_under};
use nm_types::Path;

/// The first row at or below a node that stands after a path.
pub fn next_below<'a, M: RowMap>(rows: &'a M, node: &Path, passed: &Path) -> Option<&'a Path>
    requires { is_lt (path_cmp passed.now node.now) ≡ false }
    ensures { GoesOn (M.rows rows.now) node.now passed.now (option_copied result) }
{
    let Some(next) = rows.next_after(Some(passed)) else {
        return None;
    };
    if is_under(node, next) {
        return Some(next);
    }
    None
}
