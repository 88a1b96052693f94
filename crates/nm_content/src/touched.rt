//! Whether a configuration over a valid one is valid, by what it changes of it.

ghost use Rattle.std.specs.Prelude.{◌≡◌, ◌<◌, IfOk};
ghost use Rattle.std.specs.FinMap.{keys};
ghost use Rattle.nm_path.specs.Sound.{IsSound};
ghost use Rattle.nm_proto.specs.Content.{Checks};
ghost use Rattle.nm_validate_rules.specs.Standing.{StandsIn};
ghost use Rattle.nm_validate_rules.specs.Violation.{IsValid};
ghost use Rattle.nm_validate_rules.specs.Reaches.{Covers};
ghost use Rattle.nm_validate.specs.Told.{violation_told};
ghost use Rattle.nm_overlay.specs.Differences.{differences};
ghost use Rattle.nm_content.specs.Meaning.{Belongs};

use nm_base::{NoMemory, Steps};
use nm_incremental::check_touched;
use nm_overlay::Overlay;
use nm_proto::CheckFault;
use nm_schema_tree::Schema;
use nm_types::Path;
use std::alloc::Global;
use std::marker::Brand;
use std::sync::ledger::{Blank, Ledger};

// The paths at which a configuration differs from what it lies over.
fn touched_of(alloc: Global, config: &Overlay) -> Result<Vec<Path>, NoMemory>
    ensures { IfOk result (λ touched. touched.items ≡ keys (differences config.now.base config.now.rows)) }
{
    let pairs = config.pairs();
    let mut touched = Vec::with_capacity(alloc, pairs.len())?;
    for (path, _) in pairs {
        touched.push(path.copy(alloc)?)?;
    }
    Ok(touched)
}

// The answer, with a counter of its own for the steps.
fn counted<L: Ledger>(
    alloc: Global,
    schema: &Schema,
    config: &Overlay,
    touched: &[Path],
    blank: Blank,
) -> Result<(), CheckFault>
    requires name { blank.name ≡ L.name }
    requires parts { blank.parts ≡ L.parts }
    requires some { 0 < blank.parts }
    requires sound { IsSound schema.now.nodes }
    requires base { StandsIn schema.now config.now.base }
    requires rows { StandsIn schema.now config.now.rows }
    requires valid { IsValid schema.now config.now.base }
    requires covers { Covers touched.now config.now.base config.now.rows }
    ensures { Checks result (violation_told schema.now config.now.rows) }
{
    let (book, share) = blank.open::<L>();
    let mut steps = Steps::new(book, share);
    check_touched(alloc, schema, config.base(), config, touched, &mut steps)
}

/// Whether a configuration over a valid one is valid (RFC 7950 section 8). The answer is that of a look at all rows; looked
/// at are the constraints that what was changed reaches.
pub(crate) fn checked(alloc: Global, schema: &Schema, config: &Overlay) -> Result<(), CheckFault>
    requires { Belongs schema.now config.now }
    ensures { Checks result (violation_told schema.now config.now.rows) }
{
    let touched = touched_of(alloc, config)?;
    counted::<Brand>(alloc, schema, config, &touched, Blank::new(1))
}
