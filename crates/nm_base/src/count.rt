//! Counts of faults: of sources, of sinks and of disks alike.

ghost use Rattle.std.specs.Prelude.{◌≡◌, ◌≤◌};
ghost use Rattle.nm_base.specs.Count.{raised};

use crate::fault::Failed;

/// Counts a fault. The count stays at the greatest number of a u64.
pub fn count_fault(faults: &mut u64) -> Failed
    ensures raised { faults.new ≡ raised faults.old }
    ensures count { faults.old ≤ faults.new }
{
    *faults = faults.saturating_add(1);
    Failed
}
