//! The keys of all lists.

ghost use Rattle.std.specs.Prelude.{◌≡◌, ◌<◌, ℕ, IfOk, length, None, slice_index_or};
ghost use Rattle.nm_schema_keys.specs.ConfigUse.{ConfigUse, IsConfigUse};
ghost use Rattle.nm_schema_keys.specs.Keys as spec;

use nm_base::NoMemory;
use nm_schema_keys::{Keys, keys_of};
use nm_schema_names::RowNames;
use nm_schema_uses::Shape;
use std::alloc::Global;

/// For each row the key leafs of the list that it is. Time: the sum over the lists of their members, each with the logarithm of
/// how many stand in the list.
pub(crate) fn keys_of_all<'a>(
    alloc: Global,
    names: &RowNames<'a>,
    shape: &Shape<'_>,
) -> Result<Vec<Option<Keys>>, NoMemory>
    requires { names.now ≡ shape.now.rows }
    ensures { (standing : ConfigUse) → IsConfigUse shape.now.rows shape.now.groupings standing
        → IfOk result (λ keys. (i : ℕ) → slice_index_or keys.items i None ≡ spec.keys_of shape.now.rows shape.now.groupings standing i) }
{
    names.rows().laws();
    let mut keys = Vec::with_capacity(alloc, names.rows().len())?;
    for list in 0..names.rows().len() {
        match keys_of(alloc, names, shape, list) {
            Ok(found) => keys.push(found)?,
            Err(error) => return Err(error),
        }
    }
    Ok(keys)
}
