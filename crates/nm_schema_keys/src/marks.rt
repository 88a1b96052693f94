//! Which leafs are keys.

ghost use Rattle.std.specs.Prelude.{◌≡◌, ◌<◌, ◌||◌, ℕ, All, IfOk, OnOk, false, length, slice_index_or};
ghost use Rattle.nm_schema_uses.specs.Config.{Marks};
ghost use Rattle.nm_schema_keys.specs.ConfigUse.{ConfigUse, IsConfigUse};
ghost use Rattle.nm_schema_keys.specs.Keys.{IsKey, has_row, has_known, keys_of};

use crate::key::keys_of;
use nm_base::NoMemory;
use nm_schema_names::RowNames;
use nm_schema_uses::Shape;
use std::alloc::Global;

// Marks some rows.
fn mark(marks: &mut Vec<bool>, rows: &[usize])
    requires { All (λ row. row < length marks.old.items) rows.now }
    ensures size { length marks.new.items ≡ length marks.old.items }
    ensures marked { (i : ℕ) → slice_index_or marks.new.items i false ≡ (has_row rows.now i || slice_index_or marks.old.items i false) }
{
    for row in rows {
        marks[*row] = true;
    }
}

// Marks the key leafs of a list.
fn mark_list(
    alloc: Global,
    names: &RowNames<'_>,
    shape: &Shape<'_>,
    list: usize,
    marks: &mut Vec<bool>,
) -> Result<(), NoMemory>
    requires rows { names.now ≡ shape.now.rows }
    requires size { length marks.old.items ≡ length shape.now.rows }
    ensures size { length marks.new.items ≡ length marks.old.items }
    ensures marked { (standing : ConfigUse) → IsConfigUse shape.now.rows shape.now.groupings standing
        → OnOk result ((i : ℕ) → slice_index_or marks.new.items i false
        ≡ (has_known (keys_of shape.now.rows shape.now.groupings standing list) i || slice_index_or marks.old.items i false)) }
{
    match keys_of(alloc, names, shape, list) {
        Ok(Some(keys)) => {
            mark(marks, keys.as_slice());
            Ok(())
        }
        Ok(None) => Ok(()),
        Err(error) => Err(error),
    }
}

/// For each row whether it is a key leaf of a list, also of one that gets it through a `uses`. Time: the sum over the lists of
/// their members, each with the logarithm of how many stand in the list.
pub fn key_leafs(
    alloc: Global,
    names: &RowNames<'_>,
    shape: &Shape<'_>,
) -> Result<Vec<bool>, NoMemory>
    requires { names.now ≡ shape.now.rows }
    ensures size { IfOk result (λ marks. length marks.items ≡ length shape.now.rows) }
    ensures marks { (standing : ConfigUse) → IsConfigUse shape.now.rows shape.now.groupings standing
        → IfOk result (λ marks. Marks (IsKey shape.now.rows shape.now.groupings standing) marks.items) }
{
    names.rows().laws();
    let mut marks = vec![in alloc; false; names.rows().len()]?;
    for list in 0..names.rows().len() {
        match mark_list(alloc, names, shape, list, &mut marks) {
            Ok(()) => {}
            Err(error) => return Err(error),
        }
    }
    Ok(marks)
}
