//! Laws of the rows of a picture. The functions do nothing: their contracts are the laws.

ghost use Rattle.std.specs.Prelude.{◌≡◌, ℕ, List, Some, true, map, slice_get};
ghost use Rattle.nm_world.specs.declared.happened.TraceEntry.{TraceEntry};
ghost use Rattle.nm_picture_shapes.specs.Rows.{is_notable, places_from, rows_of, shows};

/// No decision, fault or refusal is folded away: it has a line of its own.
pub fn each_notable_event_is_shown()
    ensures { (trail : List TraceEntry) (place : ℕ) (passed : TraceEntry) → slice_get trail place ≡ Some passed
        → is_notable passed.happened ≡ true → shows place (rows_of trail) ≡ true }
{}

/// Each event that did something has a row, in order, and no other event has one.
pub fn each_active_event_has_a_row()
    ensures { (trail : List TraceEntry) → map (λ row. row.place) (rows_of trail) ≡ places_from 0 trail }
{}
