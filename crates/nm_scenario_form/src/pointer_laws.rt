//! Laws of pointers. Each function does nothing: its contract is the law.

ghost use Rattle.std.specs.Prelude.{◌≤◌, List, length};
ghost use Rattle.std.specs.List.{All};
ghost use Rattle.nm_scenario_form.specs.declared.fault.Step.{Step};
ghost use Rattle.nm_scenario_form.specs.Pointer.{IsLongestFront, IsPrintable, pointer_limit, pointer_of, way_text};

/// A pointer has at most 4096 bytes.
pub fn pointers_are_short()
    ensures { (place : List Step) → length (pointer_of place) ≤ pointer_limit }
{}

/// No byte of a pointer is below 32, so that it stands on one line.
pub fn pointers_end_no_line()
    ensures { (place : List Step) → All IsPrintable (pointer_of place) }
{}

/// A pointer is the longest front of the whole way that has at most 4096 bytes and ends where a character does.
pub fn pointers_are_longest()
    ensures { (place : List Step) → IsLongestFront pointer_limit (way_text place) (pointer_of place) }
{}
