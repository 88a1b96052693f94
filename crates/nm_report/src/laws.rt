//! Laws of lines. Each function does nothing: its contract is the law.

ghost use Rattle.std.specs.Prelude.{◌≡◌, ℕ, List, length, filter};
ghost use Rattle.nm_lines.specs.Printed.{is_break};
ghost use Rattle.nm_history.specs.declared.event.Noted.{Noted};
ghost use Rattle.nm_notify.specs.Notices.{notices_in};
ghost use Rattle.nm_world.specs.declared.happened.TraceEntry.{TraceEntry};
ghost use Rattle.nm_report.specs.Notices.{device_notices};
ghost use Rattle.nm_report.specs.Trace.{trace_lines};

/// A trace has as many lines as events: no text that somebody wrote, such as a key in a path, ends a line or begins another.
pub fn each_event_is_one_line()
    ensures { (number : ℕ) (trail : List TraceEntry) → length (filter is_break (trace_lines number trail)) ≡ length trail }
{}

/// What a device tells of confirmed commits has as many lines as there are notices in its history.
pub fn each_notice_is_one_line()
    ensures { (device : ℕ) (history : List Noted) → length (filter is_break (device_notices device history)) ≡ length (notices_in history) }
{}
