//! What is said where there is no answer: the usage, and why a journal can't be used.

ghost use Rattle.std.specs.Prelude.{◌≡◌, ◌++◌, OnOk};
ghost use Rattle.nm_console.specs.Refusal.{damaged_text, not_empty_text, offset_text};

use nm_base::{NoMemory, write_decimal};
use nm_report::text::put;

/// The usage line.
pub const USAGE: &str = "usage: netm check, replay, run, make, stress, journal\n";

/// The line of a journal that is damaged from this byte on.
pub fn write_damaged(out: &mut Vec<u8>, offset: u64) -> Result<(), NoMemory>
    ensures { OnOk result (out.new.items ≡ out.old.items ++ damaged_text offset) }
{
    put(out, "journal damaged ")?;
    write_offset(out, offset)
}

/// The line of a journal that holds so many bytes, where an empty one is wanted.
pub fn write_not_empty(out: &mut Vec<u8>, size: u64) -> Result<(), NoMemory>
    ensures { OnOk result (out.new.items ≡ out.old.items ++ not_empty_text size) }
{
    put(out, "journal not empty ")?;
    write_offset(out, size)
}

fn write_offset(out: &mut Vec<u8>, offset: u64) -> Result<(), NoMemory>
    ensures { OnOk result (out.new.items ≡ out.old.items ++ offset_text offset) }
{
    write_decimal(offset, out)?;
    put(out, "\n")
}
