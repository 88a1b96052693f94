//! What goes wrong in a run, in words; and how many events a fold holds.

ghost use Rattle.std.specs.Prelude.{◌≡◌, ◌++◌, OnOk};
ghost use Rattle.nm_picture_words.specs.Words as spec;

use crate::phrase::Phrase;
use crate::text::{put, put_number};
use nm_base::{ChangeNo, DeviceNo, NoMemory, write_decimal};

/// Appends that a link to a device broke at the manager's side.
pub fn put_broken(out: &mut Vec<u8>, device: DeviceNo) -> Result<(), NoMemory>
    ensures { OnOk result (out.new.items ≡ out.old.items ++ spec.broken_words device) }
{
    put_number(out, Phrase::Link.text(), u32::from(device.get()))?;
    put(out, Phrase::Broken.text())
}

/// Appends that an operator lost its session.
pub fn put_left(out: &mut Vec<u8>, operator: u32) -> Result<(), NoMemory>
    ensures { OnOk result (out.new.items ≡ out.old.items ++ spec.left_words operator) }
{
    put_number(out, Phrase::OperatorSession.text(), operator)?;
    put(out, Phrase::Lost.text())
}

/// Appends how far a clock rose, in seconds.
pub fn put_passed(out: &mut Vec<u8>, seconds: u32) -> Result<(), NoMemory>
    ensures { OnOk result (out.new.items ≡ out.old.items ++ spec.passed_words seconds) }
{
    write_decimal(u64::from(seconds), out)?;
    put(out, " s pass")
}

/// Appends that the manager forgot a change set.
pub fn put_forgot(out: &mut Vec<u8>, change: ChangeNo) -> Result<(), NoMemory>
    ensures { OnOk result (out.new.items ≡ out.old.items ++ spec.forgot_words change) }
{
    put_number(out, Phrase::ChangeSet.text(), change.get())?;
    put(out, Phrase::Forgotten.text())
}

/// Appends how many events a fold holds.
pub fn put_fold(out: &mut Vec<u8>, count: u64) -> Result<(), NoMemory>
    ensures { OnOk result (out.new.items ≡ out.old.items ++ spec.fold_words count) }
{
    write_decimal(count, out)?;
    put(out, " events are folded")
}
