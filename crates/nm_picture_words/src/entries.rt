//! What the manager notes in its journal, in words.

ghost use Rattle.std.specs.Prelude.{◌≡◌, ◌++◌, OnOk};
ghost use Rattle.nm_picture_words.specs.Words as spec;

use crate::phrase::Phrase;
use crate::text::{put, put_number};
use nm_base::{ChangeNo, DeviceNo, NoMemory, Tag, write_decimal};
use nm_proto::{AbortCause, Verdict};

/// Appends the number of a change set, with a colon, where there is one: what stands before words of a run of many change sets.
pub fn put_prefix(out: &mut Vec<u8>, change: Option<ChangeNo>) -> Result<(), NoMemory>
    ensures { OnOk result (out.new.items ≡ out.old.items ++ spec.prefix_words change) }
{
    match change {
        Some(change) => {
            write_decimal(u64::from(change.get()), out)?;
            put(out, ": ")
        }
        None => Ok(()),
    }
}

/// The words of a decision, without the cause of an abort.
pub fn verdict_words(verdict: &Verdict) -> &'static str
    ensures { result.now ≡ spec.verdict_words verdict.now }
{
    match verdict {
        Verdict::Commit => "decided: commit",
        Verdict::Abort(_) => "decided: abort",
    }
}

fn put_refused(out: &mut Vec<u8>, device: DeviceNo, tag: Tag) -> Result<(), NoMemory>
    ensures { OnOk result (out.new.items ≡ out.old.items ++ spec.refused_words device tag) }
{
    put_number(out, Phrase::Device.text(), u32::from(device.get()))?;
    put(out, Phrase::Refused.text())?;
    put(out, tag.text())
}

fn put_cut(out: &mut Vec<u8>, device: DeviceNo) -> Result<(), NoMemory>
    ensures { OnOk result (out.new.items ≡ out.old.items ++ spec.cut_words device) }
{
    put_number(out, Phrase::TheLink.text(), u32::from(device.get()))?;
    put(out, Phrase::Broke.text())
}

fn put_lapsed(out: &mut Vec<u8>, device: DeviceNo) -> Result<(), NoMemory>
    ensures { OnOk result (out.new.items ≡ out.old.items ++ spec.lapsed_words device) }
{
    put_number(out, Phrase::PendingAt.text(), u32::from(device.get()))?;
    put(out, Phrase::Lapsed.text())
}

/// Appends why a change set is aborted.
pub fn put_cause(out: &mut Vec<u8>, cause: &AbortCause) -> Result<(), NoMemory>
    ensures { OnOk result (out.new.items ≡ out.old.items ++ spec.cause_words cause.now) }
{
    match cause {
        AbortCause::Refused { device, tag } => put_refused(out, *device, *tag),
        AbortCause::Broken { device } => put_cut(out, *device),
        AbortCause::Forgotten => put(out, "its state was forgotten"),
        AbortCause::Lapsed { device } => put_lapsed(out, *device),
    }
}
