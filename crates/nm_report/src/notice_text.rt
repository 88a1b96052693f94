//! What devices tell of confirmed commits, as lines of a report.

ghost use Rattle.std.specs.Prelude.{◌≡◌, ◌++◌, OnOk};
ghost use Rattle.std.specs.List.{flat_map};
ghost use Rattle.nm_report.specs.Notices.{device_notices, event_word, notice_line, notice_lines, notice_place, notice_words, notices_text};

use crate::text::put;
use crate::trace::{write_session, write_timeout};
use nm_base::{NoMemory, write_decimal};
use nm_history::{Noted, Recorded};
use nm_notify::{ConfirmEvent, Notice, notices_of};
use nm_proto::Content;
use std::alloc::Global;

fn event_word(event: ConfirmEvent) -> &'static str
    ensures { result.now ≡ event_word event }
{
    match event {
        ConfirmEvent::Start => "start",
        ConfirmEvent::Cancel => "cancel",
        ConfirmEvent::Timeout => "timeout",
        ConfirmEvent::Extend => "extend",
        ConfirmEvent::Complete => "complete",
    }
}

// The entry that a notice tells of.
#[tactic(auto, unfolding(crate::specs::Notices::notice_place))]
fn write_place(out: &mut Vec<u8>, device: u64, position: u32) -> Result<(), NoMemory>
    ensures { OnOk result (out.new.items ≡ out.old.items ++ notice_place device position) }
{
    put(out, "notice ")?;
    write_decimal(device, out)?;
    put(out, " ")?;
    write_decimal(u64::from(position), out)?;
    Ok(())
}

// What happened there.
#[tactic(auto, unfolding(crate::specs::Notices::notice_words))]
fn write_words(out: &mut Vec<u8>, notice: &Notice) -> Result<(), NoMemory>
    ensures { OnOk result (out.new.items ≡ out.old.items ++ notice_words notice.now) }
{
    put(out, " ")?;
    put(out, event_word(notice.event))?;
    write_session(out, notice.session)?;
    write_timeout(out, notice.timeout)
}

// A notice of a device as a line.
#[tactic(auto, unfolding(crate::specs::Notices::notice_line))]
fn write_notice(out: &mut Vec<u8>, device: u64, notice: &Notice) -> Result<(), NoMemory>
    ensures { OnOk result (out.new.items ≡ out.old.items ++ notice_line device notice.now) }
{
    write_place(out, device, notice.position)?;
    write_words(out, notice)?;
    put(out, "\n")
}

fn write_each_notice(out: &mut Vec<u8>, device: u64, notices: &[Notice]) -> Result<(), NoMemory>
    ensures { OnOk result (out.new.items ≡ out.old.items ++ flat_map (notice_line device) notices.now) }
{
    for notice in notices {
        write_notice(out, device, notice)?;
    }
    Ok(())
}

// The notices of a device, read from its history.
#[tactic(auto, unfolding(crate::specs::Notices::device_notices))]
fn write_device_notices(
    alloc: Global,
    out: &mut Vec<u8>,
    device: u64,
    history: &[Noted],
) -> Result<(), NoMemory>
    ensures { OnOk result (out.new.items ≡ out.old.items ++ device_notices device history.now) }
{
    let notices = notices_of(alloc, history)?;
    write_each_notice(out, device, notices.as_slice())
}

// The notices of all devices; the first is device 1.
fn write_notice_lines<C: Content>(
    alloc: Global,
    out: &mut Vec<u8>,
    devices: &[Recorded<C>],
) -> Result<(), NoMemory>
    ensures { OnOk result (out.new.items ≡ out.old.items ++ notice_lines 1 devices.now) }
{
    for (place, device) in devices.iter().enumerate() {
        write_device_notices(alloc, out, place as u64 + 1, device.history())?;
    }
    Ok(())
}

/// The notices of all devices, where they are asked for.
pub fn write_notices<C: Content>(
    alloc: Global,
    out: &mut Vec<u8>,
    notices: bool,
    devices: &[Recorded<C>],
) -> Result<(), NoMemory>
    ensures { OnOk result (out.new.items ≡ out.old.items ++ notices_text notices devices.now) }
{
    if notices {
        write_notice_lines(alloc, out, devices)
    } else {
        Ok(())
    }
}
