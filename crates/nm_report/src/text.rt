//! What reports are made of: their first line, and the lines of running configurations.

ghost use Rattle.std.specs.Prelude.{◌≡◌, ◌++◌, OnOk};
ghost use Rattle.nm_world.specs.World.{AreSound};
ghost use Rattle.nm_report.specs.Text.{running_line, running_lines, running_of};

use nm_base::{NoMemory, write_decimal};
use nm_history::Recorded;
use nm_proto::Show;

/// The first line of a text.
pub const HEADING: &str = "netm 1\n";

/// Appends a text.
pub fn put(out: &mut Vec<u8>, text: &str) -> Result<(), NoMemory>
    ensures { OnOk result (out.new.items ≡ out.old.items ++ text.now) }
{
    out.extend_from_slice(text.as_bytes())?;
    Ok(())
}

fn write_running<C: Show>(
    out: &mut Vec<u8>,
    content: &C,
    device: u64,
    config: &C::Config,
) -> Result<(), NoMemory>
    requires { (C.Content.meaning content.now).belongs config.now }
    ensures { OnOk result (out.new.items ≡ out.old.items ++ running_line device (C.shown content.now config.now)) }
{
    put(out, "running ")?;
    write_decimal(device, out)?;
    put(out, " ")?;
    let shown = content.text(config)?;
    out.extend_from_slice(shown.as_slice())?;
    put(out, "\n")
}

/// The lines of the devices' running configurations; the first is that of device 1.
pub fn write_devices_running<C: Show>(
    out: &mut Vec<u8>,
    content: &C,
    devices: &[Recorded<C>],
) -> Result<(), NoMemory>
    requires { AreSound (C.Content.meaning content.now) devices.now }
    ensures { OnOk result (out.new.items ≡ out.old.items ++ running_lines (C.shown content.now) 1 (running_of devices.now)) }
{
    for (place, device) in devices.iter().enumerate() {
        write_running(out, content, place as u64 + 1, device.device().running())?;
    }
    Ok(())
}
