//! The text of a scenario that is only checked: what it holds, counted.

ghost use Rattle.std.specs.Prelude.{◌≡◌, ◌++◌, IfOk, OnOk};
ghost use Rattle.nm_report.specs.Check.{check_text, counts_line, device_line, device_lines, module_lines};

use crate::text::put;
use nm_base::{Label, NoMemory, write_decimal};
use std::alloc::Global;

/// The text of a scenario that was checked.
///
/// `modules` are the names of its modules, and `rows` how many rows the running configuration of each device has; the
/// first is that of device 1.
pub fn write_check(
    alloc: Global,
    modules: &[Label],
    rows: &[u32],
    changes: usize,
    operators: usize,
    events: usize,
) -> Result<Vec<u8>, NoMemory>
    ensures { IfOk result (λ text. text.items ≡ check_text modules.now rows.now changes operators events) }
{
    let mut text = Vec::new(alloc);
    put(&mut text, "netm check 1\n")?;
    write_modules(&mut text, modules)?;
    write_rows(&mut text, rows)?;
    write_counts(&mut text, changes, operators, events)?;
    Ok(text)
}

// The lines of the modules.
fn write_modules(out: &mut Vec<u8>, names: &[Label]) -> Result<(), NoMemory>
    ensures { OnOk result (out.new.items ≡ out.old.items ++ module_lines names.now) }
{
    for name in names {
        put(out, "module ")?;
        put(out, name.as_str())?;
        put(out, "\n")?;
    }
    Ok(())
}

// The lines of the devices; the first is that of device 1.
fn write_rows(out: &mut Vec<u8>, rows: &[u32]) -> Result<(), NoMemory>
    ensures { OnOk result (out.new.items ≡ out.old.items ++ device_lines 1 rows.now) }
{
    for (place, count) in rows.iter().enumerate() {
        write_device(out, place as u64 + 1, *count)?;
    }
    Ok(())
}

fn write_device(out: &mut Vec<u8>, device: u64, rows: u32) -> Result<(), NoMemory>
    ensures { OnOk result (out.new.items ≡ out.old.items ++ device_line device rows) }
{
    put(out, "device ")?;
    write_decimal(device, out)?;
    put(out, " rows ")?;
    write_decimal(u64::from(rows), out)?;
    put(out, "\n")
}

// The last line.
fn write_counts(
    out: &mut Vec<u8>,
    changes: usize,
    operators: usize,
    events: usize,
) -> Result<(), NoMemory>
    ensures { OnOk result (out.new.items ≡ out.old.items ++ counts_line changes operators events) }
{
    put(out, "changes ")?;
    write_decimal(changes as u64, out)?;
    put(out, " operators ")?;
    write_decimal(operators as u64, out)?;
    put(out, " events ")?;
    write_decimal(events as u64, out)?;
    put(out, "\n")
}
