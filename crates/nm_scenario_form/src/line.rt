//! The line that is printed of a fault: apart, since two programs write it.

ghost use Rattle.std.specs.Prelude.{◌≡◌, ◌++◌, OnOk};
ghost use Rattle.nm_scenario_form.specs.Line.{line_of};

use crate::fault::Fault;
use crate::pointer::write_place;
use nm_base::NoMemory;
use std::alloc::Global;

/// Appends the line of a fault of the scenario: `scenario`, its kind and its place, parted by spaces.
pub fn write_line(alloc: Global, out: &mut Vec<u8>, fault: &Fault) -> Result<(), NoMemory>
    ensures { OnOk result (out.new.items ≡ out.old.items ++ line_of fault.now) }
{
    out.extend_from_slice(b"scenario ")?;
    out.extend_from_slice(fault.cause.kind.word().as_bytes())?;
    out.push(b' ')?;
    write_place(alloc, out, fault.place.as_slice())?;
    out.push(b'\n')?;
    Ok(())
}
