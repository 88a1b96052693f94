//! Texts that are appended.

ghost use Rattle.std.specs.Prelude.{◌≡◌, ◌++◌, OnOk};

use nm_base::NoMemory;

/// Appends a text.
pub(crate) fn put(out: &mut Vec<u8>, text: &str) -> Result<(), NoMemory>
    ensures { OnOk result (out.new.items ≡ out.old.items ++ text.now) }
{
    out.extend_from_slice(text.as_bytes())?;
    Ok(())
}
