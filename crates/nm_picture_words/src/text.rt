//! What words are made of: texts and numbers, one behind another.

ghost use Rattle.std.specs.Prelude.{◌≡◌, ◌++◌, OnOk, decimal};

use nm_base::{NoMemory, write_decimal};

/// Appends a text.
pub fn put(out: &mut Vec<u8>, text: &str) -> Result<(), NoMemory>
    ensures { OnOk result (out.new.items ≡ out.old.items ++ text.now) }
{
    out.extend_from_slice(text.as_bytes())?;
    Ok(())
}

/// Appends a number, with a text before it.
pub fn put_number(out: &mut Vec<u8>, before: &str, number: u32) -> Result<(), NoMemory>
    ensures { OnOk result (out.new.items ≡ out.old.items ++ before.now ++ decimal number) }
{
    put(out, before)?;
    write_decimal(u64::from(number), out)?;
    Ok(())
}
