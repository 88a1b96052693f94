//! A statement as text.

ghost use Rattle.std.specs.Prelude.{◌≡◌, ◌++◌, IfOk, OnOk, length, ◌≤◌};
ghost use Rattle.std.specs.List.{flat_map};
ghost use Rattle.nm_yang.specs.Tree.{trees_of};
ghost use Rattle.nm_yang.specs.Written as spec;

use crate::statement::Statement;
use nm_base::{Label, NoMemory};
use std::alloc::Global;

fn put_byte(out: &mut Vec<u8>, byte: u8) -> Result<(), NoMemory>
    ensures { OnOk result (out.new.items ≡ out.old.items ++ spec.escape_of byte) }
{
    match byte {
        b'\n' => out.extend_from_slice(b"\\n")?,
        b'\t' => out.extend_from_slice(b"\\t")?,
        b'"' | b'\\' => {
            out.push(b'\\')?;
            out.push(byte)?;
        }
        _ => out.push(byte)?,
    }
    Ok(())
}

fn put_bytes(out: &mut Vec<u8>, bytes: &[u8]) -> Result<(), NoMemory>
    ensures { OnOk result (out.new.items ≡ out.old.items ++ flat_map spec.escape_of bytes.now) }
{
    for byte in bytes {
        put_byte(out, *byte)?;
    }
    Ok(())
}

fn put_argument(out: &mut Vec<u8>, argument: &Option<Label>) -> Result<(), NoMemory>
    ensures { OnOk result (out.new.items ≡ out.old.items ++ spec.written_argument argument.now) }
{
    match argument {
        None => Ok(()),
        Some(argument) => {
            out.extend_from_slice(b" \"")?;
            put_bytes(out, argument.as_str().as_bytes())?;
            out.push(b'"')?;
            Ok(())
        }
    }
}

/// Appends statements, and a space after each.
#[cycle(write)]
fn put_each(out: &mut Vec<u8>, statements: &[Statement]) -> Result<(), NoMemory>
    ensures { OnOk result (out.new.items ≡ out.old.items ++ flat_map spec.spaced statements.now) }
{
    for statement in statements {
        put_statement(out, statement)?;
        out.push(b' ')?;
    }
    Ok(())
}

#[cycle(write)]
fn put_statement(out: &mut Vec<u8>, statement: &Statement) -> Result<(), NoMemory>
    ensures { OnOk result (out.new.items ≡ out.old.items ++ spec.written statement.now) }
{
    out.extend_from_slice(statement.keyword.as_str().as_bytes())?;
    put_argument(out, &statement.argument)?;
    if statement.below.is_empty() {
        out.push(b';')?;
        return Ok(());
    }
    out.extend_from_slice(b" { ")?;
    put_each(out, &statement.below)?;
    out.push(b'}')?;
    Ok(())
}

/// Writes a statement as the text of a module, each argument in double quotes on one line.
///
/// What is written of a module whose keywords and arguments a module can have is read again as the same keywords
/// and arguments, where it isn't longer than a text may be.
pub fn write_module(alloc: Global, statement: &Statement) -> Result<Vec<u8>, NoMemory>
    ensures written { IfOk result (λ text. text.items ≡ spec.written statement.now) }
    ensures read_again { IfOk result (λ text. spec.IsModule statement.now → length text.items ≤ 262144
        → spec.ReadsAs text.items statement.now) }
{
    let mut out = Vec::new(alloc);
    put_statement(&mut out, statement)?;
    Ok(out)
}
