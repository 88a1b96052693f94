//! The explanation of the bytes of a scenario.

ghost use Rattle.std.specs.Prelude.{◌≡◌, ◌++◌, IfOk, IsTrue, OnOk, option_map};
ghost use Rattle.serde_json.specs.View.{view};
ghost use Rattle.nm_scenario.specs.Scenario.{json_of};
ghost use Rattle.nm_explain.specs.Explained as spec;
ghost use Rattle.nm_explain.specs.Status.{is_whole};

use crate::module::put_module;
use crate::place::part_at;
use crate::sentence::{asks_form, of_data};
use crate::status::Status;
use crate::text::put;
use crate::tree::put_wanted_in;
use crate::wanted::{at_place, of_kind};
use nm_base::NoMemory;
use nm_lines::put_printed;
use nm_proto::Listed;
use nm_scenario::{ReadError, read_scenario};
use nm_scenario_form::{Cause, Fault, Inner, InnerPlace, ScenarioKind, write_line};
use serde_json::Value;
use std::alloc::Global;

/// A status and a text.
#[derive(Drop)]
pub struct Explained {
    pub status: Status,
    pub text: Vec<u8>,
}

/// What is wrong with the scenario of bytes, or that nothing is.
pub fn explain_bytes(alloc: Global, bytes: &[u8]) -> Result<Explained, NoMemory>
    ensures told { IfOk result (λ told. spec.Explains bytes.now told.status told.text.items) }
    ensures whole { IfOk result (λ told. IsTrue (is_whole told.status)) }
{
    match read_scenario(alloc, bytes) {
        Ok(_) => say_fine(alloc),
        Err(ReadError::Bad(fault)) => say_fault(alloc, bytes, &fault),
        Err(ReadError::NoMemory) => Err(NoMemory),
    }
}

fn say_fine(alloc: Global) -> Result<Explained, NoMemory>
    ensures told { IfOk result (λ told. spec.Tells spec.fine_told told.status told.text.items) }
    ensures whole { IfOk result (λ told. IsTrue (is_whole told.status)) }
{
    let mut text = Vec::new(alloc);
    put(&mut text, "nothing is wrong with the scenario\n")?;
    Ok(Explained {
        status: Status::Fine,
        text,
    })
}

fn say_fault(alloc: Global, bytes: &[u8], fault: &Fault) -> Result<Explained, NoMemory>
    ensures told { IfOk result (λ told. spec.Tells (spec.faulted bytes.now fault.now) told.status told.text.items) }
    ensures whole { IfOk result (λ told. IsTrue (is_whole told.status)) }
{
    let mut text = Vec::new(alloc);
    put_fault(alloc, &mut text, bytes, fault)?;
    Ok(Explained {
        status: Status::Scenario,
        text,
    })
}

/// What is wrong with an input that is longer than a scenario may be.
pub fn explain_long_input(alloc: Global) -> Result<Explained, NoMemory>
    ensures told { IfOk result (λ told. spec.Tells spec.too_long_told told.status told.text.items) }
    ensures whole { IfOk result (λ told. IsTrue (is_whole told.status)) }
{
    let mut text = Vec::new(alloc);
    let fault = Fault {
        cause: Cause {
            kind: ScenarioKind::TooLong,
            inner: None,
        },
        place: Listed::new(alloc),
    };
    write_line(alloc, &mut text, &fault)?;
    put_wanted(&mut text, &fault)?;
    Ok(Explained {
        status: Status::Scenario,
        text,
    })
}

// A fault: its line, and then what is known of it.
fn put_fault(alloc: Global, out: &mut Vec<u8>, bytes: &[u8], fault: &Fault) -> Result<(), NoMemory>
    ensures { OnOk result (out.new.items ≡ out.old.items ++ spec.fault_told bytes.now fault.now) }
{
    write_line(alloc, out, fault)?;
    match &fault.cause.inner {
        Some(inner) => put_inner(alloc, out, bytes, fault, inner),
        None => put_wanted(out, fault),
    }
}

// What may stand where the scenario itself is wrong.
fn put_wanted(out: &mut Vec<u8>, fault: &Fault) -> Result<(), NoMemory>
    ensures { OnOk result (out.new.items ≡ out.old.items ++ spec.wanted_told fault.now) }
{
    put(out, of_kind(fault.cause.kind))?;
    put(out, "\n")?;
    put(out, at_place(fault.place.as_slice()))?;
    put(out, "\n")
}

// What a lower reader told.
fn put_inner(
    alloc: Global,
    out: &mut Vec<u8>,
    bytes: &[u8],
    fault: &Fault,
    inner: &Inner,
) -> Result<(), NoMemory>
    ensures { OnOk result (out.new.items ≡ out.old.items ++ spec.inner_told bytes.now fault.now.place inner.now inner.now.place) }
{
    match &inner.place {
        InnerPlace::Byte(byte) => put_byte(alloc, out, bytes, fault, *byte, inner),
        InnerPlace::Path(path) => put_path(alloc, out, bytes, path.as_str(), inner.what.as_str()),
    }
}

// What is wrong at a path.
fn put_at(out: &mut Vec<u8>, path: &str, word: &str) -> Result<(), NoMemory>
    ensures { OnOk result (out.new.items ≡ out.old.items ++ spec.at_told path.now word.now) }
{
    put(out, "at ")?;
    put_printed(out, path.as_bytes())?;
    put(out, ": ")?;
    put(out, of_data(word))?;
    put(out, "\n")
}

// What is wrong at a path, and which values are wanted there.
fn put_path(
    alloc: Global,
    out: &mut Vec<u8>,
    bytes: &[u8],
    path: &str,
    word: &str,
) -> Result<(), NoMemory>
    ensures { OnOk result (out.new.items ≡ out.old.items ++ spec.path_told bytes.now path.now word.now) }
{
    put_at(out, path, word)?;
    match asks_form(word) {
        Some(with_form) => put_type(alloc, out, bytes, with_form, path),
        None => Ok(()),
    }
}

// Which values the modules want at a path.
fn put_type(
    alloc: Global,
    out: &mut Vec<u8>,
    bytes: &[u8],
    with_form: bool,
    path: &str,
) -> Result<(), NoMemory>
    ensures { OnOk result (out.new.items ≡ out.old.items ++ spec.type_in with_form path.now (json_of bytes.now)) }
{
    let whole = match parsed(alloc, bytes)? {
        Some(whole) => whole,
        None => return Ok(()),
    };
    put_wanted_in(alloc, out, with_form, &whole, path)
}

// What is wrong at a byte of the text at the place.
fn put_byte(
    alloc: Global,
    out: &mut Vec<u8>,
    bytes: &[u8],
    fault: &Fault,
    byte: u32,
    inner: &Inner,
) -> Result<(), NoMemory>
    ensures { OnOk result (out.new.items ≡ out.old.items ++ spec.byte_told (spec.text_at bytes.now fault.now.place) byte inner.now) }
{
    let whole = match parsed(alloc, bytes)? {
        Some(whole) => whole,
        None => return Ok(()),
    };
    match part_at(fault.place.as_slice(), &whole).and_then(Value::as_str) {
        Some(text) => put_module(alloc, out, text, byte, inner),
        None => Ok(()),
    }
}

// The JSON value of bytes.
fn parsed(alloc: Global, bytes: &[u8]) -> Result<Option<Value>, NoMemory>
    ensures { IfOk result (λ whole. option_map view whole ≡ json_of bytes.now) }
{
    match Value::from_slice(alloc, bytes) {
        Ok(whole) => Ok(Some(whole)),
        Err(error) if error.is_memory() => Err(NoMemory),
        Err(_) => Ok(None),
    }
}
