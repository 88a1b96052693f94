//! The text of a made scenario.

ghost use Rattle.std.specs.Prelude.{◌≡◌, ◌++◌, ◌≤◌, length, decimal, IfOk, OnOk};
ghost use Rattle.nm_make.specs.Made.{
  comma,
  numbered,
  address_text,
  interface_text,
  interface_if,
  interface_behind,
  interfaces_at,
  interfaces_behind,
  interfaces_of,
  interfaces,
  opening,
  running_text,
  device_text,
  edit_text,
  second_text,
  change_text,
  numbered_change,
  change_texts,
  submit_text,
  head_text,
  scenario_text,
  made_text,
};

use crate::draw::{MadeChange, MadeEdit, draw_changes};
use nm_base::{NoMemory, write_decimal};
use std::alloc::Global;

// The beginning, with the module, whose quotes are escaped.
const HEAD: &str =
    r#"{"netm":1,"contents":"yang","modules":["module ex { yang-version 1.1; namespace \"urn:ex\"; prefix ex; container sys { leaf uplink { type leafref { path \"../iface/name\"; } } list iface { key name; unique address; leaf name { type string { length \"1..32\"; } } leaf mtu { type uint16 { range \"68..9192\"; } default 1500; } leaf address { type string; } } } }"],"devices":["#;

fn put(out: &mut Vec<u8>, text: &str) -> Result<(), NoMemory>
    ensures { OnOk result (out.new.items ≡ out.old.items ++ text.now) }
{
    out.extend_from_slice(text.as_bytes())?;
    Ok(())
}

fn put_number(out: &mut Vec<u8>, number: u32) -> Result<(), NoMemory>
    ensures { OnOk result (out.new.items ≡ out.old.items ++ decimal number) }
{
    write_decimal(u64::from(number), out)?;
    Ok(())
}

// What comes before an item of a list, by its number.
#[tactic(auto, unfolding(crate::specs::Made::comma))]
fn comma_before(number: u32) -> &'static str
    ensures { result.now ≡ comma number }
{
    if number == 1 { "" } else { "," }
}

fn write_address(out: &mut Vec<u8>, device: u32, number: u32) -> Result<(), NoMemory>
    ensures { OnOk result (out.new.items ≡ out.old.items ++ address_text device number) }
{
    put(out, "\"address\":\"10.")?;
    put_number(out, device)?;
    put(out, ".")?;
    put_number(out, number)?;
    put(out, "\"")
}

#[tactic(auto, unfolding(crate::specs::Made::interface_text))]
fn write_interface(out: &mut Vec<u8>, device: u32, number: u32) -> Result<(), NoMemory>
    ensures { OnOk result (out.new.items ≡ out.old.items ++ interface_text device number) }
{
    put(out, comma_before(number))?;
    put(out, "{")?;
    write_address(out, device, number)?;
    put(out, ",\"mtu\":1500,\"name\":\"eth")?;
    put_number(out, number)?;
    put(out, "\"}")
}

// The interface of a number, where there is one.
#[tactic(auto, unfolding(crate::specs::Made::interface_if))]
fn write_if(out: &mut Vec<u8>, device: u32, number: u32) -> Result<(), NoMemory>
    ensures { OnOk result (out.new.items ≡ out.old.items ++ interface_if device number) }
{
    if number > 400 {
        return Ok(());
    }
    write_interface(out, device, number)
}

// The interfaces whose number is another one with a digit behind it.
fn write_behind(out: &mut Vec<u8>, device: u32, number: u32) -> Result<(), NoMemory>
    requires small { number ≤ 999 }
    ensures { OnOk result (out.new.items ≡ out.old.items ++ numbered (interface_behind device number) 0 10) }
{
    for digit in 0..10u32 {
        write_if(out, device, 10 * number + digit)?;
    }
    Ok(())
}

// The interface of a number, before those whose number has one digit more.
#[tactic(auto, unfolding(crate::specs::Made::interfaces_at))]
fn write_at(out: &mut Vec<u8>, device: u32, number: u32) -> Result<(), NoMemory>
    requires small { number ≤ 999 }
    ensures { OnOk result (out.new.items ≡ out.old.items ++ interfaces_at device number) }
{
    write_if(out, device, number)?;
    write_behind(out, device, number)
}

fn write_all_behind(out: &mut Vec<u8>, device: u32, number: u32) -> Result<(), NoMemory>
    requires small { number ≤ 9 }
    ensures { OnOk result (out.new.items ≡ out.old.items ++ numbered (interfaces_behind device number) 0 10) }
{
    for digit in 0..10u32 {
        write_at(out, device, 10 * number + digit)?;
    }
    Ok(())
}

// The interface of a number of one digit, before all whose number begins with it.
#[tactic(auto, unfolding(crate::specs::Made::interfaces_of))]
fn write_interfaces_of(out: &mut Vec<u8>, device: u32, number: u32) -> Result<(), NoMemory>
    requires small { number ≤ 9 }
    ensures { OnOk result (out.new.items ≡ out.old.items ++ interfaces_of device number) }
{
    write_if(out, device, number)?;
    write_all_behind(out, device, number)
}

// All interfaces of a device, in the order of their names as text.
#[tactic(auto, unfolding(crate::specs::Made::interfaces))]
fn write_interfaces(out: &mut Vec<u8>, device: u32) -> Result<(), NoMemory>
    ensures { OnOk result (out.new.items ≡ out.old.items ++ interfaces device) }
{
    for number in 1..10u32 {
        write_interfaces_of(out, device, number)?;
    }
    Ok(())
}

#[tactic(auto, unfolding(crate::specs::Made::opening))]
fn write_opening(out: &mut Vec<u8>) -> Result<(), NoMemory>
    ensures { OnOk result (out.new.items ≡ out.old.items ++ opening) }
{
    put(out, "{\"running\":{\"ex:sys\":{\"iface\":[")
}

#[tactic(auto, unfolding(crate::specs::Made::running_text))]
fn write_running(out: &mut Vec<u8>, device: u32) -> Result<(), NoMemory>
    ensures { OnOk result (out.new.items ≡ out.old.items ++ running_text device) }
{
    write_opening(out)?;
    write_interfaces(out, device)?;
    put(out, "]}}}")
}

#[tactic(auto, unfolding(crate::specs::Made::device_text))]
fn write_device(out: &mut Vec<u8>, device: u32) -> Result<(), NoMemory>
    ensures { OnOk result (out.new.items ≡ out.old.items ++ device_text device) }
{
    put(out, comma_before(device))?;
    write_running(out, device)
}

fn write_devices(out: &mut Vec<u8>) -> Result<(), NoMemory>
    ensures { OnOk result (out.new.items ≡ out.old.items ++ numbered device_text 1 32) }
{
    for device in 1..33u32 {
        write_device(out, device)?;
    }
    Ok(())
}

fn write_edit(out: &mut Vec<u8>, edit: &MadeEdit) -> Result<(), NoMemory>
    ensures { OnOk result (out.new.items ≡ out.old.items ++ edit_text edit.now) }
{
    put(out, "{\"device\":")?;
    put_number(out, edit.device)?;
    put(out, ",\"edit\":{\"ex:sys\":{\"iface\":[{\"mtu\":")?;
    put_number(out, edit.mtu)?;
    put(out, ",\"name\":\"eth")?;
    put_number(out, edit.interface)?;
    put(out, "\"}]}}}")
}

fn write_second(out: &mut Vec<u8>, edit: &Option<MadeEdit>) -> Result<(), NoMemory>
    ensures { OnOk result (out.new.items ≡ out.old.items ++ second_text edit.now) }
{
    match edit {
        Some(edit) => {
            put(out, ",")?;
            write_edit(out, edit)
        }
        None => Ok(()),
    }
}

fn write_change(out: &mut Vec<u8>, change: &MadeChange) -> Result<(), NoMemory>
    ensures { OnOk result (out.new.items ≡ out.old.items ++ change_text change.now) }
{
    put(out, "{\"edits\":[")?;
    write_edit(out, &change.first)?;
    write_second(out, &change.second)?;
    put(out, "]}")
}

fn write_numbered(out: &mut Vec<u8>, number: u32, change: &MadeChange) -> Result<(), NoMemory>
    ensures { OnOk result (out.new.items ≡ out.old.items ++ numbered_change number change.now) }
{
    put(out, comma_before(number))?;
    write_change(out, change)
}

fn write_changes(out: &mut Vec<u8>, changes: &[MadeChange]) -> Result<(), NoMemory>
    requires few { length changes.now ≤ 64 }
    ensures { OnOk result (out.new.items ≡ out.old.items ++ change_texts 1 changes.now) }
{
    for (place, change) in changes.iter().enumerate() {
        write_numbered(out, place as u32 + 1, change)?;
    }
    Ok(())
}

#[tactic(auto, unfolding(crate::specs::Made::submit_text))]
fn write_submit(out: &mut Vec<u8>, change: u32) -> Result<(), NoMemory>
    ensures { OnOk result (out.new.items ≡ out.old.items ++ submit_text change) }
{
    put(out, comma_before(change))?;
    put(out, "[\"submit\",")?;
    put_number(out, change)?;
    put(out, "]")
}

fn write_submits(out: &mut Vec<u8>) -> Result<(), NoMemory>
    ensures { OnOk result (out.new.items ≡ out.old.items ++ numbered submit_text 1 64) }
{
    for change in 1..65u32 {
        write_submit(out, change)?;
    }
    Ok(())
}

#[tactic(auto, unfolding(crate::specs::Made::head_text))]
fn write_head(out: &mut Vec<u8>) -> Result<(), NoMemory>
    ensures { OnOk result (out.new.items ≡ out.old.items ++ head_text) }
{
    put(out, HEAD)
}

#[tactic(auto, unfolding(crate::specs::Made::scenario_text))]
fn write_scenario(out: &mut Vec<u8>, changes: &[MadeChange]) -> Result<(), NoMemory>
    requires few { length changes.now ≤ 64 }
    ensures { OnOk result (out.new.items ≡ out.old.items ++ scenario_text changes.now) }
{
    write_head(out)?;
    write_devices(out)?;
    put(out, "],\"changes\":[")?;
    write_changes(out, changes)?;
    put(out, "],\"events\":[")?;
    write_submits(out)?;
    put(out, "],\"drain\":true}\n")
}

/// The scenario that is made of a number, about 600 KB: one line of JSON, with which all commands that read a scenario work.
pub fn made(alloc: Global, number: u64) -> Result<Vec<u8>, NoMemory>
    ensures { IfOk result (λ text. text.items ≡ made_text number) }
{
    let changes = draw_changes(alloc, number)?;
    let mut text = Vec::new(alloc);
    write_scenario(&mut text, changes.as_slice())?;
    Ok(text)
}
