//! The member `changes`: change sets with their edits, each device above the one before.

ghost use Rattle.std.specs.Prelude.{◌≡◌, ◌-◌, ◌^◌, ◌||◌, Some, false, codes, min};
ghost use Rattle.std.specs.Str.{bytes_eq};
ghost use Rattle.serde_json.specs.View.{view};
ghost use Rattle.nm_scenario_form.specs.Form.{leaf};
ghost use Rattle.nm_scenario_form.specs.Leafs.{above, number};
ghost use Rattle.nm_scenario_events.specs.Limits.{device_limit};
ghost use Rattle.nm_scenario.specs.Changes.{above_at, change_form, changes_form, device_in, edit_form, edits_form};

use crate::contents::{Edits, Written};
use crate::scenario::{ReadChange, ReadEdit};
use nm_base::{DEFAULT_TIMEOUT, DeviceNo};
use nm_proto::{DefaultOperation, Listed};
use nm_scenario_events::Operation;
use nm_scenario_events::limits::{CHANGE_LIMIT, DEVICE_LIMIT};
use nm_scenario_form::places::KnownNames;
use nm_scenario_form::{
    ItemReader, ReadError, Reader, no_other_names, optional, read_above, read_list, read_number,
    read_object, required,
};
use serde_json::Value;
use std::alloc::Global;

/// A device of the scenario above another number.
#[derive(Drop)]
struct DeviceAbove {
    below: u64,
    devices: usize,
}

impl Reader for DeviceAbove {
    type Out = DeviceNo;

    ghost form = { λ r. above r.below (min r.devices device_limit) };

    fn read(&self, alloc: Global, part: &Value) -> Result<DeviceNo, ReadError> {
        let last = self.devices.min(DEVICE_LIMIT) as u64;
        let number = read_above(alloc, part, self.below, last)?;
        Ok(DeviceNo::new(number as u8).unwrap())
    }
}

// The device of an item, 0 where it has none.
fn device_in(part: &Value) -> u64
    ensures { result ≡ device_in (Some (view part.now)) }
{
    match part.get("device") {
        None => 0,
        Some(device) => device.as_u64().unwrap_or(0),
    }
}

// The device of the item before this one, 0 where there is none.
fn above_at(whole: &Value, place: usize) -> u64
    ensures { result ≡ above_at (view whole.now) place }
{
    if place == 0 {
        return 0;
    }
    match whole.get(place - 1) {
        None => 0,
        Some(part) => device_in(part),
    }
}

#[derive(Drop)]
struct EditNames;

impl KnownNames for EditNames {
    ghost knows = { λ _ name. bytes_eq name (codes "device") || (bytes_eq name (codes "default") || (bytes_eq name (codes "edit") || false)) };

    fn knows(&self, name: &str) -> bool {
        name == "device" || name == "default" || name == "edit"
    }
}

/// The member `edits` of a change set, in a scenario of so many devices.
#[derive(Drop)]
struct ChangeEdits<'a, W> {
    devices: usize,
    contents: &'a W,
}

impl<'a, W: Written> ItemReader for ChangeEdits<'a, W> {
    type Out = ReadEdit<W::Edit>;

    ghost form = { λ r whole n. edit_form (leaf (W.edit_said r.contents.now)) (above_at whole n) r.devices };

    fn read(
        &self,
        alloc: Global,
        whole: &Value,
        place: usize,
        part: &Value,
    ) -> Result<ReadEdit<W::Edit>, ReadError> {
        let device = DeviceAbove {
            below: above_at(whole, place),
            devices: self.devices,
        };
        let edits = Edits {
            contents: self.contents,
        };
        read_object(alloc, part)?;
        let device = required(alloc, part, "device", &device)?;
        let default_operation = optional(
            alloc,
            part,
            "default",
            DefaultOperation::Merge,
            &Operation,
        )?;
        let edit = required(alloc, part, "edit", &edits)?;
        no_other_names(alloc, part, &EditNames)?;
        Ok(ReadEdit {
            device,
            default_operation,
            edit,
        })
    }
}

impl<'a, W: Written> Reader for ChangeEdits<'a, W> {
    type Out = Listed<ReadEdit<W::Edit>>;

    ghost form = { λ r. edits_form (leaf (W.edit_said r.contents.now)) r.devices };

    #[tactic(auto, unfolding(crate::specs::Changes::edits_form))]
    fn read(&self, alloc: Global, part: &Value) -> Result<Listed<ReadEdit<W::Edit>>, ReadError> {
        read_list(alloc, part, 1, usize::MAX, self)
    }
}

/// The member `timeout`: a number of seconds of 32 bits, from 1.
#[derive(Drop)]
struct Timeout;

impl Reader for Timeout {
    type Out = u32;

    ghost form = { λ _. number 1 (2 ^ 32 - 1) };

    fn read(&self, alloc: Global, part: &Value) -> Result<u32, ReadError> {
        Ok(read_number(alloc, part, 1, u64::from(u32::MAX))? as u32)
    }
}

#[derive(Drop)]
struct ChangeNames;

impl KnownNames for ChangeNames {
    ghost knows = { λ _ name. bytes_eq name (codes "timeout") || (bytes_eq name (codes "edits") || false) };

    fn knows(&self, name: &str) -> bool {
        name == "timeout" || name == "edits"
    }
}

/// The member `changes`, in a scenario of so many devices.
#[derive(Drop)]
pub struct Changes<'a, W> {
    pub devices: usize,
    pub contents: &'a W,
}

impl<'a, W: Written> ItemReader for Changes<'a, W> {
    type Out = ReadChange<W::Edit>;

    ghost form = { λ r _ _. change_form (leaf (W.edit_said r.contents.now)) r.devices };

    fn read(
        &self,
        alloc: Global,
        _whole: &Value,
        _place: usize,
        part: &Value,
    ) -> Result<ReadChange<W::Edit>, ReadError> {
        let edits = ChangeEdits {
            devices: self.devices,
            contents: self.contents,
        };
        read_object(alloc, part)?;
        let timeout = optional(alloc, part, "timeout", DEFAULT_TIMEOUT, &Timeout)?;
        let edits = required(alloc, part, "edits", &edits)?;
        no_other_names(alloc, part, &ChangeNames)?;
        Ok(ReadChange { timeout, edits })
    }
}

impl<'a, W: Written> Reader for Changes<'a, W> {
    type Out = Listed<ReadChange<W::Edit>>;

    ghost form = { λ r. changes_form (leaf (W.edit_said r.contents.now)) r.devices };

    #[tactic(auto, unfolding(crate::specs::Changes::changes_form))]
    fn read(&self, alloc: Global, part: &Value) -> Result<Listed<ReadChange<W::Edit>>, ReadError> {
        read_list(alloc, part, 0, CHANGE_LIMIT, self)
    }
}
