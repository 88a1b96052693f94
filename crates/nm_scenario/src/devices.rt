//! The member `devices`: each with its running configuration, as the contents are written.

ghost use Rattle.std.specs.Prelude.{◌||◌, false, codes};
ghost use Rattle.std.specs.Str.{bytes_eq};
ghost use Rattle.nm_scenario.specs.Devices.{device_form, devices_form};

use crate::contents::{Running, Written};
use nm_proto::Listed;
use nm_scenario_events::limits::DEVICE_LIMIT;
use nm_scenario_form::places::KnownNames;
use nm_scenario_form::{
    ItemReader, ReadError, Reader, no_other_names, read_list, read_object, required,
};
use serde_json::Value;
use std::alloc::Global;

#[derive(Drop)]
struct DeviceNames;

impl KnownNames for DeviceNames {
    ghost knows = { λ _ name. bytes_eq name (codes "running") || false };

    fn knows(&self, name: &str) -> bool {
        name == "running"
    }
}

/// The member `devices`.
#[derive(Drop)]
pub struct Devices<'a, W> {
    pub contents: &'a W,
}

impl<'a, W: Written> ItemReader for Devices<'a, W> {
    type Out = W::Config;

    ghost form = { λ r _ _. device_form (W.config_said r.contents.now) };

    fn read(
        &self,
        alloc: Global,
        _whole: &Value,
        _place: usize,
        part: &Value,
    ) -> Result<W::Config, ReadError> {
        let reader = Running {
            contents: self.contents,
        };
        read_object(alloc, part)?;
        let running = required(alloc, part, "running", &reader)?;
        no_other_names(alloc, part, &DeviceNames)?;
        Ok(running)
    }
}

impl<'a, W: Written> Reader for Devices<'a, W> {
    type Out = Listed<W::Config>;

    ghost form = { λ r. devices_form (W.config_said r.contents.now) };

    #[tactic(auto, unfolding(crate::specs::Devices::devices_form))]
    fn read(&self, alloc: Global, part: &Value) -> Result<Listed<W::Config>, ReadError> {
        read_list(alloc, part, 1, DEVICE_LIMIT, self)
    }
}
