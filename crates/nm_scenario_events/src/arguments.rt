//! Readers of the arguments of events and requests.

ghost use Rattle.nm_scenario_events.specs.Arguments.{change, device, mark, operation, operator, short, store, turns};

use crate::limits::{CHANGE_LIMIT, DEVICE_LIMIT, OPERATOR_LIMIT, TURN_LIMIT};
use nm_base::{ChangeNo, DeviceNo};
use nm_proto::{DefaultOperation, Store};
use nm_scenario_form::places::fault_here;
use nm_scenario_form::{ReadError, Reader, ScenarioKind, read_number};
use serde_json::Value;
use std::alloc::Global;

/// How many change sets, devices and operators a scenario has.
#[derive(Drop)]
pub struct Counts {
    pub changes: usize,
    pub devices: usize,
    pub operators: usize,
}

/// A change set of the scenario.
#[derive(Drop)]
pub struct Change<'a> {
    pub counts: &'a Counts,
}

impl<'a> Reader for Change<'a> {
    type Out = ChangeNo;

    ghost form = { λ r. change r.counts.now };

    fn read(&self, alloc: Global, part: &Value) -> Result<ChangeNo, ReadError> {
        let last = self.counts.changes.min(CHANGE_LIMIT) as u64;
        let number = read_number(alloc, part, 1, last)?;
        Ok(ChangeNo::new(number as u32).unwrap())
    }
}

/// A device of the scenario.
#[derive(Drop)]
pub struct Device<'a> {
    pub counts: &'a Counts,
}

impl<'a> Reader for Device<'a> {
    type Out = DeviceNo;

    ghost form = { λ r. device r.counts.now };

    fn read(&self, alloc: Global, part: &Value) -> Result<DeviceNo, ReadError> {
        let last = self.counts.devices.min(DEVICE_LIMIT) as u64;
        let number = read_number(alloc, part, 1, last)?;
        Ok(DeviceNo::new(number as u8).unwrap())
    }
}

/// An operator of the scenario.
#[derive(Drop)]
pub struct Operator<'a> {
    pub counts: &'a Counts,
}

impl<'a> Reader for Operator<'a> {
    type Out = u32;

    ghost form = { λ r. operator r.counts.now };

    fn read(&self, alloc: Global, part: &Value) -> Result<u32, ReadError> {
        let last = self.counts.operators.min(OPERATOR_LIMIT) as u64;
        Ok(read_number(alloc, part, 1, last)? as u32)
    }
}

/// The number of a link, of a reply.
#[derive(Drop)]
pub struct Short;

impl Reader for Short {
    type Out = u32;

    ghost form = { λ _. short };

    fn read(&self, alloc: Global, part: &Value) -> Result<u32, ReadError> {
        Ok(read_number(alloc, part, 0, u64::from(u32::MAX))? as u32)
    }
}

/// How many turns a round has.
#[derive(Drop)]
pub struct Turns;

impl Reader for Turns {
    type Out = u32;

    ghost form = { λ _. turns };

    fn read(&self, alloc: Global, part: &Value) -> Result<u32, ReadError> {
        Ok(read_number(alloc, part, 1, TURN_LIMIT)? as u32)
    }
}

/// The number of any change set.
#[derive(Drop)]
pub struct AnyChange;

impl Reader for AnyChange {
    type Out = ChangeNo;

    ghost form = { λ _. mark };

    fn read(&self, alloc: Global, part: &Value) -> Result<ChangeNo, ReadError> {
        let number = read_number(alloc, part, 1, CHANGE_LIMIT as u64)?;
        Ok(ChangeNo::new(number as u32).unwrap())
    }
}

/// The default operation of an edit (RFC 6241 section 7.2).
#[derive(Drop)]
pub struct Operation;

impl Reader for Operation {
    type Out = DefaultOperation;

    ghost form = { λ _. operation };

    #[tactic(auto, unfolding(crate::specs::Arguments::operation_said))]
    fn read(&self, alloc: Global, part: &Value) -> Result<DefaultOperation, ReadError> {
        match part.as_str() {
            None => fault_here(alloc, ScenarioKind::BadValue),
            Some(word) => {
                if word == "merge" {
                    Ok(DefaultOperation::Merge)
                } else if word == "replace" {
                    Ok(DefaultOperation::Replace)
                } else if word == "none" {
                    Ok(DefaultOperation::Nothing)
                } else {
                    fault_here(alloc, ScenarioKind::BadValue)
                }
            }
        }
    }
}

/// The name of a datastore.
#[derive(Drop)]
pub struct StoreName;

impl Reader for StoreName {
    type Out = Store;

    ghost form = { λ _. store };

    #[tactic(auto, unfolding(crate::specs::Arguments::store_said))]
    fn read(&self, alloc: Global, part: &Value) -> Result<Store, ReadError> {
        match part.as_str() {
            None => fault_here(alloc, ScenarioKind::BadValue),
            Some(word) => {
                if word == "running" {
                    Ok(Store::Running)
                } else if word == "candidate" {
                    Ok(Store::Candidate)
                } else {
                    fault_here(alloc, ScenarioKind::BadValue)
                }
            }
        }
    }
}
