//! One change set's line of the board.

ghost use Rattle.std.specs.Prelude.{◌≡◌, ◌≤◌, ◌+◌, IfOk};
ghost use Rattle.nm_chronicle.specs.Line.{LineHolds, Keeps, Takes, phase_of, moved, taken, fresh_line, may_decide};

use crate::count::{count_to, size};
use crate::mark::Mark;
use nm_base::{DeviceMask, DeviceNo, NoMemory};
use nm_proto::Verdict;
use std::alloc::Global;
use std::marker::Model;

/// What the devices of a change set have done, and what was decided of it.
#[derive(Drop)]
pub struct BoardLine {
    devices: DeviceMask,
    asked: u32,
    acked: u32,
    verdict: Option<Verdict>,
    // Of each device of the run.
    phases: Vec<u8>,
    acknowledged: DeviceMask,
}

impl Model for BoardLine {
    ghost use Rattle.nm_chronicle.specs.Line.{LineState};

    ghost Value = { LineState };

    ghost view = { λ l. record {
      devices = l.devices.0;
      asked = l.asked;
      acked = l.acked;
      verdict = l.verdict;
      phases = l.phases.items;
      acknowledged = l.acknowledged.0;
    } };
}

impl BoardLine {
    ghost use Rattle.nm_base.specs.Mask.{mask_contains};

    /// The devices of the change set.
    pub fn devices(&self) -> DeviceMask
        ensures { result.0 ≡ self.now.devices }
    {
        self.devices
    }

    /// How many of them were asked for the confirmed commit, in ascending order.
    pub fn asked(&self) -> u32
        ensures { result ≡ self.now.asked }
    {
        self.asked
    }

    /// How many of them acknowledged it.
    pub fn acked(&self) -> u32
        ensures { result ≡ self.now.acked }
    {
        self.acked
    }

    /// The verdict, where it stands.
    pub fn verdict(&self) -> Option<Verdict>
        ensures { result ≡ self.now.verdict }
    {
        self.verdict
    }

    /// The phase of a device: 0 none, 1 applied, 2 confirmed, 3 undone by a timer, the end of a session or a restart,
    /// 4 cancelled. It is 0 where the device isn't one of the run.
    pub fn phase(&self, device: DeviceNo) -> u8
        ensures { result ≡ phase_of self.now device }
    {
        match self.phases.get(place_of(device)) {
            Some(phase) => *phase,
            None => 0,
        }
    }

    /// Whether the device acknowledged it.
    pub fn is_acknowledged(&self, device: DeviceNo) -> bool
        ensures { result ≡ mask_contains self.now.acknowledged device }
    {
        self.acknowledged.contains(device)
    }

    /// The line of a change set of which nothing has happened yet, in a run of so many devices.
    pub(crate) fn new(alloc: Global, devices: DeviceMask, count: u8) -> Result<BoardLine, NoMemory>
        ensures { IfOk result (λ line. line ≡ fresh_line count devices.0) }
    {
        Ok(BoardLine {
            devices,
            asked: 0,
            acked: 0,
            verdict: None,
            phases: vec![in alloc; 0u8; count as usize]?,
            acknowledged: DeviceMask(0),
        })
    }

    /// Marks the line where the mark's condition holds, and tells whether it does.
    #[tactic(auto, using(crate::proofs::Lines::keeps, crate::proofs::Lines::few_acked))]
    pub(crate) fn take(&mut self, mark: &Mark) -> bool
        requires holds { LineHolds self.old }
        ensures taken { Takes result self.old self.new (taken self.old mark.now) }
        ensures keeps { Keeps result self.old self.new mark.now }
    {
        match mark {
            Mark::Asked { device } => self.ask(*device),
            Mark::Applied { device } => self.apply(*device),
            Mark::Acked { device } => self.ack(*device),
            Mark::Decided { verdict } => self.decide(verdict),
            Mark::Confirmed { device } => self.confirm(*device),
            Mark::Undone { device } => self.undo(*device),
            Mark::Cancelled { device } => self.cancel(*device),
        }
    }
}

impl BoardLine {
    // A device goes from one phase to another.
    fn go(&mut self, device: DeviceNo, from: u8, to: u8) -> bool
        ensures { Takes result self.old self.new (moved self.old device from to) }
    {
        if self.phase(device) != from {
            return false;
        }
        match self.phases.get_mut(place_of(device)) {
            Some(phase) => {
                *phase = to;
                true
            }
            None => false,
        }
    }

    fn ask(&mut self, device: DeviceNo) -> bool
        ensures taken { Takes result self.old self.new (taken self.old (Mark.Asked device)) }
        ensures low { 1 ≤ device }
        ensures high { device ≤ 32 }
    {
        let number = device.get();
        if self.verdict.is_some() || !self.devices.contains(device) {
            return false;
        }
        let place = count_to(self.devices, number);
        if place <= self.asked || place - self.asked != 1 {
            return false;
        }
        self.asked = place;
        true
    }

    fn apply(&mut self, device: DeviceNo) -> bool
        ensures taken { Takes result self.old self.new (taken self.old (Mark.Applied device)) }
        ensures low { 1 ≤ device }
        ensures high { device ≤ 32 }
    {
        let number = device.get();
        if !self.devices.contains(device) {
            return false;
        }
        if count_to(self.devices, number) > self.asked {
            return false;
        }
        self.go(device, 0, 1)
    }

    #[tactic(auto, unfolding(crate::specs::Line::with_device))]
    fn ack(&mut self, device: DeviceNo) -> bool
        requires few { self.old.acked ≤ 32 }
        ensures taken { Takes result self.old self.new (taken self.old (Mark.Acked device)) }
        ensures low { 1 ≤ device }
        ensures high { device ≤ 32 }
    {
        let number = device.get();
        if self.verdict.is_some() || self.phase(device) < 1 {
            return false;
        }
        if self.acknowledged.contains(device) {
            return false;
        }
        self.acked += 1;
        self.acknowledged = DeviceMask(self.acknowledged.0 | 1u32 << u32::from(number - 1));
        true
    }

    fn decide(&mut self, verdict: &Verdict) -> bool
        ensures { Takes result self.old self.new (taken self.old (Mark.Decided verdict.now)) }
    {
        if self.verdict.is_some() {
            return false;
        }
        if !self.may_decide(verdict) {
            return false;
        }
        self.verdict = Some(*verdict);
        true
    }

    // Commit wants all devices to have acknowledged.
    fn may_decide(&self, verdict: &Verdict) -> bool
        ensures { result ≡ may_decide self.now verdict.now }
    {
        match verdict {
            Verdict::Commit => self.acked == size(self.devices),
            Verdict::Abort(_) => true,
        }
    }

    fn confirm(&mut self, device: DeviceNo) -> bool
        ensures taken { Takes result self.old self.new (taken self.old (Mark.Confirmed device)) }
        ensures low { 1 ≤ device }
        ensures high { device ≤ 32 }
    {
        let _number = device.get();
        match self.verdict {
            Some(Verdict::Commit) => self.go(device, 1, 2),
            _ => false,
        }
    }

    fn undo(&mut self, device: DeviceNo) -> bool
        ensures taken { Takes result self.old self.new (taken self.old (Mark.Undone device)) }
        ensures low { 1 ≤ device }
        ensures high { device ≤ 32 }
    {
        let _number = device.get();
        self.go(device, 1, 3)
    }

    fn cancel(&mut self, device: DeviceNo) -> bool
        ensures taken { Takes result self.old self.new (taken self.old (Mark.Cancelled device)) }
        ensures low { 1 ≤ device }
        ensures high { device ≤ 32 }
    {
        let _number = device.get();
        match self.verdict {
            Some(Verdict::Abort(_)) => self.go(device, 1, 4),
            _ => false,
        }
    }
}

// The place of a device among those of the run, from 0.
fn place_of(device: DeviceNo) -> usize
    ensures { result + 1 ≡ device }
{
    usize::from(device.get()) - 1
}
