//! Sets of devices and of change sets as bits: small enough to be copied, compared and written as one number.

ghost use Rattle.std.specs.Prelude.{◌≡◌, ℕ, ◌↔◌, IsNone, IfSome};
ghost use Rattle.nm_base.specs.Mask.{mask_contains, AddsToMask, TakesFromMask, IsLeastInMask};

use crate::number::{ChangeNo, DeviceNo};

/// A set of devices: bit `d - 1` stands for device `d`.
#[derive(Clone, Copy, PartialEq, Eq)]
pub struct DeviceMask(pub u32);

impl DeviceMask {
    /// Whether the device is in the set.
    pub fn contains(self, device: DeviceNo) -> bool
        ensures { result ≡ mask_contains self.0 device }
    {
        (self.0 >> u32::from(device.get() - 1)) & 1 == 1
    }

    /// The set with the device.
    pub fn with(self, device: DeviceNo) -> DeviceMask
        ensures { AddsToMask self.0 result.0 device }
    {
        DeviceMask(self.0 | (1 << u32::from(device.get() - 1)))
    }

    /// The set without the device.
    pub fn without(self, device: DeviceNo) -> DeviceMask
        ensures { TakesFromMask self.0 result.0 device }
    {
        DeviceMask(self.0 & !(1 << u32::from(device.get() - 1)))
    }

    /// The least device of the set.
    pub fn first(self) -> Option<DeviceNo>
        ensures empty { IsNone result ↔ (self.0 ≡ 0) }
        ensures least { IfSome result (IsLeastInMask self.0) }
    {
        if self.0 == 0 {
            return None;
        }
        DeviceNo::new(self.0.trailing_zeros() as u8 + 1)
    }
}

/// A set of change sets: bit `c - 1` stands for change set `c`.
#[derive(Clone, Copy, PartialEq, Eq)]
pub struct ChangeMask(pub u64);

impl ChangeMask {
    /// Whether the change set is in the set.
    pub fn contains(self, change: ChangeNo) -> bool
        ensures { result ≡ mask_contains self.0 change }
    {
        (self.0 >> (change.get() - 1)) & 1 == 1
    }

    /// The set with the change set.
    pub fn with(self, change: ChangeNo) -> ChangeMask
        ensures { AddsToMask self.0 result.0 change }
    {
        ChangeMask(self.0 | (1 << (change.get() - 1)))
    }

    /// The set without the change set.
    pub fn without(self, change: ChangeNo) -> ChangeMask
        ensures { TakesFromMask self.0 result.0 change }
    {
        ChangeMask(self.0 & !(1 << (change.get() - 1)))
    }

    /// The least change set of the set.
    pub fn first(self) -> Option<ChangeNo>
        ensures empty { IsNone result ↔ (self.0 ≡ 0) }
        ensures least { IfSome result (IsLeastInMask self.0) }
    {
        if self.0 == 0 {
            return None;
        }
        ChangeNo::new(self.0.trailing_zeros() + 1)
    }
}
