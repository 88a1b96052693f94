//! The numbers that name things, each a type of its own with its range, so that one isn't taken for another.

ghost use Rattle.std.specs.Prelude.{◌≡◌, ℕ, ◌≤◌, ◌^◌, ◌<◌, ◌↔◌, IsSome, IfSome};

use std::marker::Model;

/// The number of a device, from 1 to 32.
#[derive(Clone, Copy, PartialEq, Eq)]
pub struct DeviceNo {
    number: u8,
}

impl Model for DeviceNo {
    ghost Value = { ℕ };

    ghost view = { λ d. d.number };

    ghost invariant = { λ d. (1 ≤ d.number) × (d.number ≤ 32) };

    ghost inverse = { λ n. record { number = n } };
}

impl DeviceNo {
    /// How many devices there may be.
    pub const LIMIT: u8 = 32;

    /// The device of a number, and None outside 1 to 32.
    pub fn new(number: u8) -> Option<DeviceNo>
        ensures in_range { IsSome result ↔ ((1 ≤ number) × (number ≤ 32)) }
        ensures value { IfSome result (λ device. device ≡ number) }
    {
        if 1 <= number && number <= DeviceNo::LIMIT {
            Some(DeviceNo { number })
        } else {
            None
        }
    }

    /// The number.
    pub fn get(self) -> u8
        ensures value { result ≡ self }
        ensures low { 1 ≤ result }
        ensures high { result ≤ 32 }
    {
        self.number
    }
}

/// The number of a change set, from 1 to 64.
#[derive(Clone, Copy, PartialEq, Eq)]
pub struct ChangeNo {
    number: u32,
}

impl Model for ChangeNo {
    ghost Value = { ℕ };

    ghost view = { λ c. c.number };

    ghost invariant = { λ c. (1 ≤ c.number) × (c.number ≤ 64) };

    ghost inverse = { λ n. record { number = n } };
}

impl ChangeNo {
    /// How many change sets there may be.
    pub const LIMIT: u32 = 64;

    /// The change set of a number, and None outside 1 to 64.
    pub fn new(number: u32) -> Option<ChangeNo>
        ensures in_range { IsSome result ↔ ((1 ≤ number) × (number ≤ 64)) }
        ensures value { IfSome result (λ change. change ≡ number) }
    {
        if 1 <= number && number <= ChangeNo::LIMIT {
            Some(ChangeNo { number })
        } else {
            None
        }
    }

    /// The number.
    pub fn get(self) -> u32
        ensures value { result ≡ self }
        ensures low { 1 ≤ result }
        ensures high { result ≤ 64 }
    {
        self.number
    }
}

/// The id of a NETCONF session on one device, from 1 to 4294967295 (RFC 6241 section 4.1).
#[derive(Clone, Copy, Debug, PartialEq, Eq)]
pub struct SessionId {
    number: u32,
}

impl Model for SessionId {
    ghost Value = { ℕ };

    ghost view = { λ s. s.number };

    ghost invariant = { λ s. 1 ≤ s.number };

    ghost inverse = { λ n. record { number = n } };
}

impl SessionId {
    /// The session of an id, and None for 0.
    pub fn new(number: u32) -> Option<SessionId>
        ensures in_range { IsSome result ↔ (1 ≤ number) }
        ensures value { IfSome result (λ session. session ≡ number) }
    {
        if 1 <= number {
            Some(SessionId { number })
        } else {
            None
        }
    }

    /// The id.
    pub fn get(self) -> u32
        ensures value { result ≡ self }
        ensures low { 1 ≤ result }
        ensures high { result < 2 ^ 32 }
    {
        self.number
    }
}

/// The place of an edit in the tables of a run, from 0.
#[derive(Clone, Copy, PartialEq, Eq)]
pub struct EditNo(pub u32);

/// The place of a list of selected nodes in the tables of a run, from 0.
#[derive(Clone, Copy, PartialEq, Eq)]
pub struct SelectNo(pub u32);
