//! Counting devices.

ghost use Rattle.std.specs.Prelude.{◌≡◌, ◌≤◌};
ghost use Rattle.nm_chronicle.specs.Line.{count_to, size};

use nm_base::{DeviceMask, DeviceNo};

/// How many of the devices from 1 to the last are in the set: the last one's place among them, where it is in it.
pub fn count_to(mask: DeviceMask, last: u8) -> u32
    requires { last ≤ 32 }
    ensures value { result ≡ count_to mask.0 last }
    ensures few { result ≤ last }
{
    let mut count = 0;
    for before in 0..last {
        if let Some(device) = DeviceNo::new(before + 1) {
            if mask.contains(device) {
                count += 1;
            }
        }
    }
    count
}

// How many devices are in the set.
#[tactic(auto, unfolding(crate::specs::Line::size))]
pub(crate) fn size(mask: DeviceMask) -> u32
    ensures value { result ≡ size mask.0 }
    ensures few { result ≤ 32 }
{
    count_to(mask, DeviceNo::LIMIT)
}
