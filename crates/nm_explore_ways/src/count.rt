//! How many ways there are.

ghost use Rattle.std.specs.Prelude.{◌≡◌, ◌≤◌, ◌+◌, ◌*◌, ◌-◌, ◌^◌, length, min};
ghost use Rattle.nm_explore_ways.specs.Ways.{ways, ways_up_to};

// How many ways there are with one fault.
fn count_of_one(places: u32, faults: u32) -> u64
    ensures count { result ≡ length (ways places faults 1 0) }
    ensures small { result ≤ (2 ^ 32 - 1) * (2 ^ 32 - 1) }
{
    u64::from(faults) * u64::from(places)
}

// How many pairs of places there are, of which the second isn't before the first.
fn pairs_of(places: u32) -> u64
    ensures { 2 * result ≡ places * (places + 1) }
{
    let places = u64::from(places);
    places * (places + 1) / 2
}

// How many ways there are with two faults, 2^64 - 1 where there are more.
fn count_of_two(places: u32, faults: u32) -> u64
    ensures { result ≡ min (length (ways places faults 2 0)) (2 ^ 64 - 1) }
{
    let faults = u64::from(faults);
    (faults * faults).saturating_mul(pairs_of(places))
}

/// How many ways there are with up to so many faults, each at one of so many places, and one of so many faults; 2^64 - 1 where there
/// are more.
pub fn count_up_to(places: u32, faults: u32, many: u32) -> u64
    requires { many ≤ 2 }
    ensures { result ≡ min (length (ways_up_to places faults many)) (2 ^ 64 - 1) }
{
    match many {
        0 => 1,
        1 => 1 + count_of_one(places, faults),
        _ => (1 + count_of_one(places, faults)).saturating_add(count_of_two(places, faults)),
    }
}
