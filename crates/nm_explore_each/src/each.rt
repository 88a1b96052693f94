//! Each way in order, by loops over places and faults: no list of ways is made.

ghost use Rattle.std.specs.Prelude.{◌≡◌, ◌≤◌, ◌<◌, ◌+◌, ◌^◌, [], ◌∷◌, ◌++◌, Some, length, IfOk, OnOk};
ghost use Rattle.nm_explore_ways.specs.Ways.{each_fault, ways, ways_up_to};
ghost use Rattle.nm_explore_groups.specs.Groups.{runs_in};
ghost use Rattle.nm_explore_each.specs.Game.{Goes, IsCounted, IsFront, IsSized, behind, explored};

use crate::player::Player;
use nm_base::NoMemory;
use nm_explore_groups::{Group, add_run};
use nm_explore_ways::Put;
use std::alloc::Global;

// Plays the run that goes a way, and counts it.
fn count<E: Eq + Drop, P: Player<E>>(
    alloc: Global,
    player: &mut P,
    groups: &mut Vec<Group<E>>,
    way: &[Put],
) -> Result<(), NoMemory>
    requires ready { P.ready player.old }
    requires goes { Goes (P.game player.old) way.now }
    requires room { runs_in groups.old.items + 1 < 2 ^ 64 }
    ensures counted { OnOk result (IsCounted E.eq (P.game player.old) groups.old.items groups.new.items (way.now ∷ [])) }
    ensures same { OnOk result (P.game player.new ≡ P.game player.old) }
    ensures ready { OnOk result (P.ready player.new) }
{
    let end = player.play(way)?;
    add_run(alloc, groups, end, way)?;
    Ok(())
}

// The run of which this is the last fault, with another one in front of it or none.
fn count_behind<E: Eq + Drop, P: Player<E>>(
    alloc: Global,
    player: &mut P,
    groups: &mut Vec<Group<E>>,
    front: Option<Put>,
    one: Put,
) -> Result<(), NoMemory>
    requires ready { P.ready player.old }
    requires front { IsFront (P.game player.old) front one.place }
    requires place { one.place < (P.game player.old).places }
    requires fault { one.fault < (P.game player.old).faults }
    requires room { runs_in groups.old.items + 1 < 2 ^ 64 }
    ensures counted { OnOk result (IsCounted E.eq (P.game player.old) groups.old.items groups.new.items (behind front ((one ∷ []) ∷ []))) }
    ensures same { OnOk result (P.game player.new ≡ P.game player.old) }
    ensures ready { OnOk result (P.ready player.new) }
{
    match front {
        None => count(alloc, player, groups, &[one]),
        Some(first) => count(alloc, player, groups, &[first, one]),
    }
}

// Each fault at a place, with another one in front of it or none.
fn each_fault<E: Eq + Drop, P: Player<E>>(
    alloc: Global,
    player: &mut P,
    groups: &mut Vec<Group<E>>,
    faults: u32,
    front: Option<Put>,
    place: u32,
) -> Result<(), NoMemory>
    requires ready { P.ready player.old }
    requires faults { faults ≡ (P.game player.old).faults }
    requires front { IsFront (P.game player.old) front place }
    requires place { place < (P.game player.old).places }
    requires room { runs_in groups.old.items + length (behind front (each_fault place 0 faults ([] ∷ []))) < 2 ^ 64 }
    ensures counted { OnOk result (IsCounted E.eq (P.game player.old) groups.old.items groups.new.items
        (behind front (each_fault place 0 faults ([] ∷ [])))) }
    ensures same { OnOk result (P.game player.new ≡ P.game player.old) }
    ensures ready { OnOk result (P.ready player.new) }
{
    for fault in 0..faults {
        count_behind(alloc, player, groups, front, Put { place, fault })?;
    }
    Ok(())
}

// Each fault at each place from one on, with another one in front of it or none.
fn each_place<E: Eq + Drop, P: Player<E>>(
    alloc: Global,
    player: &mut P,
    groups: &mut Vec<Group<E>>,
    places: u32,
    faults: u32,
    front: Option<Put>,
    from: u32,
) -> Result<(), NoMemory>
    requires ready { P.ready player.old }
    requires sized { IsSized (P.game player.old) places faults }
    requires front { IsFront (P.game player.old) front from }
    requires from { from ≤ places }
    requires room { runs_in groups.old.items + length (behind front (ways places faults 1 from)) < 2 ^ 64 }
    ensures counted { OnOk result (IsCounted E.eq (P.game player.old) groups.old.items groups.new.items (behind front (ways places faults 1 from))) }
    ensures same { OnOk result (P.game player.new ≡ P.game player.old) }
    ensures ready { OnOk result (P.ready player.new) }
{
    for place in from..places {
        each_fault(alloc, player, groups, faults, front, place)?;
    }
    Ok(())
}

// Each fault at a place, with each that may come behind it.
fn each_first<E: Eq + Drop, P: Player<E>>(
    alloc: Global,
    player: &mut P,
    groups: &mut Vec<Group<E>>,
    places: u32,
    faults: u32,
    place: u32,
) -> Result<(), NoMemory>
    requires ready { P.ready player.old }
    requires sized { IsSized (P.game player.old) places faults }
    requires place { place < places }
    requires room { runs_in groups.old.items + length (each_fault place 0 faults (ways places faults 1 place)) < 2 ^ 64 }
    ensures counted { OnOk result (IsCounted E.eq (P.game player.old) groups.old.items groups.new.items
        (each_fault place 0 faults (ways places faults 1 place))) }
    ensures same { OnOk result (P.game player.new ≡ P.game player.old) }
    ensures ready { OnOk result (P.ready player.new) }
{
    for fault in 0..faults {
        let first = Put { place, fault };
        each_place(alloc, player, groups, places, faults, Some(first), place)?;
    }
    Ok(())
}

// Each pair of faults.
fn each_pair<E: Eq + Drop, P: Player<E>>(
    alloc: Global,
    player: &mut P,
    groups: &mut Vec<Group<E>>,
    places: u32,
    faults: u32,
) -> Result<(), NoMemory>
    requires ready { P.ready player.old }
    requires sized { IsSized (P.game player.old) places faults }
    requires room { runs_in groups.old.items + length (ways places faults 2 0) < 2 ^ 64 }
    ensures counted { OnOk result (IsCounted E.eq (P.game player.old) groups.old.items groups.new.items (ways places faults 2 0)) }
    ensures same { OnOk result (P.game player.new ≡ P.game player.old) }
    ensures ready { OnOk result (P.ready player.new) }
{
    for place in 0..places {
        each_first(alloc, player, groups, places, faults, place)?;
    }
    Ok(())
}

// Without a fault, and with each.
fn up_to_one<E: Eq + Drop, P: Player<E>>(
    alloc: Global,
    player: &mut P,
    groups: &mut Vec<Group<E>>,
    places: u32,
    faults: u32,
) -> Result<(), NoMemory>
    requires ready { P.ready player.old }
    requires sized { IsSized (P.game player.old) places faults }
    requires room { runs_in groups.old.items + length (ways_up_to places faults 1) < 2 ^ 64 }
    ensures counted { OnOk result (IsCounted E.eq (P.game player.old) groups.old.items groups.new.items (ways_up_to places faults 1)) }
    ensures same { OnOk result (P.game player.new ≡ P.game player.old) }
    ensures ready { OnOk result (P.ready player.new) }
{
    count(alloc, player, groups, &[])?;
    each_place(alloc, player, groups, places, faults, None, 0)?;
    Ok(())
}

// Without a fault, with each, and with each pair.
fn up_to_two<E: Eq + Drop, P: Player<E>>(
    alloc: Global,
    player: &mut P,
    groups: &mut Vec<Group<E>>,
    places: u32,
    faults: u32,
) -> Result<(), NoMemory>
    requires ready { P.ready player.old }
    requires sized { IsSized (P.game player.old) places faults }
    requires room { runs_in groups.old.items + length (ways_up_to places faults 2) < 2 ^ 64 }
    ensures counted { OnOk result (IsCounted E.eq (P.game player.old) groups.old.items groups.new.items (ways_up_to places faults 2)) }
    ensures same { OnOk result (P.game player.new ≡ P.game player.old) }
    ensures ready { OnOk result (P.ready player.new) }
{
    up_to_one(alloc, player, groups, places, faults)?;
    each_pair(alloc, player, groups, places, faults)?;
    Ok(())
}

// With up to so many faults at once.
fn up_to<E: Eq + Drop, P: Player<E>>(
    alloc: Global,
    player: &mut P,
    groups: &mut Vec<Group<E>>,
    places: u32,
    faults: u32,
    most: u32,
) -> Result<(), NoMemory>
    requires ready { P.ready player.old }
    requires sized { IsSized (P.game player.old) places faults }
    requires few { most ≤ 2 }
    requires room { runs_in groups.old.items + length (ways_up_to places faults most) < 2 ^ 64 }
    ensures counted { OnOk result (IsCounted E.eq (P.game player.old) groups.old.items groups.new.items (ways_up_to places faults most)) }
    ensures same { OnOk result (P.game player.new ≡ P.game player.old) }
    ensures ready { OnOk result (P.ready player.new) }
{
    match most {
        0 => count(alloc, player, groups, &[]),
        1 => up_to_one(alloc, player, groups, places, faults),
        _ => up_to_two(alloc, player, groups, places, faults),
    }
}

/// What all runs come to with up to so many faults at once, in the order in which ends are first met: fewer faults first, then by the
/// place and the fault of the first, then of the second.
///
/// It takes memory as there are ends.
pub fn explore<E: Eq + Drop, P: Player<E>>(
    alloc: Global,
    player: &mut P,
    places: u32,
    faults: u32,
    most: u32,
) -> Result<Vec<Group<E>>, NoMemory>
    requires ready { P.ready player.old }
    requires sized { IsSized (P.game player.old) places faults }
    requires few { most ≤ 2 }
    requires room { length (ways_up_to places faults most) < 2 ^ 64 }
    ensures explored { IfOk result (λ groups. groups.items ≡ explored E.eq (P.game player.old) most) }
    ensures same { OnOk result (P.game player.new ≡ P.game player.old) }
    ensures ready { OnOk result (P.ready player.new) }
{
    let mut groups = Vec::new(alloc);
    up_to(alloc, player, &mut groups, places, faults, most)?;
    Ok(groups)
}
