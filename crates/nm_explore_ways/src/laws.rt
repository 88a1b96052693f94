//! What holds of all ways.

ghost use Rattle.std.specs.Prelude.{◌≡◌, ◌+◌, ◌-◌, ◌*◌, ◌^◌, ◌++◌, ℕ, List, length, cond};
ghost use Rattle.nm_explore_ways.specs.declared.put.Put.{Put as APut};
ghost use Rattle.nm_explore_ways.specs.Ways.{choose, each_place, is_way, times_in, ways};

/// Each way with so many faults is in the list once, and nothing else is there: a list of as many faults, whose places are among those that
/// there are and don't fall, and whose faults are among those that there are.
pub fn each_way_is_there_once()
    ensures { (places faults many first : ℕ) (way : List APut) → times_in way (ways places faults many first) ≡ cond (is_way places faults many first way) 1 0 }
{}

/// There are as many ways with so many faults as the binomial of the places tells: those of choosing places, of which one may be chosen more
/// than once, and for each a fault.
pub fn ways_are_binomially_many()
    ensures { (places faults many first : ℕ) → length (ways places faults many first) ≡ faults ^ many * choose (places - first + many - 1) many }
{}

/// Two stretches of places of the first fault, one after the other, make their stretch.
pub fn stretches_make_the_whole()
    ensures { (faults : ℕ) (others : ℕ → List (List APut)) (place some more : ℕ) → each_place faults others place (some + more)
        ≡ each_place faults others place some ++ each_place faults others (place + some) more }
{}
