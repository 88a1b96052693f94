//! Groups of runs that end alike.

ghost use Rattle.std.specs.Prelude.{◌≡◌, ◌+◌, ◌-◌, ◌++◌, ◌∷◌, [], ◌<◌, ◌^◌, length, OnOk, OnErr, IfOk};
ghost use Rattle.std.specs.List.{position};
ghost use Rattle.nm_explore_groups.specs.Groups.{added, is_of, one_more, one_run, runs_in, with_one};

use nm_base::NoMemory;
use nm_explore_ways::Put;
use nm_proto::Listed;
use std::alloc::Global;

/// The runs that come to one end.
#[derive(Drop)]
pub struct Group<E> {
    /// What they come to.
    pub end: E,
    /// How many they are.
    pub runs: u64,
    /// The way of the first of them.
    pub first: Listed<Put>,
}

// Where the group of an end is.
fn place_of<E: Eq>(groups: &[Group<E>], end: &E) -> Option<usize>
    ensures { result ≡ position (is_of E.eq end.now) groups.now }
{
    groups.iter().position(|group| group.end == *end)
}

// A way of its own, with the same faults.
fn copy_way(alloc: Global, way: &[Put]) -> Result<Listed<Put>, NoMemory>
    ensures { IfOk result (λ copy. copy ≡ way.now) }
{
    let mut copy = Listed::new(alloc);
    for one in way {
        copy.push(*one)?;
    }
    Ok(copy)
}

impl<E> Group<E> {
    // Counts one more run.
    fn count_one(&mut self)
        requires { self.old.runs < 2 ^ 64 - 1 }
        ensures { self.new ≡ with_one self.old }
    {
        self.runs += 1;
    }
}

// Counts one more run in the group at a place.
fn count_at<E>(groups: &mut Vec<Group<E>>, place: usize)
    requires within { place < length groups.old.items }
    requires room { runs_in groups.old.items < 2 ^ 64 - 1 }
    ensures { groups.new.items ≡ one_more place groups.old.items }
{
    groups[place].count_one();
}

// The first run to an end begins a group.
fn push_first<E: Drop>(
    alloc: Global,
    groups: &mut Vec<Group<E>>,
    end: E,
    way: &[Put],
) -> Result<(), NoMemory>
    ensures begun { OnOk result (groups.new.items ≡ groups.old.items ++ one_run end way.now ∷ []) }
    ensures unchanged { OnErr result (groups.new.items ≡ groups.old.items) }
{
    let first = copy_way(alloc, way)?;
    groups.push(Group {
        end,
        runs: 1,
        first,
    })?;
    Ok(())
}

/// Counts one more run, which went this way and came to this end.
pub fn add_run<E: Eq + Drop>(
    alloc: Global,
    groups: &mut Vec<Group<E>>,
    end: E,
    way: &[Put],
) -> Result<(), NoMemory>
    requires room { runs_in groups.old.items < 2 ^ 64 - 1 }
    ensures added { OnOk result (groups.new.items ≡ added E.eq groups.old.items (one_run end way.now)) }
    ensures counted { OnOk result (runs_in groups.new.items ≡ runs_in groups.old.items + 1) }
    ensures unchanged { OnErr result (groups.new.items ≡ groups.old.items) }
{
    if let Some(place) = place_of(groups.as_slice(), &end) {
        count_at(groups, place);
        return Ok(());
    }
    push_first(alloc, groups, end, way)?;
    Ok(())
}
