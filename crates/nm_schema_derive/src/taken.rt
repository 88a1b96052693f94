//! The names and numbers that an enumeration or a bits type has so far, found without a search through all.

ghost use Rattle.std.specs.Prelude.{◌≡◌, ◌++◌, ◌∷◌, [], length, IfOk};
ghost use Rattle.nm_schema_derive.specs.Members.{number_in, has_number, highest_in, next_after, higher};

use crate::members::Member;
use nm_base::{Label, NoMemory};
use std::alloc::Global;
use std::collections::BTreeMap;
use std::marker::Model;

/// Members that have their numbers, with what finds a name and a number among them.
#[derive(Drop)]
pub struct Taken {
    members: Vec<Member>,
    names: BTreeMap<Label, i64>,
    numbers: BTreeMap<i64, ()>,
    highest: Option<i64>,
}

impl Model for Taken {
    ghost use Rattle.std.specs.Prelude.{◌≡◌, List, ℕ, ℤ};
    ghost use Rattle.std.specs.Option.{is_some};
    ghost use Rattle.std.specs.Ordering.{nat_cmp, int_cmp};
    ghost use Rattle.std.specs.Cmp.Lexicographic.{slice_cmp};
    ghost use Rattle.std.specs.BTreeMap as tree;
    ghost use Rattle.nm_schema_derive.specs.declared.members.Member.{Member};
    ghost use Rattle.nm_schema_derive.specs.Members.{number_in, has_number, highest_in};

    ghost Value = { List Member };

    ghost view = { λ t. t.members.items };

    ghost invariant = { λ t. ((name : List ℕ) → tree.get (slice_cmp nat_cmp) t.names name ≡ number_in name t.members.items)
        × ((number : ℤ) → is_some (tree.get int_cmp t.numbers number) ≡ has_number number t.members.items)
        × (t.highest ≡ highest_in t.members.items) };
}

// The higher of a number and one that may be missing.
fn higher(highest: Option<i64>, number: i64) -> i64
    ensures { Some result ≡ higher highest number }
{
    match highest {
        Some(before) => before.max(number),
        None => number,
    }
}

impl Taken {
    // No members.
    #[tactic(auto, unfolding(crate::specs::Members::number_in, crate::specs::Members::has_number, crate::specs::Members::highest_in))]
    pub(crate) fn new(alloc: Global) -> Taken
        ensures { result ≡ [] }
    {
        Taken {
            members: Vec::new(alloc),
            names: BTreeMap::new(alloc),
            numbers: BTreeMap::new(alloc),
            highest: None,
        }
    }

    // How many members there are.
    pub(crate) fn len(&self) -> usize
        ensures { result ≡ length self.now }
    {
        self.members.len()
    }

    // The number of a name; of two members with it the later one's.
    pub(crate) fn number_in(&self, name: &Label) -> Option<i64>
        ensures { result ≡ number_in name.now self.now }
    {
        self.names.get(name).copied()
    }

    // Whether a member has a number.
    #[tactic(auto, unfolding(crate::specs::Members::has_number))]
    pub(crate) fn has_number(&self, number: i64) -> bool
        ensures { result ≡ has_number number self.now }
    {
        self.numbers.contains_key(&number)
    }

    // One above the highest number, and 0 where there is none.
    pub(crate) fn next(&self) -> i128
        ensures { result ≡ next_after (highest_in self.now) }
    {
        match self.highest {
            Some(number) => i128::from(number) + 1,
            None => 0,
        }
    }

    // These members, and one more behind them.
    pub(crate) fn with(self, name: &Label, number: i64) -> Result<Taken, NoMemory>
        ensures { IfOk result (λ taken. taken ≡ self ++ record { name = name.now; number = number } ∷ []) }
    {
        let mut members = self.members;
        let mut names = self.names;
        let mut numbers = self.numbers;
        members.push(Member {
            name: name.copy()?,
            number,
        })?;
        names.insert(name.copy()?, number)?;
        numbers.insert(number, ())?;
        Ok(Taken {
            members,
            names,
            numbers,
            highest: Some(higher(self.highest, number)),
        })
    }

    /// The members.
    pub fn as_slice(&self) -> &[Member]
        ensures value { result.now ≡ self.now }
    {
        &self.members
    }
}
