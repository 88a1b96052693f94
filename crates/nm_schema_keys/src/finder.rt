//! Where names lead among the members of many rows.

ghost use Rattle.std.specs.Prelude.{◌≡◌, IfOk, IfSome};
ghost use Rattle.nm_schema_uses.specs.Config.{is_state};
ghost use Rattle.nm_schema_keys.specs.Found as spec;
ghost use Rattle.nm_schema_keys.specs.Kept.{members_at};

use crate::found::{Found, has_word, is_state};
use crate::seen::Seen;
use crate::words::own_name;
use nm_base::NoMemory;
use nm_schema_names::RowNames;
use nm_schema_statements::Word;
use nm_schema_uses::Shape;
use std::alloc::Global;
use std::collections::BTreeMap;
use std::marker::Model;

/// How many members are kept at most, or those of one row where these are more: 1,048,576. The nodes that stand directly in rows
/// are fewer in 16 modules of 262,144 bytes, since a node takes seven bytes at least. So members are let go only where `uses`
/// bring the same nodes to many rows.
const MOST_KEPT: usize = 1_048_576;

/// The members of rows by name, and which rows say `config false`. Both are found when they are first asked for, and kept, so
/// that many words that lead through the same rows cost one search of these. It is seen as what stands in what.
#[derive(Drop)]
pub struct Finder<'n, 'a, 's> {
    names: &'n RowNames<'a>,
    shape: &'n Shape<'s>,
    members: BTreeMap<usize, Seen<'n, 'a>>,
    states: BTreeMap<usize, bool>,
    count: usize,
}

impl<'n, 'a, 's> Model for Finder<'n, 'a, 's> {
    ghost use Rattle.std.specs.Prelude.{◌≡◌};
    ghost use Rattle.nm_schema_uses.specs.Config.{is_state};
    ghost use Rattle.nm_schema_uses.specs.Outline.{Outline};
    ghost use Rattle.nm_schema_keys.specs.Kept.{Keeps, members_at};

    ghost Value = { Outline };

    ghost view = { λ f. f.shape.now };

    ghost invariant = { λ f. (f.names.now ≡ f.shape.now.rows)
        × Keeps (members_at f.shape.now.rows f.shape.now.groupings) f.members × Keeps (is_state f.shape.now.rows) f.states };
}

impl<'n, 'a, 's> Finder<'n, 'a, 's> {
    /// Nothing is kept yet.
    pub fn new(alloc: Global, names: &'n RowNames<'a>, shape: &'n Shape<'s>) -> Finder<'n, 'a, 's>
        requires { names.now ≡ shape.now.rows }
        ensures { result ≡ shape.now }
    {
        Finder {
            names,
            shape,
            members: BTreeMap::new(alloc),
            states: BTreeMap::new(alloc),
            count: 0,
        }
    }

    /// The names of the rows.
    pub fn names(&self) -> &'n RowNames<'a>
        ensures { result.now ≡ self.now.rows }
    {
        self.names
    }

    /// What stands in what.
    pub fn shape(&self) -> &'n Shape<'s>
        ensures { result.now ≡ self.now }
    {
        self.shape
    }

    // Counts so many members more. Where these are too many beside those that are kept, the latter are let go.
    fn make_room(&mut self, more: usize)
        ensures { self.new ≡ self.old }
    {
        if more <= MOST_KEPT.saturating_sub(self.count) {
            self.count = self.count.saturating_add(more);
            return;
        }
        self.members.clear();
        self.count = more;
    }

    // Keeps the members of a row.
    fn keep(&mut self, at: usize, members: Seen<'n, 'a>) -> Result<(), NoMemory>
        requires { members ≡ members_at self.old.rows self.old.groupings at }
        ensures { self.new ≡ self.old }
    {
        self.make_room(members.len());
        self.members.insert(at, members)?;
        Ok(())
    }

    // The first member of a row that has a name, if it isn't lost with state, where the members of the row are kept.
    fn named_kept(&self, loses: bool, at: usize, name: &'a str) -> Option<Found>
        ensures { IfSome result (λ found. found ≡ spec.member_named self.now.rows self.now.groupings loses at name.now) }
    {
        match self.members.get(&at) {
            None => None,
            Some(members) => Some(members.named(loses, name)),
        }
    }

    // The first member of a row that has a name, if it isn't lost with state.
    fn named(
        &mut self,
        alloc: Global,
        loses: bool,
        at: usize,
        name: &'a str,
    ) -> Result<Found, NoMemory>
        ensures same { self.new ≡ self.old }
        ensures found { IfOk result (λ found. found ≡ spec.member_named self.old.rows self.old.groupings loses at name.now) }
    {
        if let Some(found) = self.named_kept(loses, at, name) {
            return Ok(found);
        }
        let members = Seen::new(alloc, self.names, self.shape, at)?;
        let found = members.named(loses, name);
        self.keep(at, members)?;
        Ok(found)
    }

    // Whether a row is a node or a choice that has `config false` directly, where that is kept.
    fn state_kept(&self, at: usize) -> Option<bool>
        ensures { IfSome result (λ state. state ≡ is_state self.now.rows at) }
    {
        self.states.get(&at).copied()
    }

    // Keeps whether a row is a node or a choice that has `config false` directly.
    fn keep_state(&mut self, at: usize, state: bool) -> Result<(), NoMemory>
        requires { state ≡ is_state self.old.rows at }
        ensures { self.new ≡ self.old }
    {
        self.states.insert(at, state)?;
        Ok(())
    }

    // Whether a row is a node or a choice that has `config false` directly.
    fn is_state(&mut self, at: usize) -> Result<bool, NoMemory>
        ensures same { self.new ≡ self.old }
        ensures state { IfOk result (λ state. state ≡ is_state self.old.rows at) }
    {
        if let Some(state) = self.state_kept(at) {
            return Ok(state);
        }
        let state = is_state(self.names.rows(), at);
        self.keep_state(at, state)?;
        Ok(state)
    }

    // Whether a row has a word and isn't lost.
    #[tactic(auto, unfolding(crate::specs::Found::is_fit, crate::specs::ConfigUse::is_lost))]
    fn is_fit(&mut self, loses: bool, wanted: Word, at: usize) -> Result<bool, NoMemory>
        ensures same { self.new ≡ self.old }
        ensures fit { IfOk result (λ fit. fit ≡ spec.is_fit self.old.rows loses wanted at) }
    {
        if !has_word(self.names.rows(), at, wanted) {
            return Ok(false);
        }
        if !loses {
            return Ok(true);
        }
        Ok(!self.is_state(at)?)
    }

    // What is found, where it fits.
    fn fitting(&mut self, loses: bool, wanted: Word, found: Found) -> Result<Found, NoMemory>
        ensures same { self.new ≡ self.old }
        ensures found { IfOk result (λ fit. fit ≡ spec.fitting self.old.rows loses wanted found) }
    {
        match found {
            Found::Row(at) => {
                if self.is_fit(loses, wanted, at)? {
                    return Ok(Found::Row(at));
                }
                Ok(Found::Missing)
            }
            Found::Missing => Ok(Found::Missing),
            Found::Unknown => Ok(Found::Unknown),
        }
    }

    /// The member of a row that a word in the module of a number names, where it has a word and isn't lost with state.
    #[tactic(auto, unfolding(crate::specs::Found::fit_member))]
    pub fn fit(
        &mut self,
        alloc: Global,
        at: usize,
        loses: bool,
        owner: usize,
        wanted: Word,
        word: &'a str,
    ) -> Result<Found, NoMemory>
        ensures same { self.new ≡ self.old }
        ensures found { IfOk result (λ found. found ≡ spec.fit_member self.old.rows self.old.groupings loses at owner wanted word.now) }
    {
        match own_name(self.names, owner, word) {
            None => Ok(Found::Missing),
            Some(name) => {
                let found = self.named(alloc, loses, at, name)?;
                self.fitting(loses, wanted, found)
            }
        }
    }
}
