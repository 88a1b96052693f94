//! Running and candidate of a device. Candidate is kept only while it is modified.

ghost use Rattle.std.specs.Prelude.{◌≡◌, IfNone, OnErr};

use nm_proto::{ApplyFault, Content, DefaultOperation, Marks};
use std::marker::Model;
use std::mem;

/// The running configuration of a device, and its candidate (RFC 6241 section 8.3). Only `edit` takes
/// memory, and no call copies a configuration.
pub struct Stores<C: Content> {
    running: C::Config,
    // None where candidate is unmodified: it equals running.
    candidate: Option<C::Config>,
}

impl<C: Content> Drop for Stores<C> {
    fn drop(self) {
        let Stores { running, candidate } = self;
        drop(running);
        drop(candidate);
    }
}

impl<C: Content> Model for Stores<C> {
    ghost use Rattle.nm_stores.specs.Stores.{StoresState};

    ghost Value = { StoresState C.Config };

    ghost view = { λ stores. record { running = stores.running; candidate = stores.candidate } };
}

impl<C: Content> Stores<C> {
    ghost use Rattle.nm_stores.specs.Stores.{fresh_stores, candidate_of, is_modified, discarded, committed, replaced, restored, Edits, Belong};

    /// A running configuration, and a candidate that equals it.
    pub fn new(running: C::Config) -> Stores<C>
        ensures { result ≡ fresh_stores running }
    {
        Stores {
            running,
            candidate: None,
        }
    }

    /// The running configuration.
    pub fn running(&self) -> &C::Config
        ensures { result.now ≡ self.now.running }
    {
        &self.running
    }

    /// The candidate configuration, also where it is unmodified.
    pub fn candidate(&self) -> &C::Config
        ensures { result.now ≡ candidate_of self.now }
    {
        match &self.candidate {
            Some(candidate) => candidate,
            None => &self.running,
        }
    }

    /// Whether candidate has a configuration of its own, also where it is like running.
    pub fn modified(&self) -> bool
        ensures { result ≡ is_modified self.now }
    {
        self.candidate.is_some()
    }

    /// Edits candidate (RFC 6241 section 7.2): it becomes what `apply` makes of it. An error leaves all as
    /// it was.
    pub fn edit(
        &mut self,
        content: &C,
        edit: &C::Edit,
        default_operation: DefaultOperation,
        marks: Option<Marks>,
    ) -> Result<(), ApplyFault>
        requires belong { Belong (C.meaning content.now) self.old }
        requires edit { (C.meaning content.now).edit_belongs edit.now }
        ensures edited { Edits result self.old self.new ((C.meaning content.now).edited (candidate_of self.old) edit.now default_operation marks) }
        ensures belong { Belong (C.meaning content.now) self.new }
        ensures unchanged { OnErr result (self.new ≡ self.old) }
    {
        match content.apply(self.candidate(), edit, default_operation, marks) {
            Ok(config) => {
                self.candidate = Some(config);
                Ok(())
            }
            Err(fault) => Err(fault),
        }
    }

    /// Makes candidate equal to running again (RFC 6241 section 8.3.4.2).
    pub fn discard(&mut self)
        ensures { self.new ≡ discarded self.old }
    {
        self.candidate = None;
    }

    /// Makes a modified candidate the running configuration (RFC 6241 section 8.3.4.1), and gives the one
    /// that it replaces.
    ///
    /// Answers None exactly where candidate is unmodified, and then changes nothing.
    pub fn commit_move(&mut self) -> Option<C::Config>
        ensures before { result ≡ replaced self.old }
        ensures after { self.new ≡ committed self.old }
        ensures unchanged { IfNone result (self.new ≡ self.old) }
    {
        match self.candidate.take() {
            Some(candidate) => Some(mem::replace(&mut self.running, candidate)),
            None => None,
        }
    }

    /// Makes running what it was before a commit (RFC 6241 section 8.4.1). None changes nothing.
    ///
    /// A modified candidate is left alone, and an unmodified one follows running (this project's own).
    pub fn restore(&mut self, before: Option<C::Config>)
        ensures { self.new ≡ restored self.old before }
    {
        if let Some(before) = before {
            self.running = before;
        }
    }
}
