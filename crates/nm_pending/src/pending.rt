//! A pending confirmed commit, and what its begin, its follow-ups and its end make of it.

ghost use Rattle.std.specs.Prelude.{◌≡◌, ◌≤◌, ◌^◌, IfOk, OnOk, OnErr};

use nm_base::{DEFAULT_TIMEOUT, Label, NoMemory, SessionId};
use nm_proto::Content;
use std::alloc::Global;
use std::marker::Model;

/// The pending confirmed commit of a device (RFC 6241 section 8.4). Only `begin` and `follow` take memory.
pub struct Pending<C: Content> {
    /// The running configuration before it began. None where no commit under it has changed running.
    pub before: Option<C::Config>,
    /// Its persist token. None ties it to the session that began it.
    pub persist: Option<Label>,
    /// The session that began it.
    pub issuer: SessionId,
    /// The sessions that committed under it, in the order in which they came.
    pub authors: Vec<SessionId>,
    /// The clock at which it is undone, in seconds.
    pub deadline: u64,
}

impl<C: Content> Drop for Pending<C> {
    fn drop(self) {
        let Pending {
            before,
            persist,
            issuer: _,
            authors,
            deadline: _,
        } = self;
        drop(before);
        drop(persist);
        drop(authors);
    }
}

impl<C: Content> Model for Pending<C> {
    ghost use Rattle.std.specs.Prelude.{Option};
    ghost use Rattle.nm_pending.specs.Pending.{PendingState};

    ghost Value = { PendingState (Option C.Config) };

    ghost view = { λ p. record {
      before = p.before;
      token = p.persist;
      issuer = p.issuer;
      authors = p.authors.items;
      deadline = p.deadline;
    } };
}

impl<C: Content> Pending<C> {
    ghost use Rattle.std.specs.Prelude.{None};
    ghost use Rattle.nm_pending.specs.Pending.{begun, followed, is_author, is_tied, is_due};

    /// A confirmed commit that a session begins (RFC 6241 section 8.4.1). Nothing is kept before it yet.
    pub fn begin(
        alloc: Global,
        session: SessionId,
        persist: Option<Label>,
        deadline: u64,
    ) -> Result<Pending<C>, NoMemory>
        ensures { IfOk result (λ pending. pending ≡ begun None session persist deadline) }
    {
        let mut authors = Vec::new(alloc);
        authors.push(session)?;
        Ok(Pending {
            before: None,
            persist,
            issuer: session,
            authors,
            deadline,
        })
    }

    /// A session follows it up with another confirmed commit (RFC 6241 section 8.4.1): it becomes an author, a token
    /// that is given replaces the one before, and the deadline is set anew.
    pub fn follow(
        &mut self,
        session: SessionId,
        persist: Option<Label>,
        deadline: u64,
    ) -> Result<(), NoMemory>
        ensures followed { OnOk result (self.new ≡ followed self.old session persist deadline) }
        ensures unchanged { OnErr result (self.new ≡ self.old) }
    {
        if !self.is_author(session) {
            self.authors.push(session)?;
        }
        if persist.is_some() {
            self.persist = persist;
        }
        self.deadline = deadline;
        Ok(())
    }

    /// Whether the session committed under it.
    pub fn is_author(&self, session: SessionId) -> bool
        ensures { result ≡ is_author self.now session }
    {
        self.authors
            .iter()
            .any(|author| author.get() == session.get())
    }

    /// Whether the end of this session undoes it: it has no token, and the session began it (RFC 6241 section 8.4.1).
    pub fn is_tied(&self, session: SessionId) -> bool
        ensures { result ≡ is_tied self.now session }
    {
        self.persist.is_none() && self.issuer.get() == session.get()
    }

    /// Whether it is undone at this clock, in seconds: it is at its deadline or above (RFC 6241 section 8.4.1).
    pub fn due(&self, now: u64) -> bool
        ensures { result ≡ is_due self.now now }
    {
        self.deadline <= now
    }

    /// Ends it by a commit that isn't confirmed (RFC 6241 section 8.4.1), and gives the configuration that isn't
    /// wanted any more. It takes no memory.
    pub fn confirm(self) -> Option<C::Config>
        ensures { result ≡ self.before }
    {
        self.end()
    }

    /// Ends it with its changes taken back (RFC 6241 section 8.4.1), and gives the configuration that running is to
    /// be again, None where it is so still. It takes no memory.
    pub fn undo(self) -> Option<C::Config>
        ensures { result ≡ self.before }
    {
        self.end()
    }

    fn end(self) -> Option<C::Config>
        ensures { result ≡ self.before }
    {
        let Pending {
            before,
            persist,
            issuer: _,
            authors,
            deadline: _,
        } = self;
        drop(persist);
        drop(authors);
        before
    }
}

ghost use Rattle.nm_pending.specs.Pending.{deadline_of};

/// The clock at which a confirmed commit that is done now is undone, in seconds (RFC 6241 section 8.4.5).
pub fn deadline_of(clock: u64, timeout: Option<u32>) -> u64
    requires in_range { clock ≤ 2 ^ 62 }
    ensures { result ≡ deadline_of clock timeout }
{
    clock + u64::from(timeout.unwrap_or(DEFAULT_TIMEOUT))
}
