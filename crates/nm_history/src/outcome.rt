//! What has become of a change set at a device, read from its history alone.

ghost use Rattle.std.specs.Prelude.{◌≡◌, List, ℕ, map};
ghost use Rattle.nm_history.specs.Effect.{noted_effect, effect_of, effect_if, effect_of_commit, is_done_reply, is_effect, tells};
ghost use Rattle.nm_history.specs.Effect.Effect.{Begins, Ends, Undoes};
ghost use Rattle.nm_history.specs.Outcome.{outcome_of, standing_after, is_token, is_final, is_pending, is_undone};

use crate::event::{DeviceEvent, Noted};
use nm_base::Label;
use nm_proto::{Reply, Request};

/// What undid a pending commit (RFC 6241 section 8.4).
#[derive(Clone, Copy, PartialEq, Eq)]
pub enum Undoing {
    /// A cancel.
    Cancel,
    /// The end of the session that it belonged to.
    End,
    /// Its deadline.
    Timer,
    /// A restart of the device.
    Restart,
}

/// What has become of a change set at a device.
#[derive(Clone, Copy, PartialEq, Eq)]
pub enum Outcome {
    /// Its commit was not done.
    Never,
    /// Its confirmed commit waits to be confirmed (RFC 6241 section 8.4).
    Pending,
    /// Its commit was confirmed.
    Confirmed,
    /// Its commit was undone.
    Undone { by: Undoing },
}

impl Outcome {
    /// Whether the confirmed commit waits to be confirmed.
    pub fn is_pending(self) -> bool
        ensures { result ≡ is_pending self }
    {
        matches!(self, Outcome::Pending)
    }

    // Whether nothing that comes later changes it.
    fn is_final(self) -> bool
        ensures { result ≡ is_final self }
    {
        match self {
            Outcome::Never | Outcome::Pending => false,
            Outcome::Confirmed | Outcome::Undone { .. } => true,
        }
    }

    /// Whether the commit was undone.
    pub fn is_undone(self) -> bool
        ensures { result ≡ is_undone self }
    {
        matches!(self, Outcome::Undone { .. })
    }
}

// Where the reading of a history stands: the outcome so far, and whether another commit is pending.
#[derive(Clone, Copy)]
struct Standing {
    outcome: Outcome,
    other: bool,
}

impl Standing {
    // After one entry of the history.
    #[tactic(auto, using(crate::proofs::Standings::neithers))]
    fn after(self, token: &Label, entry: &Noted) -> Standing
        ensures outcome { result.outcome ≡ (standing_after token.now self.outcome self.other (noted_effect entry.now)).outcome }
        ensures other { result.other ≡ (standing_after token.now self.outcome self.other (noted_effect entry.now)).other }
    {
        match &entry.event {
            DeviceEvent::Asked { request, .. } => {
                self.asked(token, request, is_done(&entry.reply), entry.undone)
            }
            DeviceEvent::Entered { .. } => self,
            DeviceEvent::Lost { .. } => self.undone_if(entry.undone, Undoing::End),
            DeviceEvent::Advanced { .. } => self.undone_if(entry.undone, Undoing::Timer),
            DeviceEvent::Restarted => self.undone_if(entry.undone, Undoing::Restart),
        }
    }

    // After a request, with whether it was done and whether it undid what was pending.
    #[tactic(auto, using(crate::proofs::Standings::neithers))]
    fn asked(self, token: &Label, request: &Request, done: bool, undone: bool) -> Standing
        ensures outcome { result.outcome ≡ (standing_after token.now self.outcome self.other (effect_of request.now done undone)).outcome }
        ensures other { result.other ≡ (standing_after token.now self.outcome self.other (effect_of request.now done undone)).other }
    {
        match request {
            Request::Commit {
                confirmed,
                persist,
                ..
            } => self.committed_if(token, done, *confirmed, persist),
            Request::CancelCommit { .. } => self.undone_if(done, Undoing::Cancel),
            Request::Kill { .. } => self.undone_if(undone, Undoing::End),
            Request::CloseSession => self.undone_if(undone, Undoing::End),
            _ => self,
        }
    }

    // After a commit, where it was done.
    #[tactic(auto, using(crate::proofs::Standings::neithers))]
    fn committed_if(
        self,
        token: &Label,
        done: bool,
        confirmed: bool,
        persist: &Option<Label>,
    ) -> Standing
        ensures outcome { result.outcome
            ≡ (standing_after token.now self.outcome self.other (effect_if done (effect_of_commit confirmed persist.now))).outcome }
        ensures other { result.other ≡ (standing_after token.now self.outcome self.other (effect_if done (effect_of_commit confirmed persist.now))).other }
    {
        if !done {
            return self;
        }
        if confirmed {
            return self.begun(token, persist);
        }
        self.ended()
    }

    // After a confirmed commit was done.
    fn begun(self, token: &Label, persist: &Option<Label>) -> Standing
        ensures outcome { result.outcome ≡ (standing_after token.now self.outcome self.other (Begins persist.now)).outcome }
        ensures other { result.other ≡ (standing_after token.now self.outcome self.other (Begins persist.now)).other }
    {
        match (self.outcome, self.other) {
            (Outcome::Never, false) if is_token(token, persist) => Standing {
                outcome: Outcome::Pending,
                other: false,
            },
            (Outcome::Never, _) => Standing {
                outcome: Outcome::Never,
                other: true,
            },
            (Outcome::Pending, _) => self,
            (Outcome::Confirmed, _) => self,
            (Outcome::Undone { .. }, _) => self,
        }
    }

    // After a commit that isn't confirmed was done.
    fn ended(self) -> Standing
        ensures outcome { (token : List ℕ) → result.outcome ≡ (standing_after token self.outcome self.other Ends).outcome }
        ensures other { (token : List ℕ) → result.other ≡ (standing_after token self.outcome self.other Ends).other }
    {
        match self.outcome {
            Outcome::Never => Standing {
                outcome: Outcome::Never,
                other: false,
            },
            Outcome::Pending => Standing {
                outcome: Outcome::Confirmed,
                other: false,
            },
            Outcome::Confirmed => self,
            Outcome::Undone { .. } => self,
        }
    }

    // After an undoing, where there was one.
    #[tactic(auto, using(crate::proofs::Standings::neithers))]
    fn undone_if(self, undone: bool, by: Undoing) -> Standing
        ensures outcome { (token : List ℕ) → result.outcome ≡ (standing_after token self.outcome self.other (effect_if undone (Undoes by))).outcome }
        ensures other { (token : List ℕ) → result.other ≡ (standing_after token self.outcome self.other (effect_if undone (Undoes by))).other }
    {
        if !undone {
            return self;
        }
        match self.outcome {
            Outcome::Never => Standing {
                outcome: Outcome::Never,
                other: false,
            },
            Outcome::Pending => Standing {
                outcome: Outcome::Undone { by },
                other: false,
            },
            Outcome::Confirmed => self,
            Outcome::Undone { .. } => self,
        }
    }
}

// Whether a confirmed commit came under this token.
fn is_token(token: &Label, persist: &Option<Label>) -> bool
    ensures { result ≡ is_token token.now persist.now }
{
    match persist {
        Some(persist) => token.same(persist),
        None => false,
    }
}

/// The outcome of the change set with this token at the device with this history. It reads no further than to what ends the
/// change set there.
pub fn outcome_of(token: &Label, history: &[Noted]) -> Outcome
    ensures { result ≡ outcome_of token.now history.now }
{
    let mut standing = Standing {
        outcome: Outcome::Never,
        other: false,
    };
    for entry in history {
        standing = standing.after(token, entry);
        if standing.outcome.is_final() {
            return standing.outcome;
        }
    }
    standing.outcome
}

/// The same from the entries of a history that are given, which are borrowed one by one.
pub(crate) fn outcome_by(token: &Label, entries: &[&Noted]) -> Outcome
    ensures { result ≡ outcome_of token.now (map (λ entry. entry.now) entries.now) }
{
    let mut standing = Standing {
        outcome: Outcome::Never,
        other: false,
    };
    for entry in entries {
        standing = standing.after(token, entry);
        if standing.outcome.is_final() {
            return standing.outcome;
        }
    }
    standing.outcome
}

/// Whether something became of a commit at an entry: no other entry changes an outcome.
pub(crate) fn tells(entry: &Noted) -> bool
    ensures { result ≡ tells entry.now }
{
    match &entry.event {
        DeviceEvent::Asked { request, .. } => {
            has_effect(request, is_done(&entry.reply), entry.undone)
        }
        DeviceEvent::Entered { .. } => false,
        DeviceEvent::Lost { .. } => entry.undone,
        DeviceEvent::Advanced { .. } => entry.undone,
        DeviceEvent::Restarted => entry.undone,
    }
}

// Whether something became of a commit at a request, with whether it was done and whether it undid what was pending.
fn has_effect(request: &Request, done: bool, undone: bool) -> bool
    ensures { result ≡ is_effect (effect_of request.now done undone) }
{
    match request {
        Request::Commit { .. } => done,
        Request::CancelCommit { .. } => done,
        Request::Kill { .. } => undone,
        Request::CloseSession => undone,
        _ => false,
    }
}

// Whether a reply is Done.
fn is_done(reply: &Option<Reply>) -> bool
    ensures { result ≡ is_done_reply reply.now }
{
    matches!(reply, Some(Reply::Done))
}
