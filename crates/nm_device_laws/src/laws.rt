//! Laws of what one device keeps. Each function does nothing: its contract is the law.

ghost use Rattle.std.specs.Prelude.{◌≡◌, ◌≢◌, ◌≤◌, ◌+◌, ℕ, cond, List, take, slice_get, Bool, true, false, Option, Some, None};
ghost use Rattle.nm_base.specs.declared.number.EditNo.{EditNo};
ghost use Rattle.nm_base.specs.Token.{is_reserved};
ghost use Rattle.nm_base.specs.Words.{manager};
ghost use Rattle.nm_proto.specs.declared.message.DefaultOperation.{DefaultOperation};
ghost use Rattle.nm_proto.specs.declared.message.Marks.{Marks};
ghost use Rattle.nm_proto.specs.declared.message.Store.TheVariants.{Running, Candidate};
ghost use Rattle.nm_proto.specs.declared.message.Reply.TheVariants.{Opened};
ghost use Rattle.nm_proto.specs.declared.message.Request.{Request};
ghost use Rattle.nm_proto.specs.declared.message.Request.TheVariants.{Lock, Edit, Validate, Commit, CancelCommit, Discard, HasMark, Kill, CloseSession};
ghost use Rattle.nm_proto.specs.Content.{TablesState};
ghost use Rattle.nm_sessions.specs.Sessions.{is_open, user_of};
ghost use Rattle.nm_pending.specs.Pending.{deadline_of};
ghost use Rattle.nm_device.specs.Commit.{pending_after};
ghost use Rattle.nm_device.specs.Device.{DeviceState, fresh_device};
ghost use Rattle.nm_history.specs.declared.event.DeviceEvent.{DeviceEvent};
ghost use Rattle.nm_history.specs.declared.event.Noted.{Noted};
ghost use Rattle.nm_history.specs.declared.outcome.Outcome.{Outcome};
ghost use Rattle.nm_history.specs.declared.outcome.Undoing.{Undoing};
ghost use Rattle.nm_history.specs.Effect.{noted_effect, is_done_reply};
ghost use Rattle.nm_history.specs.Whole.{Becomes, began_of, began_after};
ghost use Rattle.nm_history.specs.Outcome.{outcome_of};
ghost use Rattle.nm_history.specs.History.{IsLegal, RecordedState, noted, recorded, recorded_with};
ghost use Rattle.nm_device_laws.specs.Moment.{is_refused, Moment, Asking};
ghost use Rattle.nm_device_laws.specs.Numbered.{IsNumbered};
ghost use Rattle.nm_device_laws.specs.Keeps.{is_asker, is_managed, may_take, IsUnmarked, KeepsFor, KeepsMarks, KeepsOut};
ghost use Rattle.nm_device_laws.specs.Token.{leaves_token, gives_token, commits_done, KeepsToken};
ghost use Rattle.nm_device_laws.specs.Openings.{IsOpenedFor};
ghost use Rattle.nm_device_laws.specs.Telling.{asked_with, TellsPending, TellsToken};
ghost use Rattle.nm_device_laws.specs.Own.{TellsMark, Opens, TakesRunning, TakesCandidate, Discards, EditsCandidate, Validates, Commits, Begins, Renews, Confirms, Cancels, Closes, Kills};

use nm_proto::Content;

// ---- what stands, whatever happens

/// A device is numbered from the beginning, every event keeps it so, and the last session number never falls.
pub fn numbers_stay<C: Content>(content: &C)
    ensures fresh { (s : DeviceState C.Config C.Node) (running : C.Config) → s ≡ fresh_device running → IsNumbered s }
    ensures stay { (s : DeviceState C.Config C.Node) (at : Moment (C.meaning content.now) s) → IsNumbered s → IsNumbered at.h.after }
    ensures rise { (s : DeviceState C.Config C.Node) (at : Moment (C.meaning content.now) s) → s.sessions.last ≤ at.h.after.sessions.last }
{}

/// A session that was opened and is open still has the user that it had, whoever asks.
pub fn users_stay<C: Content>(content: &C)
    ensures { (s : DeviceState C.Config C.Node) (at : Moment (C.meaning content.now) s) → IsNumbered s → (t : ℕ) → is_open at.h.after.sessions t ≡ true
        → t ≤ s.sessions.last → user_of at.h.after.sessions t ≡ user_of s.sessions t }
{}

/// Every event keeps what stands for each session that doesn't ask for it: its user and its locks, running and candidate
/// as they were under those, and that it commits nothing.
pub fn sessions_stand<C: Content>(content: &C)
    ensures { (s : DeviceState C.Config C.Node) (at : Moment (C.meaning content.now) s) → IsNumbered s
        → (t : ℕ) → is_asker at.event t ≡ false → KeepsFor t s at.h.after }
{}

/// Who takes no part in what is pending gets no lock of running or of its parts, and no other event gives one.
pub fn strangers_stay_out<C: Content>(content: &C)
    ensures { (s : DeviceState C.Config C.Node) (at : Moment (C.meaning content.now) s) → may_take s at.event ≡ false → KeepsOut s at.h.after }
{}

/// Running changes as the effect of the entry says: a commit makes it what candidate was, an undoing what it was before
/// the commit that began, and nothing else changes it. What is kept from before goes on so.
pub fn running_moves<C: Content>(content: &C)
    ensures moves { (s : DeviceState C.Config C.Node) (at : Moment (C.meaning content.now) s) →
        Becomes s (began_of s.pending) (noted_effect (noted at.event at.h)) at.h.after.stores.running }
    ensures began { (s : DeviceState C.Config C.Node) (at : Moment (C.meaning content.now) s) →
        began_of at.h.after.pending ≡ began_after s.stores.running (began_of s.pending) (noted_effect (noted at.event at.h)) }
{}

/// Only the manager changes marks: where what is pending has changed none, what anybody else asks for doesn't, and nor does
/// what nobody asks for.
pub fn marks_stay<C: Content>(content: &C)
    ensures { (s : DeviceState C.Config C.Node) (at : Moment (C.meaning content.now) s) → is_managed s at.event ≡ false
        → IsUnmarked (C.meaning content.now) s → KeepsMarks (C.meaning content.now) s at.h.after }
{}

/// An event that names a token not at all, or by who may not, leaves all that is told of it.
pub fn tokens_stand<C: Content>(content: &C)
    ensures { (s : DeviceState C.Config C.Node) (at : Moment (C.meaning content.now) s) (token : List ℕ) → leaves_token token s at.event ≡ true
        → KeepsToken token s (noted at.event at.h) at.h.after }
{}

/// A request that an error answers changes nothing, and nothing that is told of any token. One for a mark tells whether it
/// is in running.
pub fn answers_change_nothing<C: Content>(content: &C)
    ensures refused { (s : DeviceState C.Config C.Node) (session : ℕ) (request : Request) (a : Asking (C.meaning content.now) s session request)
        → is_refused a.h.reply ≡ true → a.h.after ≡ s }
    ensures tokens { (s : DeviceState C.Config C.Node) (session : ℕ) (request : Request) (a : Asking (C.meaning content.now) s session request)
        → is_refused a.h.reply ≡ true → (token : List ℕ) → KeepsToken token s (noted (DeviceEvent.Asked session request) a.h) a.h.after }
    ensures mark { (s : DeviceState C.Config C.Node) (session change : ℕ) (a : Asking (C.meaning content.now) s session (HasMark change))
        → TellsMark (C.meaning content.now) change s a.h }
{}

// ---- what a session's own requests do

/// A session that opens gets the next number, which was never a session's.
pub fn openings_do<C: Content>(content: &C)
    ensures { (s : DeviceState C.Config C.Node) (at : Moment (C.meaning content.now) s) (user : List ℕ) (id : ℕ) → at.event ≡ DeviceEvent.Entered user
        → IsNumbered s → at.h.reply ≡ Some (Opened id) → Opens user id s at.h.after }
{}

/// What a session's own request found and what it leaves, where it is answered Done.
pub fn requests_do<C: Content>(content: &C)
    ensures lock_running { (s : DeviceState C.Config C.Node) (session : ℕ) (a : Asking (C.meaning content.now) s session (Lock Running))
        → is_done_reply a.h.reply ≡ true → TakesRunning session s a.h.after }
    ensures lock_candidate { (s : DeviceState C.Config C.Node) (session : ℕ) (a : Asking (C.meaning content.now) s session (Lock Candidate))
        → is_done_reply a.h.reply ≡ true → TakesCandidate session s a.h.after }
    ensures edit { (s : DeviceState C.Config C.Node) (session : ℕ) (edit : EditNo) (operation : DefaultOperation) (marks : Option Marks)
        (a : Asking (C.meaning content.now) s session (Edit edit operation marks))
        → is_done_reply a.h.reply ≡ true → EditsCandidate (C.meaning content.now) a.tables session edit.0 operation marks s a.h.after }
    ensures discard { (s : DeviceState C.Config C.Node) (session : ℕ) (a : Asking (C.meaning content.now) s session Discard)
        → is_done_reply a.h.reply ≡ true → Discards session s a.h.after }
    ensures validate { (s : DeviceState C.Config C.Node) (session : ℕ) (a : Asking (C.meaning content.now) s session Validate)
        → is_done_reply a.h.reply ≡ true → Validates (C.meaning content.now) s a.h.after }
    ensures close { (s : DeviceState C.Config C.Node) (session : ℕ) (a : Asking (C.meaning content.now) s session CloseSession)
        → is_done_reply a.h.reply ≡ true → Closes (C.meaning content.now) session s a.h.after }
{}

/// Whoever ends a session ends it: a kill that is answered Done, a loss, and a restart, which ends all.
pub fn endings_do<C: Content>(content: &C)
    ensures kill { (s : DeviceState C.Config C.Node) (session other : ℕ) (a : Asking (C.meaning content.now) s session (Kill other))
        → is_done_reply a.h.reply ≡ true → Kills (C.meaning content.now) session other s a.h.after }
    ensures loss { (s : DeviceState C.Config C.Node) (at : Moment (C.meaning content.now) s) (session : ℕ) → at.event ≡ DeviceEvent.Lost session
        → Closes (C.meaning content.now) session s at.h.after }
    ensures restart { (s : DeviceState C.Config C.Node) (at : Moment (C.meaning content.now) s) → at.event ≡ DeviceEvent.Restarted
        → (t : ℕ) → is_open at.h.after.sessions t ≡ false }
{}

/// What a commit or a cancel found and what it leaves, where it is answered Done.
pub fn commits_do<C: Content>(content: &C)
    ensures commit { (s : DeviceState C.Config C.Node) (session : ℕ) (confirmed : Bool) (timeout : Option ℕ) (persist persist_id : Option (List ℕ))
        (a : Asking (C.meaning content.now) s session (Commit confirmed timeout persist persist_id)) → is_done_reply a.h.reply ≡ true
        → Commits (C.meaning content.now) session persist_id (pending_after s session confirmed persist (deadline_of s.clock timeout) s.pending) s a.h.after }
    ensures begin { (s : DeviceState C.Config C.Node) (session : ℕ) (timeout : Option ℕ) (token : List ℕ)
        (a : Asking (C.meaning content.now) s session (Commit true timeout (Some token) None)) → is_done_reply a.h.reply ≡ true
        → s.pending ≡ None → Begins (C.meaning content.now) session timeout token s a.h.after }
    ensures renew { (s : DeviceState C.Config C.Node) (session : ℕ) (timeout : Option ℕ) (token : List ℕ)
        (a : Asking (C.meaning content.now) s session (Commit true timeout None (Some token))) → is_done_reply a.h.reply ≡ true
        → Renews (C.meaning content.now) session timeout token s a.h.after }
    ensures confirm { (s : DeviceState C.Config C.Node) (session : ℕ) (timeout : Option ℕ) (token : List ℕ)
        (a : Asking (C.meaning content.now) s session (Commit false timeout None (Some token))) → is_done_reply a.h.reply ≡ true
        → Confirms (C.meaning content.now) session token s a.h.after }
    ensures cancel { (s : DeviceState C.Config C.Node) (session : ℕ) (token : List ℕ)
        (a : Asking (C.meaning content.now) s session (CancelCommit (Some token))) → is_done_reply a.h.reply ≡ true
        → Cancels (C.meaning content.now) session token s a.h.after }
{}

// ---- what histories tell

/// From the beginning a history tells whether a commit is pending: where none with a token was done, whether any other
/// is, and where one waits, that one is. Every event keeps it so.
pub fn histories_tell_pending<C: Content>(content: &C)
    ensures fresh { (token : List ℕ) (r : RecordedState C.Config C.Node) (running : C.Config) → r ≡ recorded running → TellsPending token r }
    ensures stay { (token : List ℕ) (r : RecordedState C.Config C.Node) (at : Moment (C.meaning content.now) r.device)
        → TellsPending token r → TellsPending token (recorded_with r at.event at.h) }
{}

/// From the beginning what is pending has a token exactly where its outcome is Pending. Every event that leaves the token
/// alone keeps it so, and so does each of a session's own requests under it.
pub fn histories_tell_tokens<C: Content>(content: &C)
    ensures fresh { (token : List ℕ) (r : RecordedState C.Config C.Node) (running : C.Config) → r ≡ recorded running → TellsToken token r }
    ensures stay { (token : List ℕ) (r : RecordedState C.Config C.Node) (at : Moment (C.meaning content.now) r.device)
        → leaves_token token r.device at.event ≡ true → TellsToken token r → TellsToken token (recorded_with r at.event at.h) }
    ensures begin { (token : List ℕ) (r : RecordedState C.Config C.Node) (session : ℕ) (timeout : Option ℕ)
        (a : Asking (C.meaning content.now) r.device session (Commit true timeout (Some token) None)) → is_done_reply a.h.reply ≡ true
        → r.device.pending ≡ None → TellsPending token r → outcome_of token r.history ≡ Outcome.Never
        → TellsToken token (asked_with r session (Commit true timeout (Some token) None) a.h) }
    ensures renew { (token : List ℕ) (r : RecordedState C.Config C.Node) (session : ℕ) (timeout : Option ℕ)
        (a : Asking (C.meaning content.now) r.device session (Commit true timeout None (Some token))) → is_done_reply a.h.reply ≡ true
        → TellsToken token r → TellsToken token (asked_with r session (Commit true timeout None (Some token)) a.h) }
    ensures confirm { (token : List ℕ) (r : RecordedState C.Config C.Node) (session : ℕ) (timeout : Option ℕ)
        (a : Asking (C.meaning content.now) r.device session (Commit false timeout None (Some token))) → is_done_reply a.h.reply ≡ true
        → TellsToken token r → TellsToken token (asked_with r session (Commit false timeout None (Some token)) a.h) }
    ensures cancel { (token : List ℕ) (r : RecordedState C.Config C.Node) (session : ℕ)
        (a : Asking (C.meaning content.now) r.device session (CancelCommit (Some token))) → is_done_reply a.h.reply ≡ true
        → TellsToken token r → TellsToken token (asked_with r session (CancelCommit (Some token)) a.h) }
{}

/// What is told of a token once a session's own request under it was done: its first commit begins to wait, one that
/// renews goes on, one that confirms and a cancel end it. Each commit that gives it counts.
pub fn histories_follow_requests<C: Content>(content: &C)
    ensures begin { (token : List ℕ) (r : RecordedState C.Config C.Node) (session : ℕ) (timeout : Option ℕ)
        (a : Asking (C.meaning content.now) r.device session (Commit true timeout (Some token) None)) → is_done_reply a.h.reply ≡ true
        → r.device.pending ≡ None → TellsPending token r → outcome_of token r.history ≡ Outcome.Never
        → outcome_of token (asked_with r session (Commit true timeout (Some token) None) a.h).history ≡ Outcome.Pending }
    ensures renew { (token other : List ℕ) (r : RecordedState C.Config C.Node) (session : ℕ) (timeout : Option ℕ)
        (a : Asking (C.meaning content.now) r.device session (Commit true timeout None (Some other))) → is_done_reply a.h.reply ≡ true
        → outcome_of token (asked_with r session (Commit true timeout None (Some other)) a.h).history ≡ outcome_of token r.history }
    ensures confirm { (token : List ℕ) (r : RecordedState C.Config C.Node) (session : ℕ) (timeout : Option ℕ)
        (a : Asking (C.meaning content.now) r.device session (Commit false timeout None (Some token))) → is_done_reply a.h.reply ≡ true
        → outcome_of token r.history ≡ Outcome.Pending
        → outcome_of token (asked_with r session (Commit false timeout None (Some token)) a.h).history ≡ Outcome.Confirmed }
    ensures cancel { (token : List ℕ) (r : RecordedState C.Config C.Node) (session : ℕ)
        (a : Asking (C.meaning content.now) r.device session (CancelCommit (Some token))) → is_done_reply a.h.reply ≡ true
        → outcome_of token r.history ≡ Outcome.Pending
        → outcome_of token (asked_with r session (CancelCommit (Some token)) a.h).history ≡ Outcome.Undone Undoing.Cancel }
    ensures count { (token : List ℕ) (r : RecordedState C.Config C.Node) (session : ℕ) (request : Request)
        (a : Asking (C.meaning content.now) r.device session request) → is_done_reply a.h.reply ≡ true
        → commits_done token (asked_with r session request a.h).history ≡ commits_done token r.history + cond (gives_token token request) 1 0 }
{}

/// Where no commit that gives a token was done, its outcome is Never.
pub fn outcomes_need_commits()
    ensures { (token : List ℕ) (history : List Noted) → commits_done token history ≡ 0 → outcome_of token history ≡ Outcome.Never }
{}

/// What waits under a token outlives every session (RFC 6241 section 8.4.1): no outcome in a history is undone by the end of
/// one.
pub fn tokens_outlive_sessions<C: Content>(content: &C)
    ensures { (tables : TablesState C.Edit) (token : List ℕ) (running : C.Config) (history : List Noted)
        → IsLegal (C.meaning content.now) tables (fresh_device running) history → outcome_of token history ≢ Outcome.Undone Undoing.End }
{}

/// Only the manager gives a reserved token: a commit that was done and gives one stands after an entry that opened its session
/// for the manager.
pub fn reserved_tokens_are_the_managers<C: Content>(content: &C)
    ensures { (tables : TablesState C.Edit) (token : List ℕ) (running : C.Config) (history : List Noted)
        → IsLegal (C.meaning content.now) tables (fresh_device running) history → is_reserved token ≡ true
        → (place session : ℕ) (request : Request) (entry : Noted) → slice_get history place ≡ Some entry
        → entry.event ≡ DeviceEvent.Asked session request → gives_token token request ≡ true → is_done_reply entry.reply ≡ true
        → IsOpenedFor manager session (take place history) }
{}
