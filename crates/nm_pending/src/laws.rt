//! Who may go on with what is pending, and what follow-ups add up to, in words that no test has.

ghost use Rattle.std.specs.Prelude.{◌≡◌, ◌≢◌, ◌↔◌, ℕ, List, Option, Some, None};
ghost use Rattle.nm_base.specs.declared.tag.Tag.TheVariants as tag;
ghost use Rattle.nm_pending.specs.Pending.{PendingState};
ghost use Rattle.nm_pending.specs.Fits.{commit_refusal, cancel_refusal, MayCommit, MayCancel, IsAnothers, IsNotToCancel};
ghost use Rattle.nm_pending.specs.Follow.{FollowUp, followed_all, AddsUp};

use nm_proto::Content;

/// That a commit fits exactly where it names the token that is pending, none being named where there is none, and who
/// asks began what is pending without a token (RFC 6241 section 8.4.1). In-use tells of another's pending commit without
/// a token, and invalid-value of all else.
pub fn commits_fit_by_token_or_issuer<C: Content>(content: &C)
    ensures fits { (pending : Option (PendingState C.Config)) (session : ℕ) (named : Option (List ℕ)) →
        (commit_refusal pending session named ≡ None) ↔ MayCommit pending session named }
    ensures in_use { (pending : Option (PendingState C.Config)) (session : ℕ) (named : Option (List ℕ)) →
        (commit_refusal pending session named ≡ Some tag.InUse) ↔ IsAnothers pending session named }
    ensures invalid { (pending : Option (PendingState C.Config)) (session : ℕ) (named : Option (List ℕ)) →
        commit_refusal pending session named ≢ None → commit_refusal pending session named ≢ Some tag.InUse
        → commit_refusal pending session named ≡ Some tag.InvalidValue }
{}

/// That a cancel fits exactly where a commit is pending, the token is named that it has, none where it has none, and
/// who asks began it where it has none (RFC 6241 section 8.4.4.1). Operation-failed tells of another's pending commit
/// without a token, and that none is pending where none is named, and invalid-value of all else.
pub fn cancels_fit_by_token_or_issuer<C: Content>(content: &C)
    ensures fits { (pending : Option (PendingState C.Config)) (session : ℕ) (named : Option (List ℕ)) →
        (cancel_refusal pending session named ≡ None) ↔ MayCancel pending session named }
    ensures failed { (pending : Option (PendingState C.Config)) (session : ℕ) (named : Option (List ℕ)) →
        (cancel_refusal pending session named ≡ Some tag.OperationFailed) ↔ IsNotToCancel pending session named }
    ensures invalid { (pending : Option (PendingState C.Config)) (session : ℕ) (named : Option (List ℕ)) →
        cancel_refusal pending session named ≢ None → cancel_refusal pending session named ≢ Some tag.OperationFailed
        → cancel_refusal pending session named ≡ Some tag.InvalidValue }
{}

/// That however often a confirmed commit is followed up, an undoing gives what was before the first of all, at the
/// deadline that the last set, under the last token that was given, and its authors are exactly those who committed
/// (RFC 6241 section 8.4.1).
pub fn follow_ups_add_up<C: Content>(content: &C)
    ensures { (pending : PendingState C.Config) (ups : List FollowUp) → AddsUp pending ups (followed_all pending ups) }
{}
