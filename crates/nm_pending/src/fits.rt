//! What is pending, where anything is: who may go on with it, by which token, and what undoes it.

ghost use Rattle.std.specs.Prelude.{◌≡◌};
ghost use Rattle.nm_pending.specs.Pending.{is_stranger, ends_with, ends_at};
ghost use Rattle.nm_pending.specs.Fits.{commit_refusal, cancel_refusal, refusal_by, token_refusal, issuer_refusal};

use crate::pending::Pending;
use nm_base::{Label, SessionId, Tag};
use nm_proto::Content;

/// Whether a commit is pending of which the session is no author.
pub fn is_stranger<C: Content>(pending: &Option<Pending<C>>, session: SessionId) -> bool
    ensures { result ≡ is_stranger pending.now session }
{
    match pending {
        Some(pending) => !pending.is_author(session),
        None => false,
    }
}

/// Whether the end of a session undoes what is pending (RFC 6241 section 8.4.1).
pub fn ends_with<C: Content>(pending: &Option<Pending<C>>, session: SessionId) -> bool
    ensures { result ≡ ends_with pending.now session }
{
    match pending {
        Some(pending) => pending.is_tied(session),
        None => false,
    }
}

/// Whether what is pending is undone at this clock, in seconds (RFC 6241 section 8.4.1).
pub fn ends_at<C: Content>(pending: &Option<Pending<C>>, now: u64) -> bool
    ensures { result ≡ ends_at pending.now now }
{
    match pending {
        Some(pending) => pending.due(now),
        None => false,
    }
}

/// Why a commit that names this token doesn't fit what is pending (RFC 6241 section 8.4.1).
pub fn commit_refusal<C: Content>(
    pending: &Option<Pending<C>>,
    session: SessionId,
    persist_id: &Option<Label>,
) -> Option<Tag>
    ensures { result ≡ commit_refusal pending.now session persist_id.now }
{
    match (pending, persist_id) {
        (None, None) => None,
        (None, Some(_)) => Some(Tag::InvalidValue),
        (Some(pending), _) => refusal_by(pending, session, persist_id, Tag::InUse),
    }
}

/// Why a cancel that names this token doesn't fit what is pending (RFC 6241 section 8.4.4.1).
pub fn cancel_refusal<C: Content>(
    pending: &Option<Pending<C>>,
    session: SessionId,
    persist_id: &Option<Label>,
) -> Option<Tag>
    ensures { result ≡ cancel_refusal pending.now session persist_id.now }
{
    match (pending, persist_id) {
        (None, None) => Some(Tag::OperationFailed),
        (None, Some(_)) => Some(Tag::InvalidValue),
        (Some(pending), _) => refusal_by(pending, session, persist_id, Tag::OperationFailed),
    }
}

// Why who names this token may not go on with what is pending.
fn refusal_by<C: Content>(
    pending: &Pending<C>,
    session: SessionId,
    persist_id: &Option<Label>,
    other: Tag,
) -> Option<Tag>
    ensures { result ≡ refusal_by pending.now.token pending.now.issuer session persist_id.now other }
{
    match &pending.persist {
        Some(token) => token_refusal(token, persist_id),
        None => issuer_refusal(pending.issuer, session, persist_id, other),
    }
}

// The token that is pending has to be named.
fn token_refusal(token: &Label, persist_id: &Option<Label>) -> Option<Tag>
    ensures { result ≡ token_refusal token.now persist_id.now }
{
    match persist_id {
        Some(named) if token.same(named) => None,
        _ => Some(Tag::InvalidValue),
    }
}

// A pending commit without a token is its issuer's, and this tag answers anybody else.
fn issuer_refusal(
    issuer: SessionId,
    session: SessionId,
    persist_id: &Option<Label>,
    other: Tag,
) -> Option<Tag>
    ensures { result ≡ issuer_refusal issuer session persist_id.now other }
{
    match persist_id {
        Some(_) => Some(Tag::InvalidValue),
        None if issuer.get() == session.get() => None,
        None => Some(other),
    }
}
