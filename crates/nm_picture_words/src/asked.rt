//! What is asked of a device, in words.

ghost use Rattle.std.specs.Prelude.{◌≡◌, ◌++◌, OnOk};
ghost use Rattle.nm_picture_words.specs.Words as spec;

use crate::phrase::Phrase;
use crate::text::{put, put_number};
use nm_base::{DEFAULT_TIMEOUT, NoMemory};
use nm_proto::{Request, Store};

fn store_word(store: Store) -> &'static str
    ensures { result.now ≡ spec.store_word store }
{
    match store {
        Store::Running => "running",
        Store::Candidate => "candidate",
    }
}

// A word, and a datastore.
fn put_store(out: &mut Vec<u8>, word: &str, store: Store) -> Result<(), NoMemory>
    ensures { OnOk result (out.new.items ≡ out.old.items ++ word.now ++ spec.store_word store) }
{
    put(out, word)?;
    put(out, store_word(store))
}

// How long a confirmed commit waits, in seconds.
fn seconds_of(timeout: Option<u32>) -> u32
    ensures { result ≡ spec.seconds_of timeout }
{
    match timeout {
        Some(timeout) => timeout,
        None => DEFAULT_TIMEOUT,
    }
}

fn confirming_words(follows: bool) -> &'static str
    ensures { result.now ≡ spec.confirming_words follows }
{
    if follows {
        "confirm the commit"
    } else {
        "commit"
    }
}

fn pending_words(follows: bool) -> &'static str
    ensures { result.now ≡ spec.pending_words follows }
{
    if follows {
        "renew, to be confirmed within "
    } else {
        "commit, to be confirmed within "
    }
}

// A commit, which follows a pending one or not.
fn put_commit(
    out: &mut Vec<u8>,
    confirmed: bool,
    timeout: Option<u32>,
    follows: bool,
) -> Result<(), NoMemory>
    ensures { OnOk result (out.new.items ≡ out.old.items ++ spec.commit_words confirmed timeout follows) }
{
    if !confirmed {
        return put(out, confirming_words(follows));
    }
    put_number(out, pending_words(follows), seconds_of(timeout))?;
    put(out, " s")
}

/// Appends what is asked of a device.
pub fn put_request(out: &mut Vec<u8>, request: &Request) -> Result<(), NoMemory>
    ensures { OnOk result (out.new.items ≡ out.old.items ++ spec.request_words request.now) }
{
    match request {
        Request::OpenSession { .. } => put(out, "open a session"),
        Request::Lock { store } => put_store(out, "lock ", *store),
        Request::Unlock { store } => put_store(out, "unlock ", *store),
        Request::PartialLock { .. } => put(out, "lock a part"),
        Request::PartialUnlock { id } => put_number(out, Phrase::ReleasePart.text(), *id),
        Request::Edit { .. } => put(out, "edit the candidate"),
        Request::Validate => put(out, "validate"),
        Request::Commit {
            confirmed,
            timeout,
            persist_id,
            ..
        } => put_commit(out, *confirmed, *timeout, persist_id.is_some()),
        Request::CancelCommit { .. } => put(out, "cancel the commit"),
        Request::Discard => put(out, "discard the edits"),
        Request::HasMark { change } => { put_number(out, Phrase::LookFor.text(), change.get()) }
        Request::GetConfig => put(out, "read running"),
        Request::Kill { session } => put_number(out, Phrase::Kill.text(), *session),
        Request::CloseSession => put(out, "close the session"),
    }
}
