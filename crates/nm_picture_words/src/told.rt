//! What a device answers, in words.

ghost use Rattle.std.specs.Prelude.{◌≡◌, ◌++◌, OnOk};
ghost use Rattle.nm_picture_words.specs.Words as spec;

use crate::phrase::Phrase;
use crate::text::{put, put_number};
use nm_base::{NoMemory, Tag, write_decimal};
use nm_proto::Reply;

// Who stands in the way, where an error names somebody. 0 is no session (RFC 6241 section 7.5).
fn put_holder(out: &mut Vec<u8>, session: Option<u32>) -> Result<(), NoMemory>
    ensures { OnOk result (out.new.items ≡ out.old.items ++ spec.holder_words session) }
{
    match session {
        Some(0) => put(out, ", no session"),
        Some(session) => put_number(out, ", session ", session),
        None => Ok(()),
    }
}

fn put_refusal(out: &mut Vec<u8>, tag: Tag, session: Option<u32>) -> Result<(), NoMemory>
    ensures { OnOk result (out.new.items ≡ out.old.items ++ spec.refusal_words tag session) }
{
    put(out, "refused: ")?;
    put(out, tag.text())?;
    put_holder(out, session)
}

fn mark_words(there: bool) -> &'static str
    ensures { result.now ≡ spec.mark_words there }
{
    if there {
        "it is there"
    } else {
        "it isn't there"
    }
}

fn put_rows(out: &mut Vec<u8>, count: u32) -> Result<(), NoMemory>
    ensures { OnOk result (out.new.items ≡ out.old.items ++ spec.rows_words count) }
{
    write_decimal(u64::from(count), out)?;
    put(out, " rows")
}

/// Appends what a device answers: of an error its tag, and the session that stands in the way.
pub fn put_reply(out: &mut Vec<u8>, reply: &Reply) -> Result<(), NoMemory>
    ensures { OnOk result (out.new.items ≡ out.old.items ++ spec.reply_words reply.now) }
{
    match reply {
        Reply::Done => put(out, "ok"),
        Reply::Opened(session) => put_number(out, Phrase::Session.text(), session.get()),
        Reply::LockId(id) => put_number(out, Phrase::PartialLock.text(), *id),
        Reply::Mark(there) => put(out, mark_words(*there)),
        Reply::Rows(count) => put_rows(out, *count),
        Reply::Error { tag, session, .. } => put_refusal(out, *tag, *session),
    }
}
