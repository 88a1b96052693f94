//! What came of each event, as text.

ghost use Rattle.std.specs.Prelude.{◌≡◌, ◌++◌, OnOk, decimal, codes};
ghost use Rattle.nm_report.specs.Trace.{store_word, store_text, request_text, session_text, timeout_text, path_text, truth_text, error_text, reply_text, refused_text, cause_text, verdict_text, undone_text, ended_so, sent_text, happened_text, trace_line, trace_lines, trace_text};

use crate::text::put;
use nm_base::{DeviceNo, Label, NoMemory, Tag, write_decimal};
use nm_lines::put_printed;
use nm_proto::{AbortCause, Reply, Request, Store, Verdict};
use nm_world::{Happened, TraceEntry};

fn store_word(store: Store) -> &'static str
    ensures { result.now ≡ store_word store }
{
    match store {
        Store::Running => "running",
        Store::Candidate => "candidate",
    }
}

// The datastore of a lock, behind its word.
fn write_store(out: &mut Vec<u8>, request: &Request) -> Result<(), NoMemory>
    ensures { OnOk result (out.new.items ≡ out.old.items ++ store_text request.now) }
{
    match request {
        Request::Lock { store } | Request::Unlock { store } => {
            put(out, " ")?;
            put(out, store_word(*store))
        }
        _ => Ok(()),
    }
}

// The word of a request, and of a lock its datastore.
fn write_request(out: &mut Vec<u8>, request: &Request) -> Result<(), NoMemory>
    ensures { OnOk result (out.new.items ≡ out.old.items ++ request_text request.now) }
{
    put(out, request.word().text())?;
    write_store(out, request)
}

fn write_number(out: &mut Vec<u8>, word: &str, number: u32) -> Result<(), NoMemory>
    ensures { OnOk result (out.new.items ≡ out.old.items ++ word.now ++ decimal number) }
{
    put(out, word)?;
    write_decimal(u64::from(number), out)?;
    Ok(())
}

pub(crate) fn write_session(out: &mut Vec<u8>, session: Option<u32>) -> Result<(), NoMemory>
    ensures { OnOk result (out.new.items ≡ out.old.items ++ session_text session) }
{
    match session {
        Some(session) => write_number(out, " session ", session),
        None => Ok(()),
    }
}

pub(crate) fn write_timeout(out: &mut Vec<u8>, timeout: Option<u32>) -> Result<(), NoMemory>
    ensures { OnOk result (out.new.items ≡ out.old.items ++ timeout_text timeout) }
{
    match timeout {
        Some(seconds) => write_number(out, " timeout ", seconds),
        None => Ok(()),
    }
}

fn write_path(out: &mut Vec<u8>, path: &Option<Label>) -> Result<(), NoMemory>
    ensures { OnOk result (out.new.items ≡ out.old.items ++ path_text path.now) }
{
    match path {
        Some(path) => {
            put(out, " path ")?;
            put_printed(out, path.as_str().as_bytes())
        }
        None => Ok(()),
    }
}

fn write_error(
    out: &mut Vec<u8>,
    tag: Tag,
    session: Option<u32>,
    path: &Option<Label>,
) -> Result<(), NoMemory>
    ensures { OnOk result (out.new.items ≡ out.old.items ++ error_text tag session path.now) }
{
    put(out, "error ")?;
    put(out, tag.text())?;
    write_session(out, session)?;
    write_path(out, path)
}

fn truth_word(there: bool) -> &'static str
    ensures { result.now ≡ truth_text there }
{
    if there { "true" } else { "false" }
}

fn write_truth(out: &mut Vec<u8>, there: bool) -> Result<(), NoMemory>
    ensures { OnOk result (out.new.items ≡ out.old.items ++ codes "mark " ++ truth_text there) }
{
    put(out, "mark ")?;
    put(out, truth_word(there))
}

/// Appends a reply.
pub fn write_reply(out: &mut Vec<u8>, reply: &Reply) -> Result<(), NoMemory>
    ensures { OnOk result (out.new.items ≡ out.old.items ++ reply_text reply.now) }
{
    match reply {
        Reply::Done => put(out, "ok"),
        Reply::Opened(session) => write_number(out, "opened ", session.get()),
        Reply::LockId(id) => write_number(out, "lock-id ", *id),
        Reply::Mark(there) => write_truth(out, *there),
        Reply::Rows(count) => write_number(out, "rows ", *count),
        Reply::Error { tag, session, path } => write_error(out, *tag, *session, path),
    }
}

fn write_refused(out: &mut Vec<u8>, device: DeviceNo, tag: Tag) -> Result<(), NoMemory>
    ensures { OnOk result (out.new.items ≡ out.old.items ++ refused_text device tag) }
{
    write_number(out, "refused ", u32::from(device.get()))?;
    put(out, " ")?;
    put(out, tag.text())
}

fn write_cause(out: &mut Vec<u8>, cause: &AbortCause) -> Result<(), NoMemory>
    ensures { OnOk result (out.new.items ≡ out.old.items ++ cause_text cause.now) }
{
    match cause {
        AbortCause::Refused { device, tag } => write_refused(out, *device, *tag),
        AbortCause::Broken { device } => { write_number(out, "broken ", u32::from(device.get())) }
        AbortCause::Forgotten => put(out, "forgotten"),
        AbortCause::Lapsed { device } => { write_number(out, "lapsed ", u32::from(device.get())) }
    }
}

/// Appends a verdict.
pub fn write_verdict(out: &mut Vec<u8>, verdict: &Verdict) -> Result<(), NoMemory>
    ensures { OnOk result (out.new.items ≡ out.old.items ++ verdict_text verdict.now) }
{
    match verdict {
        Verdict::Commit => put(out, "commit"),
        Verdict::Abort(cause) => {
            put(out, "abort ")?;
            write_cause(out, cause)
        }
    }
}

fn undone_word(undone: bool) -> &'static str
    ensures { result.now ≡ undone_text undone }
{
    if undone { " undone" } else { "" }
}

fn write_sent(
    out: &mut Vec<u8>,
    device: DeviceNo,
    link: u32,
    request: &Request,
) -> Result<(), NoMemory>
    ensures { OnOk result (out.new.items ≡ out.old.items ++ sent_text device link request.now) }
{
    write_number(out, "sent ", u32::from(device.get()))?;
    write_number(out, " ", link)?;
    put(out, " ")?;
    write_request(out, request)
}

fn write_replied(out: &mut Vec<u8>, reply: &Reply, undone: bool) -> Result<(), NoMemory>
    ensures { OnOk result (out.new.items ≡ out.old.items ++ codes "reply " ++ reply_text reply.now ++ undone_text undone) }
{
    put(out, "reply ")?;
    write_reply(out, reply)?;
    put(out, undone_word(undone))
}

fn write_now(out: &mut Vec<u8>, clock: u64, undone: bool) -> Result<(), NoMemory>
    ensures { OnOk result (out.new.items ≡ out.old.items ++ codes "now " ++ decimal clock ++ undone_text undone) }
{
    put(out, "now ")?;
    write_decimal(clock, out)?;
    put(out, undone_word(undone))
}

// A word, and whether a pending commit was undone.
fn write_ended(out: &mut Vec<u8>, word: &str, undone: bool) -> Result<(), NoMemory>
    ensures { OnOk result (out.new.items ≡ out.old.items ++ ended_so word.now undone) }
{
    put(out, word)?;
    put(out, undone_word(undone))
}

fn write_decided(out: &mut Vec<u8>, verdict: &Verdict) -> Result<(), NoMemory>
    ensures { OnOk result (out.new.items ≡ out.old.items ++ codes "decided " ++ verdict_text verdict.now) }
{
    put(out, "decided ")?;
    write_verdict(out, verdict)
}

fn write_happened(out: &mut Vec<u8>, what: &Happened) -> Result<(), NoMemory>
    ensures { OnOk result (out.new.items ≡ out.old.items ++ happened_text what.now) }
{
    match what {
        Happened::Idle => put(out, "idle"),
        Happened::Started => put(out, "started"),
        Happened::Sent {
            device,
            link,
            request,
        } => write_sent(out, *device, *link, request),
        Happened::Decided(verdict) => write_decided(out, verdict),
        Happened::Ended => put(out, "ended"),
        Happened::Replied { reply, undone } => write_replied(out, reply, *undone),
        Happened::Handled => put(out, "handled"),
        Happened::Broken => put(out, "broken"),
        Happened::Lost { undone } => write_ended(out, "lost", *undone),
        Happened::Left { undone } => write_ended(out, "left", *undone),
        Happened::Now { clock, undone } => write_now(out, *clock, *undone),
        Happened::Restarted { undone } => write_ended(out, "restarted", *undone),
        Happened::Forgot => put(out, "forgot"),
        Happened::Crashed => put(out, "crashed"),
    }
}

fn write_trace_line(out: &mut Vec<u8>, number: u64, what: &Happened) -> Result<(), NoMemory>
    ensures { OnOk result (out.new.items ≡ out.old.items ++ trace_line number what.now) }
{
    write_decimal(number, out)?;
    put(out, " ")?;
    write_happened(out, what)?;
    put(out, "\n")
}

fn write_lines(out: &mut Vec<u8>, trail: &[TraceEntry]) -> Result<(), NoMemory>
    ensures { OnOk result (out.new.items ≡ out.old.items ++ trace_lines 1 trail.now) }
{
    for (place, passed) in trail.iter().enumerate() {
        write_trace_line(out, place as u64 + 1, &passed.happened)?;
    }
    Ok(())
}

/// A line for each event, where they are asked for.
pub fn write_trace(out: &mut Vec<u8>, trace: bool, trail: &[TraceEntry]) -> Result<(), NoMemory>
    ensures { OnOk result (out.new.items ≡ out.old.items ++ trace_text trace trail.now) }
{
    if trace {
        write_lines(out, trail)
    } else {
        Ok(())
    }
}
