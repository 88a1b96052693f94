//! Messages and events: their copies, their words, and what of them is equal.

use nm_base::{ChangeMask, ChangeNo, DeviceMask, DeviceNo, EditNo, Label, SelectNo, Tag};
use nm_flat::{FlatConfig, FlatContent, FlatEdit, FlatNode, NumberMap};
use nm_proto::{
    AbortCause, Content, DefaultOperation, Entry, Event, Listed, Marks, PlanEntry, PlanFault,
    Reply, Request, Show, Tables, Verdict,
};
use std::alloc::Global;
use std::process::Abort;

/// The label of a text.
pub fn label(rt: &impl Abort, alloc: Global, text: &str) -> Label {
    Label::new(alloc, text).expect(rt, "memory")
}

fn change(rt: &impl Abort, number: u32) -> ChangeNo {
    ChangeNo::new(number).expect(rt, "a change set")
}

fn device(rt: &impl Abort, number: u8) -> DeviceNo {
    DeviceNo::new(number).expect(rt, "a device")
}

/// A confirmed commit of change set 1 that waits so many seconds.
pub fn commit_of(rt: &impl Abort, alloc: Global, seconds: u32) -> Request {
    Request::Commit {
        confirmed: true,
        timeout: Some(seconds),
        persist: Some(label(rt, alloc, "netm:1")),
        persist_id: None,
    }
}

fn is_request_copied(rt: &impl Abort, request: &Request) -> bool {
    request.copy().expect(rt, "memory").same(request)
}

#[test]
fn requests_are_copied(rt: HostRuntime) {
    let commit = commit_of(&rt, rt.alloc(), 600);
    assert!(rt; is_request_copied(&rt, &commit) && !commit.same(&Request::Validate));
}

fn has_word(request: Request, want: &str) -> bool {
    request.word().text() == want
}

// The words of requests that only operators send, as the messages of a scenario have them.
#[test]
fn requests_have_their_words(rt: HostRuntime) {
    assert!(rt; has_word(Request::GetConfig, "get-config"));
    assert!(rt; has_word(Request::PartialUnlock { id: 1 }, "partial-unlock"));
    assert!(rt; has_word(Request::Kill { session: 2 }, "kill"));
}

// Alice's session at device 2, opened by an operator.
fn opening(rt: &impl Abort, alloc: Global) -> Event {
    let user = label(rt, alloc, "alice");
    Event::Foreign {
        operator: 1,
        device: device(rt, 2),
        request: Request::OpenSession { user },
    }
}

fn is_event_copied(rt: &impl Abort, event: &Event) -> bool {
    event.copy().expect(rt, "memory").same(event)
}

fn is_other_event(event: &Event, other: Event) -> bool {
    !event.same(&other)
}

#[test]
fn events_are_copied(rt: HostRuntime) {
    let event = opening(&rt, rt.alloc());
    assert!(rt; is_event_copied(&rt, &event) && is_other_event(&event, Event::Crash));
}

// A connection that is renewed is told apart from one that breaks.
#[test]
fn events_are_told_apart(rt: HostRuntime) {
    let change = change(&rt, 3);
    let device = device(&rt, 2);
    assert!(rt;
        is_other_event(
            &Event::Renew { change, device },
            Event::Break { change, device }
        )
    );
}

fn is_reply_copied(rt: &impl Abort, reply: &Reply) -> bool {
    reply.copy().expect(rt, "memory").same(reply)
}

/// An error that no session stands in the way of.
pub fn error(tag: Tag, path: Option<Label>) -> Reply {
    Reply::Error {
        tag,
        session: None,
        path,
    }
}

#[test]
fn replies_are_copied(rt: HostRuntime) {
    let error = error(Tag::InvalidValue, Some(label(&rt, rt.alloc(), "7")));
    assert!(rt; is_reply_copied(&rt, &error) && !error.same(&Reply::Mark(true)));
}

// A lock that device 32 refuses.
fn refused(rt: &impl Abort) -> AbortCause {
    AbortCause::Refused {
        device: device(rt, 32),
        tag: Tag::LockDenied,
    }
}

fn aborted(rt: &impl Abort, number: u32) -> Entry {
    Entry::Decided {
        change: change(rt, number),
        verdict: Verdict::Abort(refused(rt)),
    }
}

// Whether an entry is told apart from the end of a change set, from its commit, and from another entry.
fn is_apart(entry: &Entry, change: ChangeNo, other: &Entry) -> bool {
    let kept = DeviceMask(0);
    let verdict = Verdict::Commit;
    entry.same(entry)
        && !entry.same(&Entry::Ended { change, kept })
        && !entry.same(&Entry::Decided { change, verdict })
        && !entry.same(other)
}

// What aborts a change set, its verdict and its entries are told apart from others: here a lock that device 32 refuses.
#[test]
fn entries_are_told_apart(rt: HostRuntime) {
    let device = device(&rt, 32);
    assert!(rt; !refused(&rt).same(&AbortCause::Broken { device }));
    assert!(rt; !Verdict::Abort(AbortCause::Forgotten).same(&Verdict::Abort(refused(&rt))));
    assert!(rt; is_apart(&aborted(&rt, 1), change(&rt, 1), &aborted(&rt, 2)));
}

// Whether a fault at a request is the drop of the second one.
fn is_second_drop(at: u32, fault: PlanFault) -> bool {
    let second = PlanEntry {
        at: 2,
        fault: PlanFault::Drop,
    };
    second.same(PlanEntry { at, fault })
}

// Two planned faults are equal exactly where they come at one request and do the same.
#[test]
fn faults_are_told_apart(rt: HostRuntime) {
    assert!(rt; is_second_drop(2, PlanFault::Drop) && !is_second_drop(3, PlanFault::Drop));
    assert!(rt; !is_second_drop(2, PlanFault::Cut) && !is_second_drop(2, PlanFault::Restart));
    assert!(rt; !is_second_drop(2, PlanFault::Advance { seconds: 5 }));
}

fn two_numbers(rt: &impl Abort, alloc: Global) -> NumberMap<u64> {
    let mut map = NumberMap::new(alloc);
    map.insert(9, 3).expect(rt, "memory");
    map.insert(7, 1).expect(rt, "memory");
    map
}

// A map gives what stood at a number before.
#[test]
fn maps_give_what_stood(rt: HostRuntime) {
    let mut map = two_numbers(&rt, rt.alloc());
    assert!(rt; map.insert(7, 4) == Ok(Some(1)) && map.remove(9) == Some(3));
}

fn listed(rt: &impl Abort, alloc: Global) -> Listed<u32> {
    let mut list = Listed::new(alloc);
    list.push(2u32).expect(rt, "memory");
    list.push(3).expect(rt, "memory");
    list.push_front(1).expect(rt, "memory");
    list
}

fn gives_its_items(list: &mut Listed<u32>) -> bool {
    list.len() == 3
        && list.get(1).copied() == Some(2)
        && list.take_first() == Some(1)
        && list.as_slice() == [2, 3].as_slice()
}

// A list gives its items in order, the first of them put in last.
#[test]
fn lists_give_their_items(rt: HostRuntime) {
    let mut list = listed(&rt, rt.alloc());
    assert!(rt; gives_its_items(&mut list));
    assert!(rt; list.into_vec().as_slice() == [2, 3].as_slice());
}

// Behind the last edit and the last selection of the tables there is none.
#[test]
fn tables_end(rt: HostRuntime) {
    let alloc = rt.alloc();
    let tables = Tables::<FlatContent>::new(Listed::new(alloc), Listed::new(alloc));
    assert!(rt; tables.edit(EditNo(0)).is_none() && tables.select(SelectNo(0)).is_none());
}

// An edit of no cells.
fn no_changes(alloc: Global) -> FlatEdit {
    FlatEdit {
        changes: NumberMap::new(alloc),
    }
}

// A configuration after an edit of no cells that takes the marks of `remove` away, and then adds one.
fn marked(rt: &impl Abort, alloc: Global, config: FlatConfig, add: u32, remove: u64) -> FlatConfig {
    let marks = Marks {
        add: change(rt, add),
        remove: ChangeMask(remove),
    };
    let edit = no_changes(alloc);
    let content = FlatContent::new(alloc);
    let applied = content.apply(&config, &edit, DefaultOperation::Merge, Some(marks));
    applied.expect(rt, "applied")
}

fn unmarked(alloc: Global) -> FlatConfig {
    FlatConfig::new(alloc, NumberMap::new(alloc))
}

// The marks 64 and 2 come one after another; then 64 and 1 go, and 1 comes.
fn marked_anew(rt: &impl Abort, alloc: Global) -> FlatConfig {
    let first = marked(rt, alloc, unmarked(alloc), 64, 0);
    let both = marked(rt, alloc, first, 2, 0);
    marked(rt, alloc, both, 1, 0x8000_0000_0000_0001)
}

fn is_shown(rt: &impl Abort, alloc: Global, config: &FlatConfig, want: &[u8]) -> bool {
    let text = FlatContent::new(alloc).text(config).expect(rt, "memory");
    text.as_slice() == want
}

// A mark that goes and comes in one edit is there.
#[test]
fn marks_go_and_come(rt: HostRuntime) {
    let alloc = rt.alloc();
    let config = marked_anew(&rt, alloc);
    assert!(rt; is_shown(&rt, alloc, &config, b"{\"marks\":[1,2]}"));
    assert!(rt; FlatContent::new(alloc).has_mark(&config, change(&rt, 2)));
}

// Whether two configurations have other marks, and the same at a cell that isn't there.
fn differ_in_marks(alloc: Global, one: &FlatConfig, two: &FlatConfig) -> bool {
    let content = FlatContent::new(alloc);
    content.same_at(one, two, &FlatNode(9))
        && content.same_marks(one, one)
        && !content.same_marks(one, two)
}

#[test]
fn marks_are_compared(rt: HostRuntime) {
    let alloc = rt.alloc();
    let one = marked(&rt, alloc, unmarked(alloc), 1, 0);
    let two = marked_anew(&rt, alloc);
    assert!(rt; differ_in_marks(alloc, &one, &two));
}
