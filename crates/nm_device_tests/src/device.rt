//! Devices: what is told twice, what finds no memory, and what no scenario reaches.

ghost use Rattle.nm_flat.specs.FlatContent.{flat_meaning};
ghost use Rattle.nm_device.specs.Device.{IsInTime, IsSound};

use crate::proto::{commit_of, error, label};
use nm_base::{ChangeMask, ChangeNo, EditNo, MANAGER, SelectNo, SessionId, Tag};
use nm_device::PendingView;
use nm_flat::{FlatConfig, FlatContent, FlatEdit, FlatNode, NumberMap};
use nm_history::{Noted, Outcome, Recorded, Told, Undoing, outcome_of};
use nm_locks::GlobalLocks;
use nm_partial::PartialLocks;
use nm_pending::Pending;
use nm_proto::{Content, DefaultOperation, Listed, Marks, Reply, Request, Store, Tables};
use nm_sessions::Sessions;
use std::alloc::Global;
use std::process::Abort;

fn session(rt: &impl Abort, number: u32) -> SessionId {
    SessionId::new(number).expect(rt, "a session")
}

// The configuration `{"7":1}`.
fn running(rt: &impl Abort, alloc: Global) -> FlatConfig {
    let mut cells = NumberMap::new(alloc);
    cells.insert(7, 1).expect(rt, "memory");
    FlatConfig::new(alloc, cells)
}

// A device that runs it.
fn device_of(rt: &impl Abort, alloc: Global) -> Recorded<FlatContent>
    ensures sound { IsSound flat_meaning result.device }
    ensures in_time { IsInTime result.device.clock }
{
    let running = running(rt, alloc);
    FlatContent::new(alloc)
        .check(&running)
        .expect(rt, "a valid configuration");
    Recorded::new(alloc, running)
}

// One edit, of cell 7 to a value that isn't valid.
fn tables_of(rt: &impl Abort, alloc: Global) -> Tables<FlatContent> {
    let mut changes = NumberMap::new(alloc);
    changes.insert(7, Some(1_000_001)).expect(rt, "memory");
    let mut edits = Listed::new(alloc);
    edits.push(FlatEdit { changes }).expect(rt, "memory");
    Tables::new(edits, Listed::new(alloc))
}

// Whether this reply was told twice, and nothing was undone.
fn is_reply(told: Told, want: Reply) -> bool {
    told.reply.same(&want) && told.again.same(&want) && !told.undone
}

// Whether a session that is open is told this, or who asks for one.
fn is_told(
    rt: &impl Abort,
    alloc: Global,
    device: &mut Recorded<FlatContent>,
    session: Option<SessionId>,
    request: Request,
    want: Reply,
) -> bool
    requires sound { IsSound flat_meaning device.old.device }
    requires in_time { IsInTime device.old.device.clock }
    ensures sound { IsSound flat_meaning device.new.device }
    ensures in_time { IsInTime device.new.device.clock }
{
    let tables = tables_of(rt, alloc);
    let content = FlatContent::new(alloc);
    let told = device
        .serve(&content, &tables, session, &request)
        .expect(rt, "memory");
    is_reply(told.expect(rt, "an answer"), want)
}

// Whether session 1 is told this.
fn answers(
    rt: &impl Abort,
    alloc: Global,
    device: &mut Recorded<FlatContent>,
    request: Request,
    want: Reply,
) -> bool
    requires sound { IsSound flat_meaning device.old.device }
    requires in_time { IsInTime device.old.device.clock }
    ensures sound { IsSound flat_meaning device.new.device }
    ensures in_time { IsInTime device.new.device.clock }
{
    let first = session(rt, 1);
    is_told(rt, alloc, device, Some(first), request, want)
}

// A device at which the manager has asked for its session, which is session 1.
fn entered(rt: &impl Abort, alloc: Global) -> Recorded<FlatContent>
    ensures sound { IsSound flat_meaning result.device }
    ensures in_time { IsInTime result.device.clock }
{
    let user = label(rt, alloc, MANAGER);
    let opened = Reply::Opened(session(rt, 1));
    let mut device = device_of(rt, alloc);
    assert!(rt;
        is_told(
            rt,
            alloc,
            &mut device,
            None,
            Request::OpenSession { user },
            opened
        )
    );
    device
}

// A device whose session 1 asked how many rows there are.
fn asked(rt: &impl Abort, alloc: Global) -> Recorded<FlatContent>
    ensures sound { IsSound flat_meaning result.device }
    ensures in_time { IsInTime result.device.clock }
{
    let mut device = entered(rt, alloc);
    assert!(rt; answers(rt, alloc, &mut device, Request::GetConfig, Reply::Rows(1)));
    device
}

// Whether the copy of the last entry is that entry, and not the first one.
fn is_copied(rt: &impl Abort, history: &[Noted]) -> bool {
    let first = history.first().expect(rt, "first");
    let last = history.last().expect(rt, "last");
    let copied = last.copy().expect(rt, "memory");
    copied.same(last) && !copied.same(first)
}

// A history holds what was asked with its replies, and copies of its entries are equal.
#[test]
fn histories_keep_what_happened(rt: HostRuntime) {
    let device = asked(&rt, rt.alloc());
    assert!(rt; device.history().len() == 2 && is_copied(&rt, device.history()));
}

// What became of change set 1.
fn outcome_in(rt: &impl Abort, alloc: Global, history: &[Noted]) -> Outcome {
    outcome_of(&label(rt, alloc, "netm:1"), history)
}

// The commit of change set 1 is done, and pending.
fn commit_is_pending(rt: &impl Abort, alloc: Global, device: &mut Recorded<FlatContent>) -> bool
    requires sound { IsSound flat_meaning device.old.device }
    requires in_time { IsInTime device.old.device.clock }
    ensures sound { IsSound flat_meaning device.new.device }
    ensures in_time { IsInTime device.new.device.clock }
{
    let commit = commit_of(rt, alloc, 600);
    answers(rt, alloc, device, commit, Reply::Done)
        && outcome_in(rt, alloc, device.history()).is_pending()
}

// It is undone by its timer when its seconds have passed.
fn timer_undoes(rt: &impl Abort, alloc: Global, device: &mut Recorded<FlatContent>) -> bool
    requires sound { IsSound flat_meaning device.old.device }
    requires in_time { IsInTime device.old.device.clock }
    ensures sound { IsSound flat_meaning device.new.device }
{
    let timer = Outcome::Undone { by: Undoing::Timer };
    let undone = device
        .advance(&FlatContent::new(alloc), 600)
        .expect(rt, "memory");
    undone && outcome_in(rt, alloc, device.history()) == timer
}

// Whether the loss of session 1 is told so.
fn is_lost(
    rt: &impl Abort,
    alloc: Global,
    device: &mut Recorded<FlatContent>,
    want: Option<bool>,
) -> bool
    requires sound { IsSound flat_meaning device.old.device }
    ensures sound { IsSound flat_meaning device.new.device }
{
    let first = session(rt, 1);
    device
        .lose(&FlatContent::new(alloc), first)
        .expect(rt, "memory")
        == want
}

// The history tells what became of a commit under a token, and what undid it (RFC 6241 section 8.4). A session is lost once.
#[test]
fn histories_tell_what_became_of_a_commit(rt: HostRuntime) {
    let alloc = rt.alloc();
    let mut device = asked(&rt, alloc);
    assert!(rt; commit_is_pending(&rt, alloc, &mut device));
    assert!(rt; timer_undoes(&rt, alloc, &mut device));
    assert!(rt; is_lost(&rt, alloc, &mut device, Some(false)));
    assert!(rt; is_lost(&rt, alloc, &mut device, None));
    assert!(rt; device.history().len() == 5);
}

// Whether what is told of the pending commit is this.
fn is_seen(device: &Recorded<FlatContent>, want: PendingView) -> bool {
    device.device().pending_view() == want
}

// A pending commit is told by who began it, and apart from none (RFC 6241 section 8.4).
#[test]
fn pending_commits_are_seen(rt: HostRuntime) {
    let alloc = rt.alloc();
    let mut device = entered(&rt, alloc);
    let issuer = session(&rt, 1);
    assert!(rt; is_seen(&device, PendingView::None));
    assert!(rt; commit_is_pending(&rt, alloc, &mut device));
    assert!(rt; is_seen(&device, PendingView::Standing { issuer }));
}

// One entry more of a history happens, where the clock is far from its end.
#[tactic(auto, unfolding(nm_device::specs::Device::IsInTime))]
fn follow_entry(rt: &impl Abort, alloc: Global, device: &mut Recorded<FlatContent>, entry: &Noted)
    requires sound { IsSound flat_meaning device.old.device }
    ensures sound { IsSound flat_meaning device.new.device }
{
    assert!(rt; device.device().clock() <= 1_000_000);
    let tables = tables_of(rt, alloc);
    let content = FlatContent::new(alloc);
    device
        .follow(&content, &tables, &entry.event)
        .expect(rt, "memory");
}

// A device at which a history happens anew, entry by entry.
fn follower(rt: &impl Abort, alloc: Global, history: &[Noted]) -> Recorded<FlatContent> {
    let mut device = device_of(rt, alloc);
    for entry in history {
        follow_entry(rt, alloc, &mut device, entry);
    }
    device
}

fn are_same(one: &[Noted], other: &[Noted]) -> bool {
    one.len() == other.len() && one.iter().zip(other).all(|(one, other)| one.same(other))
}

// Whether a device that follows another's history has that history, and the same pending.
fn is_followed(rt: &impl Abort, alloc: Global, leader: &Recorded<FlatContent>) -> bool {
    let device = follower(rt, alloc, leader.history());
    are_same(device.history(), leader.history()) && is_seen(&device, leader.device().pending_view())
}

// A history that happens anew is the same history, while a commit is pending, and when a timer has undone it.
#[test]
fn histories_are_followed(rt: HostRuntime) {
    let alloc = rt.alloc();
    let mut device = entered(&rt, alloc);
    assert!(rt; commit_is_pending(&rt, alloc, &mut device));
    assert!(rt; is_followed(&rt, alloc, &device));
    assert!(rt; timer_undoes(&rt, alloc, &mut device));
    assert!(rt; is_lost(&rt, alloc, &mut device, Some(false)));
    assert!(rt; is_followed(&rt, alloc, &device));
}

// An edit of cell 7 to a value that isn't valid, with the mark of change set 1.
fn marking_edit(rt: &impl Abort) -> Request {
    let marks = Marks {
        add: ChangeNo::new(1).expect(rt, "a change set"),
        remove: ChangeMask(0),
    };
    Request::Edit {
        edit: EditNo(0),
        default_operation: DefaultOperation::Merge,
        marks: Some(marks),
    }
}

// A commit that waits no second is refused.
fn never_waits(rt: &impl Abort, alloc: Global, device: &mut Recorded<FlatContent>) -> bool
    requires sound { IsSound flat_meaning device.old.device }
    requires in_time { IsInTime device.old.device.clock }
    ensures sound { IsSound flat_meaning device.new.device }
    ensures in_time { IsInTime device.new.device.clock }
{
    let commit = commit_of(rt, alloc, 0);
    answers(rt, alloc, device, commit, error(Tag::InvalidValue, None))
}

// After the edit, a commit of what isn't valid is refused.
fn is_invalid(rt: &impl Abort, alloc: Global, device: &mut Recorded<FlatContent>) -> bool
    requires sound { IsSound flat_meaning device.old.device }
    requires in_time { IsInTime device.old.device.clock }
    ensures sound { IsSound flat_meaning device.new.device }
    ensures in_time { IsInTime device.new.device.clock }
{
    let edit = marking_edit(rt);
    let commit = commit_of(rt, alloc, 600);
    let refused = error(Tag::InvalidValue, Some(label(rt, alloc, "7")));
    assert!(rt; answers(rt, alloc, device, edit, Reply::Done));
    answers(rt, alloc, device, commit, refused)
}

// There is no selection 0.
fn has_no_selection(rt: &impl Abort, alloc: Global, device: &mut Recorded<FlatContent>) -> bool
    requires sound { IsSound flat_meaning device.old.device }
    requires in_time { IsInTime device.old.device.clock }
{
    let select = SelectNo(0);
    let refused = error(Tag::OperationFailed, None);
    answers(rt, alloc, device, Request::PartialLock { select }, refused)
}

// The manager too is refused a commit that waits no second, and one that isn't valid, with the mark of a change set or
// without; no selection has a number behind the last (RFC 6241 section 8.4, RFC 5717 section 2.4.1).
#[test]
fn the_manager_is_refused(rt: HostRuntime) {
    let alloc = rt.alloc();
    let mut device = entered(&rt, alloc);
    assert!(rt; never_waits(&rt, alloc, &mut device));
    assert!(rt; is_invalid(&rt, alloc, &mut device));
    assert!(rt; has_no_selection(&rt, alloc, &mut device));
}

// What the parts of a device tell that no device asks for: here the holder with the greatest number (RFC 6241 section 7.5).
fn is_held(locks: &mut GlobalLocks, least: SessionId, greatest: SessionId) -> bool {
    locks.take(Store::Candidate, greatest) == Ok(())
        && locks.take(Store::Candidate, least) == Err(greatest)
        && locks.owner(Store::Candidate) == Some(greatest)
}

#[test]
fn locks_have_their_owner(rt: HostRuntime) {
    let mut locks = GlobalLocks::new();
    assert!(rt; is_held(&mut locks, session(&rt, 1), session(&rt, 4_294_967_295)));
}

// What two authors follow up, one of them twice. It was begun over no configuration.
fn followed(rt: &impl Abort, alloc: Global) -> Pending<FlatContent> {
    let least = session(rt, 1);
    let greatest = session(rt, 4_294_967_295);
    let mut pending = Pending::<FlatContent>::begin(alloc, least, None, 600).expect(rt, "memory");
    pending.follow(greatest, None, 700).expect(rt, "memory");
    pending.follow(least, None, 800).expect(rt, "memory");
    pending
}

// Each author counts once (RFC 6241 section 8.4.1), and none is left of no configuration where it is confirmed.
#[test]
fn follow_ups_have_authors(rt: HostRuntime) {
    let pending = followed(&rt, rt.alloc());
    assert!(rt; pending.authors.len() == 2);
    assert!(rt; pending.confirm().is_none());
}

fn one_node(rt: &impl Abort, alloc: Global) -> Vec<FlatNode> {
    let mut nodes = Vec::new(alloc);
    nodes.push(FlatNode(7)).expect(rt, "memory");
    nodes
}

// A first partial lock has number 1, and is one.
#[test]
fn partial_locks_are_counted(rt: HostRuntime) {
    let alloc = rt.alloc();
    let nodes = one_node(&rt, alloc);
    let mut partials = PartialLocks::new(alloc);
    let granted = partials.grant(&FlatContent::new(alloc), session(&rt, 1), nodes);
    assert!(rt; granted == Ok(1) && partials.count() == 1);
}

// One user may have several sessions, and the end of one leaves the others.
#[test]
fn sessions_have_their_users(rt: HostRuntime) {
    let alloc = rt.alloc();
    let mut sessions = Sessions::new(alloc);
    let one = entered_by(&rt, alloc, &mut sessions, "alice");
    let two = entered_by(&rt, alloc, &mut sessions, "bob");
    let three = entered_by(&rt, alloc, &mut sessions, "alice");
    assert!(rt; is_left_once(&mut sessions, two) && sessions.count() == 2);
    assert!(rt; are_alice(&sessions, one, three));
    assert!(rt; are_nobody(&sessions, two, session(&rt, 4)) && are_cleared(&mut sessions, one));
}

fn entered_by(rt: &impl Abort, alloc: Global, sessions: &mut Sessions, user: &str) -> SessionId {
    sessions
        .enter(label(rt, alloc, user))
        .expect(rt, "a session")
}

fn are_alice(sessions: &Sessions, one: SessionId, other: SessionId) -> bool {
    is_user(sessions, one, "alice") && is_user(sessions, other, "alice")
}

fn are_nobody(sessions: &Sessions, one: SessionId, other: SessionId) -> bool {
    sessions.user_of(one).is_none() && sessions.user_of(other).is_none()
}

fn are_cleared(sessions: &mut Sessions, one: SessionId) -> bool {
    sessions.clear();
    sessions.user_of(one).is_none()
}

fn is_left_once(sessions: &mut Sessions, session: SessionId) -> bool {
    sessions.leave(session) && !sessions.leave(session)
}

fn is_user(sessions: &Sessions, session: SessionId, user: &str) -> bool {
    match sessions.user_of(session) {
        Some(label) => label.as_str() == user,
        None => false,
    }
}
