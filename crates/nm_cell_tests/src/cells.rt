//! What callers ask at device 1, through its lock.

ghost use Rattle.std.specs.Prelude.{◌≡◌, Some};
ghost use Rattle.std.specs.List.{All};
ghost use Rattle.nm_flat.specs.FlatContent.{flat_meaning};

use crate::begun::{Rest, Told, World};
use crate::calls::calls;
use crate::requests::request_of;
use nm_base::SessionId;
use nm_cells::{Asked, DeviceCell, Pass, PassOwner, is_in_turn, may_operate};
use nm_chronicle::Chronicle;
use nm_flat::{FlatConfig, FlatContent, FlatEdit};
use nm_proto::{Reply, Request};
use nm_run_plan::RunName;
use std::alloc::Global;
use std::process::Abort;
use std::sync::{Mutex, Wait};
use std::thread::Threads;
use std::{mem, thread};

// Session 1, and None where a request opens one.
fn session_of(request: &Request) -> Option<SessionId> {
    match request {
        Request::OpenSession { .. } => None,
        _ => SessionId::new(1),
    }
}

// The session that a call opened.
fn opened_by(asked: &Asked) -> Option<SessionId> {
    match asked {
        Asked::Answered { reply, .. } => match reply {
            Reply::Opened(session) => Some(*session),
            _ => None,
        },
        Asked::Broken { .. } => None,
    }
}

// How a call was answered, as far as scripts ask for it. It is session 1 that is opened.
fn word_of(reply: &Reply) -> &'static str {
    match reply {
        Reply::Done => "done",
        Reply::Opened(session) => {
            if session.get() == 1 {
                return "opened";
            }
            "other"
        }
        _ => "other",
    }
}

// What a caller was told, with its place in the history.
fn told_by(asked: &Asked) -> Told {
    match asked {
        Asked::Answered { position, reply } => Told {
            word: word_of(reply),
            place: u64::from(*position),
        },
        Asked::Broken { position } => Told {
            word: "broken",
            place: u64::from(*position),
        },
    }
}

// What the caller of a run is told that asks this at device 1: the coordinator of change set 1, whose slot is lent, or an
// operator.
fn told<N: RunName<FlatContent, FlatConfig, FlatEdit>, R: Wait + Abort>(
    rt: &R,
    world: &World,
    cell: &DeviceCell<FlatContent, N>,
    rest: &mut Rest<N>,
    request: &Request,
) -> Asked
    requires changes { N.changes ≡ world.now.changes.items }
    requires content { N.run.content ≡ Some world.now.content }
    requires tables { N.run.tables ≡ world.now.tables }
    requires edits_belong { All flat_meaning.edit_belongs world.now.tables.edits }
{
    let owner = rest.pass.owner();
    let changes = world.changes.as_slice();
    if is_in_turn(changes, &owner, &rest.slot, cell.device(), request) {
        return cell
            .ask_change(
                rt,
                &world.content,
                &world.tables,
                &rest.chronicle,
                &mut rest.slot,
                &mut rest.pass,
                session_of(request),
                request,
            )
            .expect(rt, "memory");
    }
    operator_told(rt, world, cell, &rest.chronicle, &mut rest.pass, request)
}

// What an operator is told.
fn operator_told<N: RunName<FlatContent, FlatConfig, FlatEdit>, R: Wait + Abort>(
    rt: &R,
    world: &World,
    cell: &DeviceCell<FlatContent, N>,
    board: &Mutex<Chronicle<N>>,
    pass: &mut Pass,
    request: &Request,
) -> Asked
    requires content { N.run.content ≡ Some world.now.content }
    requires tables { N.run.tables ≡ world.now.tables }
    requires edits_belong { All flat_meaning.edit_belongs world.now.tables.edits }
    ensures owner { pass.new.owner ≡ pass.old.owner }
{
    let owner = pass.owner();
    assert!(rt; may_operate(&owner, request));
    cell.ask(
        rt,
        &world.content,
        &world.tables,
        board,
        pass,
        session_of(request),
        request,
    )
    .expect(rt, "memory")
}

// Whether a word is a request, which is then asked.
fn asks<N: RunName<FlatContent, FlatConfig, FlatEdit>, R: Wait + Abort>(
    rt: &R,
    alloc: Global,
    world: &World,
    cell: &DeviceCell<FlatContent, N>,
    rest: &mut Rest<N>,
    word: &str,
) -> bool
    requires changes { N.changes ≡ world.now.changes.items }
    requires content { N.run.content ≡ Some world.now.content }
    requires tables { N.run.tables ≡ world.now.tables }
    requires edits_belong { All flat_meaning.edit_belongs world.now.tables.edits }
{
    let Some(request) = request_of(rt, alloc, word) else {
        return false;
    };
    let asked = told(rt, world, cell, rest, &request);
    rest.told = told_by(&asked);
    true
}

// Whether a coordinator's request is broken. The board is told where a device is asked to commit.
fn breaks<N: RunName<FlatContent, FlatConfig, FlatEdit>, R: Wait + Abort>(
    rt: &R,
    alloc: Global,
    world: &World,
    cell: &DeviceCell<FlatContent, N>,
    rest: &mut Rest<N>,
    word: &str,
) -> bool
    requires changes { N.changes ≡ world.now.changes.items }
    requires content { N.run.content ≡ Some world.now.content }
    requires tables { N.run.tables ≡ world.now.tables }
    requires edits_belong { All flat_meaning.edit_belongs world.now.tables.edits }
{
    if word == "commit" {
        assert!(rt; calls(rt, rest, "asked", "1"));
    }
    let request = request_of(rt, alloc, word).expect(rt, "a request");
    let asked = told(rt, world, cell, rest, &request);
    matches!(asked, Asked::Broken { .. })
}

// A coordinator's first pass, up to the request that is broken, if one is. Gives how many went through.
fn first_pass<N: RunName<FlatContent, FlatConfig, FlatEdit>, R: Wait + Abort>(
    rt: &R,
    alloc: Global,
    world: &World,
    cell: &DeviceCell<FlatContent, N>,
    rest: &mut Rest<N>,
) -> usize
    requires changes { N.changes ≡ world.now.changes.items }
    requires content { N.run.content ≡ Some world.now.content }
    requires tables { N.run.tables ≡ world.now.tables }
    requires edits_belong { All flat_meaning.edit_belongs world.now.tables.edits }
{
    let words = "netm lock candidate merge validate commit";
    for (before, word) in words.split(' ').enumerate() {
        if breaks(rt, alloc, world, cell, rest, word) {
            return before;
        }
    }
    6
}

// A caller hangs up session 1, if it is an operator. Gives the place of the loss, and 0 where nothing was lost.
fn hang_up<N: RunName<FlatContent, FlatConfig, FlatEdit>, R: Wait + Abort>(
    rt: &R,
    world: &World,
    cell: &DeviceCell<FlatContent, N>,
    board: &Mutex<Chronicle<N>>,
    pass: &mut Pass,
) -> Told
    requires content { N.run.content ≡ Some world.now.content }
{
    let session = SessionId::new(1).expect(rt, "1");
    let PassOwner::Operator { .. } = pass.owner() else {
        panic!(rt; "no operator");
    };
    let ended = cell
        .hang_up(rt, &world.content, board, pass, session)
        .expect(rt, "memory");
    Told {
        word: "ended",
        place: u64::from(ended.unwrap_or(0)),
    }
}

// An operator opens a session and hangs it up.
fn come_and_go<N: RunName<FlatContent, FlatConfig, FlatEdit>, R: Wait + Abort>(
    rt: &R,
    alloc: Global,
    world: &World,
    cell: &DeviceCell<FlatContent, N>,
    board: &Mutex<Chronicle<N>>,
    operator: u32,
) -> Pass
    requires content { N.run.content ≡ Some world.now.content }
    requires tables { N.run.tables ≡ world.now.tables }
    requires edits_belong { All flat_meaning.edit_belongs world.now.tables.edits }
{
    let mut pass = Pass::new(alloc, PassOwner::Operator { operator });
    let request = request_of(rt, alloc, "alice").expect(rt, "a request");
    let asked = operator_told(rt, world, cell, board, &mut pass, &request);
    let session = opened_by(&asked).expect(rt, "a session");
    cell.hang_up(rt, &world.content, board, &mut pass, session)
        .expect(rt, "memory");
    pass
}

// Two operators come and go in two threads, and keep what they found.
fn meet<
    N: RunName<FlatContent, FlatConfig, FlatEdit> + Send + Sync,
    R: Threads + Wait + Sync + Abort,
>(rt: &R, alloc: Global, world: &World, cell: &DeviceCell<FlatContent, N>, rest: &mut Rest<N>)
    requires content { N.run.content ≡ Some world.now.content }
    requires tables { N.run.tables ≡ world.now.tables }
    requires edits_belong { All flat_meaning.edit_belongs world.now.tables.edits }
{
    let board = &rest.chronicle;
    let (first, second) = thread::join(
        rt,
        || -> Pass
            requires { (N.run.content ≡ Some world.now.content) × (N.run.tables ≡ world.now.tables) × All flat_meaning.edit_belongs world.now.tables.edits }
        { come_and_go(rt, alloc, world, cell, board, 1) },
        || -> Pass
            requires { (N.run.content ≡ Some world.now.content) × (N.run.tables ≡ world.now.tables) × All flat_meaning.edit_belongs world.now.tables.edits }
        { come_and_go(rt, alloc, world, cell, board, 2) },
    );
    drop(mem::replace(&mut rest.pass, first));
    drop(mem::replace(&mut rest.other, second));
}

// Whether a word is a call at device 1, which is then done.
pub(crate) fn serves<
    N: RunName<FlatContent, FlatConfig, FlatEdit> + Send + Sync,
    R: Threads + Wait + Sync + Abort,
>(
    rt: &R,
    alloc: Global,
    world: &World,
    cell: &DeviceCell<FlatContent, N>,
    rest: &mut Rest<N>,
    word: &str,
) -> bool
    requires changes { N.changes ≡ world.now.changes.items }
    requires content { N.run.content ≡ Some world.now.content }
    requires tables { N.run.tables ≡ world.now.tables }
    requires edits_belong { All flat_meaning.edit_belongs world.now.tables.edits }
{
    match word {
        "hang-up" => rest.told = hang_up(rt, world, cell, &rest.chronicle, &mut rest.pass),
        "again" => rest.told = hang_up(rt, world, cell, &rest.chronicle, &mut rest.other),
        "first-pass" => {
            rest.told = Told {
                word: "through",
                place: first_pass(rt, alloc, world, cell, rest) as u64,
            };
        }
        "meet" => meet(rt, alloc, world, cell, rest),
        _ => return asks(rt, alloc, world, cell, rest, word),
    }
    true
}
