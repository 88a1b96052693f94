//! The tables of scripts.

use crate::play::play;

// The first confirmed commit that is done under the token while nothing waits begins, and what ends it stays (RFC 6241
// section 8.4): 1 it waits, 2 confirmed, 3 undone, 4 cancelled. The board says the same; only what is confirmed without
// a Commit or cancelled without an Abort is a stray there, and stays 1.
const HISTORIES: &str = r#"
asked:2 => followed=0 board:2=0 strays=0
asked:2 refused => followed=0 board:2=0 strays=0
asked:2 expired confirmed => followed=0 board:2=0 strays=0
asked:2 another began => followed=0 board:2=0 strays=0
asked:2 another began confirmed => followed=0 board:2=0 strays=0
asked:2 began => followed=1 board:2=1 strays=0
asked:2 refused began => followed=1 board:2=1 strays=0
asked:2 began renewed waited => followed=1 board:2=1 strays=0
asked:2 began another => followed=1 board:2=1 strays=0
asked:2 another confirmed began => followed=1 board:2=1 strays=0
asked:2 another lost began => followed=1 board:2=1 strays=0
asked:2 began acked:2 decided:commit confirmed => followed=2 board:2=2 strays=0
asked:2 began renewed acked:2 decided:commit confirmed => followed=2 board:2=2 strays=0
asked:2 began acked:2 decided:commit confirmed began expired => followed=2 board:2=2 strays=0
asked:2 began expired => followed=3 board:2=3 strays=0
asked:2 began restarted => followed=3 board:2=3 strays=0
asked:2 began lost => followed=3 board:2=3 strays=0
asked:2 began killed => followed=3 board:2=3 strays=0
asked:2 began closed => followed=3 board:2=3 strays=0
asked:2 began acked:2 decided:commit expired confirmed => followed=3 board:2=3 strays=0
asked:2 began expired began decided:abort cancelled => followed=3 board:2=3 strays=0
asked:2 began decided:abort cancelled => followed=4 board:2=4 strays=0
asked:2 began decided:abort cancelled began confirmed => followed=4 board:2=4 strays=0
asked:2 began confirmed => followed=2 board:2=1 strays=1
asked:2 began acked:2 decided:commit cancelled => followed=4 board:2=1 strays=1
"#;

#[test]
fn phases_go_along_histories(rt: HostRuntime) {
    play(&rt, rt.alloc(), "2", false, HISTORIES);
}

// A board tells what was called, and a call whose condition doesn't hold leaves it and is kept beside it. In the first
// of these both devices acknowledge, Commit is decided, one confirms, and a restart undoes the other. In the second
// Commit is decided while no device acknowledged, a cancel finds nothing, and a device does a commit that it wasn't
// asked for.
const CALLS: &str = r#"
asked:2 applied:2 acked:2 asked:3 applied:3 acked:3 decided:commit confirmed:2 undone:3 => board:2=2 board:3=3 asked=2 acked=2 decided=1 commit=1 strays=0
decided:commit cancelled:2 applied:2 => board:2=0 asked=0 decided=0 strays=3
"#;

#[test]
fn a_board_tells_what_was_called(rt: HostRuntime) {
    play(&rt, rt.alloc(), "2 3", false, CALLS);
}

// The pass of an operator holds what happened, at the places of the history, and a session is hung up once. Two
// operators at one device, each in a thread of its own, find all that they asked in the one history.
const OPERATORS: &str = r#"
alice opened=1 lock done=2 hang-up ended=3 again ended=0 => history=3 pass=3 found=1
meet => history=4 pass=2 other=2 found=1
"#;

#[test]
fn operators_share_a_history(rt: HostRuntime) {
    play(&rt, rt.alloc(), "1", false, OPERATORS);
}

// A call that a drop broke is told the place of the loss, and so is a call after it, which changes nothing.
//
// At each place of a first pass a drop loses the session in place of the request, but at the opening, which is done
// first; a cut does the request and then loses the session; a restart comes in place of the request; and an advance
// comes before it and breaks nothing. The change set has begun where its commit was done, which the board knows, and is
// acknowledged where the reply came.
const COORDINATORS: &str = r#"
drop:2 advance:3 | netm opened=1 lock broken=2 discard broken=2 => history=2 pass=2 found=1 lost=1
drop:1 | first-pass through=0 => history=2 pass=2 clock=0 phase=0 board:1=0 strays=0 slot=0
drop:2 | first-pass through=1 => history=2 pass=2 clock=0 phase=0 board:1=0 strays=0 slot=0
drop:3 | first-pass through=2 => history=3 pass=3 clock=0 phase=0 board:1=0 strays=0 slot=0
drop:4 | first-pass through=3 => history=4 pass=4 clock=0 phase=0 board:1=0 strays=0 slot=0
drop:5 | first-pass through=4 => history=5 pass=5 clock=0 phase=0 board:1=0 strays=0 slot=0
drop:6 | first-pass through=5 => history=6 pass=6 clock=0 phase=0 board:1=0 strays=0 slot=0
cut:1 | first-pass through=0 => history=2 pass=2 clock=0 phase=0 board:1=0 strays=0 slot=0
cut:2 | first-pass through=1 => history=3 pass=3 clock=0 phase=0 board:1=0 strays=0 slot=0
cut:3 | first-pass through=2 => history=4 pass=4 clock=0 phase=0 board:1=0 strays=0 slot=0
cut:4 | first-pass through=3 => history=5 pass=5 clock=0 phase=0 board:1=0 strays=0 slot=0
cut:5 | first-pass through=4 => history=6 pass=6 clock=0 phase=0 board:1=0 strays=0 slot=0
cut:6 | first-pass through=5 => history=7 pass=7 clock=0 phase=1 board:1=1 strays=0 slot=0
restart:1 | first-pass through=0 => history=1 pass=1 clock=0 phase=0 board:1=0 strays=0 slot=0
restart:2 | first-pass through=1 => history=2 pass=2 clock=0 phase=0 board:1=0 strays=0 slot=0
restart:3 | first-pass through=2 => history=3 pass=3 clock=0 phase=0 board:1=0 strays=0 slot=0
restart:4 | first-pass through=3 => history=4 pass=4 clock=0 phase=0 board:1=0 strays=0 slot=0
restart:5 | first-pass through=4 => history=5 pass=5 clock=0 phase=0 board:1=0 strays=0 slot=0
restart:6 | first-pass through=5 => history=6 pass=6 clock=0 phase=0 board:1=0 strays=0 slot=0
advance:1 | first-pass through=6 => history=7 pass=6 clock=5 phase=1 board:1=1 strays=0 slot=1
advance:2 | first-pass through=6 => history=7 pass=6 clock=5 phase=1 board:1=1 strays=0 slot=1
advance:3 | first-pass through=6 => history=7 pass=6 clock=5 phase=1 board:1=1 strays=0 slot=1
advance:4 | first-pass through=6 => history=7 pass=6 clock=5 phase=1 board:1=1 strays=0 slot=1
advance:5 | first-pass through=6 => history=7 pass=6 clock=5 phase=1 board:1=1 strays=0 slot=1
advance:6 | first-pass through=6 => history=7 pass=6 clock=5 phase=1 board:1=1 strays=0 slot=1
"#;

#[test]
fn each_fault_breaks_its_call(rt: HostRuntime) {
    play(&rt, rt.alloc(), "1", true, COORDINATORS);
}
