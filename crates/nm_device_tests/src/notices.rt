//! Streams of notices with several subscribers. A command has one, who takes each notice as it comes.

ghost use Rattle.std.specs.Prelude.{◌≡◌, ◌<◌, ◌+◌};

use nm_base::SessionId;
use nm_device::PendingView;
use nm_flat::FlatContent;
use nm_history::{DeviceEvent, Noted};
use nm_notify::{ConfirmEvent, Notice, Stream, SubscribeFault, laws};
use nm_proto::{Reply, Request};
use std::process::Abort;

fn first_session(rt: &impl Abort) -> SessionId {
    SessionId::new(1).expect(rt, "a session")
}

// The first session begins a confirmed commit.
fn start(rt: &impl Abort, stream: &mut Stream)
    requires { stream.old.entries < 1000 }
    ensures { stream.new.entries ≡ stream.old.entries + 1 }
{
    let session = first_session(rt);
    let request = Request::Commit {
        confirmed: true,
        timeout: None,
        persist: None,
        persist_id: None,
    };
    let entry = Noted {
        event: DeviceEvent::Asked { session, request },
        reply: Some(Reply::Done),
        undone: false,
    };
    let after = PendingView::Standing { issuer: session };
    stream
        .observe(PendingView::None, after, &entry)
        .expect(rt, "memory");
}

// It is undone at its deadline.
fn time_out(rt: &impl Abort, stream: &mut Stream)
    requires { stream.old.entries < 1000 }
    ensures { stream.new.entries ≡ stream.old.entries + 1 }
{
    let entry = Noted {
        event: DeviceEvent::Advanced { seconds: 600 },
        reply: None,
        undone: true,
    };
    let before = PendingView::Standing {
        issuer: first_session(rt),
    };
    stream
        .observe(before, PendingView::None, &entry)
        .expect(rt, "memory");
}

fn subscribed(rt: &impl Abort, stream: &mut Stream) -> u32
    ensures { stream.new.entries ≡ stream.old.entries }
{
    stream.subscribe().expect(rt, "a subscriber")
}

fn is_start(notice: &Option<Notice>) -> bool {
    match notice {
        Some(notice) => {
            notice.position == 1
                && matches!(notice.event, ConfirmEvent::Start)
                && notice.timeout == Some(600)
        }
        None => false,
    }
}

fn is_timeout(notice: &Option<Notice>) -> bool {
    match notice {
        Some(notice) => {
            notice.position == 2
                && matches!(notice.event, ConfirmEvent::Timeout)
                && notice.session.is_none()
        }
        None => false,
    }
}

fn takes_both(stream: &mut Stream, subscriber: u32) -> bool {
    is_start(&stream.take(subscriber)) && takes_last(stream, subscriber)
}

fn takes_last(stream: &mut Stream, subscriber: u32) -> bool {
    is_timeout(&stream.take(subscriber)) && stream.take(subscriber).is_none()
}

// Each subscriber takes what was told since it subscribed, whoever else takes.
#[test]
fn subscribers_take_apart(rt: HostRuntime) {
    let mut stream = Stream::new(rt.alloc());
    let first = subscribed(&rt, &mut stream);
    start(&rt, &mut stream);
    let second = subscribed(&rt, &mut stream);
    time_out(&rt, &mut stream);
    assert!(rt; takes_both(&mut stream, first));
    assert!(rt; takes_last(&mut stream, second));
}

fn is_full(stream: &mut Stream) -> bool {
    matches!(stream.subscribe(), Err(SubscribeFault::Full))
}

// Sixteen may be subscribed at once, and no number is used again.
#[test]
fn sixteen_may_subscribe(rt: HostRuntime) {
    let mut stream = Stream::new(rt.alloc());
    for _ in 0..16 {
        subscribed(&rt, &mut stream);
    }
    assert!(rt; is_full(&mut stream));
    assert!(rt; stream.unsubscribe(3) && !stream.unsubscribe(3));
    assert!(rt; stream.take(3).is_none() && subscribed(&rt, &mut stream) == 17);
}

// The laws are functions that do nothing.
#[test]
fn laws_of_notices_do_nothing(rt: HostRuntime) {
    let content = FlatContent::new(rt.alloc());
    laws::replaying_tells_the_same(&content);
    laws::notices_are_runs(&content);
    laws::each_subscriber_gets_all(&content);
}
