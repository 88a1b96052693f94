//! What is found of queues, of links and of change sets, and isn't asked for by any command.

use nm_base::{ChangeNo, DeviceMask, DeviceNo, NoMemory, Tag};
use nm_order::Order;
use nm_proto::{AbortCause, Entry, Request, Verdict};
use nm_recovery::{Found, devices_in, recover};
use nm_wire::Wire;
use std::alloc::Global;
use std::test::Fail;

// Whether these two are taken one after the other, and nothing after them.
fn are_taken(order: &mut Order, first: ChangeNo, second: ChangeNo) -> bool {
    order.take_ready() == Some(first)
        && order.take_ready() == Some(second)
        && order.take_ready().is_none()
}

// Change sets 3, 1 and 2 in this order, on devices 1 and 2, 2 and 3, and 4.
#[test]
fn the_least_ready_is_taken(rt: HostRuntime) -> Result<(), Fail> {
    let one = ChangeNo::new(1).ok_or("1")?;
    let two = ChangeNo::new(2).ok_or("2")?;
    let three = ChangeNo::new(3).ok_or("3")?;
    let mut order = Order::new();
    let none = order.take_ready();
    order.submit(three, DeviceMask(0b11));
    order.submit(one, DeviceMask(0b110));
    order.submit(two, DeviceMask(0b1000));
    assert!(rt; none.is_none() && are_taken(&mut order, two, three));
    Ok(())
}

// A change set that is put off stays in its place until it is finished.
#[test]
fn the_later_one_waits(rt: HostRuntime) -> Result<(), Fail> {
    let first = ChangeNo::new(64).ok_or("64")?;
    let later = ChangeNo::new(1).ok_or("1")?;
    let mut order = Order::new();
    order.submit(first, DeviceMask(0x8000_0001));
    order.submit(later, DeviceMask(0x8000_0000));
    assert!(rt; order.take_ready() == Some(first));
    order.put_off(first);
    assert!(rt; order.take_ready() == None);
    order.finish(first);
    assert!(rt; order.take_ready() == Some(later));
    Ok(())
}

// Whether the first link that is left open is link 1, until it is dropped; link 2 is current.
fn is_first_left(wire: &mut Wire) -> bool {
    wire.first_left_open() == Some(1)
        && wire.drop_link(1)
        && wire.first_left_open().is_none()
        && wire.has_outstanding()
}

#[test]
fn the_first_link_left_open_is_found(rt: HostRuntime) -> Result<(), Fail> {
    let mut wire = Wire::new(rt.alloc());
    wire.begin(Request::Discard)?;
    wire.begin(Request::Discard)?;
    assert!(rt; is_first_left(&mut wire));
    wire.restart();
    assert!(rt; !wire.has_outstanding());
    Ok(())
}

fn started(change: ChangeNo, devices: u32) -> Entry {
    Entry::Started {
        change,
        devices: DeviceMask(devices),
        timeout: Some(600),
    }
}

// Change set 2 over devices 1 and 3 was aborted and is ended; change set 5 over devices 1 and 2 is committed, and change set 1 over device
// 1 was only submitted.
fn three_of_them(one: ChangeNo, two: ChangeNo, five: ChangeNo, refused: Verdict) -> [Entry; 6] {
    [
        started(two, 5),
        started(five, 3),
        Entry::Decided {
            change: two,
            verdict: refused,
        },
        started(one, 1),
        Entry::Ended {
            change: two,
            kept: DeviceMask(0),
        },
        Entry::Decided {
            change: five,
            verdict: Verdict::Commit,
        },
    ]
}

fn found(
    change: ChangeNo,
    devices: u32,
    verdict: Option<Verdict>,
    kept: Option<DeviceMask>,
) -> Found {
    Found {
        change,
        devices: DeviceMask(devices),
        verdict,
        kept,
    }
}

fn are_found(alloc: Global, entries: &[Entry], want: &[Found]) -> Result<bool, NoMemory> {
    Ok(recover(alloc, entries)?.as_slice() == want)
}

#[test]
fn each_change_set_is_found(rt: HostRuntime) -> Result<(), Fail> {
    let one = ChangeNo::new(1).ok_or("1")?;
    let two = ChangeNo::new(2).ok_or("2")?;
    let five = ChangeNo::new(5).ok_or("5")?;
    let device = DeviceNo::new(3).ok_or("3")?;
    let refused = Verdict::Abort(AbortCause::Refused {
        device,
        tag: Tag::LockDenied,
    });
    let entries = three_of_them(one, two, five, refused);
    let want = [
        found(two, 5, Some(refused), Some(DeviceMask(0))),
        found(five, 3, Some(Verdict::Commit), None),
        found(one, 1, None, None),
    ];
    assert!(rt; are_found(rt.alloc(), &entries, &want)?);
    assert!(rt; devices_in(&entries, five) == Some(DeviceMask(3)));
    Ok(())
}
