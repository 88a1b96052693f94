//! Numbers and sendings beyond what a run tells.

use nm_base::DeviceNo;
use nm_proto::{Reply, Request};
use nm_report::trace::write_reply;
use nm_world::happened::{Happened, Sending};
use std::test::Fail;

// More rows than a device can have.
#[test]
fn the_greatest_count_is_written(rt: HostRuntime) -> Result<(), Fail> {
    let mut out = Vec::new(rt.alloc());
    write_reply(&mut out, &Reply::Rows(4294967295))?;
    assert!(rt; out.as_slice() == b"rows 4294967295".as_slice());
    Ok(())
}

// A request that was sent is told with its device and link, and nothing else is.
#[test]
fn what_was_sent_is_told(rt: HostRuntime) -> Result<(), Fail> {
    let device = DeviceNo::new(2).ok_or("2")?;
    let sent = Happened::Sent {
        device,
        link: 3,
        request: Request::Validate,
    };
    assert!(rt; sent.sending() == Some(Sending { device, link: 3 }));
    assert!(rt; Happened::Handled.sending().is_none());
    Ok(())
}
