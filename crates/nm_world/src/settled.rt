//! Whether nothing more becomes of a change set at a device.

ghost use Rattle.std.specs.Prelude.{◌≡◌, ◌≤◌, length};
ghost use Rattle.nm_base.specs.Token.{token_of};
ghost use Rattle.nm_manager.specs.Manager.{wire_in};
ghost use Rattle.nm_history.specs.Outcome.{outcome_of};
ghost use Rattle.nm_world.specs.World.{undelivered};
ghost use Rattle.nm_world.specs.Report.{any_from, is_undelivered, has_undelivered, is_settled};

use crate::places::is_session_open;
use nm_base::{ChangeNo, DeviceNo};
use nm_history::{Outcome, Recorded};
use nm_manager::Manager;
use nm_proto::Content;

/// Whether a link has a request that its device has yet to do.
#[tactic(auto, unfolding(crate::specs::Report::is_undelivered))]
pub(crate) fn is_undelivered<C: Content>(
    device: &Recorded<C>,
    manager: &Manager,
    change: ChangeNo,
    number: DeviceNo,
    link: u32,
) -> bool
    requires given { change ≤ length manager.now.plans }
    ensures { result ≡ is_undelivered device.now (wire_in manager.now.state change number) link }
{
    is_session_open(device, manager.session_of(change, number, link))
        && manager.outstanding(change, number, link).is_some()
}

// Whether one of the links to a device has such a request.
fn has_undelivered<C: Content>(
    device: &Recorded<C>,
    manager: &Manager,
    change: ChangeNo,
    number: DeviceNo,
) -> bool
    requires given { change ≤ length manager.now.plans }
    ensures { result ≡ has_undelivered device.now (wire_in manager.now.state change number) }
{
    let links = manager.links(change, number);
    for place in 0..links {
        if is_undelivered(device, manager, change, number, place + 1) {
            return true;
        }
    }
    false
}

/// Whether nothing more becomes of a change set at a device, by what has become of it: its commit isn't pending, and no link has a
/// request that the device has yet to do.
pub(crate) fn is_settled<C: Content>(
    device: &Recorded<C>,
    manager: &Manager,
    change: ChangeNo,
    number: DeviceNo,
    outcome: Outcome,
) -> bool
    requires given { change ≤ length manager.now.plans }
    requires outcome { outcome ≡ outcome_of (token_of change) device.now.history }
    ensures { result ≡ is_settled device.now (wire_in manager.now.state change number) change }
{
    !outcome.is_pending() && !has_undelivered(device, manager, change, number)
}
