//! What is told of a pending commit to those who take no part in it.

ghost use Rattle.std.specs.Prelude.{◌≡◌};

use crate::device::Device;
use nm_base::SessionId;
use nm_proto::Content;

/// Whether a confirmed commit is pending at a device, and who began it (RFC 6241 section 8.4).
#[derive(Clone, Copy, PartialEq, Eq)]
pub enum PendingView {
    /// None is pending.
    None,
    /// One is pending, which this session began.
    Standing { issuer: SessionId },
}

impl<C: Content> Device<C> {
    ghost use Rattle.nm_device.specs.View.{view_of};

    /// Whether a commit is pending, and who began it.
    pub fn pending_view(&self) -> PendingView
        ensures { result ≡ view_of self.now.pending }
    {
        match &self.pending {
            Some(pending) => PendingView::Standing {
                issuer: pending.issuer,
            },
            None => PendingView::None,
        }
    }
}
