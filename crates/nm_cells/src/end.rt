//! An operator hangs up.

ghost use Rattle.std.specs.Prelude.{◌≡◌, ◌<◌, ◌+◌, ◌^◌, true, Some, IfOk, OnErr};
ghost use Rattle.nm_cells.specs.End.{Ends};
ghost use Rattle.nm_cells.specs.Grows.{GrowsBy};
ghost use Rattle.nm_cells.specs.Pass.{is_operator};

use crate::kept::KeptDevice;
use crate::pass::{Pass, PassEntry};
use nm_base::{DeviceNo, NoMemory, SessionId};
use nm_history::{DeviceEvent, Noted};
use nm_proto::Content;
use nm_run_plan::RunName;

impl<C: Content, N: RunName<C, C::Config, C::Edit>> KeptDevice<C, N> {
    /// An operator hangs up a session, and keeps the loss in its pass under this number of the device. Answers the place
    /// of the loss in the history.
    ///
    /// Answers None exactly where the session isn't open, and then changes nothing. One of the manager counts as one that
    /// isn't open.
    #[tactic(auto, using(crate::proofs::Grows::grows_ending))]
    pub fn end(
        &mut self,
        content: &C,
        device: DeviceNo,
        pass: &mut Pass,
        session: SessionId,
    ) -> Result<Option<u32>, NoMemory>
        requires operator { is_operator pass.old.owner ≡ true }
        requires content { N.run.content ≡ Some content.now }
        ensures ended { IfOk result (λ position. Ends (C.meaning content.now) position self.old self.new pass.old pass.new device session) }
        ensures unchanged { OnErr result (self.new ≡ self.old) }
        ensures pass { OnErr result (pass.new ≡ pass.old) }
        ensures grows { IfOk result (λ position. GrowsBy 3 self.old.recorded.history self.new.recorded.history) }
    {
        if !self.device.has_session(session) {
            return Ok(None);
        }
        if self.is_managers(session) {
            return Ok(None);
        }
        let Pass { owner: _, entries } = pass;
        entries.reserve(1)?;
        self.room()?;
        let position = place_after(self.history.len());
        let undone = self.lose(content, session, false);
        entries.push_reserved(PassEntry {
            device,
            position,
            noted: Noted {
                event: DeviceEvent::Lost { session },
                reply: None,
                undone,
            },
        });
        Ok(Some(position))
    }
}

// The place of the entry after so many.
pub(crate) fn place_after(entries: usize) -> u32
    requires { entries + 1 < 2 ^ 32 }
    ensures { result ≡ entries + 1 }
{
    entries as u32 + 1
}
