//! The first fault.

ghost use Rattle.std.specs.Prelude.{◌≡◌, ◌<◌, IfOk, Some, length, slice_get};
ghost use Rattle.nm_schema_names.specs.Named.{top, row_at};
ghost use Rattle.nm_schema_nodes.specs.Expansion.{first_large};
ghost use Rattle.nm_schema_faults.specs.Facts.{definitions};
ghost use Rattle.nm_schema_faults.specs.Misfit.{AreMisfits};
ghost use Rattle.nm_schema_faults.specs.Fault as spec;

use crate::fault::Fault;
use crate::grounds::Grounds;
use nm_base::NoMemory;
use nm_schema_nodes::first_large;
use nm_schema_statements::Row;
use std::alloc::Global;

impl<'g, 'a> Grounds<'g, 'a> {
    // Whether a row is the last one of its module.
    #[tactic(auto, unfolding(crate::specs::Fault::is_last))]
    fn is_last(&self, at: usize) -> bool
        requires { at < length self.now.rows }
        ensures { result ≡ spec.is_last self.now.rows at }
    {
        let rows = self.names.rows();
        let count = rows.len();
        if count - at == 1 {
            return true;
        }
        match rows.row(at + 1) {
            None => true,
            Some(row) => row.parent.is_none(),
        }
    }

    // That a module is too large, at its own row.
    fn large_by(&self, owner: usize) -> Option<Fault>
        ensures { result ≡ spec.large_by owner (row_at self.now.rows (top self.now.rows owner)) }
    {
        let Some(root) = self.names.top(owner) else {
            return None;
        };
        match self.names.rows().row(root) {
            None => None,
            Some(row) => Some(Fault::TooLarge {
                module: owner,
                place: row.place,
            }),
        }
    }

    // That a module is too large, at its last row.
    #[tactic(auto, unfolding(crate::specs::Fault::large_at))]
    fn large_at(&self, large: Option<usize>, at: usize) -> Option<Fault>
        requires large { large ≡ first_large self.now.rows (definitions self.now.rows) }
        requires within { at < length self.now.rows }
        ensures { result ≡ spec.large_at self.now.rows at }
    {
        let Some(row) = self.names.rows().row(at) else {
            return None;
        };
        if !self.is_last(at) {
            return None;
        }
        if large != Some(row.module) {
            return None;
        }
        self.large_by(row.module)
    }

    // The fault of a row.
    #[tactic(auto, unfolding(crate::specs::Fault::fault_at))]
    fn fault_at(
        &self,
        alloc: Global,
        misfits: &[bool],
        large: Option<usize>,
        at: usize,
    ) -> Result<Option<Fault>, NoMemory>
        requires misfits { AreMisfits self.now.rows self.now.facts misfits.now }
        requires large { large ≡ first_large self.now.rows (definitions self.now.rows) }
        requires within { at < length self.now.rows }
        ensures { IfOk result (λ fault. fault ≡ spec.fault_at self.now.rows self.now.facts at) }
    {
        let Some(row) = self.names.rows().row(at) else {
            return Ok(None);
        };
        match self.flaw_at(alloc, misfits, at)? {
            Some(flaw) => Ok(Some(Fault::Flawed {
                flaw,
                module: row.module,
                place: row.place,
            })),
            None => Ok(self.large_at(large, at)),
        }
    }

    /// The first fault of the modules, in the order of modules and places: of each row the first flaw, and after the last row of
    /// a module that the modules up to it are too large.
    pub fn first_fault(&self, alloc: Global) -> Result<Option<Fault>, NoMemory>
        ensures { IfOk result (λ fault. fault ≡ spec.first_fault self.now.rows self.now.facts) }
    {
        let misfits = self.misfits(alloc)?;
        let large = first_large(self.shape);
        for at in 0..self.names.rows().len() {
            match self.fault_at(alloc, &misfits, large, at) {
                Ok(None) => {}
                Ok(Some(fault)) => return Ok(Some(fault)),
                Err(error) => return Err(error),
            }
        }
        Ok(None)
    }
}
