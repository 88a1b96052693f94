//! What worlds begin with. It is kept once, and all worlds that begin with it share it.

ghost use Rattle.std.specs.Prelude.{◌≡◌, ◌≤◌, length, IfOk};
ghost use Rattle.std.specs.Arc.{arc_value};
ghost use Rattle.std.specs.List.{All};
ghost use Rattle.nm_manager.specs.Requests.{IsWellFormed};
ghost use Rattle.nm_world.specs.World.{CanBegin, IsFirst};

use nm_base::{Label, NoMemory};
use nm_proto::{ChangePlan, Content, Listed, Tables};
use std::alloc::Global;
use std::marker::Model;
use std::sync::Arc;

/// The content, what requests name by number, the change sets, the users of the operators, and the first configuration of each
/// device.
pub struct Setup<C: Content + Drop> {
    content: C,
    tables: Tables<C>,
    plans: Listed<ChangePlan>,
    users: Listed<Label>,
    // In the order of the devices.
    first_configs: Listed<C::Config>,
}

impl<C: Content + Drop> Drop for Setup<C> {
    fn drop(self) {
        let Setup {
            content,
            tables,
            plans,
            users,
            first_configs,
        } = self;
        drop(content);
        drop(tables);
        drop(plans);
        drop(users);
        drop(first_configs);
    }
}

impl<C: Content + Drop> Model for Setup<C> {
    ghost use Rattle.nm_world.specs.World.{CanBegin, SetupState};

    ghost Value = { SetupState C C.Config C.Edit };

    ghost view = { λ s. record {
      content = s.content;
      setting = record { tables = s.tables; plans = s.plans; users = s.users };
      first_configs = s.first_configs;
    } };

    ghost invariant = { λ s. CanBegin (C.meaning s.content) (record { tables = s.tables; plans = s.plans; users = s.users }) s.first_configs };
}

impl<C: Content + Drop> Setup<C> {
    /// What worlds begin with, to be shared by them. The first configurations stand in the order of the devices.
    pub fn share(
        alloc: Global,
        content: C,
        tables: Tables<C>,
        plans: Listed<ChangePlan>,
        users: Listed<Label>,
        first_configs: Listed<C::Config>,
    ) -> Result<Arc<Setup<C>>, NoMemory>
        requires { CanBegin (C.meaning content) (record { tables = tables; plans = plans; users = users }) first_configs }
        ensures { IfOk result (λ setup. arc_value setup ≡ record {
          content = content;
          setting = record { tables = tables; plans = plans; users = users };
          first_configs = first_configs;
        }) }
    {
        let setup = Setup {
            content,
            tables,
            plans,
            users,
            first_configs,
        };
        Ok(Arc::new(alloc, setup)?)
    }

    /// The content of the devices.
    pub fn content(&self) -> &C
        ensures { result.now ≡ self.now.content }
    {
        &self.content
    }

    /// What requests name by number.
    pub fn tables(&self) -> &Tables<C>
        ensures value { result.now ≡ self.now.setting.tables }
        ensures belong { All (C.meaning self.now.content).edit_belongs self.now.setting.tables.edits }
    {
        &self.tables
    }

    /// The users of the operators, that of operator 1 first.
    pub fn users(&self) -> &[Label]
        ensures { result.now ≡ self.now.setting.users }
    {
        self.users.as_slice()
    }

    /// The first configuration of each device, that of device 1 first.
    pub fn first_configs(&self) -> &[C::Config]
        ensures value { result.now ≡ self.now.first_configs }
        ensures first { All (IsFirst (C.meaning self.now.content)) self.now.first_configs }
        ensures few { length self.now.first_configs ≤ 32 }
    {
        self.first_configs.as_slice()
    }

    // The change sets once more, for a manager of its own.
    pub(crate) fn copy_plans(&self, alloc: Global) -> Result<Listed<ChangePlan>, NoMemory>
        ensures value { IfOk result (λ plans. plans ≡ self.now.setting.plans) }
        ensures well_formed { IfOk result (λ plans. All IsWellFormed plans) }
        ensures few { IfOk result (λ plans. length plans ≤ 64) }
    {
        let copies = copies_of(alloc, self.plans.as_slice())?;
        Ok(copies)
    }
}

// The same change sets.
fn copies_of(alloc: Global, plans: &[ChangePlan]) -> Result<Listed<ChangePlan>, NoMemory>
    ensures { IfOk result (λ copies. copies ≡ plans.now) }
{
    let mut copies = Listed::new(alloc);
    for plan in plans {
        copies.push(copy_of(alloc, plan)?)?;
    }
    Ok(copies)
}

// The same change set.
fn copy_of(alloc: Global, plan: &ChangePlan) -> Result<ChangePlan, NoMemory>
    ensures { IfOk result (λ copy. copy ≡ plan.now) }
{
    let planned = plan.edits.as_slice();
    let mut edits = Listed::new(alloc);
    for edit in planned {
        edits.push(*edit)?;
    }
    Ok(ChangePlan {
        timeout: plan.timeout,
        edits,
    })
}
