//! A device of a run with its history and the faults that are planned for it.

ghost use Rattle.std.specs.Prelude.{◌≡◌, ℕ, ◌==◌, ◌≤◌, ◌<◌, ◌+◌, ◌-◌, true, false, [], None, Some, IfOk, OnOk, OnErr, slice_get, length, vec_capacity};
ghost use Rattle.std.specs.List.{All, list_any};
ghost use Rattle.std.specs.Str.{bytes_eq};
ghost use Rattle.nm_base.specs.Words.{manager};
ghost use Rattle.nm_proto.specs.Fault.{IsPlan};
ghost use Rattle.nm_cells.specs.Kept.{with_opened};
ghost use Rattle.nm_cells.specs.Serve.{advance_of};
ghost use Rattle.nm_cells.specs.Asking.{has_plain_tag};
ghost use Rattle.nm_cells.specs.Follows.{clock_if, plans_breaks};

use crate::acts;
use crate::faults::Faults;
use nm_base::{DeviceNo, Label, MANAGER, NoMemory, SessionId};
use nm_device::Device;
use nm_history::{DeviceEvent, Noted, Told};
use nm_proto::{Content, PlanEntry, PlanFault, Reply, Request, Tables};
use nm_run_plan::RunName;
use std::alloc::Global;
use std::marker::{Model, PhantomData};

/// How many entries a history may have: their places are numbered from 1 by a u32.
pub const HISTORY_LIMIT: usize = 4_294_967_295;

/// A device of a run with its history. What is kept of it is said of the run's content, tables and first configurations,
/// so devices behind different locks are of one run.
pub struct KeptDevice<C: Content, N: RunName<C, C::Config, C::Edit>> {
    pub(crate) number: DeviceNo,
    pub(crate) device: Device<C>,
    pub(crate) history: Vec<Noted>,
    // How many more entries there is room for, at least.
    spare: usize,
    faults: Faults,
    // The sessions that were opened for the manager.
    managers: Vec<SessionId>,
    of: PhantomData<N>,
}

impl<C: Content, N: RunName<C, C::Config, C::Edit>> Drop for KeptDevice<C, N> {
    fn drop(self) {
        let KeptDevice {
            number: _,
            device,
            history,
            spare: _,
            faults,
            managers,
            of: _,
        } = self;
        drop(device);
        drop(history);
        drop(faults);
        drop(managers);
    }
}

impl<C: Content, N: RunName<C, C::Config, C::Edit>> Model for KeptDevice<C, N> {
    ghost use Rattle.std.specs.Prelude.{◌≤◌, ◌+◌, ◌-◌, ◌^◌, length, vec_capacity};
    ghost use Rattle.nm_cells.specs.Kept.{KeptState, IsKept, AreManagers, beside};
    ghost use Rattle.nm_cells.specs.Follows.{Follows};

    ghost Value = { KeptState C.Config C.Node };

    ghost view = { λ k. record { number = k.number; recorded = beside k.device k.history.items; spare = k.spare; faults = k.faults } };

    ghost invariant = { λ k. IsKept C.meaning N.run
        (record { number = k.number; recorded = beside k.device k.history.items; spare = k.spare; faults = k.faults })
        × (k.spare + length k.history.items ≤ vec_capacity k.history) × (k.spare + length k.history.items ≤ 2 ^ 32 - 1)
        × (k.faults.counted ≤ length k.history.items) × AreManagers k.managers.items k.history.items × Follows k.faults k.history.items };
}

impl<C: Content, N: RunName<C, C::Config, C::Edit>> KeptDevice<C, N> {
    ghost use Rattle.std.specs.Prelude.{List};
    ghost use Rattle.nm_device.specs.Device.{fresh_device, IsSound};
    ghost use Rattle.nm_cells.specs.Faults.{planned};
    ghost use Rattle.nm_cells.specs.Kept.{fresh_kept, with_room, IsKept};
    ghost use Rattle.nm_cells.specs.Follows.{FollowsPlans};

    /// A device of a run, at which nothing has happened yet, with the faults that are planned for it. It takes no memory.
    pub fn new(
        alloc: Global,
        number: DeviceNo,
        device: Device<C>,
        plan: Vec<PlanEntry>,
    ) -> KeptDevice<C, N>
        requires first { slice_get N.run.starts (number - 1) ≡ Some device.stores.running }
        requires fresh { device ≡ fresh_device device.stores.running }
        requires sound { (content : C) → N.run.content ≡ Some content → IsSound (C.meaning content) device }
        requires plan { IsPlan plan.items }
        requires planned { slice_get N.run.faults (number - 1) ≡ Some plan.items }
        ensures { result ≡ fresh_kept number device.stores.running (planned plan.items) }
    {
        KeptDevice {
            number,
            device,
            history: Vec::new(alloc),
            spare: 0,
            faults: Faults::new(plan),
            managers: Vec::new(alloc),
            of: PhantomData,
        }
    }

    /// The number of the device.
    pub fn number(&self) -> DeviceNo
        ensures { result ≡ self.now.number }
    {
        self.number
    }

    /// The device, which its history leads to.
    pub fn device(&self) -> &Device<C>
        ensures device { result.now ≡ self.now.recorded.device }
        ensures kept { IsKept C.meaning N.run self.now }
        ensures follows { FollowsPlans self.now.faults.plan self.now.recorded.history }
    {
        &self.device
    }

    /// What has happened at it, oldest first. It takes no memory.
    pub fn history(&self) -> &[Noted]
        ensures { result.now ≡ self.now.recorded.history }
    {
        self.history.as_slice()
    }

    /// Makes room for three entries of the history. Each thing that happens uses up one place.
    ///
    /// Answers NoMemory too where the history would become longer than its places can be numbered.
    pub fn room(&mut self) -> Result<(), NoMemory>
        ensures ok { OnOk result (self.new ≡ with_room self.old) }
        ensures enough { OnOk result (3 ≤ self.new.spare) }
        ensures err { OnErr result (self.new ≡ self.old) }
    {
        if self.spare >= 3 {
            return Ok(());
        }
        if self.history.len() > HISTORY_LIMIT - 3 {
            return Err(NoMemory);
        }
        self.history.reserve(3)?;
        self.spare = 3;
        Ok(())
    }

    /// The device and its history. It takes no memory.
    pub fn into_parts(self) -> (Device<C>, Vec<Noted>)
        ensures device { result.0 ≡ self.recorded.device }
        ensures history { result.1.items ≡ self.recorded.history }
        ensures kept { IsKept C.meaning N.run self }
    {
        let KeptDevice {
            number: _,
            device,
            history,
            spare: _,
            faults,
            managers,
            of: _,
        } = self;
        drop(faults);
        drop(managers);
        (device, history)
    }
}

// What each session is for, and the faults.
impl<C: Content, N: RunName<C, C::Config, C::Edit>> KeptDevice<C, N> {
    ghost use Rattle.nm_cells.specs.Faults.{due};
    ghost use Rattle.nm_cells.specs.Kept.{is_managers};
    ghost use Rattle.nm_cells.specs.Serve.{advance_of, prepared};

    /// Whether the session was opened for the manager.
    pub fn is_managers(&self, session: SessionId) -> bool
        ensures { result ≡ is_managers session self.now.recorded.history }
    {
        has_session(self.managers.as_slice(), session)
    }

    // The fault that is planned for the next request of the manager, where it hasn't come already.
    pub(crate) fn due(&self) -> Option<PlanFault>
        requires room { 1 ≤ self.now.spare }
        ensures { result ≡ due self.now.faults }
    {
        self.faults.due()
    }

    // The clock rises as it is planned for the next request of the manager, where it hasn't already.
    #[tactic(auto, using(crate::proofs::Follows::come_settles, crate::proofs::Follows::managers_stay))]
    pub(crate) fn prepare(&mut self, content: &C)
        requires room { 1 ≤ self.old.spare }
        requires content { N.run.content ≡ Some content.now }
        ensures prepared { self.new ≡ prepared (C.meaning content.now) self.old }
        ensures sessions { self.new.recorded.device.sessions ≡ self.old.recorded.device.sessions }
        ensures room { self.old.spare ≤ self.new.spare + 1 }
        ensures settled { advance_of (due self.new.faults) ≡ None }
        ensures managers { (session : ℕ) → is_managers session self.new.recorded.history ≡ is_managers session self.old.recorded.history }
    {
        if let Some(seconds) = advance_of(&self.due()) {
            self.advance(content, seconds);
        }
    }
}

// What happens at the device. With a request of the manager that is done or broken off it is counted.
impl<C: Content, N: RunName<C, C::Config, C::Edit>> KeptDevice<C, N> {
    ghost use Rattle.nm_sessions.specs.Sessions.{is_open};
    ghost use Rattle.nm_device.specs.Table.{device_step, is_opening};
    ghost use Rattle.nm_history.specs.History.{entering, answered, losing, advancing, restarting, recorded_with, Happened};
    ghost use Rattle.nm_proto.specs.declared.fault.PlanFault.{PlanFault};
    ghost use Rattle.nm_cells.specs.Faults.{due, come};
    ghost use Rattle.nm_cells.specs.Kept.{kept_with, with_faults, is_managers, Tells, Marks};

    // A user asks for a session (RFC 6241 section 8.1).
    pub(crate) fn enter(&mut self, user: Label, counts: bool) -> Result<Told, NoMemory>
        requires room { 1 ≤ self.old.spare }
        requires counts { counts ≡ bytes_eq user manager }
        requires clock { clock_if counts (due self.old.faults) ≡ [] }
        ensures entered { IfOk result (λ told. Tells counts told self.old self.new (DeviceEvent.Entered user) (entering self.old.recorded.device user)) }
        ensures unchanged { OnErr result (self.new ≡ self.old) }
        ensures plain { IfOk result (λ told. has_plain_tag told.reply ≡ true) }
    {
        self.managers.reserve(1)?;
        let is_manager = is_manager(&user);
        let told = acts::enter(&mut self.device, &mut self.history, user)?;
        keep_opened(&mut self.managers, is_manager, &told.reply);
        self.faults.count_if(counts);
        self.spare -= 1;
        Ok(told)
    }

    // An open session asks something (RFC 6241 sections 7 and 8).
    pub(crate) fn ask(
        &mut self,
        content: &C,
        tables: &Tables<C>,
        session: SessionId,
        request: &Request,
        counts: bool,
    ) -> Result<Told, NoMemory>
        requires room { 1 ≤ self.old.spare }
        requires content { N.run.content ≡ Some content.now }
        requires tables { N.run.tables ≡ tables.now }
        requires edits_belong { All (C.meaning content.now).edit_belongs tables.now.edits }
        requires open { is_open self.old.recorded.device.sessions session ≡ true }
        requires asks { is_opening request.now ≡ false }
        requires counts { counts ≡ is_managers session self.old.recorded.history }
        requires clock { clock_if counts (due self.old.faults) ≡ [] }
        ensures asked { IfOk result (λ told. Tells counts told self.old self.new (DeviceEvent.Asked session request.now)
            (answered self.old.recorded.device request.now
            (device_step (C.meaning content.now) tables.now self.old.recorded.device session request.now))) }
        ensures unchanged { OnErr result (self.new ≡ self.old) }
        ensures plain { IfOk result (λ told. has_plain_tag told.reply ≡ true) }
    {
        let told = acts::ask(
            &mut self.device,
            &mut self.history,
            content,
            tables,
            session,
            request,
        )?;
        self.faults.count_if(counts);
        self.spare -= 1;
        Ok(told)
    }

    // An open session is lost (RFC 6241 section 8.4.1). Tells whether that undid a pending commit.
    pub(crate) fn lose(&mut self, content: &C, session: SessionId, counts: bool) -> bool
        requires room { 1 ≤ self.old.spare }
        requires content { N.run.content ≡ Some content.now }
        requires open { is_open self.old.recorded.device.sessions session ≡ true }
        requires clock { clock_if counts (due self.old.faults) ≡ [] }
        requires breaks { is_managers session self.old.recorded.history ≡ true → plans_breaks self.old.faults.plan ≡ true }
        ensures { Marks counts result self.old self.new (DeviceEvent.Lost session) (losing (C.meaning content.now) self.old.recorded.device session) }
    {
        self.spare -= 1;
        self.faults.count_if(counts);
        acts::lose(&mut self.device, &mut self.history, content, session)
    }

    // The clock rises by the seconds that are planned (RFC 6241 section 8.4.1).
    fn advance(&mut self, content: &C, seconds: u32) -> bool
        requires room { 1 ≤ self.old.spare }
        requires content { N.run.content ≡ Some content.now }
        requires due { due self.old.faults ≡ Some (PlanFault.Advance seconds) }
        ensures undone { result ≡ (advancing (C.meaning content.now) self.old.recorded.device seconds).undone }
        ensures advanced { self.new
            ≡ with_faults
            (kept_with self.old (recorded_with self.old.recorded (DeviceEvent.Advanced seconds)
            (advancing (C.meaning content.now) self.old.recorded.device seconds))) (come self.old.faults) }
        ensures sessions { self.new.recorded.device.sessions ≡ self.old.recorded.device.sessions }
    {
        self.spare -= 1;
        self.faults.come();
        acts::advance(&mut self.device, &mut self.history, content, seconds)
    }

    // The device restarts at a request of the manager (RFC 6241 section 8.4.1). Tells whether that undid a pending commit.
    pub(crate) fn restart(&mut self, content: &C) -> bool
        requires room { 1 ≤ self.old.spare }
        requires content { N.run.content ≡ Some content.now }
        requires due { due self.old.faults ≡ Some PlanFault.Restart }
        ensures { Marks true result self.old self.new DeviceEvent.Restarted (restarting (C.meaning content.now) self.old.recorded.device) }
    {
        self.spare -= 1;
        self.faults.count_if(true);
        acts::restart(&mut self.device, &mut self.history, content)
    }
}

// Whether the user is the manager.
fn is_manager(user: &Label) -> bool
    ensures { result ≡ bytes_eq user.now manager }
{
    user.as_str() == MANAGER
}

// Whether the session is among these.
fn has_session(sessions: &[SessionId], session: SessionId) -> bool
    ensures { result ≡ list_any (λ other. other == session) sessions.now }
{
    sessions.iter().any(|other| *other == session)
}

// The seconds of an advance.
fn advance_of(fault: &Option<PlanFault>) -> Option<u32>
    ensures { result ≡ advance_of fault.now }
{
    match fault {
        Some(PlanFault::Advance { seconds }) => Some(*seconds),
        _ => None,
    }
}

// Keeps a session that was opened for the manager. There is room for it.
fn keep_opened(managers: &mut Vec<SessionId>, is_manager: bool, reply: &Reply)
    requires room { length managers.old.items < vec_capacity managers.old }
    ensures { managers.new.items ≡ with_opened is_manager reply.now managers.old.items }
{
    if !is_manager {
        return;
    }
    if let Reply::Opened(session) = reply {
        managers.push_reserved(*session);
    }
}
