//! What stands at a moment, and what each elementary event does to it. It is apart from the trail, so that the trail's room
//! outlasts an event.

ghost use Rattle.std.specs.Prelude.{◌≡◌, ◌≤◌, ◌<◌, ◌^◌, length, None, false};
ghost use Rattle.nm_world.specs.World.{happened_of};

use crate::happened::Happened;
use crate::operator::Operator;
use crate::places::{
    advance_by, ask_of, deliver_to, leave_from, lose_on, operator_at, place_of, restart_of,
};
use crate::search::session_of;
use crate::setup::Setup;
use nm_base::{ChangeNo, DeviceNo, Label, NoMemory, SessionId};
use nm_history::Recorded;
use nm_manager::{Action, Manager};
use nm_proto::{ChangePlan, Content, Entry, Event, Request, Tables};
use std::alloc::Global;
use std::marker::Model;
use std::sync::Arc;

/// The devices, the manager, and the operators beside it.
pub(crate) struct WorldCore<C: Content + Drop> {
    pub(crate) alloc: Global,
    pub(crate) setup: Arc<Setup<C>>,
    pub(crate) manager: Manager,
    // Device d stands at place d - 1, operator o at place o - 1.
    pub(crate) devices: Vec<Recorded<C>>,
    pub(crate) operators: Vec<Operator>,
    // Whether the manager once read another journal than it wrote.
    pub(crate) has_diverged: bool,
}

impl<C: Content + Drop> Drop for WorldCore<C> {
    fn drop(self) {
        let WorldCore {
            alloc: _,
            setup,
            manager,
            devices,
            operators,
            has_diverged: _,
        } = self;
        drop(setup);
        drop(manager);
        drop(devices);
        drop(operators);
    }
}

impl<C: Content + Drop> Model for WorldCore<C> {
    ghost use Rattle.std.specs.Prelude.{◌≤◌, length};
    ghost use Rattle.nm_world.specs.World.{CoreValue, AreSound};

    ghost Value = { CoreValue C C.Config C.Edit C.Node };

    ghost view = { λ w. record {
      content = w.setup.value.content;
      setting = record { tables = w.setup.value.setting.tables; plans = w.manager.plans; users = w.setup.value.setting.users };
      first_configs = w.setup.value.first_configs;
      failed = w.manager.failed;
      has_failed = w.manager.has_failed;
      state = record {
        devices = w.devices.items;
        entries = w.manager.state.entries;
        slots = w.manager.state.slots;
        operators = w.operators.items;
        has_diverged = w.has_diverged;
      };
    } };

    ghost invariant = { λ w. AreSound (C.meaning w.setup.value.content) w.devices.items × (length w.devices.items ≤ 32) };
}

impl<C: Content + Drop> WorldCore<C> {
    ghost use Rattle.nm_world.specs.World.{AreSound, manager_in, operator_session, replies_on};
    ghost use Rattle.nm_manager.specs.Manager.{wire_in};

    pub(crate) fn content(&self) -> &C
        ensures { result.now ≡ self.now.content }
    {
        self.setup.content()
    }

    pub(crate) fn tables(&self) -> &Tables<C>
        ensures { result.now ≡ self.now.setting.tables }
    {
        self.setup.tables()
    }

    pub(crate) fn users(&self) -> &[Label]
        ensures { result.now ≡ self.now.setting.users }
    {
        self.setup.users()
    }

    pub(crate) fn plans(&self) -> &[ChangePlan]
        ensures value { result.now ≡ self.now.setting.plans }
        ensures few { length self.now.setting.plans ≤ 64 }
    {
        self.manager.plans()
    }

    pub(crate) fn devices(&self) -> &[Recorded<C>]
        ensures value { result.now ≡ self.now.state.devices }
        ensures sound { AreSound (C.meaning self.now.content) self.now.state.devices }
        ensures few { length self.now.state.devices ≤ 32 }
    {
        self.devices.as_slice()
    }

    pub(crate) fn entries(&self) -> &[Entry]
        ensures { result.now ≡ self.now.state.entries }
    {
        self.manager.entries()
    }

    // How many replies were sent on a link.
    pub(crate) fn replies_on(&self, change: ChangeNo, device: DeviceNo, link: u32) -> u32
        requires given { change ≤ length self.now.setting.plans }
        ensures { result ≡ replies_on (wire_in (manager_in self.now.state) change device) link }
    {
        self.manager.replies(change, device, link).0
    }

    pub(crate) fn current_link(&self, change: ChangeNo, device: DeviceNo) -> Option<u32>
        requires given { change ≤ length self.now.setting.plans }
        ensures { result ≡ (wire_in (manager_in self.now.state) change device).current }
    {
        self.manager.current(change, device)
    }

    pub(crate) fn has_failed(&self) -> bool
        ensures { result ≡ self.now.has_failed }
    {
        self.manager.has_failed()
    }

    // The session that an operator, by its number from 1, has on a device.
    pub(crate) fn operator_session(&self, number: u32, device: DeviceNo) -> Option<SessionId>
        ensures { result ≡ operator_session self.now.state number device }
    {
        session_of(&self.devices, &self.operators, number, device)
    }
}

// What an action of the manager is in the world.
pub(crate) fn happened_of(action: Action) -> Happened
    ensures { result ≡ happened_of action }
{
    match action {
        Action::Idle => Happened::Idle,
        Action::Started => Happened::Started,
        Action::Sent {
            device,
            link,
            request,
        } => Happened::Sent {
            device,
            link,
            request,
        },
        Action::Handled => Happened::Handled,
        Action::Broken => Happened::Broken,
        Action::Decided(verdict) => Happened::Decided(verdict),
        Action::Ended => Happened::Ended,
        Action::Forgot => Happened::Forgot,
    }
}

// The events at a device.
impl<C: Content + Drop> WorldCore<C> {
    ghost use Rattle.nm_world.specs.World.{Comes, delivering, losing, asking, leaving, passing, going_anew, AreInTime};
    ghost use Rattle.nm_world.specs.Runs.{KeepsTime};

    // A device does the request that a link has outstanding.
    fn deliver(
        &mut self,
        change: ChangeNo,
        device: DeviceNo,
        link: u32,
    ) -> Result<Happened, NoMemory>
        requires given { change ≤ length self.old.setting.plans }
        requires in_time { AreInTime self.old.state.devices }
        ensures came { Comes result self.old self.new (delivering (C.meaning self.old.content) self.old.setting.tables self.old.state change device link) }
        ensures time { KeepsTime 0 self.old.state.devices self.new.state.devices }
    {
        let place = place_of(device);
        if place >= self.devices.len() {
            return Ok(Happened::Idle);
        }
        let setup: &Setup<C> = &self.setup;
        deliver_to(
            setup.content(),
            setup.tables(),
            &mut self.devices[place],
            &mut self.manager,
            change,
            device,
            link,
        )
    }

    // A device's side of a link ends.
    fn lose(&mut self, change: ChangeNo, device: DeviceNo, link: u32) -> Result<Happened, NoMemory>
        requires given { change ≤ length self.old.setting.plans }
        ensures came { Comes result self.old self.new (losing (C.meaning self.old.content) self.old.state change device link) }
        ensures time { KeepsTime 0 self.old.state.devices self.new.state.devices }
    {
        let place = place_of(device);
        if place >= self.devices.len() {
            return Ok(Happened::Idle);
        }
        let setup: &Setup<C> = &self.setup;
        lose_on(
            setup.content(),
            &mut self.devices[place],
            &mut self.manager,
            change,
            device,
            link,
        )
    }

    // An operator, by its number from 1, asks a device.
    fn ask(
        &mut self,
        number: usize,
        device: DeviceNo,
        request: &Request,
    ) -> Result<Happened, NoMemory>
        requires in_time { AreInTime self.old.state.devices }
        ensures came { Comes result self.old self.new (asking (C.meaning self.old.content) self.old.setting.tables self.old.state number device request.now) }
        ensures time { KeepsTime 0 self.old.state.devices self.new.state.devices }
    {
        let place = place_of(device);
        if number == 0 {
            return Ok(Happened::Idle);
        }
        if number > self.operators.len() {
            return Ok(Happened::Idle);
        }
        if place >= self.devices.len() {
            return Ok(Happened::Idle);
        }
        let setup: &Setup<C> = &self.setup;
        let operator = &mut self.operators[number - 1];
        ask_of(
            setup.content(),
            setup.tables(),
            &mut self.devices[place],
            operator,
            place,
            request,
        )
    }

    // The session that an operator, by its number from 1, has on a device is lost.
    fn leave(&mut self, number: usize, device: DeviceNo) -> Result<Happened, NoMemory>
        ensures came { Comes result self.old self.new (leaving (C.meaning self.old.content) self.old.state number device) }
        ensures time { KeepsTime 0 self.old.state.devices self.new.state.devices }
    {
        let Some(operator) = operator_at(&self.operators, number) else {
            return Ok(Happened::Idle);
        };
        let place = place_of(device);
        if place >= self.devices.len() {
            return Ok(Happened::Idle);
        }
        let setup: &Setup<C> = &self.setup;
        leave_from(setup.content(), &mut self.devices[place], operator, place)
    }

    // The clock of a device rises by some seconds.
    fn advance(&mut self, device: DeviceNo, seconds: u32) -> Result<Happened, NoMemory>
        requires in_time { AreInTime self.old.state.devices }
        ensures came { Comes result self.old self.new (passing (C.meaning self.old.content) self.old.state device seconds) }
        ensures time { KeepsTime seconds self.old.state.devices self.new.state.devices }
    {
        let place = place_of(device);
        if place >= self.devices.len() {
            return Ok(Happened::Idle);
        }
        let setup: &Setup<C> = &self.setup;
        advance_by(setup.content(), &mut self.devices[place], seconds)
    }

    // A device restarts, and its sides of all links end.
    fn restart(&mut self, device: DeviceNo) -> Result<Happened, NoMemory>
        ensures came { Comes result self.old self.new (going_anew (C.meaning self.old.content) self.old.state device) }
        ensures time { KeepsTime 0 self.old.state.devices self.new.state.devices }
    {
        let place = place_of(device);
        if place >= self.devices.len() {
            return Ok(Happened::Idle);
        }
        let setup: &Setup<C> = &self.setup;
        restart_of(
            setup.content(),
            &mut self.devices[place],
            &mut self.manager,
            device,
        )
    }
}

// The events of the manager that take no disk.
impl<C: Content + Drop> WorldCore<C> {
    ghost use Rattle.nm_world.specs.World.{Comes, IsCome, answering, breaking, forgetting, renewing};

    // The manager handles a reply of a link, by its number from 1.
    fn answer(&mut self, change: ChangeNo, device: DeviceNo, link: u32, number: u32) -> Happened
        requires given { change ≤ length self.old.setting.plans }
        ensures came { IsCome result self.old self.new (answering self.old.state change device link number) }
        ensures devices { self.new.state.devices ≡ self.old.state.devices }
    {
        let action = self.manager.receive(change, device, link, number);
        happened_of(action)
    }

    // The manager's side of the current link to a device ends.
    fn break_link(&mut self, change: ChangeNo, device: DeviceNo) -> Happened
        requires given { change ≤ length self.old.setting.plans }
        ensures came { IsCome result self.old self.new (breaking self.old.state change device) }
        ensures devices { self.new.state.devices ≡ self.old.state.devices }
    {
        let action = self.manager.break_link(change, device);
        happened_of(action)
    }

    // What the manager knows of a change set is lost.
    fn forget(&mut self, change: ChangeNo) -> Happened
        requires given { change ≤ length self.old.setting.plans }
        ensures came { IsCome result self.old self.new (forgetting self.old.setting.plans self.old.state change) }
        ensures devices { self.new.state.devices ≡ self.old.state.devices }
    {
        let action = self.manager.forget(change);
        happened_of(action)
    }

    // The timer of the pending commit of a device is set anew.
    fn renew(&mut self, change: ChangeNo, device: DeviceNo) -> Result<Happened, NoMemory>
        requires given { change ≤ length self.old.setting.plans }
        ensures came { Comes result self.old self.new (renewing self.old.setting.plans self.old.state change device) }
        ensures devices { self.new.state.devices ≡ self.old.state.devices }
    {
        let action = self.manager.renew(change, device)?;
        Ok(happened_of(action))
    }
}

// Any event that doesn't touch the journal.
impl<C: Content + Drop> WorldCore<C> {
    ghost use Rattle.nm_world.specs.World.{Comes, AreInTime, elementary, change_in, touches_journal};
    ghost use Rattle.nm_world.specs.Runs.{KeepsTime, seconds_in};

    // An event that doesn't touch the journal.
    pub(crate) fn come_alone(&mut self, event: &Event) -> Result<Happened, NoMemory>
        requires given { change_in event.now ≤ length self.old.setting.plans }
        requires in_time { AreInTime self.old.state.devices }
        requires alone { touches_journal event.now ≡ false }
        ensures came { Comes result self.old self.new (elementary (C.meaning self.old.content) self.old.setting self.old.state event.now) }
        ensures time { KeepsTime (seconds_in event.now) self.old.state.devices self.new.state.devices }
        ensures short { seconds_in event.now < 2 ^ 32 }
    {
        match event {
            Event::Deliver {
                change,
                device,
                link,
            } => self.deliver(*change, *device, *link),
            Event::Answer {
                change,
                device,
                link,
                number,
            } => Ok(self.answer(*change, *device, *link, *number)),
            Event::Break { change, device } => Ok(self.break_link(*change, *device)),
            Event::Lose {
                change,
                device,
                link,
            } => self.lose(*change, *device, *link),
            Event::Advance { device, seconds } => self.advance(*device, *seconds),
            Event::Restart { device } => self.restart(*device),
            Event::Forget { change } => Ok(self.forget(*change)),
            Event::Renew { change, device } => self.renew(*change, *device),
            Event::Foreign {
                operator,
                device,
                request,
            } => self.ask(*operator as usize, *device, request),
            Event::Leave { operator, device } => self.leave(*operator as usize, *device),
            Event::Submit { .. } | Event::Turn { .. } | Event::Crash | Event::Round { .. } => Ok(
                Happened::Idle,
            ),
        }
    }
}
