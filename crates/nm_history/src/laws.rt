//! The law of histories. The function does nothing: its contract is the law.

ghost use Rattle.std.specs.Prelude.{◌≡◌, List, None};
ghost use Rattle.nm_proto.specs.Content.{TablesState};
ghost use Rattle.nm_history.specs.declared.event.DeviceEvent.{DeviceEvent};
ghost use Rattle.nm_device.specs.Device.{fresh_device};
ghost use Rattle.nm_history.specs.History.{recorded, recorded_run};
ghost use Rattle.nm_history.specs.Leads.{Leads};

use nm_proto::Content;

/// Whatever happens at a device, in whatever order, its history is legal and whole: each reply is that of one device
/// that does one thing after another, and each running configuration is valid and changes only by a commit answered
/// Done, to candidate as it stood just before (RFC 6241 section 8.3), or by the undoing of a pending commit, to running
/// as it stood just before the commit that began it, however often that was followed up (RFC 6241 section 8.4). Neither
/// changes anything that somebody else has locked who takes no part in it (RFC 6241 section 8.3.4, RFC 5717 section 2.5).
pub fn every_history_is_whole<C: Content>(content: &C)
    ensures { (tables : TablesState C.Edit) (running : C.Config) (events : List DeviceEvent) → (C.meaning content.now).violation running ≡ None
        → Leads (C.meaning content.now) tables (fresh_device running) (recorded_run (C.meaning content.now) tables (recorded running) events) }
{}
