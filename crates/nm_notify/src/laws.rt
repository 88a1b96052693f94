//! Laws of notices. Each function does nothing: its contract is the law.

ghost use Rattle.std.specs.Prelude.{◌≡◌, ◌+◌, ◌++◌, ℕ, [], List, Some, is_some, unwrap_or};
ghost use Rattle.nm_proto.specs.Content.{TablesState};
ghost use Rattle.nm_device.specs.Device.{DeviceState, fresh_device};
ghost use Rattle.nm_history.specs.declared.event.Noted.{Noted};
ghost use Rattle.nm_history.specs.History.{IsLegal, replay};
ghost use Rattle.nm_notify.specs.declared.notice.Notice.{Notice};
ghost use Rattle.nm_notify.specs.Notices.{notices_in};
ghost use Rattle.nm_notify.specs.Replayed.{notices_replayed};
ghost use Rattle.nm_notify.specs.Runs.{AreRuns};
ghost use Rattle.nm_notify.specs.Stream.{StreamState, left_for};
ghost use Rattle.nm_notify.specs.Since.{Act, Stays, entries_in, stream_at, took_all};

use nm_proto::Content;

/// What is read from a legal history alone is what replaying it tells, entry by entry, by what is pending at the device before the
/// entry and after it.
pub fn replaying_tells_the_same<C: Content>(content: &C)
    ensures { (tables : TablesState C.Edit) (first : C.Config) (history : List Noted)
        → IsLegal (C.meaning content.now) tables (fresh_device first) history
        → notices_in history ≡ notices_replayed (C.meaning content.now) tables 1 (fresh_device first) history }
{}

/// The notices of a legal history are runs of a start, any number of extensions and one end, which completes, cancels or times out.
/// The last run alone may want its end, and does exactly where a commit is pending.
pub fn notices_are_runs<C: Content>(content: &C)
    ensures { (tables : TablesState C.Edit) (first : C.Config) (history : List Noted)
        → IsLegal (C.meaning content.now) tables (fresh_device first) history
        → AreRuns (notices_in history) (is_some (replay (C.meaning content.now) tables (fresh_device first) history).pending) }
{}

/// What a subscriber takes, and then what is left for it, is what was left for it before and what the device's entries since then
/// tell, each once and in order, whoever else subscribes, takes and leaves. One that has just subscribed has nothing left.
pub fn each_subscriber_gets_all<C: Content>(content: &C)
    ensures { (tables : TablesState C.Edit) (s : DeviceState C.Config C.Node) (stream : StreamState) (n : ℕ) (left : List Notice) (acts : List Act)
        → left_for stream.left n ≡ Some left → Stays n acts
        → took_all (C.meaning content.now) tables n s stream acts
        ++ unwrap_or (left_for (stream_at (C.meaning content.now) tables s stream acts).left n) []
        ≡ left ++ notices_replayed (C.meaning content.now) tables (stream.entries + 1) s (entries_in acts) }
{}
