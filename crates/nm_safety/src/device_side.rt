//! What one change set and one device keep of each other where the device moves.

ghost use Rattle.std.specs.Prelude.{◌≡◌, ◌≤◌, ◌==◌, ℕ, List, Option, Some, true, false};
ghost use Rattle.nm_base.specs.Token.{token_of};
ghost use Rattle.nm_proto.specs.Content.{TablesState};
ghost use Rattle.nm_proto.specs.declared.ask.Ask.TheVariants as ask;
ghost use Rattle.nm_proto.specs.declared.message.Request.{Request as ARequest};
ghost use Rattle.nm_proto.specs.declared.message.Request.TheVariants.{OpenSession};
ghost use Rattle.nm_proto.specs.declared.message.Reply.{Reply as AReply};
ghost use Rattle.nm_proto.specs.declared.message.Reply.TheVariants.{Done, Opened};
ghost use Rattle.nm_proto.specs.declared.journal.Verdict.{Verdict as AVerdict};
ghost use Rattle.nm_sessions.specs.Sessions.{is_open};
ghost use Rattle.nm_history.specs.declared.event.DeviceEvent.{DeviceEvent as AnEvent};
ghost use Rattle.nm_history.specs.declared.event.DeviceEvent.TheVariants.{Entered, Asked};
ghost use Rattle.nm_history.specs.declared.event.Noted.{Noted as AnEntry};
ghost use Rattle.nm_history.specs.History.{RecordedState, Happened, recorded_with};
ghost use Rattle.nm_device_laws.specs.Moment.{Happens};
ghost use Rattle.nm_device_laws.specs.Numbered.{IsNumbered};
ghost use Rattle.nm_device_laws.specs.Keeps.{is_asker};
ghost use Rattle.nm_device_laws.specs.Token.{leaves_token};
ghost use Rattle.nm_decider.specs.declared.seat.Seat.{Seat as ASeat};
ghost use Rattle.nm_wire.specs.Asks.{ask_of, same_ask};
ghost use Rattle.nm_wire.specs.Link.{session_of};
ghost use Rattle.nm_wire.specs.Wire.{WireState, outstanding_at, session_at, told};
ghost use Rattle.nm_safety.specs.Pair.{PairHolds, first_link};
ghost use Rattle.nm_safety.specs.Moves.{Moves};
ghost use Rattle.nm_safety.specs.Told.{is_plain, AnswersPlainly, OpensOurs, LocksOurs, BeginsOurs, RenewsOurs, ConfirmsOurs, CancelsOurs};
ghost use Rattle.nm_safety.specs.Step.{is_fair};
ghost use Rattle.nm_safety.specs.Delivered.{IsDelivered, is_answer};
ghost use Rattle.nm_stores.specs.Stores.{Belong};
ghost use Rattle.nm_device.specs.Device.{DeviceState};
ghost use Rattle.std.specs.List.{All};

use nm_proto::Content;

/// The device moves, and no session of the change set asks for it.
pub fn moves_keep_pairs<Config, Node>()
    ensures { (change : ℕ) (decided : Option AVerdict) (seat : ASeat) (wire : WireState) (entry : AnEntry) (before after : RecordedState Config Node)
        → Moves change wire entry before after → PairHolds change decided seat wire before → PairHolds change decided seat wire after }
{}

/// A request of a link is answered that names the token not at all: of any link where it neither opens a session nor locks running,
/// and of a later link whatever it does.
pub fn answers_keep_pairs<Config, Node>()
    ensures plain { (change : ℕ) (decided : Option AVerdict) (seat : ASeat) (wire : WireState) (number : ℕ) (request : ARequest) (reply : AReply)
        (entry : AnEntry)
        (before after : RecordedState Config Node) → outstanding_at wire number ≡ Some request → is_plain (ask_of request) reply ≡ true
        → AnswersPlainly change wire entry before after
        → PairHolds change decided seat wire before → PairHolds change decided seat (told wire number reply) after }
    ensures later { (change : ℕ) (decided : Option AVerdict) (seat : ASeat) (wire : WireState) (number : ℕ) (request : ARequest) (reply : AReply)
        (entry : AnEntry)
        (before after : RecordedState Config Node) → outstanding_at wire number ≡ Some request → (number == 1) ≡ false
        → AnswersPlainly change wire entry before after
        → PairHolds change decided seat wire before → PairHolds change decided seat (told wire number reply) after }
{}

/// The first link is told of its session, and of its lock of running.
pub fn first_answers_keep_pairs<Config, Node>()
    ensures opened { (change : ℕ) (decided : Option AVerdict) (seat : ASeat) (wire : WireState) (request : ARequest) (id : ℕ) (entry : AnEntry)
        (before after : RecordedState Config Node)
        → outstanding_at wire 1 ≡ Some request → OpensOurs change wire id entry before after
        → PairHolds change decided seat wire before → PairHolds change decided seat (told wire 1 (Opened id)) after }
    ensures locked { (change : ℕ) (decided : Option AVerdict) (seat : ASeat) (wire : WireState) (request : ARequest) (session : ℕ) (entry : AnEntry)
        (before after : RecordedState Config Node)
        → outstanding_at wire 1 ≡ Some request → ask_of request ≡ ask.LockRunning → session_of (first_link wire) ≡ Some session
        → LocksOurs change session entry before after
        → PairHolds change decided seat wire before → PairHolds change decided seat (told wire 1 Done) after }
{}

/// The first link is told that the confirmed commit is done: it was never done before, and waits under the token of the change set.
pub fn commits_keep_pairs<Config, Node>()
    ensures { (change : ℕ) (decided : Option AVerdict) (seat : ASeat) (wire : WireState) (request : ARequest) (session : ℕ)
        (before after : RecordedState Config Node)
        → outstanding_at wire 1 ≡ Some request → ask_of request ≡ ask.CommitConfirmed → session_of (first_link wire) ≡ Some session
        → is_open before.device.sessions session ≡ true
        → BeginsOurs (token_of change) before after
        → PairHolds change decided seat wire before → PairHolds change decided seat (told wire 1 Done) after }
{}

/// A link is told that what is pending under the token was renewed, confirmed or cancelled.
pub fn follow_ups_keep_pairs<Config, Node>()
    ensures renewed { (change : ℕ) (decided : Option AVerdict) (seat : ASeat) (wire : WireState) (number : ℕ) (request : ARequest)
        (before after : RecordedState Config Node)
        → outstanding_at wire number ≡ Some request → ask_of request ≡ ask.Renew → RenewsOurs (token_of change) before after
        → PairHolds change decided seat wire before → PairHolds change decided seat (told wire number Done) after }
    ensures confirmed { (change : ℕ) (decided : Option AVerdict) (seat : ASeat) (wire : WireState) (number : ℕ) (request : ARequest)
        (before after : RecordedState Config Node)
        → outstanding_at wire number ≡ Some request → ask_of request ≡ ask.Confirm → ConfirmsOurs (token_of change) before after
        → PairHolds change decided seat wire before → PairHolds change decided seat (told wire number Done) after }
    ensures cancelled { (change : ℕ) (decided : Option AVerdict) (seat : ASeat) (wire : WireState) (number : ℕ) (request : ARequest)
        (before after : RecordedState Config Node)
        → outstanding_at wire number ≡ Some request → ask_of request ≡ ask.Cancel → CancelsOurs (token_of change) before after
        → PairHolds change decided seat wire before → PairHolds change decided seat (told wire number Done) after }
{}

/// What a link has outstanding comes to the device: whatever that does, and answers, the pair holds then.
pub fn deliveries_keep_pairs<C: Content>(content: &C)
    ensures asked { (tables : TablesState C.Edit) (change : ℕ) (decided : Option AVerdict) (seat : ASeat) (wire : WireState) (number session : ℕ)
        (request : ARequest) (reply : AReply)
        (r : RecordedState C.Config C.Node) (h : Happened C.Config C.Node) → session_at wire number ≡ Some session
        → IsDelivered (C.meaning content.now) tables change wire number request reply r (Asked session request) h
        → PairHolds change decided seat wire r → PairHolds change decided seat (told wire number reply) (recorded_with r (Asked session request) h) }
    ensures entered { (tables : TablesState C.Edit) (change : ℕ) (decided : Option AVerdict) (seat : ASeat) (wire : WireState) (number : ℕ)
        (user : List ℕ) (reply : AReply)
        (r : RecordedState C.Config C.Node) (h : Happened C.Config C.Node)
        → IsDelivered (C.meaning content.now) tables change wire number (OpenSession user) reply r (Entered user) h
        → PairHolds change decided seat wire r → PairHolds change decided seat (told wire number reply) (recorded_with r (Entered user) h) }
{}

/// Whatever else happens at the device leaves the pair, where the session of the first link was opened before and doesn't ask for it,
/// and the token is left alone.
pub fn others_keep_pairs<C: Content>(content: &C)
    ensures { (tables : TablesState C.Edit) (change : ℕ) (decided : Option AVerdict) (seat : ASeat) (wire : WireState) (event : AnEvent)
        (r : RecordedState C.Config C.Node) (h : Happened C.Config C.Node) → Happens (C.meaning content.now) tables r.device event h
        → IsNumbered r.device
        → ((session : ℕ) → session_of (first_link wire) ≡ Some session → session ≤ r.device.sessions.last)
        → ((session : ℕ) → session_of (first_link wire) ≡ Some session → is_asker event session ≡ false)
        → leaves_token (token_of change) r.device event ≡ true
        → PairHolds change decided seat wire r → PairHolds change decided seat wire (recorded_with r event h) }
{}

/// A device answers what the manager asks as it may: with a session, whether the mark is there, or Done, and each with an error whose
/// tag has its number in a journal.
pub fn devices_answer_fairly<C: Content>(content: &C)
    ensures asked { (tables : TablesState C.Edit) (s : DeviceState C.Config C.Node) (session : ℕ) (request : ARequest)
        (reply : AReply) (h : Happened C.Config C.Node)
        → Belong {Node = C.Node} (C.meaning content.now) s.stores → All (C.meaning content.now).edit_belongs tables.edits
        → Happens (C.meaning content.now) tables s (Asked session request) h → h.reply ≡ Some reply → same_ask (ask_of request) ask.Resync ≡ false
        → (is_answer (ask_of request) reply ≡ true) × (is_fair (record { request = request; reply = reply }) ≡ true) }
    ensures entered { (tables : TablesState C.Edit) (s : DeviceState C.Config C.Node) (user : List ℕ) (reply : AReply) (h : Happened C.Config C.Node)
        → Happens (C.meaning content.now) tables s (Entered user) h → h.reply ≡ Some reply
        → (is_answer ask.OpenSession reply ≡ true) × (is_fair (record { request = OpenSession user; reply = reply }) ≡ true) }
{}
