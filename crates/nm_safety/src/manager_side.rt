//! What one change set and one device keep of each other, whatever happens that doesn't touch the device.

ghost use Rattle.std.specs.Prelude.{◌≡◌, [], ℕ, Bool, false, true, Option, None, Some};
ghost use Rattle.nm_base.specs.Mask.{mask_contains};
ghost use Rattle.nm_proto.specs.declared.ask.Ask.{Ask as AnAsk};
ghost use Rattle.nm_proto.specs.declared.ask.Ask.TheVariants as ask;
ghost use Rattle.nm_proto.specs.declared.message.Request.{Request as ARequest};
ghost use Rattle.nm_proto.specs.declared.journal.Verdict.{Verdict as AVerdict};
ghost use Rattle.nm_history.specs.History.{RecordedState, recorded};
ghost use Rattle.nm_decider_stage.specs.declared.stage.Stage.{Stage as AStage};
ghost use Rattle.nm_decider_stage.specs.declared.stage.Stage.TheVariants.{Live, Resync};
ghost use Rattle.nm_decider_stage.specs.Stages.{next_ask, learnt, is_acknowledged, broken_stage};
ghost use Rattle.nm_decider.specs.declared.seat.Seat.{Seat as ASeat};
ghost use Rattle.nm_decider.specs.Course.{asked_next, renewed, decided_seat, seat_of};
ghost use Rattle.nm_wire.specs.declared.link.Exchange.{Exchange as AnExchange};
ghost use Rattle.nm_wire.specs.declared.link.Way.TheVariants as way;
ghost use Rattle.nm_proto.specs.declared.message.Reply.TheVariants.{Done};
ghost use Rattle.nm_wire.specs.Asks.{ask_of};
ghost use Rattle.nm_wire.specs.Link.{LinkState};
ghost use Rattle.nm_wire.specs.Words.{ask_on, holds};
ghost use Rattle.nm_wire.specs.Wire.{WireState, current_link, no_links, due, handled, broken, lost, restarted};
ghost use Rattle.nm_manager.specs.Slot.{SideState, asked_in_fact, opens, gone, is_resync, to_commit};
ghost use Rattle.nm_safety.specs.Step.{GoesWith};
ghost use Rattle.nm_safety.specs.Pair.{PairHolds, first_link};

/// At the beginning, where no link was made and nothing has happened at the device.
pub fn beginnings_hold<Config, Node>()
    ensures { (change devices device : ℕ) (running : Config)
        → PairHolds {Node = Node} change None (seat_of devices (Live 0) device) no_links (recorded running) }
{}

/// The next request of a device goes out, or the timer of its pending commit is set anew.
pub fn requests_keep_pairs<Config, Node>()
    ensures sent { (change : ℕ) (decided : Option AVerdict) (seat : ASeat) (side : SideState) (r : RecordedState Config Node) (what : AnAsk)
        (request : ARequest)
        → GoesWith decided seat side → seat.awaited ≡ None → next_ask decided seat.stage ≡ Some what → ask_of request ≡ asked_in_fact side.resync what
        → PairHolds change decided seat side.wire r
        → PairHolds change decided (asked_next decided seat) (gone (opens (asked_in_fact side.resync what)) side.wire request) r }
    ensures renewed { (change : ℕ) (seat : ASeat) (side : SideState) (r : RecordedState Config Node) (request : ARequest)
        → GoesWith None seat side → seat.awaited ≡ None → is_acknowledged seat.stage ≡ true → ask_of request ≡ ask.Renew
        → PairHolds change None seat side.wire r → PairHolds change None (renewed seat) (gone false side.wire request) r }
{}

/// A reply is handled: one to a request of the course, or to one of a resynchronisation, whatever that finds.
pub fn replies_keep_pairs<Config, Node>()
    ensures handled { (change : ℕ) (decided : Option AVerdict) (seat : ASeat) (side : SideState) (r : RecordedState Config Node) (link number : ℕ)
        (exchange : AnExchange) (what : AnAsk)
        → GoesWith decided seat side → due side.wire link number ≡ Some exchange → seat.awaited ≡ Some what → is_resync (Some what) ≡ false
        → PairHolds change decided seat side.wire r
        → PairHolds change decided (record seat { stage = learnt decided seat.stage what exchange.reply; awaited = None })
        (handled side.wire link number) r }
    ensures resynced { (change : ℕ) (verdict : AVerdict) (seat : ASeat) (side : SideState) (r : RecordedState Config Node) (link number : ℕ)
        (exchange : AnExchange) (stage : AStage)
        → due side.wire link number ≡ Some exchange → PairHolds change (Some verdict) seat side.wire r
        → PairHolds change (Some verdict) (record seat { stage = stage; awaited = None }) (handled side.wire link number) r }
{}

/// The verdict falls: a commit where each device of the change set has acknowledged.
pub fn verdicts_keep_pairs<Config, Node>()
    ensures { (change : ℕ) (verdict : AVerdict) (seat : ASeat) (wire : WireState) (r : RecordedState Config Node)
        → (to_commit (Some verdict) ≡ true → seat.is_member ≡ true → is_acknowledged seat.stage ≡ true)
        → PairHolds change None seat wire r → PairHolds change (Some verdict) (decided_seat verdict seat) wire r }
{}

/// The current link breaks, what was known of the change set is lost, or the manager starts anew. One that isn't decided then and
/// begins again was never begun.
pub fn breaks_keep_pairs<Config, Node>()
    ensures broken { (change : ℕ) (decided : Option AVerdict) (seat : ASeat) (wire : WireState) (r : RecordedState Config Node)
        → PairHolds change decided seat wire r
        → PairHolds change decided (record seat { stage = broken_stage seat.stage; awaited = None }) (broken wire) r }
    ensures forgotten { (change : ℕ) (decided : Option AVerdict) (seat : ASeat) (wire : WireState) (r : RecordedState Config Node)
        (devices device : ℕ)
        → (mask_contains devices device ≡ true → seat.is_member ≡ true) → PairHolds change decided seat wire r
        → PairHolds change decided (seat_of devices Resync device) (broken wire) r }
    ensures anew { (change : ℕ) (decided : Option AVerdict) (seat : ASeat) (wire : WireState) (r : RecordedState Config Node) (devices device : ℕ)
        → (mask_contains devices device ≡ true → seat.is_member ≡ true) → (decided ≡ None → wire.links ≡ []) → PairHolds change decided seat wire r
        → PairHolds change decided (seat_of devices (Live 0) device) (broken wire) r }
{}

/// The device's side of a link ends, or that of all links.
pub fn closed_links_keep_pairs<Config, Node>()
    ensures lost { (change : ℕ) (decided : Option AVerdict) (seat : ASeat) (wire : WireState) (r : RecordedState Config Node) (number : ℕ)
        → PairHolds change decided seat wire r
        → PairHolds change decided seat (lost wire number) r }
    ensures restarted { (change : ℕ) (decided : Option AVerdict) (seat : ASeat) (wire : WireState) (r : RecordedState Config Node)
        → PairHolds change decided seat wire r
        → PairHolds change decided seat (restarted wire) r }
{}

/// Before the verdict the current link is the first, and what is asked on it is what is awaited. A lock of running that a link was
/// told of is held.
pub fn first_links_come_first<Config, Node>()
    ensures current { (change : ℕ) (seat : ASeat) (side : SideState) (r : RecordedState Config Node) (link : LinkState) → GoesWith None seat side
        → PairHolds change None seat side.wire r → current_link side.wire ≡ Some link → first_link side.wire ≡ link }
    ensures order { (change : ℕ) (seat : ASeat) (side : SideState) (r : RecordedState Config Node) (link : LinkState) → GoesWith None seat side
        → PairHolds change None seat side.wire r → current_link side.wire ≡ Some link → ask_on link.way ≡ seat.awaited }
    ensures locked { (link : LinkState) (exchange : AnExchange) → link.way ≡ way.Told exchange → ask_of exchange.request ≡ ask.LockRunning
        → exchange.reply ≡ Done → holds link ≡ true }
{}
