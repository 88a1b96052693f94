//! What every wire keeps, whatever happens on it, in words of what was sent and told.

ghost use Rattle.std.specs.Prelude.{◌≡◌, ◌+◌, ℕ, Bool, true, false, None};
ghost use Rattle.nm_proto.specs.declared.ask.Ask.{Ask as AnAsk};
ghost use Rattle.nm_proto.specs.declared.ask.Ask.TheVariants as ask;
ghost use Rattle.nm_proto.specs.declared.message.Request.{Request as ARequest};
ghost use Rattle.nm_proto.specs.declared.message.Reply.{Reply as AReply};
ghost use Rattle.nm_wire.specs.declared.link.Exchange.{Exchange as AnExchange};
ghost use Rattle.nm_wire.specs.declared.link.Way.TheVariants as way;
ghost use Rattle.nm_wire.specs.Asks.{ask_of};
ghost use Rattle.nm_wire.specs.Link.{LinkState, is_quiet, over, sent_on, told_on, handled_on, closed_link};
ghost use Rattle.nm_wire.specs.Words.{over_sent, commits_sent, commit_count, holds, owns, was_done};
ghost use Rattle.nm_wire.specs.Wire.{WireState, may_send, outstanding_at, due, begun, sent, told, handled, broken, lost, restarted};
ghost use Rattle.nm_wire.specs.Kept.{KeepsLinks};

/// Whatever happens on a wire, each link stays: what was told on it isn't lost, what was handled stays so, and a device's side
/// that has ended doesn't come back.
pub fn what_was_told_stays()
    ensures begun { (wire : WireState) (request : ARequest) → KeepsLinks wire (begun wire request) }
    ensures sent { (wire : WireState) (request : ARequest) → may_send wire ≡ true → KeepsLinks wire (sent wire request) }
    ensures told { (wire : WireState) (link : ℕ) (reply : AReply) → KeepsLinks wire (told wire link reply) }
    ensures handled { (wire : WireState) (link number : ℕ) → KeepsLinks wire (handled wire link number) }
    ensures broken { (wire : WireState) → KeepsLinks wire (broken wire) }
    ensures lost { (wire : WireState) (link : ℕ) → KeepsLinks wire (lost wire link) }
    ensures restarted { (wire : WireState) → KeepsLinks wire (restarted wire) }
{}

/// A request is delivered at most once, and a reply is handled at most once.
pub fn nothing_comes_twice()
    ensures delivered { (wire : WireState) (link : ℕ) (reply : AReply) → outstanding_at (told wire link reply) link ≡ None }
    ensures handled { (wire : WireState) (link number : ℕ) → due (handled wire link number) link number ≡ None }
{}

/// What a link has done grows by what the device answers alone: sending, handling and closing leave it.
pub fn answers_alone_are_done<A>()
    ensures told { (step : A → AnExchange → A) (value : A) (link : LinkState) (request : ARequest) (reply : AReply) → link.way ≡ way.Asked request
        → over step value (told_on reply link) ≡ step (over step value link) (record { request = request; reply = reply }) }
    ensures sent { (step : A → AnExchange → A) (value : A) (link : LinkState) (request : ARequest) → is_quiet link ≡ true
        → over step value (sent_on request link) ≡ over step value link }
    ensures handled { (step : A → AnExchange → A) (value : A) (link : LinkState) → over step value (handled_on link) ≡ over step value link }
    ensures closed { (step : A → AnExchange → A) (value : A) (link : LinkState) → over step value (closed_link link) ≡ over step value link }
{}

/// What was sent on a link grows by what the manager sends alone.
pub fn requests_alone_are_sent<A>()
    ensures sent { (step : A → ARequest → A) (value : A) (link : LinkState) (request : ARequest) → is_quiet link ≡ true
        → over_sent step value (sent_on request link) ≡ step (over_sent step value link) request }
    ensures told { (step : A → ARequest → A) (value : A) (link : LinkState) (reply : AReply)
        → over_sent step value (told_on reply link) ≡ over_sent step value link }
    ensures handled { (step : A → ARequest → A) (value : A) (link : LinkState) → over_sent step value (handled_on link) ≡ over_sent step value link }
    ensures closed { (step : A → ARequest → A) (value : A) (link : LinkState) → over_sent step value (closed_link link) ≡ over_sent step value link }
{}

/// Who holds a lock has asked for it, and it was done.
pub fn locks_were_granted()
    ensures running { (link : LinkState) → holds link ≡ true → was_done ask.LockRunning link ≡ true }
    ensures candidate { (link : LinkState) → owns link ≡ true → was_done ask.LockCandidate link ≡ true }
{}
