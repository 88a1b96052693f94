//! What every manager keeps, whatever it is asked.

ghost use Rattle.std.specs.Prelude.{◌≡◌, ◌++◌, ◌∷◌, [], ℕ, List, false, IfSome};
ghost use Rattle.nm_proto.specs.declared.ask.Ask.{Ask as AnAsk};
ghost use Rattle.nm_proto.specs.declared.journal.Entry.{Entry as AnEntry};
ghost use Rattle.nm_proto.specs.declared.journal.Entry.TheVariants.{Decided};
ghost use Rattle.nm_proto.specs.declared.journal.Verdict.{Verdict as AVerdict};
ghost use Rattle.nm_proto.specs.declared.plan.ChangePlan.{ChangePlan as APlan};
ghost use Rattle.nm_wire.specs.Asks.{ask_of};
ghost use Rattle.nm_manager.specs.declared.action.Action.TheVariants as action;
ghost use Rattle.nm_manager.specs.Queues.{is_ready_in};
ghost use Rattle.nm_manager.specs.Requests.{request_for};
ghost use Rattle.nm_manager.specs.Manager.{ManagerState, turned, idle};

/// A request asks what it is to ask.
pub fn requests_ask_what_is_next()
    ensures { (plan : APlan) (entries : List AnEntry) (change device : ℕ) (what : AnAsk)
        → IfSome (request_for plan entries change device what) (λ request. ask_of request ≡ what) }
{}

/// A verdict that a turn answers is in the journal.
pub fn verdicts_are_journalled()
    ensures { (plans : List APlan) (state : ManagerState) (change : ℕ) (verdict : AVerdict) → (turned plans state change).action ≡ action.Decided verdict
        → (turned plans state change).state.entries ≡ state.entries ++ Decided change verdict ∷ [] }
{}

/// Nothing is done for a change set while an earlier one that shares a device with it isn't ended.
pub fn change_sets_wait_their_turn()
    ensures { (plans : List APlan) (state : ManagerState) (change : ℕ) → is_ready_in state.entries change ≡ false → turned plans state change ≡ idle state }
{}
