//! What stands behind the outcome of a resynchronisation, in words of what was asked and told.

ghost use Rattle.std.specs.Prelude.{◌≡◌, ◌<◌, Bool, List, [], true, false, Some, None};
ghost use Rattle.nm_proto.specs.declared.message.Reply.{Reply as AReply};
ghost use Rattle.nm_resync.specs.declared.resync.ResyncStage.{ResyncStage as AStage};
ghost use Rattle.nm_resync.specs.Resync.{fresh_resync, resync_ask, resync_learnt, settled_in};
ghost use Rattle.nm_resync.specs.Known.{asked_over, after, has_lock, knows, LearnsRightly, rank, fits};

/// Whatever is replied, an outcome is known only where the session holds the candidate lock: no earlier confirmed commit, confirm or
/// cancel is on its way then, since each stands on a session that holds it.
pub fn outcomes_stand_behind_the_lock()
    ensures { (commit kept : Bool) (replies : List AReply) → knows (after (fresh_resync commit) replies).stage ≡ Some kept
        → has_lock (asked_over [] (fresh_resync commit) replies) ≡ true }
{}

/// What comes to be known is what the reply tells, so a refused confirm tells nothing, and what is known stays so.
pub fn replies_alone_tell()
    ensures { (commit : Bool) (stage : AStage) (told : AReply) → LearnsRightly commit stage told }
{}

/// A change set that isn't to be committed isn't kept, whatever is replied.
pub fn what_is_aborted_is_not_kept()
    ensures { (kept : Bool) (replies : List AReply) → knows (after (fresh_resync false) replies).stage ≡ Some kept → kept ≡ false }
{}

/// Each reply that fits leads on: at most seven requests settle a device that refuses none but the confirm.
pub fn fitting_replies_end_it()
    ensures { (commit : Bool) (stage : AStage) (told : AReply) → settled_in stage ≡ None → fits (resync_ask commit stage) told ≡ true
        → rank commit (resync_learnt commit stage told) < rank commit stage }
{}
