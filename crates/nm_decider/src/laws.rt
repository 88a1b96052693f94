//! What every course keeps, in words of its seats and of all that happened to it.

ghost use Rattle.std.specs.Prelude.{◌≡◌, ◌≤◌, ℕ, Bool, List, length, true, false, Option, Some, slice_get};
ghost use Rattle.nm_proto.specs.declared.journal.AbortCause.{AbortCause as ACause};
ghost use Rattle.nm_proto.specs.declared.journal.Verdict.{Verdict as AVerdict};
ghost use Rattle.nm_decider.specs.Course.{CourseState, seat_count, new_course};
ghost use Rattle.nm_proto.specs.declared.ask.Ask.{Ask as AnAsk};
ghost use Rattle.nm_proto.specs.declared.message.Reply.{Reply as AReply};
ghost use Rattle.nm_decider_stage.specs.declared.stage.Stage.{Stage as AStage};
ghost use Rattle.nm_decider.specs.Told.{TellsAlone};
ghost use Rattle.nm_decider.specs.Rightly.{ActsRightly, TakesInOrder, WaitsRightly};
ghost use Rattle.nm_decider.specs.Moves.{Move, moved, moved_on, MayMove, IsDriven, commits_asked, commit_done, has_acknowledged, settled_of, member_of};

/// Every next action is a right one: what is sent is the next ask of a device that awaits nothing, Commit is decided only where
/// every device has acknowledged, Abort only with the cause that was noted, and the end comes only where all are settled.
pub fn every_action_is_right()
    ensures { (course : CourseState) → length course.seats ≡ seat_count → ActsRightly course }
{}

/// Devices are taken in their order: before the decision one after another, and after it whichever was sent the fewest requests.
pub fn devices_are_taken_in_order()
    ensures { (course : CourseState) → TakesInOrder course }
{}

/// The manager waits for replies alone.
pub fn waits_are_for_replies()
    ensures { (course : CourseState) → WaitsRightly course }
{}

/// The confirmed commit is asked of each device at most once, whatever happens.
pub fn commits_are_asked_once()
    ensures { (device : ℕ) (course : CourseState) (moves : List Move) → IsDriven course moves → commits_asked device course moves ≤ 1 }
{}

/// A device has acknowledged only where it answered Done to the confirmed commit.
pub fn acknowledged_commits_were_done()
    ensures { (place change devices : ℕ) (moves : List Move)
        → has_acknowledged (slice_get (moved_on (new_course change devices) moves).seats place) ≡ true
        → commit_done place (new_course change devices) moves ≡ true }
{}

/// The trouble that is noted first is never replaced, nor is a verdict.
pub fn first_trouble_stays()
    ensures trouble { (course : CourseState) (move : Move) (why : ACause) → course.trouble ≡ Some why → (moved course move).trouble ≡ Some why }
    ensures verdict { (course : CourseState) (move : Move) (decided : AVerdict) → MayMove course move → course.verdict ≡ Some decided
        → (moved course move).verdict ≡ Some decided }
{}

/// A settled device stays settled, as it was found, and the devices of the change set are always the same.
pub fn settled_devices_stay()
    ensures settled { (place : ℕ) (course : CourseState) (move : Move) (kept : Bool) → settled_of (slice_get course.seats place) ≡ Some kept
        → settled_of (slice_get (moved course move).seats place) ≡ Some kept }
    ensures members { (place : ℕ) (course : CourseState) (move : Move)
        → member_of (slice_get (moved course move).seats place) ≡ member_of (slice_get course.seats place) }
{}

/// Whether a device keeps the change set is known by what its replies tell alone, and once it is known it stays so: a confirm that is
/// refused tells nothing.
pub fn replies_alone_tell()
    ensures { (decided : Option AVerdict) (stage : AStage) (what : AnAsk) (reply : AReply) → TellsAlone decided stage what reply }
{}
