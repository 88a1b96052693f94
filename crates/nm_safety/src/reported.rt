//! What the report of a safe world tells.

ghost use Rattle.std.specs.Prelude.{List};
ghost use Rattle.nm_proto.specs.declared.plan.Event.{Event as AnEvent};
ghost use Rattle.nm_world.specs.World.{Setting, WorldState};
ghost use Rattle.nm_safety.specs.Safe.{IsSafe};
ghost use Rattle.nm_safety.specs.Reported.{TellsAll};

use nm_proto::Content;

/// The report of a safe world, as every run comes to, tells of each change set at each device what has become of it there. Once it is
/// settled, all its devices have it where its commit was journalled, and otherwise none has it, except exactly those reported to differ:
/// there a timer or a restart undid the pending commit (RFC 6241 section 8.4). What is reported unsettled is exactly what was
/// submitted and has a pending commit or a request that is yet to be done, and nothing is reported of what isn't there.
pub fn reports_tell_all<C: Content>(content: &C)
    ensures { (setting : Setting C.Edit) (running : List C.Config) (events : List AnEvent) (w : WorldState C.Config C.Node)
        → IsSafe (C.meaning content.now) setting running events w → TellsAll setting w }
{}
