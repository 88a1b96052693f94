//! A run in which nothing stands in the way of a change set commits it everywhere.

ghost use Rattle.std.specs.Prelude.{◌≡◌, ℕ, List, None};
ghost use Rattle.nm_proto.specs.declared.plan.ChangePlan.{ChangePlan as APlan};
ghost use Rattle.nm_world.specs.World.{Setting};
ghost use Rattle.nm_world.specs.Drain.{drain_event};
ghost use Rattle.nm_rest_laws.specs.Calm.{IsCalm, IsCommitted, drained_run};

use nm_proto::Content;

/// Where there is one change set and no operator, and each edit of it is applied without refusal, with its mark, to what its device runs
/// at first and gives a valid configuration, the change set is submitted and the world is brought to rest: then a commit is in the
/// journal and the change set is ended, and each of its devices has it for good and runs what its edit makes (RFC 6241 section 8.4).
pub fn calm_runs_commit<C: Content>(content: &C)
    ensures { (setting : Setting C.Edit) (running : List C.Config) (plan : APlan) (steps : ℕ)
        → IsCalm {Node = C.Node} (C.meaning content.now) setting running plan
        → drain_event setting (drained_run (C.meaning content.now) setting running steps) ≡ None
        → IsCommitted (C.meaning content.now) setting running plan (drained_run (C.meaning content.now) setting running steps) }
{}
