//! The faults that scripts plan, and their order.

ghost use Rattle.std.specs.Prelude.{◌≤◌};
ghost use Rattle.nm_proto.specs.Fault.{IsPlan};

use crate::play::halves;
use nm_cells::Faults;
use nm_proto::{PlanEntry, PlanFault};
use std::alloc::Global;
use std::process::Abort;

const ADVANCE: PlanFault = PlanFault::Advance { seconds: 5 };

// A fault at a request, as `drop:2`.
fn planned(rt: &impl Abort, text: &str) -> PlanEntry
    ensures { 1 ≤ result.at }
{
    let (fault, at) = halves(text, ":");
    let at = at.parse::<u32>().expect(rt, "a number");
    assert!(rt; at > 0);
    let fault = match fault {
        "drop" => PlanFault::Drop,
        "cut" => PlanFault::Cut,
        "restart" => PlanFault::Restart,
        "advance" => ADVANCE,
        _ => panic!(rt; "no fault"),
    };
    PlanEntry { at, fault }
}

// The plan of a text of at most two faults.
pub(crate) fn plan_of(rt: &impl Abort, alloc: Global, text: &str) -> Vec<PlanEntry>
    ensures { IsPlan result.items }
{
    let mut plan = Vec::new(alloc);
    let (first, second) = halves(text, " ");
    if first.is_empty() {
        return plan;
    }
    let first = planned(rt, first);
    plan.push(first).expect(rt, "memory");
    if second.is_empty() {
        return plan;
    }
    let second = planned(rt, second);
    assert!(rt; first.at < second.at);
    plan.push(second).expect(rt, "memory");
    plan
}

// Each fault comes at just the request that it names, and an advance that was done doesn't come again.
#[test]
fn faults_come_at_their_requests(rt: HostRuntime) {
    let mut faults = Faults::new(plan_of(&rt, rt.alloc(), "drop:2 advance:3"));
    let first = faults.due();
    faults.count();
    let second = faults.due();
    faults.count_if(false);
    let again = faults.due();
    faults.count_if(true);
    let third = faults.due();
    faults.come();
    let drops = Some(PlanFault::Drop);
    assert!(rt; first.is_none() && second == drops && again == drops && third == Some(ADVANCE));
    assert!(rt; faults.due().is_none() && faults.counted() == 2);
}
