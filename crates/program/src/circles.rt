ghost use Rattle.std.specs.Prelude.{IsTrue};
ghost use Rattle.network_laws.specs.Circles.{AreOwnWaits};
ghost use Rattle.planner.specs.Planned.{graph_of};
ghost use Rattle.program.specs.inner.Circles.{IsOwnWait};

use machine::NoMemory;
use network_laws::Waiting;
use planner::Plan;
use std::alloc::Global;
use step_scheduler::circle;

// Those of the nodes that wait for one another in a circle, from its lowest one on; None if there
// is no circle.
pub(crate) fn circle_of(
    alloc: Global,
    plan: &Plan,
    waits: &[Waiting],
) -> Result<Option<Vec<usize>>, NoMemory> {
    if are_own_waits(plan, waits) {
        circle(alloc, plan, waits)
    } else {
        Ok(None)
    }
}

// Whether nodes of the plan can wait like this, named in rising order. Those of a run that stalled
// do; no contract says so of files of which nothing is known.
fn are_own_waits(plan: &Plan, waits: &[Waiting]) -> bool
    ensures { IsTrue result → AreOwnWaits (graph_of plan.now) waits.now }
{
    for k in 0..waits.len() {
        let rises = k == 0 || waits[k - 1].node < waits[k].node;
        if !rises || !is_own_wait(plan, waits[k]) {
            return false;
        }
    }
    true
}

// Whether a node of the plan can wait so.
fn is_own_wait(plan: &Plan, wait: Waiting) -> bool
    ensures { IsTrue result → IsOwnWait (graph_of plan.now) wait }
{
    let count = plan.order().len();
    match plan.pipes().get(wait.pipe) {
        Some((writer, reader)) => {
            let own = if wait.full { *writer } else { *reader };
            own == wait.node && wait.node < count
        }
        None => false,
    }
}
