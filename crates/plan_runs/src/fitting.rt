// How many workers pay for a plan.
ghost use Rattle.std.specs.Prelude.{◌≡◌, ◌≤◌, ℕ, map, IfOk};
ghost use Rattle.planner.specs.inner.Groups.{groups_of};

use commands::{FilterSpec, Origin};
use machine::NoMemory;
use planner::{Node, Plan};
use std::alloc::Global;
use std::thread;
use std::thread::Threads;

// The stages of a plan in groups, each for a thread of its own: at most this many. If they are to fit, there are no more than stages that
// compute, and than processors: none at all if no stage computes. No thread is begun here.
pub(crate) fn groups_for<R: Threads>(
    rt: &R,
    alloc: Global,
    plan: &Plan,
    workers: usize,
    fits: bool,
) -> Result<Vec<Vec<usize>>, NoMemory>
    requires { 1 ≤ workers }
    ensures { IfOk result
        (λ groups. (count : ℕ) × (map (λ v. v.items) groups.items ≡ groups_of plan.now count)) }
{
    if !fits {
        return plan.groups(alloc, workers);
    }
    let fitting = fitting_workers(rt, plan, workers);
    if fitting == 0 {
        return Ok(Vec::new(alloc));
    }
    plan.groups(alloc, fitting)
}

// At most this many workers, and no more than stages that compute, or than processors; but one at least if a stage computes.
fn fitting_workers<R: Threads>(rt: &R, plan: &Plan, most: usize) -> usize {
    let workers = computing_stages(plan).min(most);
    if workers <= 1 {
        return workers;
    }
    workers.min(processors(rt)).max(1)
}

// How many stages compute.
fn computing_stages(plan: &Plan) -> usize {
    let mut stages = 0usize;
    for node in plan.order() {
        stages = stages.saturating_add(usize::from(is_computing(node)));
    }
    stages
}

// Whether a node is a stage that looks at each byte, and does not only hand pieces on.
fn is_computing(node: &Node) -> bool {
    let Node::Stage { spec, .. } = node else {
        return false;
    };
    match spec {
        FilterSpec::Cat(_) | FilterSpec::Tee(_) | FilterSpec::Head(_) => false,
        FilterSpec::Tail(tail) => tail.origin == Origin::End,
        _ => true,
    }
}

// How many processors the machine has, if that can be known.
fn processors<R: Threads>(rt: &R) -> usize {
    match thread::available_parallelism(rt) {
        Ok(count) => count.get(),
        Err(_) => usize::MAX,
    }
}
