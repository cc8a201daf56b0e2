// How many rounds are enough for a run of a plan on one thread.
ghost use Rattle.std.specs.Prelude.{◌≡◌, ◌*◌, ◌+◌, ◌^◌, ◌<◌, ◌≤◌, None, IfSome};
ghost use Rattle.network_laws.specs.Sequential.{Contents};
ghost use Rattle.plan_runs.specs.Rounds.{CarriesAtMost, plan_rounds, rounds_for};

use planner::Plan;

/// How many rounds are enough for `run_plan_in_turn`, if no pipe of the plan carries more bytes than this. None if they are 2^64
/// or more.
pub fn enough_rounds(plan: &Plan, bytes: u64) -> Option<u64>
    ensures enough { IfSome result (λ rounds. (contents : Contents)
        → CarriesAtMost plan.now contents bytes → plan_rounds plan.now contents < rounds) }
    ensures exact { IfSome result (λ rounds. rounds ≡ rounds_for plan.now bytes) }
    ensures none { result ≡ None → 2 ^ 64 ≤ rounds_for plan.now bytes }
{
    rounds_of(plan.pipes().len() as u64, plan.order().len() as u64, bytes)
}

// The same by the numbers of pipes and of nodes.
fn rounds_of(pipes: u64, nodes: u64, bytes: u64) -> Option<u64>
    ensures exact { IfSome result (λ rounds. rounds ≡ pipes * (2 * bytes + 16) + nodes + 1) }
    ensures none { result ≡ None → 2 ^ 64 ≤ pipes * (2 * bytes + 16) + nodes + 1 }
{
    let bytes = pipes.checked_mul(bytes)?.checked_mul(2)?;
    let others = pipes.checked_mul(16)?;
    bytes
        .checked_add(others)?
        .checked_add(nodes)?
        .checked_add(1)
}
