ghost use Rattle.std.specs.Prelude.{◌≡◌, ◌≢◌, ◌<◌, ℕ, [], length, Some, IfOk, IsSome, MatchOption};
ghost use Rattle.graphs.specs.inner.Circles.{next_of};
ghost use Rattle.graphs.specs.Graph.{Graph, IsPlan};
ghost use Rattle.network_laws.specs.Circles.{AreOwnWaits, IsLowestNamed, MeetsCircle};
ghost use Rattle.network_laws.specs.Outcome.{AreWaits, other_end};
ghost use Rattle.network_laws.specs.State.{Setup, State};
ghost use Rattle.network_laws.specs.Waits.{IsStuck};
ghost use Rattle.planner.specs.Planned.{graph_of};
ghost use Rattle.step_scheduler.specs.inner.Follows.{Follows};

use machine::NoMemory;
use network_laws::Waiting;
use planner::Plan;
use std::alloc::Global;

// The lowest node that waits, None if there is none.
fn lowest(waits: &[Waiting]) -> Option<usize>
    ensures { MatchOption result (waits.now ≡ []) (IsLowestNamed waits.now) }
{
    let mut low = waits.first()?.node;
    for wait in waits {
        low = low.min(wait.node);
    }
    Some(low)
}

// The node at the other end of the pipe that is waited for.
fn other_end(pipes: &[(usize, usize)], wait: Waiting) -> usize
    requires { wait.pipe < length pipes.now }
    ensures { (g : Graph) → g.pipes ≡ pipes.now → result ≡ other_end g wait }
{
    let (writer, reader) = pipes[wait.pipe];
    if wait.full { reader } else { writer }
}

// For each node the one that it waits for, which is another.
fn followed(alloc: Global, plan: &Plan, waits: &[Waiting]) -> Result<Vec<Option<usize>>, NoMemory>
    requires { AreOwnWaits (graph_of plan.now) waits.now }
    ensures table { IfOk result (λ next. Follows (graph_of plan.now) waits.now next.items) }
    ensures others { IfOk result (λ next. (k : ℕ) → next_of next.items k ≢ Some k) }
{
    let pipes = plan.pipes();
    let mut next = vec![in alloc; None; plan.order().len()]?;
    for wait in waits {
        next[wait.node] = Some(other_end(pipes, *wait));
    }
    Ok(next)
}

/// The circle of waits, each for the next one, that following the waits from the lowest waiting
/// node reaches, from its lowest node on. None if there are no waits, or if they lead to a node
/// that does not wait; for the waits of a stall there is one.
pub fn circle(alloc: Global, plan: &Plan, waits: &[Waiting]) -> Result<Option<Vec<usize>>, NoMemory>
    requires { AreOwnWaits (graph_of plan.now) waits.now }
    ensures met { IfOk result (MeetsCircle (graph_of plan.now) waits.now) }
    ensures stall { (s : Setup) (st : State) → s.graph ≡ graph_of plan.now → IsPlan s.graph
        → IsStuck s st → AreWaits s st waits.now → IfOk result IsSome }
{
    let Some(first) = lowest(waits) else {
        return Ok(None);
    };
    let next = followed(alloc, plan, waits)?;
    graphs::circle(alloc, next.as_slice(), first)
}
