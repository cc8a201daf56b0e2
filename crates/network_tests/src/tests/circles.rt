// The circle of waits: `circle WAITS` returns the circle that the plan of a script has for these
// waits, in the order of their nodes: `1>2` is node 1, which waits for the full pipe 2, and `1<2`
// is node 1, which waits for the empty pipe 2.
ghost use Rattle.std.specs.Prelude.{◌≡◌, IsTrue};
ghost use Rattle.graphs.specs.Graph.{IsNode, IsPipe};
ghost use Rattle.network_laws.specs.Circles.{AreOwnWaits, own_end};
ghost use Rattle.planner.specs.Planned.{graph_of};

use super::plans::plan_of;
use super::*;
use network_laws::Waiting;
use planner::Plan;
use step_scheduler::circle;

// The plan that the waits are for.
#[derive(Drop)]
struct Circled {
    plan: Plan,
}

fn wait_of(text: &str) -> Result<Waiting, Fail> {
    let full = text.contains('>');
    let (node, pipe) = halves(text, if full { ">" } else { "<" });
    Ok(Waiting {
        node: node.parse()?,
        pipe: pipe.parse()?,
        full,
    })
}

fn waits_of(alloc: Global, text: &str) -> Result<Vec<Waiting>, Fail> {
    let mut waits = Vec::new(alloc);
    for word in text.split_ascii_whitespace() {
        waits.push(wait_of(word)?)?;
    }
    Ok(waits)
}

// Whether a node waits for a pipe of its own.
fn is_own(plan: &Plan, wait: Waiting) -> bool
    ensures node { IsTrue result → IsNode (graph_of plan.now) wait.node }
    ensures pipe { IsTrue result → IsPipe (graph_of plan.now) wait.pipe }
    ensures own { IsTrue result → own_end (graph_of plan.now) wait ≡ wait.node }
{
    let pipes = plan.pipes();
    if wait.node >= plan.order().len() || wait.pipe >= pipes.len() {
        return false;
    }
    let (writer, reader) = pipes[wait.pipe];
    if wait.full {
        writer == wait.node
    } else {
        reader == wait.node
    }
}

// Whether each node waits for a pipe of its own, and they are in rising order.
fn are_own(plan: &Plan, waits: &[Waiting]) -> bool
    ensures { IsTrue result → AreOwnWaits (graph_of plan.now) waits.now }
{
    let count = plan.order().len();
    let mut above = 0;
    for wait in waits {
        if wait.node < above || wait.node >= count || !is_own(plan, *wait) {
            return false;
        }
        above = wait.node + 1;
    }
    true
}

impl Bench for Circled {
    fn act(&mut self, alloc: Global, action: &str, with: &str) -> Result<Vec<u8>, Fail> {
        let waits = waits_of(alloc, with)?;
        if action != "circle" || !are_own(&self.plan, waits.as_slice()) {
            return unknown();
        }
        debugged(alloc, &circle(alloc, &self.plan, waits.as_slice())?)
    }
}

// The first waits are those of the stall of the script with pipes of one piece of one byte.
#[test]
fn circles_of_waits(rt: HostRuntime) -> Result<(), Fail> {
    let text = "mkfifo f; tee f < in | tail -n 1 | paste - f > out";
    let plan = plan_of(rt.alloc(), text)?;
    let mut bench = Circled { plan };
    play(
        rt.alloc(),
        &mut bench,
        7,
        r"circle 0>0 1>2 2<1 3<3 4<4 -> Some([1, 3, 2])
circle 1>1 2>3 3<2 -> Some([1, 2, 3])
circle 0>0 1<0 3<3 -> Some([0, 1])
circle 0>0 2>3 3<3 -> None
circle 2<1 3<3 -> None
circle 3>4 -> None
circle -> None",
    )
}
