// Which pipe of a network grows next.
ghost use Rattle.std.specs.Prelude.{◌≡◌, ◌<◌, length, IsTrue, IsFalse, IfSome};
ghost use Rattle.collector.specs.Files.{FilesShown};
ghost use Rattle.network_laws.specs.State.{Setup};
ghost use Rattle.networks.specs.Networks.{Networked, AreWired, AreBeside, IsRight, state_by};
ghost use Rattle.networks.specs.Growth.{IsNext, GrowsBefore};
ghost use Rattle.networks.specs.inner.Candidates.{IsWithin, IsCandidate, IsSooner};

use crate::awaiting::node_wait;
use machine::Machine;
use network_nodes::{Actor, Link, capacity_at, holds_capacity_at};

// A pipe that may grow, and how many items it can hold.
#[derive(Clone, Copy, Debug, PartialEq, Eq)]
pub struct Candidate {
    pub pipe: usize,
    pub capacity: usize,
}

// The pipe that grows next, if one may grow: of the full ones that nodes wait for and that hold as many items as a capacity
// below the most, the one of least capacity, then of lowest number.
pub(crate) fn next_to_grow<M: Machine>(
    nodes: &[Actor<M>],
    pipes: &[Link],
    most: usize,
) -> Option<usize>
    requires wired { AreWired nodes.now pipes.now }
    requires beside { AreBeside nodes.now pipes.now }
    ensures within { IfSome result (IsWithin nodes.now pipes.now most) }
    ensures next { (s : Setup) (files : FilesShown) (n : Networked M)
        → n.nodes ≡ nodes.now → n.pipes ≡ pipes.now → n.most ≡ most → IsRight M.shows s n files
        → IsNext s (state_by M.shows nodes.now pipes.now files) result }
{
    let mut next = None;
    for node in 0..nodes.len() {
        next = sooner(next, candidate_of(nodes, pipes, most, node));
    }
    match next {
        Some(found) => Some(found.pipe),
        None => None,
    }
}

// The full pipe that the node with this number waits for, if it may grow.
fn candidate_of<M: Machine>(
    nodes: &[Actor<M>],
    pipes: &[Link],
    most: usize,
    node: usize,
) -> Option<Candidate>
    requires within { node < length nodes.now }
    requires wired { AreWired nodes.now pipes.now }
    requires beside { AreBeside nodes.now pipes.now }
    ensures within { IfSome result (λ c. IsWithin nodes.now pipes.now most c.pipe) }
    ensures exact { (s : Setup) (files : FilesShown) (n : Networked M)
        → n.nodes ≡ nodes.now → n.pipes ≡ pipes.now → n.most ≡ most → IsRight M.shows s n files
        → IsCandidate s (state_by M.shows nodes.now pipes.now files) node result }
{
    let pipe = node_wait(nodes, pipes, node)?;
    let capacity = capacity_at(nodes, pipes[pipe]);
    if capacity < most && holds_capacity_at(nodes, pipes[pipe]) {
        Some(Candidate { pipe, capacity })
    } else {
        None
    }
}

// The one of these two that grows first, if there is one.
fn sooner(one: Option<Candidate>, other: Option<Candidate>) -> Option<Candidate>
    ensures { IsSooner one other result }
{
    match (one, other) {
        (Some(one), Some(other)) => Some(if grows_before(one, other) { one } else { other }),
        (Some(one), None) => Some(one),
        (None, other) => other,
    }
}

// Whether the first of two pipes grows before the second.
fn grows_before(one: Candidate, other: Candidate) -> bool
    ensures before { IsTrue result
        → GrowsBefore one.capacity one.pipe other.capacity other.pipe }
    ensures after { IsFalse result
        → GrowsBefore other.capacity other.pipe one.capacity one.pipe }
{
    one.capacity < other.capacity || (one.capacity == other.capacity && one.pipe <= other.pipe)
}
