// Whether the pipe between two nodes is full.
ghost use Rattle.std.specs.Prelude.{◌≡◌, ◌<◌, ◌↔◌, length, IsTrue};
ghost use Rattle.bounded_pipe.specs.Ends.{Beside, HoldsCapacity};
ghost use Rattle.bounded_pipe.specs.Pipes.{IsFull};
ghost use Rattle.network_nodes.specs.inner.Actors.{outs_of, ins_of, out_end, in_end, out_at, in_at, HasEnds};

use crate::actor::{Actor, Link};
use bounded_pipe::{PipeIn, PipeOut, holds_capacity, is_full};
use machine::Machine;

// The end of one branch of a node.
fn branch_end<M: Machine>(actor: &Actor<M>, branch: usize) -> &PipeOut
    requires { branch < length (outs_of actor.now) }
    ensures { result.now ≡ out_end actor.now branch }
{
    match actor {
        Actor::Source(source) => source.end(),
        Actor::Stage(stage) => stage.branch_end(branch),
        Actor::Sink(_) => unreachable!(),
        Actor::Lent => unreachable!(),
    }
}

// The end of one input of a node.
fn input_end<M: Machine>(actor: &Actor<M>, input: usize) -> &PipeIn
    requires { input < length (ins_of actor.now) }
    ensures { result.now ≡ in_end actor.now input }
{
    match actor {
        Actor::Source(_) => unreachable!(),
        Actor::Stage(stage) => stage.input_end(input),
        Actor::Sink(sink) => sink.end(),
        Actor::Lent => unreachable!(),
    }
}

/// Whether a pipe is full for an item of `size` bytes, and its reader is there.
pub fn is_full_at<M: Machine>(nodes: &[Actor<M>], link: Link, size: u64) -> bool
    requires ends { HasEnds link nodes.now }
    requires beside { Beside (out_at nodes.now link) (in_at nodes.now link) }
    ensures { IsTrue result ↔ IsFull size (out_at nodes.now link) (in_at nodes.now link) }
{
    is_full(
        branch_end(&nodes[link.writer], link.branch),
        input_end(&nodes[link.reader], link.input),
        size,
    )
}

/// Whether a pipe holds as many items as its capacity.
pub fn holds_capacity_at<M: Machine>(nodes: &[Actor<M>], link: Link) -> bool
    requires ends { HasEnds link nodes.now }
    requires beside { Beside (out_at nodes.now link) (in_at nodes.now link) }
    ensures { IsTrue result ↔ HoldsCapacity (out_at nodes.now link) (in_at nodes.now link) }
{
    holds_capacity(
        branch_end(&nodes[link.writer], link.branch),
        input_end(&nodes[link.reader], link.input),
    )
}

/// How many items a pipe can hold.
pub fn capacity_at<M: Machine>(nodes: &[Actor<M>], link: Link) -> usize
    requires { HasEnds link nodes.now }
    ensures { result ≡ (out_at nodes.now link).capacity }
{
    branch_end(&nodes[link.writer], link.branch).capacity()
}
