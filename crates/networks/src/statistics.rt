// What a network moved so far, how often its pipes grew, and how long its stages took.
ghost use Rattle.std.specs.Prelude.{◌≡◌};

use crate::network::Network;
use bounded_pipe::Amounts;
use machine::Machine;
use network_nodes::{Actor, Link};
use run_types::{Amount, Statistics};

impl<M: Machine> Network<M> {
    /// Writes how often a pipe grew so far; how much was put on each pipe, by its number; and how long the steps of each node took, by
    /// its number, as far as they were measured. It writes as many of them as there is room for, and takes no memory.
    pub fn statistics(&self, to: &mut Statistics) {
        let Statistics {
            growths,
            amounts,
            times,
        } = to;
        *growths = self.parts.growths;
        write_amounts(&self.parts.nodes, &self.parts.pipes, amounts);
        write_times(&self.parts.nodes, times);
    }

    // Counts a growth.
    pub(crate) fn count_growth(&mut self)
        ensures { self.new ≡ self.old }
    {
        self.parts.growths = self.parts.growths.saturating_add(1);
    }
}

// Writes how much was put on each pipe.
fn write_amounts<M: Machine>(nodes: &[Actor<M>], pipes: &[Link], amounts: &mut [Amount]) {
    for (amount, pipe) in amounts.iter_mut().zip(pipes) {
        *amount = amount_on(nodes, *pipe);
    }
}

// How much was put on this pipe.
fn amount_on<M: Machine>(nodes: &[Actor<M>], pipe: Link) -> Amount {
    match nodes.get(pipe.writer) {
        Some(writer) => {
            let Amounts { pieces, bytes } = writer.amounts(pipe.branch);
            Amount { pieces, bytes }
        }
        None => Amount::NONE,
    }
}

// Writes how long the steps of each node took.
fn write_times<M: Machine>(nodes: &[Actor<M>], times: &mut [u64]) {
    for (time, node) in times.iter_mut().zip(nodes) {
        *time = node.time();
    }
}
