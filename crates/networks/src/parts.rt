ghost use Rattle.std.specs.Prelude.{◌≡◌};
ghost use Rattle.networks.specs.Networks.{IsJoined, network_of};

use crate::network::Network;
use machine::Machine;
use network_nodes::{Actor, Link};

/// The parts of a network: its nodes in planned order; the two ends of each pipe, by the pipe's
/// number; the pipes of each node, by the node's; the exit status of a run that finishes; and how
/// many items a pipe can grow to hold.
#[derive(Drop)]
pub struct NetworkParts<M: Machine> {
    pub nodes: Vec<Actor<M>>,
    pub pipes: Vec<Link>,
    pub wires: Vec<Vec<usize>>,
    pub status: u8,
    pub most: usize,
    // How often a pipe grew, up to 2^64 - 1. It is no part of the view: no clause speaks of it.
    pub(crate) growths: u64,
}

impl<M: Machine> Network<M> {
    /// Takes a network apart.
    pub fn into_parts(self) -> NetworkParts<M>
        ensures same { network_of result ≡ self }
        ensures joined { IsJoined self }
    {
        self.parts
    }

    /// Puts the parts of a network together.
    pub fn from_parts(parts: NetworkParts<M>) -> Network<M>
        requires { IsJoined (network_of parts) }
        ensures { result ≡ network_of parts }
    {
        Network { parts }
    }
}
