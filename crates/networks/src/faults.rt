// The faults that nodes may have for their files.
ghost use Rattle.std.specs.Prelude.{◌≡◌, true, Some, IfOk, slice_get};
ghost use Rattle.collector.specs.Nodes.{is_failed};
ghost use Rattle.network_nodes.specs.inner.Actors.{node_state_at, file_fault, IsFaultAt};
ghost use Rattle.networks.specs.Turns.{AreFaultsOf, listed};

use crate::network::Network;
use collector::RunFault;
use machine::{Machine, NoMemory};
use network_nodes::Actor;
use std::alloc::Global;

/// The fault that each node may have for its file, by the node's number. It is made before a run, so that no memory is asked
/// for when a fault is reported.
#[derive(Drop)]
pub struct FileFaults {
    by_node: Vec<Option<RunFault>>,
}

impl FileFaults {
    /// Takes out why this node has failed, which has this number.
    pub fn take<M: Machine>(&mut self, actor: &Actor<M>, node: usize) -> RunFault
        requires failed { is_failed (node_state_at actor.now) ≡ true }
        requires file { slice_get (listed self.old) node ≡ Some (file_fault actor.now) }
        ensures { IsFaultAt node actor.now result }
    {
        actor.fault(node, self.by_node[node].take())
    }
}

impl<M: Machine> Network<M> {
    /// The fault that each node may have for its file.
    pub fn file_faults(&self, alloc: Global) -> Result<FileFaults, NoMemory>
        ensures { IfOk result (AreFaultsOf self.now.nodes) }
    {
        faults_of(alloc, &self.parts.nodes)
    }
}

// The fault that each of these nodes may have for its file.
fn faults_of<M: Machine>(alloc: Global, nodes: &[Actor<M>]) -> Result<FileFaults, NoMemory>
    ensures { IfOk result (AreFaultsOf nodes.now) }
{
    let mut by_node = Vec::new(alloc);
    for node in nodes {
        by_node.push(node.file_fault(alloc)?)?;
    }
    Ok(FileFaults { by_node })
}
