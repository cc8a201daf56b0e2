ghost use Rattle.std.specs.Prelude.{◌≡◌, ◌<◌, ℕ, length, IfOk, slice_get, Some};
ghost use Rattle.collector.specs.Files.{FilesShown};
ghost use Rattle.network_laws.specs.State.{Setup};
ghost use Rattle.network_laws.specs.Start.{IsNew};
ghost use Rattle.network_nodes.specs.inner.Actors.{actor_at};
ghost use Rattle.networks.specs.Networks.{writing_by, network_state, HasOpened, IsRight};
ghost use Rattle.networks.specs.inner.MadeNetwork.{CanBeMade, AreFor, AreFresh, IsNodeOf};

use crate::network::Network;
use crate::parts::NetworkParts;
use machine::{Machine, NoMemory};
use network_nodes::{NodeSpec, make_nodes, open_pipes, wires_of};
use run_types::Settings;
use std::alloc::Global;

impl<M: Machine> Network<M> {
    /// A network of these nodes, in planned order, over new pipes. Its pipes and pieces have the
    /// sizes of the settings. `pipes` has the writer and the reader of each pipe, by the pipe's
    /// number; `status` is the exit status of a run that finishes.
    pub fn new(
        alloc: Global,
        nodes: Vec<NodeSpec<M>>,
        pipes: &[(usize, usize)],
        status: u8,
        settings: Settings,
    ) -> Result<Network<M>, NoMemory>
        requires plan { CanBeMade M.shows nodes.items pipes.now }
        ensures opened { (files : FilesShown) → AreFresh files nodes.items
            → IfOk result (λ n. HasOpened n files) }
        ensures right { (s : Setup) (files : FilesShown)
            → AreFor M.shows s nodes.items pipes.now status settings.max_capacity settings.bytes settings.block
            → AreFresh files nodes.items
            → IfOk result (λ n. IsRight M.shows s n files) }
        ensures empty { (s : Setup) (files : FilesShown)
            → AreFor M.shows s nodes.items pipes.now status settings.max_capacity settings.bytes settings.block
            → AreFresh files nodes.items
            → IfOk result (λ n. IsNew s (network_state M.shows n files)) }
        ensures room { IfOk result (λ n. (p : ℕ) → p < length pipes.now
            → (writing_by n.nodes (slice_get n.pipes p)).capacity ≡ settings.capacity) }
        ensures nodes { IfOk result (λ n. (k : ℕ) (node : NodeSpec M) →
            slice_get nodes.items k ≡ Some node → IsNodeOf node (actor_at n.nodes k)) }
    {
        let wires = wires_of(alloc, nodes.len(), pipes)?;
        let (writers, readers) = open_pipes(alloc, pipes.len(), settings.capacity, settings.bytes)?;
        let made = make_nodes(
            alloc,
            nodes,
            pipes,
            wires.as_slice(),
            writers,
            readers,
            settings,
        )?;
        let (nodes, pipes) = made;
        Ok(Network {
            parts: NetworkParts {
                nodes,
                pipes,
                wires,
                status,
                most: settings.max_capacity,
                growths: 0,
            },
        })
    }
}
