// A full pipe that a node waits for gets more room.
ghost use Rattle.std.specs.Prelude.{◌≡◌, ◌<◌, ℕ, length, min, Ok, None, Some, IfOk, IfSome, OnOk, IsErr};
ghost use Rattle.collector.specs.Files.{FilesShown};
ghost use Rattle.network_laws.specs.State.{Setup};
ghost use Rattle.networks.specs.Networks.{HasOpened, IsRight, network_state, rooms};
ghost use Rattle.networks.specs.Growth.{IsNext, PipeGrows, grown};

use crate::choosing::next_to_grow;
use crate::network::Network;
use machine::{Machine, NoMemory};
use network_nodes::{capacity_at, regrow_at};
use std::alloc::Global;

impl<M: Machine> Network<M> {
    /// How many items the pipe with this number can hold now; 0 if there is no such pipe.
    pub fn capacity(&self, pipe: usize) -> usize
        ensures { result ≡ rooms self.now pipe }
    {
        match self.parts.pipes.get(pipe) {
            Some(link) => capacity_at(&self.parts.nodes, *link),
            None => 0,
        }
    }

    /// Gives more room to a full pipe that a running node waits for, if one holds as many items as a capacity below the
    /// greatest: to the one of least capacity, then of lowest number. It gets twice its capacity, at most the greatest, and the
    /// result is its number. A refusal changes nothing.
    pub fn grow(&mut self, alloc: Global) -> Result<Option<usize>, NoMemory>
        ensures next { (s : Setup) (files : FilesShown) → IsRight M.shows s self.old files
            → IfOk result (IsNext s (network_state M.shows self.old files)) }
        ensures grows { IfOk result (λ next. IfSome next (λ p. PipeGrows p self.old self.new)) }
        ensures none { result ≡ Ok None → self.new ≡ self.old }
        ensures refused { IsErr result → self.new ≡ self.old }
        ensures right { (s : Setup) (files : FilesShown) → IsRight M.shows s self.old files
            → IsRight M.shows s self.new files }
        ensures opened { (files : FilesShown) → HasOpened self.old files → HasOpened self.new files }
    {
        let Some(pipe) = next_to_grow(&self.parts.nodes, &self.parts.pipes, self.parts.most) else {
            return Ok(None);
        };
        let capacity = twice(self.capacity(pipe), self.parts.most);
        self.regrow(alloc, pipe, capacity)?;
        Ok(Some(pipe))
    }

    // Gives the pipe with this number this capacity, to which it grows. A refusal changes nothing.
    fn regrow(&mut self, alloc: Global, pipe: usize, capacity: usize) -> Result<(), NoMemory>
        requires pipe { pipe < length self.old.pipes }
        requires less { rooms self.old pipe < self.old.most }
        requires twice { capacity ≡ grown self.old.most (rooms self.old pipe) }
        ensures grows { OnOk result (PipeGrows pipe self.old self.new) }
        ensures right { OnOk result ((s : Setup) (files : FilesShown)
            → IsRight M.shows s self.old files → IsRight M.shows s self.new files) }
        ensures opened { OnOk result ((files : FilesShown)
            → HasOpened self.old files → HasOpened self.new files) }
        ensures refused { IsErr result → self.new ≡ self.old }
    {
        regrow_at(
            alloc,
            &mut self.parts.nodes,
            self.parts.pipes[pipe],
            capacity,
        )
    }
}

// Twice a capacity, at most the most.
fn twice(capacity: usize, most: usize) -> usize
    requires { capacity < most }
    ensures { result ≡ grown most capacity }
{
    if capacity <= most / 2 {
        2 * capacity
    } else {
        most
    }
}
