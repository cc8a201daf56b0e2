ghost use Rattle.std.specs.Prelude.{◌≡◌, ◌↔◌, ◌<◌, length, IsTrue};
ghost use Rattle.std.specs.List.{AllByRecursion};
ghost use Rattle.networks.specs.Networks.{HasOpened};
ghost use Rattle.networks.specs.Turns.{AllDone, RunsSchedule};
ghost use Rattle.networks.specs.Bounds.{EndsFairly};
ghost use Rattle.networks.specs.inner.KeptNetworks.{IfRight, Keeps, MovesSteps, ShowsOutputs};
ghost use Rattle.networks.specs.inner.Traces.{StepsAll};

use crate::network::Network;
use collector::Files;
use machine::Machine;
use stages::NoClock;

/// The result of stepping the nodes of a list.
#[derive(Clone, Copy, Debug, PartialEq, Eq)]
pub struct Report {
    /// How many of the steps moved something.
    pub moved: usize,
    /// Whether each node has ended or broken.
    pub all_ended: bool,
}

impl<M: Machine> Network<M> {
    /// Steps the nodes with these numbers, in this order, each as often as it is in the list. Each output is then a prefix of its
    /// list in the sequential answer, and that list if all nodes have ended or broken.
    /// No order starves a run: a list of more parts than `most_progress`, each with every node in it, brings the run to its end.
    pub fn run_schedule<F: Files>(&mut self, nodes: &[usize], files: &mut F) -> Report
        requires nodes { AllByRecursion (λ k. k < length self.old.nodes) nodes.now }
        requires opened { HasOpened self.old (F.shows files.old) }
        ensures opened { HasOpened self.new (F.shows files.new) }
        ensures keeps { Keeps M.shows self.old (F.shows files.old) self.new
            (F.shows files.new) }
        ensures moved { MovesSteps M.shows nodes.now self.old (F.shows files.old) self.new
            (F.shows files.new) result.moved }
        ensures ran { RunsSchedule M.shows nodes.now self.old (F.shows files.old) self.new
            (F.shows files.new) result.moved }
        ensures fair { IfRight M.shows self.old (F.shows files.old)
            (λ s. EndsFairly M.shows s nodes.now self.old (F.shows files.old) self.new
            (F.shows files.new)) }
        ensures ended { IsTrue result.all_ended ↔ AllDone self.new }
        ensures outputs { ShowsOutputs M.shows self.old (F.shows files.old) self.new
            (F.shows files.new) result.all_ended }
    {
        let moved = self.step_all(nodes, files);
        Report {
            moved,
            all_ended: self.is_done(),
        }
    }

    // Steps the nodes with these numbers, and returns how many of the steps moved something.
    fn step_all<F: Files>(&mut self, nodes: &[usize], files: &mut F) -> usize
        requires nodes { AllByRecursion (λ k. k < length self.old.nodes) nodes.now }
        requires opened { HasOpened self.old (F.shows files.old) }
        ensures opened { HasOpened self.new (F.shows files.new) }
        ensures keeps { Keeps M.shows self.old (F.shows files.old) self.new
            (F.shows files.new) }
        ensures moved { MovesSteps M.shows nodes.now self.old (F.shows files.old) self.new
            (F.shows files.new) result }
        ensures ran { RunsSchedule M.shows nodes.now self.old (F.shows files.old) self.new
            (F.shows files.new) result }
        ensures steps { StepsAll M.shows nodes.now self.old (F.shows files.old) self.new
            (F.shows files.new) }
    {
        let mut moved = 0;
        for node in nodes {
            moved += usize::from(self.step(*node, files, &NoClock).has_moved());
        }
        moved
    }

    // Whether each node has ended or broken.
    fn is_done(&self) -> bool
        ensures { IsTrue result ↔ AllDone self.now }
    {
        is_all(self.done(), self.parts.nodes.len())
    }
}

// Whether this many are all.
fn is_all(done: usize, count: usize) -> bool
    ensures { IsTrue result ↔ (done ≡ count) }
{
    done == count
}
