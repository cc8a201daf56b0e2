ghost use Rattle.std.specs.Prelude.{◌≡◌, ◌≢◌, ◌<◌, ℕ, length, IsTrue};
ghost use Rattle.run_types.specs.declared.node_state.NodeState.TheVariants as state;
ghost use Rattle.collector.specs.Files.{FilesShown};
ghost use Rattle.network_laws.specs.State.{Setup, IsLawful, node_state_of};
ghost use Rattle.network_nodes.specs.inner.Actors.{actor_at};
ghost use Rattle.networks.specs.Turns.{AreSteps, NoneFailed, Reaches};
ghost use Rattle.networks.specs.Networks.{AreWired, AreEndsOf, AreWithin, IsHere, HasFile, SameNetwork, TouchesOwn, HasOpened, IsRight};
ghost use Rattle.networks.specs.Networks.{network_state, part_of, StaysRight, IsHalted};
ghost use Rattle.networks.specs.inner.Steps.{DoesStep, SeesEach, Acts, StepsAt};
ghost use Rattle.networks.specs.inner.KeptNetworks.{IfRight, Keeps};

use crate::parts::NetworkParts;
use collector::Files;
use machine::Machine;
use network_nodes::{Actor, Link, look_at};
use run_types::Step;
use stages::StepClock;
use std::marker::Model;

/// A network of any plan.
#[derive(Drop)]
pub struct Network<M: Machine> {
    pub(crate) parts: NetworkParts<M>,
}

impl<M: Machine> Model for Network<M> {
    ghost use Rattle.networks.specs.Networks.{Networked, network_of, IsJoined};

    ghost Value = { Networked M };

    ghost view = { λ n. network_of n.parts };

    ghost invariant = { λ n. IsJoined (network_of n.parts) };
}

impl<M: Machine> Network<M> {
    /// One step of the node with this number. The node's pipes are looked at from both sides after it. The time of a stage is measured by
    /// this clock.
    pub fn step<F: Files, C: StepClock>(&mut self, node: usize, files: &mut F, clock: &C) -> Step
        requires node { node < length self.old.nodes }
        requires opened { HasOpened self.old (F.shows files.old) }
        ensures opened { HasOpened self.new (F.shows files.new) }
        ensures right { StaysRight M.shows self.old self.new (F.shows files.old) (F.shows files.new) }
        ensures step { DoesStep M.shows node self.old (F.shows files.old) self.new
            (F.shows files.new) result }
        ensures own { TouchesOwn (actor_at self.old.nodes node) (F.shows files.old)
            (F.shows files.new) }
        ensures halted { IsHalted M.shows node self.old (F.shows files.old)
            → files.new ≡ files.old }
        ensures same { SameNetwork self.old self.new }
    {
        step_at(
            &mut self.parts.nodes,
            &self.parts.pipes,
            &self.parts.wires[node],
            node,
            files,
            clock,
        )
    }

    // A step of each node, in the order of their numbers.
    pub(crate) fn step_each<F: Files, C: StepClock>(
        &mut self,
        answers: &mut [Step],
        files: &mut F,
        clock: &C,
    )
        requires opened { HasOpened self.old (F.shows files.old) }
        requires room { length answers.old ≡ length self.old.nodes }
        ensures opened { HasOpened self.new (F.shows files.new) }
        ensures keeps { Keeps M.shows self.old (F.shows files.old) self.new
            (F.shows files.new) }
        ensures count { length answers.new ≡ length self.new.nodes }
        ensures reaches { (before : ℕ) → Reaches before (F.shows files.old).failures
            → Reaches before (F.shows files.new).failures }
        ensures sound { NoneFailed self.new
            → (F.shows files.new).failures ≡ (F.shows files.old).failures }
        ensures round { IfRight M.shows self.old (F.shows files.old)
            (λ s. AreSteps s 0 (network_state M.shows self.old (F.shows files.old))
            (network_state M.shows self.new (F.shows files.new)) (F.shows files.old).failures
            (F.shows files.new).failures answers.new) }
    {
        for node in 0..answers.len() {
            answers[node] = self.step(node, files, clock);
        }
    }

    /// A network that is right is in a lawful state, so that every law of this crate holds of it.
    pub fn is_lawful(&self)
        ensures { (s : Setup) (files : FilesShown) →
            IsRight M.shows s self.now files → IsLawful s (network_state M.shows self.now files) }
    {}
}

// A step of the node with this number, and a look at these pipes of its.
pub(crate) fn step_at<M: Machine, F: Files, C: StepClock>(
    nodes: &mut [Actor<M>],
    pipes: &[Link],
    wires: &[usize],
    node: usize,
    files: &mut F,
    clock: &C,
) -> Step
    requires node { node < length nodes.old }
    requires here { IsHere (actor_at nodes.old node) }
    requires opened { HasFile (F.shows files.old) (actor_at nodes.old node) }
    requires wired { AreWired nodes.old pipes.now }
    requires ends { AreEndsOf nodes.old pipes.now }
    requires within { AreWithin pipes.now wires.now }
    ensures steps { StepsAt M.shows node pipes.now wires.now nodes.old nodes.new
        (F.shows files.old) (F.shows files.new) result }
    ensures halted { node_state_of (part_of M.shows (F.shows files.old) (actor_at nodes.old node))
        ≢ state.Running
        → files.new ≡ files.old }
{
    let step = act(&mut nodes[node], files, clock);
    look_each(nodes, pipes, wires);
    step
}

/// A step of a node by itself, which is no free place. Its pipes are not looked at. The time of a stage is measured by this clock.
pub fn act<M: Machine, F: Files, C: StepClock>(
    actor: &mut Actor<M>,
    files: &mut F,
    clock: &C,
) -> Step
    requires here { IsHere actor.old }
    requires opened { HasFile (F.shows files.old) actor.old }
    ensures acts { Acts M.shows actor.old actor.new (F.shows files.old)
        (F.shows files.new) result }
    ensures halted { node_state_of (part_of M.shows (F.shows files.old) actor.old) ≢ state.Running
        → files.new ≡ files.old }
{
    match actor {
        Actor::Source(source) => source.step(files),
        Actor::Stage(stage) => stage.step_timed(clock),
        Actor::Sink(sink) => sink.step(files),
        Actor::Lent => Step::Ended,
    }
}

// Looks at each of these pipes from both sides.
pub(crate) fn look_each<M: Machine>(nodes: &mut [Actor<M>], pipes: &[Link], wires: &[usize])
    requires wired { AreWired nodes.old pipes.now }
    requires ends { AreEndsOf nodes.old pipes.now }
    requires within { AreWithin pipes.now wires.now }
    ensures { SeesEach pipes.now wires.now nodes.old nodes.new }
{
    for pipe in wires {
        look_at(nodes, pipes[*pipe]);
    }
}
