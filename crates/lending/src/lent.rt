ghost use Rattle.std.specs.Prelude.{◌≡◌, ◌<◌, ◌≤◌, ◌∷◌, ◌++◌, [], slice_set, length, IfOk, OnErr, vec_capacity};
ghost use Rattle.std.specs.List.{AllByRecursion};
ghost use Rattle.collector.specs.Files.{FilesShown};
ghost use Rattle.graphs.specs.Graph.{AreDistinct};
ghost use Rattle.network_laws.specs.State.{Setup};
ghost use Rattle.network_nodes.specs.inner.Actors.{actor_at};
ghost use Rattle.networks.specs.Networks.{AreWired, AreEndsOf, AreBeside, IsJoined, IsRight, HasOpened, SameNetwork};
ghost use Rattle.networks.specs.inner.Steps.{Sees};
ghost use Rattle.network_nodes.specs.declared.actor.Actor.TheVariants as an;
ghost use Rattle.lending.specs.inner.Loans.{IsStageAt, IsFree, AreOut, put_all, fill, filled, Lends, IsWhole, IsSet, Settles};

use crate::group::Group;
use machine::{Machine, NoMemory};
use networks::{Actor, Link, Network, NetworkParts, look_at};
use stages::Stage;
use std::alloc::Global;
use std::marker::Model;
use std::mem;

/// A network that may lend stages. Not all of its pipes were looked at from both sides, as a
/// `Network` asks. So a phase goes through this type even if it lends nothing: its rounds look at
/// no pipe, and `settle` looks at all of them.
#[derive(Drop)]
pub struct LentNetwork<M: Machine> {
    pub(crate) parts: NetworkParts<M>,
    // How many steps of its nodes have moved something.
    pub(crate) moved: usize,
    // How many sinks the last round passed over.
    pub(crate) passed: usize,
}

impl<M: Machine> Model for LentNetwork<M> {
    ghost use Rattle.networks.specs.Networks.{Networked, network_of};

    ghost Value = { Networked M };

    ghost view = { λ n. network_of n.parts };
}

impl<M: Machine> LentNetwork<M> {
    /// The network, before any stage is lent.
    pub fn new(network: Network<M>) -> LentNetwork<M>
        ensures same { result ≡ network }
        ensures joined { IsJoined result }
    {
        LentNetwork {
            parts: network.into_parts(),
            moved: 0,
            passed: 0,
        }
    }

    /// Moves these stages out, with their pipe ends. Their places are kept free for `settle`. A refusal changes nothing.
    pub fn lend(&mut self, alloc: Global, nodes: &[usize]) -> Result<Group<M>, NoMemory>
        requires stages { AllByRecursion (IsStageAt self.old.nodes) nodes.now }
        requires once { AreDistinct nodes.now }
        ensures lent { IfOk result (λ group. Lends nodes.now group self.old self.new) }
        ensures refused { OnErr result (self.new ≡ self.old) }
    {
        let mut places = Vec::with_capacity(alloc, nodes.len())?;
        let mut stages = Vec::with_capacity(alloc, nodes.len())?;
        take_all(&mut self.parts.nodes, nodes, &mut places, &mut stages);
        Ok(Group {
            places,
            stages,
            moved: 0,
        })
    }

    /// Puts the stages of these groups back into their places, and looks at every pipe from both sides. It takes no memory.
    pub fn settle(self, groups: Vec<Group<M>>) -> Network<M>
        requires out { AreOut self.nodes groups.items }
        requires whole { IsWhole (filled self groups.items) }
        ensures settled { Settles (filled self groups.items) result }
        ensures same { SameNetwork (filled self groups.items) result }
        ensures opened { (files : FilesShown) → HasOpened (filled self groups.items) files
            → HasOpened result files }
        ensures right { (s : Setup) (files : FilesShown) →
            IsSet M.shows s (filled self groups.items) files → IsRight M.shows s result files }
    {
        let mut parts = self.parts;
        settle_all(&mut parts.nodes, &parts.pipes, groups);
        Network::from_parts(parts)
    }
}

// Puts the stages of these groups back into their places, and looks at every pipe from both sides.
fn settle_all<M: Machine>(nodes: &mut [Actor<M>], pipes: &[Link], groups: Vec<Group<M>>)
    requires out { AreOut nodes.old groups.items }
    requires wired { AreWired (fill groups.items nodes.old) pipes.now }
    requires ends { AreEndsOf (fill groups.items nodes.old) pipes.now }
    ensures sees { Sees pipes.now (fill groups.items nodes.old) nodes.new }
    ensures beside { AreBeside nodes.new pipes.now }
{
    put_groups(nodes, groups);
    look_all(nodes, pipes);
}

// Moves stages out of their places, in this order.
fn take_all<M: Machine>(
    nodes: &mut [Actor<M>],
    wanted: &[usize],
    places: &mut Vec<usize>,
    stages: &mut Vec<Stage<M>>,
)
    requires wanted { AllByRecursion (IsStageAt nodes.old) wanted.now }
    requires once { AreDistinct wanted.now }
    requires places { (places.old.items ≡ []) × (length wanted.now ≤ vec_capacity places.old) }
    requires stages { (stages.old.items ≡ []) × (length wanted.now ≤ vec_capacity stages.old) }
    ensures places { places.new.items ≡ wanted.now }
    ensures count { length stages.new.items ≡ length wanted.now }
    ensures free { AllByRecursion (IsFree nodes.new) wanted.now }
    ensures back { put_all wanted.now stages.new.items nodes.new ≡ nodes.old }
{
    for k in 0..wanted.len() {
        places.push_reserved(wanted[k]);
        stages.push_reserved(take_out(nodes, wanted[k]));
    }
}

// Puts the stages of these groups back into their places.
fn put_groups<M: Machine>(nodes: &mut [Actor<M>], groups: Vec<Group<M>>)
    requires out { AreOut nodes.old groups.items }
    ensures { nodes.new ≡ fill groups.items nodes.old }
{
    let mut groups = groups;
    for done in 0..groups.len() {
        put_group(nodes, take_last(&mut groups));
    }
}

// Puts the stages of a group back into their places.
fn put_group<M: Machine>(nodes: &mut [Actor<M>], group: Group<M>)
    requires within { AllByRecursion (λ k. k < length nodes.old) group.places }
    ensures { nodes.new ≡ put_all group.places group.stages nodes.old }
{
    let Group {
        mut places,
        mut stages,
        moved: _,
    } = group;
    for done in 0..places.len() {
        put_back(nodes, take_last(&mut places), take_last(&mut stages));
    }
}

// Takes the last of these, which there is.
fn take_last<T>(items: &mut Vec<T>) -> T
    requires { 0 < length items.old.items }
    ensures { items.old.items ≡ items.new.items ++ result ∷ [] }
{
    let Some(last) = items.pop() else {
        unreachable!()
    };
    last
}

// Moves a stage out of its place, which is free then.
fn take_out<M: Machine>(nodes: &mut [Actor<M>], place: usize) -> Stage<M>
    requires stage { IsStageAt nodes.old place }
    ensures nodes { nodes.new ≡ slice_set nodes.old place an.Lent }
    ensures stage { actor_at nodes.old place ≡ an.Stage result }
{
    let Actor::Stage(stage) = mem::replace(&mut nodes[place], Actor::Lent) else {
        unreachable!()
    };
    stage
}

// Puts a stage into its place.
fn put_back<M: Machine>(nodes: &mut [Actor<M>], place: usize, stage: Stage<M>)
    requires within { place < length nodes.old }
    ensures nodes { nodes.new ≡ slice_set nodes.old place (an.Stage stage) }
{
    nodes[place] = Actor::Stage(stage);
}

// Looks at every pipe from both sides.
fn look_all<M: Machine>(nodes: &mut [Actor<M>], pipes: &[Link])
    requires wired { AreWired nodes.old pipes.now }
    requires ends { AreEndsOf nodes.old pipes.now }
    ensures sees { Sees pipes.now nodes.old nodes.new }
    ensures beside { AreBeside nodes.new pipes.now }
{
    for pipe in 0..pipes.len() {
        look_at(nodes, pipes[pipe]);
    }
}
