ghost use Rattle.std.specs.Prelude.{◌≡◌, ◌<◌, length, IfOk, OnOk, map, Some};
ghost use Rattle.std.specs.List.{AllByRecursion};
ghost use Rattle.stages.specs.Inlets.{IsNewReading};
ghost use Rattle.stages.specs.Outlets.{IsNewWriting};
ghost use Rattle.graphs.specs.Graph.{present};
ghost use Rattle.network_nodes.specs.inner.MadeNodes.{IsSideReady, IsSideTaken, own_outs, own_ins, first, IsReady, IsActorOf, IsMade, AreOwned, AreWaiting, AreLinked};

use crate::actor::{Actor, Link};
use crate::tables::{links_of, note_places, open_pipes, take_ends, wire_at, wires_of};
use bounded_pipe::{PipeIn, PipeOut};
use collector::{Sink, Source};
use machine::{Machine, NoMemory};
use run_types::{InName, OutName, Settings};
use stages::{Inlet, Outlet, Stage};
use std::alloc::Global;

/// A node that is to be made. A source has its open file with the name, or none if it is empty or
/// missing; a stage its pipes by input, and by branch, None if nobody reads the branch.
#[derive(Drop)]
pub enum NodeSpec<M: Machine> {
    Source(Option<(usize, InName)>),
    Stage {
        machine: M,
        inputs: Vec<usize>,
        branches: Vec<Option<usize>>,
    },
    Sink {
        file: usize,
        name: OutName,
    },
}

// The branches that somebody reads.
fn present_of(alloc: Global, branches: &[Option<usize>]) -> Result<Vec<usize>, NoMemory>
    ensures { IfOk result (λ pipes. pipes.items ≡ present branches.now) }
{
    let mut pipes = Vec::new(alloc);
    for branch in branches {
        if let Some(pipe) = branch {
            pipes.push(*pipe)?;
        }
    }
    Ok(pipes)
}

// The pipes that a node writes, if these are all of its pipes.
fn own_outs<M: Machine>(
    alloc: Global,
    node: &NodeSpec<M>,
    wire: &[usize],
) -> Result<Vec<usize>, NoMemory>
    ensures { IfOk result (λ pipes. pipes.items ≡ own_outs node.now wire.now) }
{
    match node {
        NodeSpec::Source(_) => first(alloc, wire),
        NodeSpec::Stage { branches, .. } => present_of(alloc, branches.as_slice()),
        NodeSpec::Sink { .. } => Ok(Vec::new(alloc)),
    }
}

// The pipes that it reads.
fn own_ins<M: Machine>(
    alloc: Global,
    node: &NodeSpec<M>,
    wire: &[usize],
) -> Result<Vec<usize>, NoMemory>
    ensures { IfOk result (λ pipes. pipes.items ≡ own_ins node.now wire.now) }
{
    match node {
        NodeSpec::Source(_) => Ok(Vec::new(alloc)),
        NodeSpec::Stage { inputs, .. } => Ok(Vec::from_slice(alloc, inputs.as_slice())?),
        NodeSpec::Sink { .. } => first(alloc, wire),
    }
}

// The first of these alone.
fn first(alloc: Global, pipes: &[usize]) -> Result<Vec<usize>, NoMemory>
    ensures { IfOk result (λ v. v.items ≡ first pipes.now) }
{
    match pipes {
        [] => Ok(Vec::new(alloc)),
        [pipe, ..] => Ok(Vec::from_array(alloc, [*pipe])?),
    }
}

// A new node with these ends.
fn make_actor<M: Machine>(
    alloc: Global,
    node: NodeSpec<M>,
    outs: Vec<usize>,
    ins: Vec<usize>,
    writing: Vec<PipeOut>,
    reading: Vec<PipeIn>,
    settings: Settings,
) -> Result<Actor<M>, NoMemory>
    requires ready { IsReady M.shows node outs.items ins.items }
    requires outs { length outs.items ≡ length writing.items }
    requires ins { length ins.items ≡ length reading.items }
    requires new_outs { AllByRecursion IsNewWriting writing.items }
    requires new_ins { AllByRecursion IsNewReading reading.items }
    ensures { IfOk result
        (IsActorOf M.shows settings.block node outs.items ins.items writing.items reading.items) }
{
    let mut outs = outs;
    let mut ins = ins;
    let mut writing = writing;
    let mut reading = reading;
    match node {
        NodeSpec::Source(file) => {
            let (file, name) = match file {
                Some((file, name)) => (Some(file), Some(name)),
                None => (None, None),
            };
            let pipe = outs.swap_remove(0);
            let end = writing.swap_remove(0);
            let (block, first) = (settings.block, settings.first_read);
            let source = Source::new(alloc, pipe, end, file, name, block, first);
            Ok(Actor::Source(source))
        }
        NodeSpec::Stage { machine, .. } => {
            let outlet = Outlet::new(alloc, outs, writing, settings.block)?;
            let inlet = Inlet::new(ins, reading);
            Ok(Actor::Stage(Stage::new(machine, inlet, outlet)))
        }
        NodeSpec::Sink { file, name } => {
            let pipe = ins.swap_remove(0);
            let end = reading.swap_remove(0);
            let room = settings.block - settings.first_read;
            Ok(Actor::Sink(Sink::new(alloc, pipe, end, file, name, room)))
        }
    }
}

// A new node, which takes its ends. The places of its pipes are noted.
fn make_node<M: Machine>(
    alloc: Global,
    node: NodeSpec<M>,
    wire: &[usize],
    writers: &mut Vec<Option<PipeOut>>,
    readers: &mut Vec<Option<PipeIn>>,
    branches: &mut Vec<usize>,
    inputs: &mut Vec<usize>,
    settings: Settings,
) -> Result<Actor<M>, NoMemory>
    requires ready { IsReady M.shows node (own_outs node wire.now) (own_ins node wire.now) }
    requires outs { IsSideReady IsNewWriting
        (own_outs node wire.now) writers.old.items branches.old.items }
    requires ins { IsSideReady IsNewReading
        (own_ins node wire.now) readers.old.items inputs.old.items }
    ensures made { IfOk result
        (IsMade M.shows settings.block node (own_outs node wire.now)
        (own_ins node wire.now) writers.old.items readers.old.items) }
    ensures outs { OnOk result
        (IsSideTaken (own_outs node wire.now) writers.old.items writers.new.items
        branches.old.items branches.new.items) }
    ensures ins { OnOk result
        (IsSideTaken (own_ins node wire.now) readers.old.items readers.new.items
        inputs.old.items inputs.new.items) }
{
    let outs = own_outs(alloc, &node, wire)?;
    let ins = own_ins(alloc, &node, wire)?;
    note_places(branches, outs.as_slice());
    note_places(inputs, ins.as_slice());
    let writing = take_ends(alloc, writers, outs.as_slice())?;
    let reading = take_ends(alloc, readers, ins.as_slice())?;
    make_actor(alloc, node, outs, ins, writing, reading, settings)
}

/// All nodes, and the links of their pipes: each node takes its ends, which wait by the number of the pipe.
pub fn make_nodes<M: Machine>(
    alloc: Global,
    nodes: Vec<NodeSpec<M>>,
    pipes: &[(usize, usize)],
    wires: &[Vec<usize>],
    writers: Vec<Option<PipeOut>>,
    readers: Vec<Option<PipeIn>>,
    settings: Settings,
) -> Result<(Vec<Actor<M>>, Vec<Link>), NoMemory>
    requires own { AreOwned M.shows nodes.items pipes.now (map (λ v. v.items) wires.now) }
    requires opened { AreWaiting (length pipes.now) writers.items readers.items }
    ensures { IfOk result
        (λ made. AreLinked M.shows settings.block nodes.items pipes.now
        (map (λ v. v.items) wires.now) writers.items readers.items made.0.items made.1.items) }
{
    let mut writers = writers;
    let mut readers = readers;
    let mut branches = vec![in alloc; 0; pipes.len()]?;
    let mut inputs = vec![in alloc; 0; pipes.len()]?;
    let mut actors = Vec::new(alloc);
    for node in nodes {
        let wire = wire_at(wires, actors.len());
        let actor = make_node(
            alloc,
            node,
            wire,
            &mut writers,
            &mut readers,
            &mut branches,
            &mut inputs,
            settings,
        )?;
        actors.push(actor)?;
    }
    let links = links_of(alloc, pipes, branches.as_slice(), inputs.as_slice())?;
    Ok((actors, links))
}
