ghost use Rattle.std.specs.Prelude.{◌≡◌, ◌<◌, ℕ, List, length, IfOk, IsSome, Some, Option, option_map, slice_get};
ghost use Rattle.collector.specs.Files.{FilesShown};
ghost use Rattle.filters.specs.FilterShows.{filter_shows};
ghost use Rattle.commands.specs.Filters.{input_count};
ghost use Rattle.network_laws.specs.Start.{IsNew};
ghost use Rattle.networks.specs.Networks.{HasOpened, IsRight, network_state, writing_by};
ghost use Rattle.openings.specs.Openings.{OpensAll};
ghost use Rattle.planner.specs.declared.plan.Node.TheVariants as node;
ghost use Rattle.step_scheduler.specs.inner.Nodes.{AreMadeOf, CanBeNode, CanBeNodes, IsMadeOf, presences_of};
ghost use Rattle.step_scheduler.specs.Setups.{HasFilesOf, IsOfScript, IsOpening, setup_of};

use crate::presence::{exit_status, presences_of};
use command_words::Sequence;
use commands::FilterSpec;
use filters::Filter;
use machine::{NoMemory, Presence};
use networks::{Network, NodeSpec};
use openings::Opened;
use planner::{Node, Plan};
use run_types::{InName, OutName, Settings};
use std::alloc::Global;

/// The network of a plan, whose files were opened. Its pipes have the two capacities and the limit in bytes of the settings, and its
/// pieces are no longer than their block. Nothing has been read or written.
pub fn make_network(
    alloc: Global,
    plan: &Plan,
    opened: &Opened,
    settings: Settings,
) -> Result<Network<Filter>, NoMemory>
    requires plan { IsOfScript plan.now }
    requires opened { IsOpening plan.now opened.now }
    ensures opened { (old new : FilesShown) → OpensAll plan.now opened.now old new
        → IfOk result (λ n. HasOpened n new) }
    ensures right { (old new : FilesShown) → OpensAll plan.now opened.now old new
        → IfOk result
        (λ n. IsRight filter_shows (setup_of plan.now opened.now settings.max_capacity settings.bytes settings.block)
        n new) }
    ensures empty { (old new : FilesShown) → OpensAll plan.now opened.now old new
        → IfOk result
        (λ n. IsNew (setup_of plan.now opened.now settings.max_capacity settings.bytes settings.block)
        (network_state filter_shows n new)) }
    ensures room { IfOk result
        (λ n. (p : ℕ) → p < length plan.now.pipes
        → (writing_by n.nodes (slice_get n.pipes p)).capacity ≡ settings.capacity) }
    ensures files { IfOk result (HasFilesOf plan.now opened.now) }
{
    let nodes = make_nodes(alloc, plan, opened)?;
    let status = exit_status(alloc, plan, opened)?;
    Network::new(alloc, nodes, plan.pipes(), status, settings)
}

// All nodes, in planned order.
fn make_nodes(
    alloc: Global,
    plan: &Plan,
    opened: &Opened,
) -> Result<Vec<NodeSpec<Filter>>, NoMemory>
    requires { CanBeNodes plan.now opened.now }
    ensures { IfOk result (λ nodes. AreMadeOf plan.now opened.now nodes.items) }
{
    let mut nodes = Vec::new(alloc);
    for number in 0..plan.order().len() {
        let file = opened.file(number);
        let node = make_node(alloc, plan, opened, &plan.order()[number], file)?;
        nodes.push(node)?;
    }
    Ok(nodes)
}

// A node, whose own opening has this answer.
fn make_node(
    alloc: Global,
    plan: &Plan,
    opened: &Opened,
    node: &Node,
    file: Option<usize>,
) -> Result<NodeSpec<Filter>, NoMemory>
    requires { CanBeNode node.now file }
    ensures { IfOk result (IsMadeOf (presences_of plan.now opened.now) file node.now) }
{
    match node {
        Node::Source(None) => Ok(NodeSpec::Source(None)),
        Node::Source(Some(name)) => Ok(NodeSpec::Source(named(alloc, name, file)?)),
        Node::Stage {
            spec,
            inputs,
            branches,
            ..
        } => make_stage(alloc, plan, opened, spec, inputs, branches),
        Node::Sink(name) => make_sink(alloc, name, file),
    }
}

// The open file with its name, if there is one.
fn named(
    alloc: Global,
    name: &InName,
    file: Option<usize>,
) -> Result<Option<(usize, InName)>, NoMemory>
    ensures { IfOk result (λ named. named ≡ option_map (λ f. (f, name.now)) file) }
{
    match file {
        Some(file) => Ok(Some((file, name.copied(alloc)?))),
        None => Ok(None),
    }
}

// A stage, whose machine knows which inputs are missing.
fn make_stage(
    alloc: Global,
    plan: &Plan,
    opened: &Opened,
    spec: &FilterSpec,
    inputs: &Sequence<usize>,
    branches: &Sequence<Option<usize>>,
) -> Result<NodeSpec<Filter>, NoMemory>
    requires { length inputs.now ≡ input_count spec.now }
    ensures { (number : ℕ) (own : Option ℕ)
        → IfOk result
        (IsMadeOf (presences_of plan.now opened.now) own
        (node.Stage number spec.now inputs.now branches.now)) }
{
    let presences = presences_of(alloc, plan, opened, inputs.as_slice())?;
    Ok(NodeSpec::Stage {
        machine: Filter::new(alloc, spec, presences.as_slice())?,
        inputs: Vec::from_slice(alloc, inputs.as_slice())?,
        branches: Vec::from_slice(alloc, branches.as_slice())?,
    })
}

// A sink, whose file is there.
fn make_sink(
    alloc: Global,
    name: &OutName,
    file: Option<usize>,
) -> Result<NodeSpec<Filter>, NoMemory>
    requires { IsSome file }
    ensures { (told : List ℕ → List Presence)
        → IfOk result (IsMadeOf told file (node.Sink name.now)) }
{
    let Some(file) = file else { unreachable!() };
    Ok(NodeSpec::Sink {
        file,
        name: name.copied(alloc)?,
    })
}
