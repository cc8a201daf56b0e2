ghost use Rattle.std.specs.Prelude.{◌≡◌, ℕ, ◌<◌, ◌++◌, List, None, Some, map, length, slice_get, slice_set, IfOk, OnOk};
ghost use Rattle.std.specs.List.{flat_map, range_with_len};
ghost use Rattle.commands.specs.Operands.{input_names};
ghost use Rattle.graphs.specs.Orders.{IsPlannedOrder};
ghost use Rattle.planner.specs.Places.{Stage as StageShown, out_places};
ghost use Rattle.planner.specs.Ends.{unfed, leaving};
ghost use Rattle.planner.specs.Tables.{in_name, out_name, in_name_of, source_node, sink_node, stage_node, stage_at, nodes_of};
ghost use Rattle.planner.specs.Tables.{pipe_of_input, pipe_of_branch, pipes_of};

use crate::place::{End, Place};
use crate::plan::{Node, Pipe};
use crate::stage::Stage;
use crate::tables::{is_fed, is_outside, leaves, pipe_of_branch, pipe_of_input};
use command_words::Sequence;
use commands::FilterSpec;
use machine::NoMemory;
use run_types::{InName, OutName};
use std::alloc::Global;

// The name of what is opened for an input.
pub(crate) fn in_name(place: Place) -> InName
    ensures { result ≡ in_name place }
{
    match place {
        Place::File { name, .. } => InName::File(name),
        _ => InName::Standard,
    }
}

// The name of what is opened for an output.
pub(crate) fn out_name(place: Place) -> OutName
    ensures { result ≡ out_name place }
{
    match place {
        Place::File { name, append } => OutName::File { name, append },
        _ => OutName::Standard,
    }
}

// What a source opens, if there is anything to read.
fn in_name_of(place: Place) -> Option<InName>
    ensures { result ≡ in_name_of place }
{
    if is_outside(&place) {
        Some(in_name(place))
    } else {
        None
    }
}

// The source of an input.
fn source_node(input: End) -> Node
    ensures { result ≡ source_node input }
{
    Node::Source(in_name_of(input.place))
}

// The sink of a branch.
fn sink_node(out: End) -> Node
    ensures { result ≡ sink_node out }
{
    Node::Sink(out_name(out.place))
}

// The inputs that no stage writes.
fn unfed(ins: Vec<End>, outs: &[End]) -> Vec<End>
    ensures { result.items ≡ unfed ins.items outs.now }
{
    let mut ins = ins;
    ins.retain(|input| !is_fed(outs, input));
    ins
}

// The sources.
fn sources(alloc: Global, ins: Vec<End>, outs: &[End]) -> Result<Vec<Node>, NoMemory>
    ensures { IfOk result
        (λ nodes. nodes.items ≡ map source_node (unfed ins.items outs.now)) }
{
    let unfed = unfed(ins, outs);
    Ok(
        unfed
            .into_iter()
            .map(|input| source_node(input))
            .collect(alloc)?,
    )
}

// The sinks.
fn sinks(alloc: Global, outs: Vec<End>) -> Result<Vec<Node>, NoMemory>
    ensures { IfOk result (λ nodes. nodes.items ≡ map sink_node (leaving outs.items)) }
{
    Ok(
        outs.into_iter()
            .filter(|out| leaves(out))
            .map(|out| sink_node(out))
            .collect(alloc)?,
    )
}

// How many inputs a command has.
fn input_count(filter: &FilterSpec) -> usize
    ensures { result ≡ length (input_names filter.now) }
{
    let operands = filter.input_operands();
    if operands.is_empty() {
        1
    } else {
        operands.len()
    }
}

// How many branches a stage has.
fn branch_count(stage: &Stage<'_>) -> usize
    ensures { (fifos : List (List ℕ)) → result ≡ length (out_places fifos stage.now) }
{
    let operands = stage.filter.output_operands().len();
    if stage.filter.writes_standard() {
        operands + 1
    } else {
        operands
    }
}

// The pipes of this number of inputs of a stage.
fn numbered_inputs(
    alloc: Global,
    pipes: &[Pipe],
    stage: usize,
    count: usize,
) -> Result<Vec<usize>, NoMemory>
    ensures { IfOk result
        (λ numbers. numbers.items ≡ map (pipe_of_input pipes.now stage) (range_with_len 0 count)) }
{
    Ok(
        (0..count)
            .map(|input| pipe_of_input(pipes, stage, input))
            .collect(alloc)?,
    )
}

// The pipes of this number of branches of a stage.
fn numbered_branches(
    alloc: Global,
    pipes: &[Pipe],
    stage: usize,
    count: usize,
) -> Result<Vec<Option<usize>>, NoMemory>
    ensures { IfOk result
        (λ numbers. numbers.items ≡ map (pipe_of_branch pipes.now stage) (range_with_len 0 count)) }
{
    Ok(
        (0..count)
            .map(|branch| pipe_of_branch(pipes, stage, branch))
            .collect(alloc)?,
    )
}

// The node of a stage.
fn stage_node(alloc: Global, pipes: &[Pipe], stage: Stage<'_>) -> Result<Node, NoMemory>
    ensures { (fifos : List (List ℕ))
        → IfOk result (λ node. node ≡ stage_node fifos pipes.now stage.entry) }
{
    let inputs = numbered_inputs(alloc, pipes, stage.index, input_count(&stage.filter))?;
    let branches = numbered_branches(alloc, pipes, stage.index, branch_count(&stage))?;
    Ok(Node::Stage {
        number: stage.index + 1,
        spec: stage.filter,
        inputs: Sequence::from_vec(inputs),
        branches: Sequence::from_vec(branches),
    })
}

// The stages, each of which waits at its index.
fn waiting<'a>(alloc: Global, stages: Vec<Stage<'a>>) -> Result<Vec<Option<Stage<'a>>>, NoMemory>
    ensures { IfOk result (λ waiting. waiting.items ≡ map Some stages.entry.items) }
{
    Ok(stages.into_iter().map(|stage| Some(stage)).collect(alloc)?)
}

// Takes the stage that waits at this index.
fn take_stage<'a>(waiting: &mut Vec<Option<Stage<'a>>>, index: usize) -> Stage<'a>
    requires { (s : StageShown) × (slice_get waiting.old.items index ≡ Some (Some s)) }
    ensures stage { slice_get waiting.old.items index ≡ Some (Some result) }
    ensures rest { waiting.new.items ≡ slice_set waiting.old.items index None }
{
    let Some(stage) = waiting[index].take() else {
        unreachable!()
    };
    stage
}

// Adds the stages, in this order, which has each of them once.
fn add_stages(
    alloc: Global,
    stages: Vec<Stage<'_>>,
    order: &[usize],
    pipes: &[Pipe],
    nodes: &mut Vec<Node>,
) -> Result<(), NoMemory>
    requires { (pairs : List (ℕ × ℕ)) × IsPlannedOrder (length stages.items) pairs order.now }
    ensures { (fifos : List (List ℕ))
        → OnOk result
        (nodes.new.items
        ≡ nodes.old.items
        ++ map (stage_node fifos pipes.now) (flat_map (stage_at stages.entry.items) order.now)) }
{
    let mut waiting = waiting(alloc, stages)?;
    for number in order {
        let stage = take_stage(&mut waiting, *number);
        let node = stage_node(alloc, pipes, stage)?;
        nodes.push(node)?;
    }
    Ok(())
}

// The nodes in planned order: the sources, the stages in this order, and the sinks. Each stage, input and branch becomes its node.
pub(crate) fn nodes(
    alloc: Global,
    stages: Vec<Stage<'_>>,
    ins: Vec<End>,
    outs: Vec<End>,
    order: &[usize],
    pipes: &[Pipe],
) -> Result<Vec<Node>, NoMemory>
    requires planned { (pairs : List (ℕ × ℕ))
        × IsPlannedOrder (length stages.items) pairs order.now }
    requires pipes { pipes.now ≡ pipes_of ins.items outs.items order.now }
    ensures { (fifos : List (List ℕ))
        → IfOk result
        (λ nodes. nodes.items
        ≡ nodes_of fifos stages.entry.items ins.items outs.items order.now) }
{
    let mut nodes = sources(alloc, ins, outs.as_slice())?;
    add_stages(alloc, stages, order, pipes, &mut nodes)?;
    let mut sinks = sinks(alloc, outs)?;
    nodes.append(&mut sinks)?;
    Ok(nodes)
}
