ghost use Rattle.std.specs.Prelude.{◌≡◌, ◌++◌, map, IfOk, OnOk};
ghost use Rattle.std.specs.List.{position};
ghost use Rattle.planner.specs.declared.plan.NodeName.TheVariants.{StageAt};
ghost use Rattle.planner.specs.Ends.{is_same, meets, is_fed, is_outside, leaves, unfed, leaving};
ghost use Rattle.planner.specs.Tables.{is_same_node, source_of, sink_of, names_of, number_of, ends_of};
ghost use Rattle.planner.specs.Tables.{pipe_of_source, pipes_of_branch, pipes_of_stage, pipes_of};
ghost use Rattle.planner.specs.Tables.{is_read_by, is_written_by, pipe_of_input, pipe_of_branch};

use crate::place::{Channel, End, Place};
use crate::plan::{NodeName, Pipe};
use machine::NoMemory;
use std::alloc::Global;

// Whether two channels are one.
fn is_same(one: Channel, other: Channel) -> bool
    ensures { result ≡ is_same one other }
{
    match (one, other) {
        (Channel::Fifo(k), Channel::Fifo(l)) => k == l,
        (Channel::Bar(k), Channel::Bar(l)) => k == l,
        _ => false,
    }
}

// Whether a branch is written to what an input reads.
pub(crate) fn meets(out: &End, input: &End) -> bool
    ensures { result ≡ meets out.now input.now }
{
    match (&out.place, &input.place) {
        (Place::Through(written), Place::Through(read)) => is_same(*written, *read),
        _ => false,
    }
}

// Whether some branch is written to what this input reads.
pub(crate) fn is_fed(outs: &[End], input: &End) -> bool
    ensures { result ≡ is_fed outs.now input.now }
{
    outs.iter().any(|out| meets(out, input))
}

// Whether a place is a file, or the standard input or output of the run.
pub(crate) fn is_outside(place: &Place) -> bool
    ensures { result ≡ is_outside place.now }
{
    match place {
        Place::Standard | Place::File { .. } => true,
        _ => false,
    }
}

// Whether a branch goes to such a place.
pub(crate) fn leaves(out: &End) -> bool
    ensures { result ≡ leaves out.now }
{
    is_outside(&out.place)
}

// Whether two names are of one node.
fn is_same_node(one: NodeName, other: NodeName) -> bool
    ensures { result ≡ is_same_node one other }
{
    match (one, other) {
        (NodeName::SourceOf(s, i), NodeName::SourceOf(t, j)) => s == t && i == j,
        (NodeName::StageAt(s), NodeName::StageAt(t)) => s == t,
        (NodeName::SinkOf(s, b), NodeName::SinkOf(t, c)) => s == t && b == c,
        _ => false,
    }
}

// The source of an input.
fn source_of(input: &End) -> NodeName
    ensures { result ≡ source_of input.now }
{
    NodeName::SourceOf(input.stage, input.number)
}

// The sink of a branch.
fn sink_of(out: &End) -> NodeName
    ensures { result ≡ sink_of out.now }
{
    NodeName::SinkOf(out.stage, out.number)
}

// The names of the sources.
fn source_names(alloc: Global, ins: &[End], outs: &[End]) -> Result<Vec<NodeName>, NoMemory>
    ensures { IfOk result (λ names. names.items ≡ map source_of (unfed ins.now outs.now)) }
{
    Ok(
        ins.iter()
            .filter(|input| !is_fed(outs, input))
            .map(|input| source_of(input))
            .collect(alloc)?,
    )
}

// The names of the stages.
fn stage_names(alloc: Global, order: &[usize]) -> Result<Vec<NodeName>, NoMemory>
    ensures { IfOk result (λ names. names.items ≡ map StageAt order.now) }
{
    Ok(
        order
            .iter()
            .map(|stage| NodeName::StageAt(*stage))
            .collect(alloc)?,
    )
}

// The names of the sinks.
fn sink_names(alloc: Global, outs: &[End]) -> Result<Vec<NodeName>, NoMemory>
    ensures { IfOk result (λ names. names.items ≡ map sink_of (leaving outs.now)) }
{
    Ok(
        outs.iter()
            .filter(|out| leaves(out))
            .map(|out| sink_of(out))
            .collect(alloc)?,
    )
}

// The names of the nodes, in planned order.
pub(crate) fn node_names(
    alloc: Global,
    ins: &[End],
    outs: &[End],
    order: &[usize],
) -> Result<Vec<NodeName>, NoMemory>
    ensures { IfOk result (λ names. names.items ≡ names_of ins.now outs.now order.now) }
{
    let mut names = source_names(alloc, ins, outs)?;
    let mut stages = stage_names(alloc, order)?;
    let mut sinks = sink_names(alloc, outs)?;
    names.append(&mut stages)?;
    names.append(&mut sinks)?;
    Ok(names)
}

// The place of a node, if it is there.
fn place_of_node(nodes: &[NodeName], name: NodeName) -> Option<usize>
    ensures { result ≡ position (λ other. is_same_node other name) nodes.now }
{
    nodes.iter().position(|other| is_same_node(*other, name))
}

// The number of a node.
#[tactic(auto, using(crate::proofs::lemmas::GatherLaws::or_length))]
pub(crate) fn number_of(nodes: &[NodeName], name: NodeName) -> usize
    ensures { result ≡ number_of nodes.now name }
{
    place_of_node(nodes, name).unwrap_or(nodes.len())
}

// The pipes of the sources.
fn source_pipes(alloc: Global, ins: &[End], outs: &[End]) -> Result<Vec<Pipe>, NoMemory>
    ensures { IfOk result (λ pipes. pipes.items ≡ map pipe_of_source (unfed ins.now outs.now)) }
{
    Ok(
        ins.iter()
            .filter(|input| !is_fed(outs, input))
            .map(|input| Pipe {
                writer: source_of(input),
                branch: 0,
                reader: NodeName::StageAt(input.stage),
                input: input.number,
            })
            .collect(alloc)?,
    )
}

// Adds the pipes of a branch: to its sink, or to the input that it meets.
fn add_branch_pipes(ins: &[End], out: &End, pipes: &mut Vec<Pipe>) -> Result<(), NoMemory>
    ensures { OnOk result (pipes.new.items ≡ pipes.old.items ++ pipes_of_branch ins.now out.now) }
{
    let writer = NodeName::StageAt(out.stage);
    let branch = out.number;
    if leaves(out) {
        let reader = sink_of(out);
        pipes.push(Pipe {
            writer,
            branch,
            reader,
            input: 0,
        })?;
        return Ok(());
    }
    for input in ins {
        if meets(out, input) {
            let reader = NodeName::StageAt(input.stage);
            pipes.push(Pipe {
                writer,
                branch,
                reader,
                input: input.number,
            })?;
        }
    }
    Ok(())
}

// Adds the pipes that a stage writes.
fn add_stage_pipes(
    ins: &[End],
    outs: &[End],
    stage: usize,
    pipes: &mut Vec<Pipe>,
) -> Result<(), NoMemory>
    ensures { OnOk result
        (pipes.new.items ≡ pipes.old.items ++ pipes_of_stage ins.now outs.now stage) }
{
    for out in outs {
        if out.stage == stage {
            add_branch_pipes(ins, out, pipes)?;
        }
    }
    Ok(())
}

// All pipes, by writer in planned order and then by branch.
pub(crate) fn pipes(
    alloc: Global,
    ins: &[End],
    outs: &[End],
    order: &[usize],
) -> Result<Vec<Pipe>, NoMemory>
    ensures { IfOk result (λ pipes. pipes.items ≡ pipes_of ins.now outs.now order.now) }
{
    let mut pipes = source_pipes(alloc, ins, outs)?;
    for stage in order {
        add_stage_pipes(ins, outs, *stage, &mut pipes)?;
    }
    Ok(pipes)
}

// The numbers of each pipe's writer and reader.
pub(crate) fn ends_of_pipes(
    alloc: Global,
    nodes: &[NodeName],
    pipes: &[Pipe],
) -> Result<Vec<(usize, usize)>, NoMemory>
    ensures { IfOk result (λ ends. ends.items ≡ map (ends_of nodes.now) pipes.now) }
{
    Ok(
        pipes
            .iter()
            .map(|pipe| (number_of(nodes, pipe.writer), number_of(nodes, pipe.reader)))
            .collect(alloc)?,
    )
}

// Whether this input of a stage reads the pipe.
fn is_read_by(stage: usize, input: usize, pipe: &Pipe) -> bool
    ensures { result ≡ is_read_by stage input pipe.now }
{
    is_same_node(pipe.reader, NodeName::StageAt(stage)) && pipe.input == input
}

// Whether this branch of a stage writes the pipe.
fn is_written_by(stage: usize, branch: usize, pipe: &Pipe) -> bool
    ensures { result ≡ is_written_by stage branch pipe.now }
{
    is_same_node(pipe.writer, NodeName::StageAt(stage)) && pipe.branch == branch
}

// The place of the pipe that an input of a stage reads, if there is one.
fn place_of_pipe(pipes: &[Pipe], stage: usize, input: usize) -> Option<usize>
    ensures { result ≡ position (is_read_by stage input) pipes.now }
{
    pipes.iter().position(|pipe| is_read_by(stage, input, pipe))
}

// The number of the pipe that an input of a stage reads.
#[tactic(auto, using(crate::proofs::lemmas::GatherLaws::or_length))]
pub(crate) fn pipe_of_input(pipes: &[Pipe], stage: usize, input: usize) -> usize
    ensures { result ≡ pipe_of_input pipes.now stage input }
{
    place_of_pipe(pipes, stage, input).unwrap_or(pipes.len())
}

// The number of the pipe that a branch of a stage writes, if there is one.
pub(crate) fn pipe_of_branch(pipes: &[Pipe], stage: usize, branch: usize) -> Option<usize>
    ensures { result ≡ pipe_of_branch pipes.now stage branch }
{
    pipes
        .iter()
        .position(|pipe| is_written_by(stage, branch, pipe))
}
