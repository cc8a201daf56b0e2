ghost use Rattle.std.specs.Prelude.{◌≡◌, ◌++◌, IfOk, OnOk};
ghost use Rattle.std.specs.List.{flat_map, enumerate_from, position};
ghost use Rattle.command_words.specs.Streams.{is_standard_input};
ghost use Rattle.commands.specs.Operands.{input_operands};
ghost use Rattle.planner.specs.Openings.{number_if, opens, opened_at, opened_operand, opened_ends, in_side, out_side, opened_inputs, opened_outputs};
ghost use Rattle.planner.specs.Openings.{uses_standard, standard_number, operand_input, first_operand, numbered_operands, in_opening, out_opening};

use crate::ends::{named_place, operand_place, standard_input, standard_output};
use crate::nodes::{in_name, out_name};
use crate::place::Place;
use crate::plan::{InOpening, NodeName, OutOpening};
use crate::stage::Stage;
use crate::tables::number_of;
use command_words::{Word, is_standard_input};
use graphs::Names;
use machine::NoMemory;
use std::alloc::Global;

// The number of a node, if it is there.
fn number_if(there: bool, nodes: &[NodeName], name: NodeName) -> Option<usize>
    ensures { result ≡ number_if there nodes.now name }
{
    if there {
        Some(number_of(nodes, name))
    } else {
        None
    }
}

// What is opened for a stage, as an input or as an output: the number of the stage, from 1; its
// place; whether it is an operand; and the node that reads or writes it, None if nothing does.
#[derive(Drop)]
struct Opened {
    stage: usize,
    place: Place,
    operand: bool,
    node: Option<usize>,
}

// Whether a place is opened: a file, used or not, and the standard input or output of the run if it
// is used.
fn opens(used: bool, place: &Place) -> bool
    ensures { result ≡ opens used place.now }
{
    match place {
        Place::Standard => used,
        Place::File { .. } => true,
        _ => false,
    }
}

// Adds what is opened for a place of a stage, for this node if it is used.
fn add_opened(
    nodes: &[NodeName],
    stage: &Stage<'_>,
    operand: bool,
    used: bool,
    name: NodeName,
    place: Place,
    opened: &mut Vec<Opened>,
) -> Result<(), NoMemory>
    ensures { OnOk result
        (opened.new.items
        ≡ opened.old.items ++ opened_at nodes.now stage.now operand used name place) }
{
    if opens(used, &place) {
        opened.push(Opened {
            stage: stage.index + 1,
            place,
            operand,
            node: number_if(used, nodes, name),
        })?;
    }
    Ok(())
}

// Whether a command uses its standard input.
fn uses_standard(stage: &Stage<'_>) -> bool
    ensures { result ≡ uses_standard stage.now }
{
    let operands = stage.filter.input_operands();
    operands.is_empty() || operands.iter().any(|name| is_standard_input(name.bytes()))
}

// The place of the first name of the standard input among names, if there is one.
fn place_of_input(names: &[Word]) -> Option<usize>
    ensures { result ≡ position is_standard_input names.now }
{
    names
        .iter()
        .position(|name| is_standard_input(name.bytes()))
}

// By which input a command uses its standard input.
fn standard_number(stage: &Stage<'_>) -> usize
    ensures { result ≡ standard_number stage.now }
{
    let operands = stage.filter.input_operands();
    place_of_input(operands).unwrap_or(operands.len())
}

// What an input operand of a command is; nothing is opened for a name of the standard input.
fn operand_input(alloc: Global, fifos: &Names<'_>, name: &Word) -> Result<Place, NoMemory>
    ensures { IfOk result (λ place. place ≡ operand_input fifos.now name.now) }
{
    if is_standard_input(name.bytes()) {
        Ok(Place::Nothing)
    } else {
        named_place(alloc, fifos, name, false)
    }
}

// Adds what is opened for the input operands of a command.
fn add_operand_inputs(
    alloc: Global,
    fifos: &Names<'_>,
    nodes: &[NodeName],
    stage: &Stage<'_>,
    opened: &mut Vec<Opened>,
) -> Result<(), NoMemory>
    ensures { OnOk result
        (opened.new.items
        ≡ opened.old.items
        ++ flat_map (opened_operand (in_side fifos.now) nodes.now stage.now)
        (enumerate_from 0 (input_operands stage.now.filter))) }
{
    let names = stage.filter.input_operands();
    for (input, name) in names.iter().enumerate() {
        let place = operand_input(alloc, fifos, name)?;
        let node = NodeName::SourceOf(stage.index, input);
        add_opened(nodes, stage, true, true, node, place, opened)?;
    }
    Ok(())
}

// Adds the inputs that are opened for a command.
#[tactic(auto, using(crate::proofs::lemmas::NodeNameLaws::opened_by_operands))]
fn add_inputs(
    alloc: Global,
    fifos: &Names<'_>,
    nodes: &[NodeName],
    stage: &Stage<'_>,
    opened: &mut Vec<Opened>,
) -> Result<(), NoMemory>
    ensures { OnOk result
        (opened.new.items ≡ opened.old.items ++ opened_ends (in_side fifos.now) nodes.now stage.now) }
{
    let place = standard_input(alloc, fifos, stage)?;
    let used = uses_standard(stage);
    let node = NodeName::SourceOf(stage.index, standard_number(stage));
    add_opened(nodes, stage, false, used, node, place, opened)?;
    add_operand_inputs(alloc, fifos, nodes, stage, opened)
}

// The inputs that are opened, in order.
pub(crate) fn inputs(
    alloc: Global,
    fifos: &Names<'_>,
    stages: &[Stage<'_>],
    names: &[NodeName],
) -> Result<Vec<InOpening>, NoMemory>
    ensures { IfOk result (λ it. it.items ≡ opened_inputs fifos.now names.now stages.now) }
{
    let mut opened = Vec::new(alloc);
    for stage in stages {
        add_inputs(alloc, fifos, names, stage, &mut opened)?;
    }
    Ok(opened.into_iter().map(|it| in_opening(it)).collect(alloc)?)
}

// The branch of the first output operand of a command.
fn first_operand(stage: &Stage<'_>) -> usize
    ensures { result ≡ first_operand stage.now }
{
    if stage.filter.writes_standard() { 1 } else { 0 }
}

// Adds what is opened for the output operands of a command.
fn add_operand_outputs(
    alloc: Global,
    fifos: &Names<'_>,
    nodes: &[NodeName],
    stage: &Stage<'_>,
    opened: &mut Vec<Opened>,
) -> Result<(), NoMemory>
    ensures { OnOk result
        (opened.new.items
        ≡ opened.old.items
        ++ flat_map (opened_operand (out_side fifos.now) nodes.now stage.now)
        (numbered_operands stage.now)) }
{
    let first = first_operand(stage);
    let names = stage.filter.output_operands();
    for (operand, name) in names.iter().enumerate() {
        let place = operand_place(alloc, fifos, stage, name)?;
        let node = NodeName::SinkOf(stage.index, first + operand);
        add_opened(nodes, stage, true, true, node, place, opened)?;
    }
    Ok(())
}

// Adds the outputs that are opened for a command.
fn add_outputs(
    alloc: Global,
    fifos: &Names<'_>,
    nodes: &[NodeName],
    stage: &Stage<'_>,
    opened: &mut Vec<Opened>,
) -> Result<(), NoMemory>
    ensures { OnOk result
        (opened.new.items ≡ opened.old.items ++ opened_ends (out_side fifos.now) nodes.now stage.now) }
{
    let place = standard_output(alloc, fifos, stage)?;
    let used = stage.filter.writes_standard();
    let node = NodeName::SinkOf(stage.index, 0);
    add_opened(nodes, stage, false, used, node, place, opened)?;
    add_operand_outputs(alloc, fifos, nodes, stage, opened)
}

// The outputs that are opened, in order.
pub(crate) fn outputs(
    alloc: Global,
    fifos: &Names<'_>,
    stages: &[Stage<'_>],
    names: &[NodeName],
) -> Result<Vec<OutOpening>, NoMemory>
    ensures { IfOk result (λ it. it.items ≡ opened_outputs fifos.now names.now stages.now) }
{
    let mut opened = Vec::new(alloc);
    for stage in stages {
        add_outputs(alloc, fifos, names, stage, &mut opened)?;
    }
    Ok(opened.into_iter().map(|it| out_opening(it)).collect(alloc)?)
}

// The opening of an input.
fn in_opening(opened: Opened) -> InOpening
    ensures { result ≡ in_opening opened }
{
    InOpening {
        stage: opened.stage,
        name: in_name(opened.place),
        operand: opened.operand,
        node: opened.node,
    }
}

// The opening of an output.
fn out_opening(opened: Opened) -> OutOpening
    ensures { result ≡ out_opening opened }
{
    OutOpening {
        stage: opened.stage,
        name: out_name(opened.place),
        node: opened.node,
    }
}
