ghost use Rattle.std.specs.Prelude.{◌≡◌, ◌++◌, map, IfOk, OnOk};
ghost use Rattle.std.specs.List.{enumerate_from};
ghost use Rattle.planner.specs.Ends.{in_ends as ends_of_inputs, out_ends as ends_of_branches, end_at};
ghost use Rattle.planner.specs.Places.{named_place, standard_input, standard_output, input_place, operand_place, in_places, out_places};

use crate::place::{Channel, End, Place};
use crate::stage::Stage;
use command_words::{Word, is_standard_input};
use graphs::Names;
use machine::NoMemory;
use std::alloc::Global;

// The place of this name, to which an output may be appended.
pub(crate) fn named_place(
    alloc: Global,
    fifos: &Names<'_>,
    name: &Word,
    append: bool,
) -> Result<Place, NoMemory>
    ensures { IfOk result (λ place. place ≡ named_place fifos.now name.now append) }
{
    match fifos.place(name.bytes()) {
        Some(fifo) => Ok(Place::Through(Channel::Fifo(fifo))),
        None => Ok(Place::File {
            name: name.copied(alloc)?,
            append,
        }),
    }
}

// What a command's standard input reads.
pub(crate) fn standard_input(
    alloc: Global,
    fifos: &Names<'_>,
    stage: &Stage<'_>,
) -> Result<Place, NoMemory>
    ensures { IfOk result (λ place. place ≡ standard_input fifos.now stage.now) }
{
    match stage.source() {
        Some(name) => named_place(alloc, fifos, name, false),
        None if !stage.is_first => Ok(Place::Through(Channel::Bar(stage.index))),
        None if stage.background => Ok(Place::Nothing),
        None => Ok(Place::Standard),
    }
}

// What a command's standard output is written to.
pub(crate) fn standard_output(
    alloc: Global,
    fifos: &Names<'_>,
    stage: &Stage<'_>,
) -> Result<Place, NoMemory>
    ensures { IfOk result (λ place. place ≡ standard_output fifos.now stage.now) }
{
    match stage.target() {
        Some(target) => named_place(alloc, fifos, &target.name, target.append),
        None if stage.is_last => Ok(Place::Standard),
        None => Ok(Place::Through(Channel::Bar(stage.index + 1))),
    }
}

// What the input of a command with this name reads.
pub(crate) fn input_place(
    alloc: Global,
    fifos: &Names<'_>,
    stage: &Stage<'_>,
    name: &Word,
) -> Result<Place, NoMemory>
    ensures { IfOk result (λ place. place ≡ input_place fifos.now stage.now name.now) }
{
    if is_standard_input(name.bytes()) {
        standard_input(alloc, fifos, stage)
    } else {
        named_place(alloc, fifos, name, false)
    }
}

// What an output operand of a command is.
pub(crate) fn operand_place(
    alloc: Global,
    fifos: &Names<'_>,
    stage: &Stage<'_>,
    name: &Word,
) -> Result<Place, NoMemory>
    ensures { IfOk result (λ place. place ≡ operand_place fifos.now stage.now name.now) }
{
    named_place(alloc, fifos, name, stage.filter.is_appending())
}

// What each input of a stage reads.
fn in_places(alloc: Global, fifos: &Names<'_>, stage: &Stage<'_>) -> Result<Vec<Place>, NoMemory>
    ensures { IfOk result (λ places. places.items ≡ in_places fifos.now stage.now) }
{
    let mut places = Vec::new(alloc);
    let names = stage.filter.input_operands();
    if names.is_empty() {
        places.push(standard_input(alloc, fifos, stage)?)?;
    }
    for name in names {
        places.push(input_place(alloc, fifos, stage, name)?)?;
    }
    Ok(places)
}

// What each branch of a stage is written to.
fn out_places(alloc: Global, fifos: &Names<'_>, stage: &Stage<'_>) -> Result<Vec<Place>, NoMemory>
    ensures { IfOk result (λ places. places.items ≡ out_places fifos.now stage.now) }
{
    let mut places = Vec::new(alloc);
    if stage.filter.writes_standard() {
        places.push(standard_output(alloc, fifos, stage)?)?;
    }
    for name in stage.filter.output_operands() {
        places.push(operand_place(alloc, fifos, stage, name)?)?;
    }
    Ok(places)
}

// Adds the ends of a stage that have these places.
fn add_ends(ends: &mut Vec<End>, stage: usize, places: Vec<Place>) -> Result<(), NoMemory>
    ensures { OnOk result
        (ends.new.items
        ≡ ends.old.items ++ map (end_at stage) (enumerate_from 0 places.items)) }
{
    for (number, place) in places.into_iter().enumerate() {
        ends.push(End {
            stage,
            number,
            place,
        })?;
    }
    Ok(())
}

// The inputs of all stages, by stage in script order and then by number.
pub(crate) fn in_ends(
    alloc: Global,
    fifos: &Names<'_>,
    stages: &[Stage<'_>],
) -> Result<Vec<End>, NoMemory>
    ensures { IfOk result (λ ends. ends.items ≡ ends_of_inputs fifos.now stages.now) }
{
    let mut ends = Vec::new(alloc);
    for stage in stages {
        add_ends(&mut ends, stage.index, in_places(alloc, fifos, stage)?)?;
    }
    Ok(ends)
}

// The branches of all stages, by stage in script order and then by number.
pub(crate) fn out_ends(
    alloc: Global,
    fifos: &Names<'_>,
    stages: &[Stage<'_>],
) -> Result<Vec<End>, NoMemory>
    ensures { IfOk result (λ ends. ends.items ≡ ends_of_branches fifos.now stages.now) }
{
    let mut ends = Vec::new(alloc);
    for stage in stages {
        add_ends(&mut ends, stage.index, out_places(alloc, fifos, stage)?)?;
    }
    Ok(ends)
}
