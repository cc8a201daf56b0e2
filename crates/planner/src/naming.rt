ghost use Rattle.std.specs.Prelude.{◌≡◌, ◌++◌, IfOk, OnOk};
ghost use Rattle.graphs.specs.NamesByPlace.{texts};
ghost use Rattle.planner.specs.Faults.{all_read, all_written};
ghost use Rattle.planner.specs.Places.{read_names as names_read, written_names as names_written};

use crate::stage::Stage;
use command_words::{Word, is_standard_input};
use machine::NoMemory;
use std::alloc::Global;

// These names.
pub(crate) fn names_of<'a>(alloc: Global, words: &'a [Word]) -> Result<Vec<&'a [u8]>, NoMemory>
    ensures { IfOk result (λ names. texts names.items ≡ words.now) }
{
    let mut names = Vec::new(alloc);
    for word in words {
        names.push(word.bytes())?;
    }
    Ok(names)
}

// The names at the reading places of all stages.
pub(crate) fn read_names<'a>(
    alloc: Global,
    stages: &'a [Stage<'_>],
) -> Result<Vec<&'a [u8]>, NoMemory>
    ensures { IfOk result (λ names. texts names.items ≡ all_read stages.now) }
{
    let mut names = Vec::new(alloc);
    for stage in stages {
        add_read(stage, &mut names)?;
    }
    Ok(names)
}

// The names at their writing places.
pub(crate) fn written_names<'a>(
    alloc: Global,
    stages: &'a [Stage<'_>],
) -> Result<Vec<&'a [u8]>, NoMemory>
    ensures { IfOk result (λ names. texts names.items ≡ all_written stages.now) }
{
    let mut names = Vec::new(alloc);
    for stage in stages {
        add_written(stage, &mut names)?;
    }
    Ok(names)
}

// Adds the names at the reading places of a stage.
fn add_read<'a>(stage: &'a Stage<'_>, names: &mut Vec<&'a [u8]>) -> Result<(), NoMemory>
    ensures { OnOk result (texts names.new.items ≡ texts names.old.items ++ names_read stage.now) }
{
    if let Some(name) = stage.source() {
        names.push(name.bytes())?;
    }
    for name in stage.filter.input_operands() {
        if !is_standard_input(name.bytes()) {
            names.push(name.bytes())?;
        }
    }
    Ok(())
}

// Adds the names at its writing places.
fn add_written<'a>(stage: &'a Stage<'_>, names: &mut Vec<&'a [u8]>) -> Result<(), NoMemory>
    ensures { OnOk result
        (texts names.new.items ≡ texts names.old.items ++ names_written stage.now) }
{
    if let Some(target) = stage.target() {
        names.push(target.name.bytes())?;
    }
    for name in stage.filter.output_operands() {
        names.push(name.bytes())?;
    }
    Ok(())
}
