ghost use Rattle.std.specs.Prelude.{◌≡◌, [], IfOk, ◌<◌, ◌^◌, true, length};
ghost use Rattle.planner.specs.inner.Reads.{ReadsOne, ReadsRest, ReadsStages};
ghost use Rattle.planner.specs.Stages.{placed, placed_in};

use crate::fault::PlanFault;
use command_words::{Word, is_input_path, is_output_path};
use commands::FilterSpec;
use machine::NoMemory;
use pipeline_text::{Cmd, Pipeline, Script, Target};
use std::alloc::Global;
use std::marker::Model;

// A command that means something: its index, from 0 over all pipelines; whether its pipeline is in the background; whether it is the
// first and the last of its pipeline; and what its words mean.
#[derive(Drop)]
pub(crate) struct Stage<'a> {
    pub(crate) index: usize,
    pub(crate) background: bool,
    pub(crate) is_first: bool,
    pub(crate) is_last: bool,
    pub(crate) command: &'a Cmd,
    pub(crate) filter: FilterSpec,
}

impl<'a> Model for Stage<'a> {
    ghost use Rattle.std.specs.Prelude.{◌<◌, ◌^◌};
    ghost use Rattle.planner.specs.Places as places;

    ghost Value = { places.Stage };

    ghost view = { λ s. record {
      index = s.index;
      background = s.background;
      is_first = s.is_first;
      is_last = s.is_last;
      command = s.command.now;
      filter = s.filter;
    } };

    ghost invariant = { λ s. s.index < 2 ^ 63 };
}

impl<'a> Stage<'a> {
    ghost use Rattle.std.specs.Prelude.{None, Some, MatchOption};
    ghost use Rattle.planner.specs.Places.{source_of, target_of};

    // What follows `<`, unless it is a path of the standard input.
    pub(crate) fn source(&self) -> Option<&Word>
        ensures { MatchOption result (source_of self.now ≡ None)
            (λ name. source_of self.now ≡ Some name.now) }
    {
        let name = self.command.source.as_ref()?;
        if is_input_path(name.bytes()) {
            None
        } else {
            Some(name)
        }
    }

    // What follows `>`, `>|` or `>>`, unless it is a path of the standard output.
    pub(crate) fn target(&self) -> Option<&Target>
        ensures { MatchOption result (target_of self.now ≡ None)
            (λ target. target_of self.now ≡ Some target.now) }
    {
        let target = self.command.target.as_ref()?;
        if is_output_path(target.name.bytes()) {
            None
        } else {
            Some(target)
        }
    }
}

// The stages of a script, if the words of each command mean something; otherwise the first whose
// words do not.
pub(crate) fn read_stages<'a>(
    alloc: Global,
    script: &'a Script,
) -> Result<Vec<Stage<'a>>, PlanFault>
    ensures { ReadsStages (placed script.now) result }
{
    let mut stages = room_for_stages(alloc, script.pipelines.as_slice())?;
    for pipeline in script.pipelines.as_slice() {
        read_pipeline(alloc, pipeline, &mut stages)?;
    }
    Ok(stages)
}

// Room for the stages of these pipelines, made once: a stage has several hundred bytes.
fn room_for_stages<'a>(alloc: Global, pipelines: &[Pipeline]) -> Result<Vec<Stage<'a>>, NoMemory>
    ensures { IfOk result (λ stages. stages.items ≡ []) }
{
    let mut count: usize = 0;
    for pipeline in pipelines {
        count = count.saturating_add(pipeline.commands.as_slice().len());
    }
    Ok(Vec::with_capacity(alloc, count)?)
}

// Adds the stages of a pipeline.
fn read_pipeline<'a>(
    alloc: Global,
    pipeline: &'a Pipeline,
    stages: &mut Vec<Stage<'a>>,
) -> Result<(), PlanFault>
    ensures { ReadsRest
        (placed_in (length stages.old.items) pipeline.now.background true pipeline.now.commands)
        stages.old.items stages.new.items result }
{
    let commands = pipeline.commands.as_slice();
    for (place, command) in commands.iter().enumerate() {
        let is_last = commands.len() - place == 1;
        let stage = read_stage(
            alloc,
            stages.len(),
            pipeline.background,
            place == 0,
            is_last,
            command,
        )?;
        stages.push(stage)?;
    }
    Ok(())
}

// The stage that a command is, which has this index.
fn read_stage<'a>(
    alloc: Global,
    index: usize,
    background: bool,
    is_first: bool,
    is_last: bool,
    command: &'a Cmd,
) -> Result<Stage<'a>, PlanFault>
    requires { index < 2 ^ 63 }
    ensures { ReadsOne
        (record {
          index = index;
          background = background;
          is_first = is_first;
          is_last = is_last;
          command = command.now;
        })
        result }
{
    match FilterSpec::read(alloc, command.words.as_slice()) {
        Ok(filter) => Ok(Stage {
            index,
            background,
            is_first,
            is_last,
            command,
            filter,
        }),
        Err(fault) => Err(PlanFault::Arg {
            stage: index + 1,
            fault,
        }),
    }
}
