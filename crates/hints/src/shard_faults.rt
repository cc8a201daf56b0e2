// Hints for scripts that have no shards.
use crate::hint::Hint;
use crate::uses::{Use, command, place_of, uses_of};
use command_words::Span;
use commands::FilterSpec;
use part_laws::WholeCause;
use pipeline_text::{Cmd, Pipeline, Script};
use shards::ShardsFault;
use std::alloc::Global;
use std::io;

// Adds the hint for a script without shards, which has a plan.
pub(crate) fn add_shards_fault(
    script: &Script,
    fault: &ShardsFault,
    hint: &mut Hint<'_>,
) -> io::Result<()> {
    match fault {
        ShardsFault::NotOnePipeline => {
            add_shape(script, hint)?;
            hint.repair("shards are for one pipeline from one input to one output")
        }
        ShardsFault::NeedsWholeInput(cause) => add_whole(script, *cause, hint),
        ShardsFault::NotWritten => hint.repair("write its words more simply"),
        ShardsFault::NoMemory => hint.point(None, "", "memory was refused"),
    }
}

// Marks the name of the first command, which needs its whole input, with the reason.
fn add_whole(script: &Script, cause: WholeCause, hint: &mut Hint<'_>) -> io::Result<()> {
    let place = command(script, 1).and_then(name_of);
    hint.mark(place, reason(cause))?;
    hint.advise("it is the first command, so nothing of the script runs on a part of its input")
}

// Why a command needs its whole input.
fn reason(cause: WholeCause) -> &'static str {
    match cause {
        WholeCause::Counts => "wc counts the bytes of the whole input",
        WholeCause::NamesInput => "wc writes the name of its input: read that with < instead",
        WholeCause::JoinsLines => "paste joins lines, and a part may end between them",
        WholeCause::FromStart => "tail counts from the beginning of the whole input",
        WholeCause::RunLengths =>
            "a run of equal lines may go from one part to the next, and uniq needs its length",
        WholeCause::Squeezes =>
            "tr deletes newlines and squeezes bytes, and a run may go from one part to the next",
        WholeCause::Headers => "head writes a header for each input",
    }
}

// The place of the name of a command.
fn name_of(command: &Cmd) -> Option<Span> {
    command.words.as_slice().first()?.place()
}

// Marks what a script has that one pipeline from one input to one output has not.
fn add_shape(script: &Script, hint: &mut Hint<'_>) -> io::Result<()> {
    if let Some(fifo) = script.fifos.as_slice().first() {
        return hint.mark(fifo.place(), "this is a FIFO");
    }
    for pipeline in script.pipelines.as_slice() {
        if pipeline.background {
            return hint.mark(extent_of(pipeline), "this is in the background");
        }
        if pipeline.negated {
            return hint.mark(extent_of(pipeline), "! turns its exit status round");
        }
    }
    let uses = uses_of(hint.alloc, script)?;
    let read = if reads_standard(hint.alloc, script) {
        1
    } else {
        0
    };
    match first_other(script, uses.as_slice(), read) {
        Some((place, note)) => hint.mark(Some(place), note),
        None => Ok(()),
    }
}

// The place of a pipeline, from its first word to its last one.
fn extent_of(pipeline: &Pipeline) -> Option<Span> {
    let commands = pipeline.commands.as_slice();
    let (first, last) = (place_of(commands.first()?)?, place_of(commands.last()?)?);
    let (start, end) = (first.start, last.end);
    Some(Span { start, end })
}

// Whether the first command has an operand `-`, which is the standard input of the script.
fn reads_standard(alloc: Global, script: &Script) -> bool {
    let Some(first) = command(script, 1) else {
        return false;
    };
    match FilterSpec::read(alloc, first.words.as_slice()) {
        Ok(spec) if first.source.is_none() => {
            let mut operands = spec.input_operands().iter();
            operands.any(|operand| operand.bytes() == b"-".as_slice())
        }
        _ => false,
    }
}

// The first use that is neither that of the one input nor that of the one output, and what it is. This many inputs have no use.
fn first_other(script: &Script, uses: &[Use<'_>], read: usize) -> Option<(Span, &'static str)> {
    let output = last_target(script);
    let mut inputs = read;
    for found in uses {
        let place = found.place;
        match (found.writes, found.command) {
            (true, _) if output == Some(place) => {}
            (true, _) => return Some((place, "this is one more output")),
            (false, 0) => {
                inputs = inputs.saturating_add(1);
                if inputs > 1 {
                    return Some((place, "this is one more input"));
                }
            }
            (false, _) => return Some((place, "this is read in the middle")),
        }
    }
    None
}

// The place of the name to which the last command's output is redirected.
fn last_target(script: &Script) -> Option<Span> {
    let last = script
        .pipelines
        .as_slice()
        .last()?
        .commands
        .as_slice()
        .last()?;
    last.target.as_ref()?.name.place()
}
