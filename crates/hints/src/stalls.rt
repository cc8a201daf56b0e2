// Hints for runs that stalled.
use crate::hint::Hint;
use crate::uses::command;
use network_laws::Waiting;
use pipeline_text::Script;
use planner::{Node, Plan};
use run_types::{Escaped, InName, OutName, Settings};
use std::io::{self, Write};

// Writes what a node of a plan is.
fn write_node<W: Write>(script: &Script, plan: &Plan, node: usize, to: &mut W) -> io::Result<()> {
    match plan.order().get(node) {
        Some(Node::Stage { number, .. }) => write_command(script, *number, to),
        Some(Node::Source(Some(InName::File(name)))) => {
            write!(to, "the reading of {}", Escaped(name.bytes()))
        }
        Some(Node::Source(_)) => write!(to, "the reading of the standard input"),
        Some(Node::Sink(OutName::File { name, .. })) => {
            write!(to, "the writing of {}", Escaped(name.bytes()))
        }
        Some(Node::Sink(OutName::Standard)) => write!(to, "the writing of the standard output"),
        None => write!(to, "node {node}"),
    }
}

// Writes the words of the command of this number.
fn write_command<W: Write>(script: &Script, number: usize, to: &mut W) -> io::Result<()> {
    let Some(command) = command(script, number) else {
        return write!(to, "command {number}");
    };
    for (place, word) in command.words.as_slice().iter().enumerate() {
        if place > 0 {
            write!(to, " ")?;
        }
        write!(to, "{}", Escaped(word.bytes()))?;
    }
    Ok(())
}

// Adds why a node waits.
fn add_wait(script: &Script, plan: &Plan, wait: Waiting, hint: &mut Hint<'_>) -> io::Result<()> {
    let Some((writer, reader)) = plan.pipes().get(wait.pipe) else {
        return Ok(());
    };
    let (other, verb) = match wait.full {
        true => (*reader, "read"),
        false => (*writer, "write"),
    };
    let mut text = Vec::new(hint.alloc);
    write_node(script, plan, wait.node, &mut text)?;
    write!(text, " waits for ")?;
    write_node(script, plan, other, &mut text)?;
    write!(text, " to {verb}")?;
    hint.advise(str::from_utf8(text.as_slice()).unwrap_or(""))
}

// Adds why each node of a stalled run waits.
fn add_waits(
    script: &Script,
    plan: &Plan,
    waits: &[Waiting],
    hint: &mut Hint<'_>,
) -> io::Result<()> {
    for wait in waits {
        add_wait(script, plan, *wait, hint)?;
    }
    Ok(())
}

// Adds the hint for a run that stalled with these waits and these limits.
pub(crate) fn add_stall(
    script: Option<&Script>,
    plan: Option<&Plan>,
    waits: &[Waiting],
    settings: Option<&Settings>,
    hint: &mut Hint<'_>,
) -> io::Result<()> {
    let mut pipes: usize = 0;
    if let (Some(script), Some(plan)) = (script, plan) {
        add_waits(script, plan, waits, hint)?;
        pipes = plan.pipes().len();
    }
    if !waits.iter().any(|wait| wait.full) {
        return Ok(());
    }
    hint.advise("the full pipes have grown as far as --max-capacity and --bytes allow")?;
    match settings {
        Some(settings) => add_room(settings, pipes, hint),
        None => hint.repair(
            "give the pipes more room with --block, --max-capacity and --bytes, or read the input twice",
        ),
    }
}

// The greatest number that each of the limits may be.
const MAX_CAPACITY: usize = 4096;

const BYTES: usize = 268_435_456;

const BLOCK: usize = 65536;

// Adds which of the limits of a run with this many pipes can still be raised, or what else helps.
fn add_room(settings: &Settings, pipes: usize, hint: &mut Hint<'_>) -> io::Result<()> {
    let fitting = settings.for_pipes(pipes).block;
    let mut text = Vec::new(hint.alloc);
    let short_block = (settings.block < BLOCK) & (settings.block == fitting);
    if short_block | (settings.first_read < settings.block) {
        write!(text, " --block={BLOCK}")?;
    }
    if settings.max_capacity < MAX_CAPACITY {
        write!(text, " --max-capacity={MAX_CAPACITY}")?;
    }
    if settings.bytes < BYTES {
        write!(text, " --bytes={BYTES}")?;
    }
    if text.is_empty() {
        return hint.repair(
            "no option gives the pipes more room: read the input twice, as in tail -n 1 in | paste - in",
        );
    }
    let options = str::from_utf8(text.as_slice()).unwrap_or("");
    let repair = format!(in hint.alloc;
        "give the pipes more room with{options}, or read the input twice"
    )?;
    hint.repair(repair.as_str())
}
