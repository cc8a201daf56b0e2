use crate::ends::End;
use crate::fifos::fifo_of;
use crate::opened::Output;
use crate::quoting::Quoted;
use crate::script_words::shown_words;
use crate::text::plan_text;
use machine::NoMemory;
use pipeline_text::Script;
use planner::{Node, Plan};
use run_types::{OutName, Placing};
use std::alloc::Global;
use std::io::{self, Write};

// The line on stalls, if the plan is a forest.
const CANNOT_STALL: &str = "this script cannot stall: its commands and pipes form a forest";

// The line on stalls, if it is none.
const MAY_STALL: &str =
    "this script may stall if a full pipe may not grow (--max-capacity, --bytes): see STALLS in plrun(1)";

// What is said of an output that is made anew at the end of a run.
const IN_PLACE: &str = "in place once the run has finished";

// The same, if it is stored then.
const IN_PLACE_AND_STORED: &str = "in place once the run has finished, and stored";

// What is said of an output that is appended to, if it keeps what was written only then.
const CUT_BACK: &str = "appended to, and cut back unless the run finishes";

/// The plan of a script for people: the lines of `plan_text`; then a line for each command, with its number and its words as a shell reads
/// them; a line for each pipe, with what it connects and the name of its FIFO, if it is one; and whether the script can stall. If outputs
/// get what is written at the end of the run, a line for each one that is a file says so. A byte that is not to be printed is shown by
/// its number, so that no name can end a line.
pub fn plan_full(
    alloc: Global,
    script: &Script,
    plan: &Plan,
    placing: Placing,
) -> Result<Vec<u8>, NoMemory> {
    let mut text = plan_text(alloc, plan)?;
    write_rest(&mut text, script, plan).map_err(|_| NoMemory)?;
    write_outputs(&mut text, plan.order(), placing).map_err(|_| NoMemory)?;
    Ok(text)
}

// Writes the lines after those of `plan_text`.
fn write_rest(text: &mut Vec<u8>, script: &Script, plan: &Plan) -> io::Result<()> {
    write_commands(text, script, plan.order())?;
    write_pipes(text, script, plan)?;
    let stalls = if plan.is_forest() {
        CANNOT_STALL
    } else {
        MAY_STALL
    };
    writeln!(text, "{stalls}")
}

// Writes a line for each command, in the order of the script.
fn write_commands(text: &mut Vec<u8>, script: &Script, nodes: &[Node]) -> io::Result<()> {
    let count = nodes.iter().filter(|node| is_command(node)).count();
    for number in 1..=count {
        writeln!(text, "command {number}: {}", shown_words(script, number))?;
    }
    Ok(())
}

// Whether a node is a command.
fn is_command(node: &Node) -> bool {
    match node {
        Node::Stage { .. } => true,
        Node::Source(_) | Node::Sink(_) => false,
    }
}

// Writes a line for each pipe.
fn write_pipes(text: &mut Vec<u8>, script: &Script, plan: &Plan) -> io::Result<()> {
    for (number, (writer, reader)) in plan.pipes().iter().enumerate() {
        let (from, to) = (End::of(plan, *writer), End::of(plan, *reader));
        write!(text, "pipe {number}: {from} -> {to}")?;
        write_fifo(text, script, plan, number)?;
    }
    Ok(())
}

// Writes the name of the FIFO that a pipe is, if it is one, and ends the line.
fn write_fifo(text: &mut Vec<u8>, script: &Script, plan: &Plan, pipe: usize) -> io::Result<()> {
    match fifo_of(script, plan, pipe) {
        Some(name) => writeln!(text, ", FIFO {}", Quoted(name)),
        None => writeln!(text),
    }
}

// Writes a line for each output that is a file, if outputs get what is written at the end of the run.
fn write_outputs(text: &mut Vec<u8>, nodes: &[Node], placing: Placing) -> io::Result<()> {
    let Some(made) = made_at_end(placing) else {
        return Ok(());
    };
    for node in nodes {
        if let Node::Sink(name) = node {
            write_output(text, name, made)?;
        }
    }
    Ok(())
}

// What is said of an output that is made anew, if outputs get what is written at the end of the run.
fn made_at_end(placing: Placing) -> Option<&'static str> {
    match placing {
        Placing::AsWritten => None,
        Placing::AtEnd => Some(IN_PLACE),
        Placing::AtEndStored => Some(IN_PLACE_AND_STORED),
    }
}

// Writes when an output has what is written, if it is a file: one that is made anew, or one that is appended to.
fn write_output(text: &mut Vec<u8>, name: &OutName, made: &str) -> io::Result<()> {
    let when = match name {
        OutName::Standard => return Ok(()),
        OutName::File { append: false, .. } => made,
        OutName::File { append: true, .. } => CUT_BACK,
    };
    writeln!(text, "output {}: {when}", Output(name))
}
