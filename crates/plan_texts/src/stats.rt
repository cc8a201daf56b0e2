use crate::ends::End;
use crate::json_string::JsonString;
use machine::NoMemory;
use planner::{Node, Plan};
use run_types::{Amount, Statistics};
use std::alloc::Global;
use std::fmt;
use std::io::{self, Write};

/// What is known of a run that has ended.
#[derive(Clone, Copy)]
pub struct RunStats<'a> {
    /// The exit status of the program.
    pub status: u8,
    /// The line of its fault, without the name of the program. None if the run finished.
    pub fault: Option<&'a [u8]>,
    /// How many milliseconds it took.
    pub millis: u64,
    /// What it moved, and how long its nodes took. A pipe that is not there moved nothing, and a node that is not there took no time.
    pub statistics: &'a Statistics,
}

impl RunStats<'_> {
    // What the pipe of this number moved.
    fn amount(&self, pipe: usize) -> Amount {
        match self.statistics.amounts.get(pipe) {
            Some(amount) => *amount,
            None => Amount::NONE,
        }
    }

    // How many whole microseconds the steps of this node took.
    fn micros(&self, node: usize) -> u64 {
        self.statistics
            .times
            .get(node)
            .map_or(0, |nanos| *nanos / 1000)
    }

    // How many bytes the pipes moved together to this node, or from it.
    fn sum(&self, plan: &Plan, node: usize, side: Side) -> u64 {
        let mut sum: u64 = 0;
        for (number, (writer, reader)) in plan.pipes().iter().enumerate() {
            let end = match side {
                Side::In => *reader,
                Side::Out => *writer,
            };
            if end == node {
                sum = sum.saturating_add(self.amount(number).bytes);
            }
        }
        sum
    }
}

// Which pipes of a node are meant.
#[derive(Clone, Copy)]
enum Side {
    In,
    Out,
}

// A number of things of this name, which gets an s unless there is exactly one.
#[derive(Clone, Copy)]
struct Counted(u64, &'static str);

impl fmt::Display for Counted {
    fn fmt<W: fmt::Write>(&self, f: &mut fmt::Formatter<W>) -> fmt::Result {
        let ending = if self.0 == 1 { "" } else { "s" };
        write!(f, "{} {}{ending}", self.0, self.1)
    }
}

// A number of microseconds, in milliseconds with three decimals.
#[derive(Clone, Copy)]
struct Millis(u64);

impl fmt::Display for Millis {
    fn fmt<W: fmt::Write>(&self, f: &mut fmt::Formatter<W>) -> fmt::Result {
        write!(f, "{}.{:03} ms", self.0 / 1000, self.0 % 1000)
    }
}

/// What a run moved, for people, in lines that begin like messages: how long it took and how often pipes grew; for each command, how long its
/// steps took, and how many bytes came in and went out; and for each pipe what it connects, and how many pieces and bytes it moved.
pub fn stats_text(alloc: Global, plan: &Plan, stats: RunStats<'_>) -> Result<Vec<u8>, NoMemory> {
    let mut text = Vec::new(alloc);
    write_lines(&mut text, plan, stats).map_err(|_| NoMemory)?;
    Ok(text)
}

// Writes the lines.
fn write_lines(text: &mut Vec<u8>, plan: &Plan, stats: RunStats<'_>) -> io::Result<()> {
    let RunStats {
        millis,
        statistics,
        ..
    } = stats;
    let growths = Counted(statistics.growths, "growth");
    writeln!(text, "plrun: {millis} ms, {growths} of pipes")?;
    write_commands(text, plan, stats)?;
    write_pipes(text, plan, stats)
}

// Writes a line for each command.
fn write_commands(text: &mut Vec<u8>, plan: &Plan, stats: RunStats<'_>) -> io::Result<()> {
    for (node, found) in plan.order().iter().enumerate() {
        if let Node::Stage { number, spec, .. } = found {
            let name = spec.name();
            let took = Millis(stats.micros(node));
            let came = Counted(stats.sum(plan, node, Side::In), "byte");
            let went = Counted(stats.sum(plan, node, Side::Out), "byte");
            writeln!(
                text,
                "plrun: command {number} {name}: {took}, {came} in, {went} out"
            )?;
        }
    }
    Ok(())
}

// Writes a line for each pipe.
fn write_pipes(text: &mut Vec<u8>, plan: &Plan, stats: RunStats<'_>) -> io::Result<()> {
    for (number, (writer, reader)) in plan.pipes().iter().enumerate() {
        let Amount { pieces, bytes } = stats.amount(number);
        let (pieces, bytes) = (Counted(pieces, "piece"), Counted(bytes, "byte"));
        let (from, to) = (End::of(plan, *writer), End::of(plan, *reader));
        writeln!(
            text,
            "plrun: pipe {number}: {from} -> {to}: {pieces}, {bytes}"
        )?;
    }
    Ok(())
}

/// What a run moved, for programs: one object of JSON, on one line.
///
/// It has the exit `status`, the `fault` or null, `milliseconds`, `growths`, `commands` in planned order and `pipes` by number. A command has its number, `command`, from 1 over all
/// pipelines, the name of its `utility`, the `microseconds` that its steps took, and `bytes_in` and `bytes_out`. A pipe has its `number`, the nodes that it leads `from` and `to`, as
/// `plan_json` numbers them, and how many `pieces` and `bytes` it moved.
pub fn stats_json(alloc: Global, plan: &Plan, stats: RunStats<'_>) -> Result<Vec<u8>, NoMemory> {
    let mut text = Vec::new(alloc);
    write_object(&mut text, plan, stats).map_err(|_| NoMemory)?;
    Ok(text)
}

// Writes the object.
fn write_object(text: &mut Vec<u8>, plan: &Plan, stats: RunStats<'_>) -> io::Result<()> {
    let RunStats {
        status,
        fault,
        millis,
        statistics,
    } = stats;
    let growths = statistics.growths;
    write_status(text, status, fault)?;
    write!(
        text,
        ",\"milliseconds\":{millis},\"growths\":{growths},\"commands\":["
    )?;
    write_command_objects(text, plan, stats)?;
    write!(text, "],\"pipes\":[")?;
    write_pipe_objects(text, plan, stats)?;
    writeln!(text, "]}}")
}

/// What became of a request that came to no run, for programs: an object with the exit `status` and the `fault`, on one line. The fault is its
/// line, without the name of the program.
pub fn refusal_json(alloc: Global, status: u8, fault: Option<&[u8]>) -> Result<Vec<u8>, NoMemory> {
    let mut text = Vec::new(alloc);
    write_status(&mut text, status, fault).map_err(|_| NoMemory)?;
    writeln!(text, "}}").map_err(|_| NoMemory)?;
    Ok(text)
}

// Writes the beginning of an object: the status and the fault.
fn write_status(text: &mut Vec<u8>, status: u8, fault: Option<&[u8]>) -> io::Result<()> {
    write!(text, "{{\"status\":{status},\"fault\":")?;
    match fault {
        Some(fault) => write!(text, "{}", JsonString(fault)),
        None => write!(text, "null"),
    }
}

// Writes the objects of the commands.
fn write_command_objects(text: &mut Vec<u8>, plan: &Plan, stats: RunStats<'_>) -> io::Result<()> {
    let mut comma = "";
    for (node, found) in plan.order().iter().enumerate() {
        if let Node::Stage { number, spec, .. } = found {
            let name = spec.name();
            let took = stats.micros(node);
            let came = stats.sum(plan, node, Side::In);
            let went = stats.sum(plan, node, Side::Out);
            write!(
                text,
                "{comma}{{\"command\":{number},\"utility\":\"{name}\",\"microseconds\":{took},\"bytes_in\":{came},\"bytes_out\":{went}}}"
            )?;
            comma = ",";
        }
    }
    Ok(())
}

// Writes the objects of the pipes.
fn write_pipe_objects(text: &mut Vec<u8>, plan: &Plan, stats: RunStats<'_>) -> io::Result<()> {
    let mut comma = "";
    for (number, (writer, reader)) in plan.pipes().iter().enumerate() {
        let Amount { pieces, bytes } = stats.amount(number);
        write!(
            text,
            "{comma}{{\"number\":{number},\"from\":{writer},\"to\":{reader},\"pieces\":{pieces},\"bytes\":{bytes}}}"
        )?;
        comma = ",";
    }
    Ok(())
}
