use machine::NoMemory;
use planner::{Node, Plan};
use run_types::{Escaped, InName, OutName};
use std::alloc::Global;
use std::io::{self, Write};

/// The lines that show a plan: one for each node, one for each pipe, and whether it is a forest. Names are escaped, as in messages.
pub fn plan_text(alloc: Global, plan: &Plan) -> Result<Vec<u8>, NoMemory> {
    let mut text = Vec::new(alloc);
    write_plan(&mut text, plan).map_err(|_| NoMemory)?;
    Ok(text)
}

// Writes the lines of a plan.
fn write_plan(text: &mut Vec<u8>, plan: &Plan) -> io::Result<()> {
    for (number, node) in plan.order().iter().enumerate() {
        write!(text, "{number} ")?;
        write_node(text, node)?;
        writeln!(text)?;
    }
    for (number, (writer, reader)) in plan.pipes().iter().enumerate() {
        writeln!(text, "pipe {number}: {writer} -> {reader}")?;
    }
    let forest = if plan.is_forest() { "yes" } else { "no" };
    writeln!(text, "forest {forest}")
}

// Writes what a node is.
fn write_node(text: &mut Vec<u8>, node: &Node) -> io::Result<()> {
    match node {
        Node::Source(Some(name)) => write_source(text, name),
        Node::Source(None) => write!(text, "source empty"),
        Node::Stage { number, spec, .. } => write!(text, "stage {number} {}", spec.name()),
        Node::Sink(name) => write_sink(text, name),
    }
}

// Writes what a source opens.
fn write_source(text: &mut Vec<u8>, name: &InName) -> io::Result<()> {
    write!(text, "source ")?;
    match name {
        InName::Standard => write!(text, "standard input"),
        InName::File(name) => write!(text, "{}", Escaped(name.bytes())),
    }
}

// Writes what a sink opens.
fn write_sink(text: &mut Vec<u8>, name: &OutName) -> io::Result<()> {
    write!(text, "sink ")?;
    match name {
        OutName::Standard => write!(text, "standard output"),
        OutName::File { name, append } => {
            let ending = if *append { " append" } else { "" };
            write!(text, "{}{ending}", Escaped(name.bytes()))
        }
    }
}
