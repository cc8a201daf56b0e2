use crate::fifos::fifo_of;
use crate::opened::{Input, Output};
use crate::quoting::Quoted;
use crate::script_words::shown_words;
use machine::NoMemory;
use pipeline_text::Script;
use planner::{Node, Plan};
use std::alloc::Global;
use std::io::{self, Write};

/// The plan of a script as a digraph in the language of Graphviz, from left to right: a node for each node of the plan, named `n` and
/// its number, with that number and the words of its command, as a shell reads them, or what it opens; and an edge for each pipe, with
/// its number and the name of its FIFO, if it is one.
pub fn plan_dot(alloc: Global, script: &Script, plan: &Plan) -> Result<Vec<u8>, NoMemory> {
    let mut text = Vec::new(alloc);
    write_digraph(alloc, &mut text, script, plan).map_err(|_| NoMemory)?;
    Ok(text)
}

// Writes the lines of the digraph.
fn write_digraph(
    alloc: Global,
    text: &mut Vec<u8>,
    script: &Script,
    plan: &Plan,
) -> io::Result<()> {
    writeln!(text, "digraph plan {{")?;
    writeln!(text, "    rankdir=LR;")?;
    write_nodes(alloc, text, script, plan.order())?;
    write_edges(alloc, text, script, plan)?;
    writeln!(text, "}}")
}

// Writes a line for each node.
fn write_nodes(
    alloc: Global,
    text: &mut Vec<u8>,
    script: &Script,
    nodes: &[Node],
) -> io::Result<()> {
    for (number, node) in nodes.iter().enumerate() {
        let label = node_label(alloc, script, number, node)?;
        write!(text, "    n{number} [shape={}, ", shape(node))?;
        write_label(text, label.as_slice())?;
    }
    Ok(())
}

// Writes a line for each pipe.
fn write_edges(alloc: Global, text: &mut Vec<u8>, script: &Script, plan: &Plan) -> io::Result<()> {
    for (number, (writer, reader)) in plan.pipes().iter().enumerate() {
        let label = pipe_label(alloc, number, fifo_of(script, plan, number))?;
        write!(text, "    n{writer} -> n{reader} [")?;
        write_label(text, label.as_slice())?;
    }
    Ok(())
}

// The shape of a node: a box for a command.
fn shape(node: &Node) -> &'static str {
    match node {
        Node::Stage { .. } => "box",
        Node::Source(_) | Node::Sink(_) => "ellipse",
    }
}

// What a node is labelled with.
fn node_label(alloc: Global, script: &Script, number: usize, node: &Node) -> io::Result<Vec<u8>> {
    let mut label = Vec::new(alloc);
    write!(label, "{number}: ")?;
    match node {
        Node::Source(name) => write!(label, "{}", Input(name))?,
        Node::Stage { number, .. } => write!(label, "{}", shown_words(script, *number))?,
        Node::Sink(name) => write!(label, "{}", Output(name))?,
    }
    Ok(label)
}

// What a pipe is labelled with.
fn pipe_label(alloc: Global, number: usize, fifo: Option<&[u8]>) -> io::Result<Vec<u8>> {
    let mut label = Vec::new(alloc);
    write!(label, "pipe {number}")?;
    if let Some(name) = fifo {
        write!(label, ": {}", Quoted(name))?;
    }
    Ok(label)
}

// Writes a label, and ends the line. A quote would end it, and a backslash or an `&` begin an escape of Graphviz.
fn write_label(text: &mut Vec<u8>, label: &[u8]) -> io::Result<()> {
    write!(text, "label=\"")?;
    for byte in label {
        match *byte {
            b'"' => write!(text, "\\\"")?,
            b'\\' => write!(text, "\\\\")?,
            b'&' => write!(text, "&amp;")?,
            other => text.write_all(&[other])?,
        }
    }
    writeln!(text, "\"];")
}
