use crate::fifos::fifo_of;
use crate::json_string::{JsonBytes, JsonName, JsonString, comma, is_text};
use crate::script_words::words;
use command_words::Word;
use machine::NoMemory;
use pipeline_text::Script;
use planner::{Node, Plan};
use run_types::{InName, OutName};
use std::alloc::Global;
use std::io::{self, Write};

/// The plan of a script for programs: one object of JSON, on one line.
///
/// Its `nodes` are in planned order and its `pipes` by number. `forest` says whether the plan is a forest; if it is, the script cannot
/// stall. Each node has its `number` and its `kind`, and then, by its kind:
///
/// - `source`: `file`, the name that is read; `standard`, whether the standard input is; and `empty`, whether nothing is.
/// - `command`: `command`, its number, from 1 over all pipelines; `utility`, the name of that; and `words`, the utility's name first.
/// - `sink`: `file`, the name that is written; `standard`, whether the standard output is; and `append`, whether what the file holds is
///   kept.
///
/// Each pipe has its `number`, the numbers of the nodes that it leads `from` and `to`, and `fifo`, the name of the FIFO that it is. If
/// there is no such name, it is null.
///
/// Names and words are bytes, and strings are text. A byte that is no part of a character of UTF-8 is U+FFFD in its string. If a name has such
/// a byte, `file_bytes` or `fifo_bytes` follows, with the numbers of all its bytes. If a word of a command has one, `words_bytes` follows,
/// with those of each word. Each character that is not ASCII or does not print is escaped, so the line has printing characters of
/// ASCII alone.
pub fn plan_json(alloc: Global, script: &Script, plan: &Plan) -> Result<Vec<u8>, NoMemory> {
    let mut text = Vec::new(alloc);
    write_object(&mut text, script, plan).map_err(|_| NoMemory)?;
    Ok(text)
}

// Writes the object.
fn write_object(text: &mut Vec<u8>, script: &Script, plan: &Plan) -> io::Result<()> {
    write!(text, "{{\"nodes\":[")?;
    write_nodes(text, script, plan.order())?;
    write!(text, "],\"pipes\":[")?;
    write_pipes(text, script, plan)?;
    writeln!(text, "],\"forest\":{}}}", plan.is_forest())
}

// Writes the objects of the nodes.
fn write_nodes(text: &mut Vec<u8>, script: &Script, nodes: &[Node]) -> io::Result<()> {
    for (number, node) in nodes.iter().enumerate() {
        write!(text, "{}{{\"number\":{number},\"kind\":", comma(number))?;
        write_node(text, script, node)?;
        write!(text, "}}")?;
    }
    Ok(())
}

// Writes the kind of a node, and what a node of that kind has.
fn write_node(text: &mut Vec<u8>, script: &Script, node: &Node) -> io::Result<()> {
    match node {
        Node::Source(name) => write_source(text, name),
        Node::Stage { number, spec, .. } => {
            write_command(text, *number, spec.name(), words(script, *number))
        }
        Node::Sink(name) => write_sink(text, name),
    }
}

// Writes what a source has.
fn write_source(text: &mut Vec<u8>, name: &Option<InName>) -> io::Result<()> {
    write!(text, "\"source\",")?;
    match name {
        None => write!(text, "\"file\":null,\"standard\":false,\"empty\":true"),
        Some(InName::Standard) => {
            write!(text, "\"file\":null,\"standard\":true,\"empty\":false")
        }
        Some(InName::File(name)) => {
            let file = file(name.bytes());
            write!(text, "{file},\"standard\":false,\"empty\":false")
        }
    }
}

// The member with the name of a file.
fn file(name: &[u8]) -> JsonName<'_> {
    JsonName {
        member: "file",
        name,
    }
}

// Writes what a command has.
fn write_command(
    text: &mut Vec<u8>,
    number: usize,
    utility: &str,
    words: &[Word],
) -> io::Result<()> {
    write!(
        text,
        "\"command\",\"command\":{number},\"utility\":\"{utility}\",\"words\":["
    )?;
    for (place, word) in words.iter().enumerate() {
        write!(text, "{}{}", comma(place), JsonString(word.bytes()))?;
    }
    write!(text, "]")?;
    if words.iter().all(|word| is_text(word.bytes())) {
        return Ok(());
    }
    write_words_bytes(text, words)
}

// Writes the bytes of all words.
fn write_words_bytes(text: &mut Vec<u8>, words: &[Word]) -> io::Result<()> {
    write!(text, ",\"words_bytes\":[")?;
    for (place, word) in words.iter().enumerate() {
        write!(text, "{}{}", comma(place), JsonBytes(word.bytes()))?;
    }
    write!(text, "]")
}

// Writes what a sink has.
fn write_sink(text: &mut Vec<u8>, name: &OutName) -> io::Result<()> {
    write!(text, "\"sink\",")?;
    match name {
        OutName::Standard => write!(text, "\"file\":null,\"standard\":true,\"append\":false"),
        OutName::File { name, append } => {
            let file = file(name.bytes());
            write!(text, "{file},\"standard\":false,\"append\":{append}")
        }
    }
}

// Writes the objects of the pipes.
fn write_pipes(text: &mut Vec<u8>, script: &Script, plan: &Plan) -> io::Result<()> {
    for (number, (writer, reader)) in plan.pipes().iter().enumerate() {
        write!(
            text,
            "{}{{\"number\":{number},\"from\":{writer},\"to\":{reader},",
            comma(number)
        )?;
        write_fifo(text, fifo_of(script, plan, number))?;
    }
    Ok(())
}

// Writes the name of a FIFO, if there is one, and ends the object.
fn write_fifo(text: &mut Vec<u8>, name: Option<&[u8]>) -> io::Result<()> {
    match name {
        Some(name) => {
            let fifo = JsonName {
                member: "fifo",
                name,
            };
            write!(text, "{fifo}}}")
        }
        None => write!(text, "\"fifo\":null}}"),
    }
}
