use crate::additions::add_addition;
use command_words::Word;
use commands::FilterSpec;
use machine::NoMemory;
use part_laws::Addition;
use pipeline_text::{Cmd, Script};
use planner::Node;
use run_types::{InName, OutName};
use std::alloc::Global;

/// Some of the commands of a script, and what they read and write.
#[derive(Clone, Copy)]
pub(crate) struct Excerpt<'a> {
    pub(crate) script: &'a Script,
    pub(crate) stages: &'a [Node],
    /// The input of the whole script.
    pub(crate) from: &'a InName,
}

/// The commands of half of a pipeline, by their places.
#[derive(Clone, Copy)]
pub(crate) struct Picked {
    /// The command that comes first, if it is none of those between.
    pub(crate) first: Option<usize>,
    /// What is added next.
    pub(crate) addition: Option<Addition>,
    /// The first place of the commands between.
    pub(crate) from: usize,
    /// The place after the last one of them.
    pub(crate) end: usize,
    /// The one of them that is left out.
    pub(crate) without: Option<usize>,
    /// What is added last.
    pub(crate) last: Option<Addition>,
}

impl<'a> Excerpt<'a> {
    /// The script of these commands, from the standard input to this output. It is a cat if there are none. No contract speaks of it: what it
    /// means is read from it again.
    pub(crate) fn written(
        self,
        alloc: Global,
        picked: Picked,
        to: &OutName,
    ) -> Result<Vec<u8>, NoMemory> {
        let mut text = Vec::new(alloc);
        if let Some(place) = picked.first {
            self.add_commands(&mut text, place, place.saturating_add(1), None)?;
        }
        add_next(&mut text, picked.addition)?;
        self.add_commands(&mut text, picked.from, picked.end, picked.without)?;
        add_next(&mut text, picked.last)?;
        if text.is_empty() {
            text.extend_from_slice(b"cat")?;
        }
        add_output(&mut text, to)?;
        Ok(text)
    }

    // Adds the commands from this place to before another one, without one of them.
    fn add_commands(
        self,
        text: &mut Vec<u8>,
        from: usize,
        end: usize,
        without: Option<usize>,
    ) -> Result<(), NoMemory> {
        for (place, command) in commands_of(self.script).iter().enumerate() {
            if place >= from && place < end && without != Some(place) {
                add_bar(text)?;
                add_words(text, self.words(place, command))?;
            }
        }
        Ok(())
    }

    // The words of the command after this many others, without the names of files that it reads or writes.
    fn words(self, place: usize, command: &'a Cmd) -> &'a [Word] {
        let words = command.words.as_slice();
        let operands = match self.stages.get(place) {
            Some(Node::Stage { spec, .. }) => self.operands(place, command, spec),
            _ => 0,
        };
        words
            .get(..words.len().saturating_sub(operands))
            .unwrap_or(words)
    }

    // How many operands of a command, all of them at its end, name files.
    fn operands(self, place: usize, command: &Cmd, spec: &FilterSpec) -> usize {
        match (spec, self.from) {
            (FilterSpec::Uniq(uniq), _) if uniq.output.is_some() => 2,
            (FilterSpec::Uniq(_), InName::File(_)) if place == 0 && ends_with_standard(command) =>
                2,
            (_, InName::File(_)) if place == 0 && command.source.is_none() => 1,
            _ => 0,
        }
    }
}

// Whether the last word of a command that reads a file by an operand is `-`. Of a uniq that is the standard output.
fn ends_with_standard(command: &Cmd) -> bool {
    match command.words.as_slice().last() {
        Some(word) => command.source.is_none() && word.bytes() == b"-".as_slice(),
        None => false,
    }
}

// The commands of the first pipeline of a script.
fn commands_of(script: &Script) -> &[Cmd] {
    match script.pipelines.as_slice().first() {
        Some(pipeline) => pipeline.commands.as_slice(),
        None => &[],
    }
}

// Adds an addition, if there is one.
fn add_next(text: &mut Vec<u8>, addition: Option<Addition>) -> Result<(), NoMemory> {
    match addition {
        Some(addition) => {
            add_bar(text)?;
            add_addition(text, addition)
        }
        None => Ok(()),
    }
}

// Adds what comes between two commands, if one is there.
fn add_bar(text: &mut Vec<u8>) -> Result<(), NoMemory> {
    if !text.is_empty() {
        text.extend_from_slice(b" | ")?;
    }
    Ok(())
}

// Adds words with a blank between them.
fn add_words(text: &mut Vec<u8>, words: &[Word]) -> Result<(), NoMemory> {
    for (place, word) in words.iter().enumerate() {
        if place > 0 {
            text.push(b' ')?;
        }
        add_word(text, word.bytes())?;
    }
    Ok(())
}

// Adds a redirection to a file, if this is one.
fn add_output(text: &mut Vec<u8>, to: &OutName) -> Result<(), NoMemory> {
    match to {
        OutName::Standard => Ok(()),
        OutName::File { name, append } => {
            text.extend_from_slice(if *append { b" >> " } else { b" > " })?;
            add_word(text, name.bytes())
        }
    }
}

// Adds a word as a shell reads it: as it is if it has plain characters alone, otherwise in single quotes (POSIX.1-2017 XCU 2.2.2).
fn add_word(text: &mut Vec<u8>, word: &[u8]) -> Result<(), NoMemory> {
    if !word.is_empty() && word.iter().all(|byte| is_plain(*byte)) {
        text.extend_from_slice(word)?;
        return Ok(());
    }
    text.push(b'\'')?;
    for (place, part) in word.split(|byte| *byte == b'\'').enumerate() {
        if place > 0 {
            text.extend_from_slice(b"'\\''")?;
        }
        text.extend_from_slice(part)?;
    }
    text.push(b'\'')?;
    Ok(())
}

// Whether a byte means nothing to a shell, wherever it is in a word.
fn is_plain(byte: u8) -> bool {
    match byte {
        b'a'..=b'z' | b'A'..=b'Z' | b'0'..=b'9' => true,
        b'%' | b'+' | b',' | b'-' | b'.' | b'/' | b':' | b'@' | b'_' => true,
        _ => false,
    }
}
