// Commands of the shell at the beginning of a script.
use crate::hint::Hint;
use crate::source::part;
use crate::utilities::is_of_shell;
use command_words::Span;
use run_types::Escaped;
use std::io;

// What to do instead of calling the command of the shell of this name.
pub(crate) fn instead_of_shell(name: &[u8]) -> &'static str {
    match name {
        b"set" => "leave it out, since a fault ends plrun in any case",
        b"wait" => "leave it out, since plrun ends when all its commands have ended",
        b"exec" => "leave it out",
        _ => "run it in the shell, before plrun",
    }
}

// The first word of a script that is no comment, if it is in front of this offset.
fn first_word(text: &[u8], offset: usize) -> Option<Span> {
    let mut start: usize = 0;
    for line in part(text, 0, offset).split(|byte| *byte == b'\n') {
        if let Some(word) = word_of_line(line) {
            return Some(Span {
                start: start.saturating_add(word.start),
                end: start.saturating_add(word.end),
            });
        }
        start = start.saturating_add(line.len()).saturating_add(1);
    }
    None
}

// The first word of a line, if it has one that is no comment.
fn word_of_line(line: &[u8]) -> Option<Span> {
    let start = line.iter().position(|byte| !matches!(byte, b' ' | b'\t'))?;
    if line.get(start) == Some(&b'#') {
        return None;
    }
    let rest = part(line, start, line.len());
    let ends = |byte: &u8| matches!(byte, b' ' | b'\t' | b';' | b'&' | b'|' | b'<' | b'>');
    let length = rest.iter().position(ends).unwrap_or(rest.len());
    let end = start.saturating_add(length);
    Some(Span { start, end })
}

// Adds that a text begins with a command of the shell, if it does so in front of this offset. Whether it does.
pub(crate) fn add_first_of_shell(offset: usize, hint: &mut Hint<'_>) -> io::Result<bool> {
    let Some(place) = first_word(hint.source.text, offset) else {
        return Ok(false);
    };
    let name = hint.source.bytes(place);
    if !is_of_shell(name) {
        return Ok(false);
    }
    let line = format!(in hint.alloc; "{} is a shell command, and no utility here", Escaped(name))?;
    hint.point(
        Some(place),
        "this is a shell command, and no utility here",
        line.as_str(),
    )?;
    hint.repair(instead_of_shell(name))?;
    Ok(true)
}
