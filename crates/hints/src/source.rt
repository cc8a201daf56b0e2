// Places in a script, with the lines that they are in.
use command_words::Span;
use run_types::Escaped;
use std::io::{self, Write};

/// A script as a hint shows it.
#[derive(Clone, Copy)]
pub struct Source<'a> {
    /// The name that its places begin with.
    pub name: &'a [u8],
    /// Its text, empty if that was not read.
    pub text: &'a [u8],
}

// A line of a text: its number, from 1, and where it begins and ends, without its newline.
#[derive(Clone, Copy, Debug, PartialEq, Eq)]
struct Line {
    number: usize,
    start: usize,
    end: usize,
}

// The bytes of a text from `start` to before `end`, as far as it has them.
pub(crate) fn part(text: &[u8], start: usize, end: usize) -> &[u8] {
    let end = end.min(text.len());
    let start = start.min(end);
    &text[start..end]
}

// The line that has the byte with this offset.
fn line_at(text: &[u8], offset: usize) -> Line {
    let mut number: usize = 1;
    let mut start: usize = 0;
    for (at, byte) in text.iter().enumerate() {
        if *byte == b'\n' {
            if at >= offset {
                let end = at;
                return Line { number, start, end };
            }
            number = number.saturating_add(1);
            start = at.saturating_add(1);
        }
    }
    let end = text.len();
    Line { number, start, end }
}

// Writes bytes with one column for each character: a tab is a blank, and what is not printed a question mark.
pub(crate) fn write_columns<W: Write>(bytes: &[u8], to: &mut W) -> io::Result<()> {
    for chunk in bytes.utf8_chunks() {
        for character in chunk.valid().chars() {
            write!(to, "{}", shown(character))?;
        }
        write_times('?', chunk.invalid().len(), to)?;
    }
    Ok(())
}

// The character in a column.
fn shown(character: char) -> char {
    match character {
        '\t' => ' ',
        '\u{0}'..='\u{1F}' | '\u{7F}'..='\u{9F}' => '?',
        '\u{2028}' | '\u{2029}' | '\u{61C}' | '\u{200E}' | '\u{200F}' => '?',
        '\u{202A}'..='\u{202E}' | '\u{2066}'..='\u{2069}' => '?',
        _ => character,
    }
}

// Writes a character this many times.
fn write_times<W: Write>(character: char, times: usize, to: &mut W) -> io::Result<()> {
    for _ in 0..times {
        write!(to, "{character}")?;
    }
    Ok(())
}

// How many bytes of a line are shown if the line has more.
const SHOWN: usize = 120;

// How many bytes are shown in front of a mark if the line is cut there.
const IN_FRONT: usize = 30;

impl Line {
    // Whether the line is shown as a whole.
    fn is_short(self) -> bool {
        self.end.saturating_sub(self.start) <= SHOWN
    }
}

impl<'a> Source<'a> {
    // The number of the line that has the byte with this offset, and that of its column there, both from 1.
    pub(crate) fn position(self, offset: usize) -> (usize, usize) {
        let line = line_at(self.text, offset);
        let column = self.width(line.start, offset).saturating_add(1);
        (line.number, column)
    }

    // Whether two parts begin in one line that is shown as a whole.
    pub(crate) fn shares_line(self, first: Span, second: Span) -> bool {
        let line = line_at(self.text, first.start);
        if line == line_at(self.text, second.start) {
            line.is_short()
        } else {
            false
        }
    }

    // Writes the place of the first of these parts of a line, the line, and marks under the parts with a note. A long line is cut.
    pub(crate) fn draw<W: Write>(self, parts: &[Span], note: &str, to: &mut W) -> io::Result<()> {
        let Some(first) = parts.first() else {
            return Ok(());
        };
        let (number, column) = self.position(first.start);
        writeln!(to, "  --> {}:{number}:{column}", Escaped(self.name))?;
        let line = line_at(self.text, first.start);
        let shown = self.shown_of(line, first.start);
        let cut = if shown.start > line.start { ".." } else { "" };
        write!(to, "  {number} | {cut}")?;
        write_columns(part(self.text, shown.start, shown.end), to)?;
        writeln!(to, "{}", if shown.end < line.end { ".." } else { "" })?;
        let more = number.checked_ilog10().unwrap_or(0);
        write_times(' ', more as usize, to)?;
        write!(to, "    | ")?;
        write_times(' ', cut.len(), to)?;
        self.write_marks(parts, shown, to)?;
        let before_note = if note.is_empty() { "" } else { " " };
        writeln!(to, "{before_note}{note}")
    }

    // Writes the marks of these parts under what is shown of their line.
    fn write_marks<W: Write>(self, parts: &[Span], shown: Span, to: &mut W) -> io::Result<()> {
        let mut from = shown.start;
        for part in parts {
            let end = part.end.min(shown.end);
            write_times(' ', self.width(from, part.start), to)?;
            write_times('^', self.width(part.start, end).max(1), to)?;
            from = part.end;
        }
        Ok(())
    }

    // The part of a line that is shown if the byte with this offset is marked.
    fn shown_of(self, line: Line, marked: usize) -> Span {
        let Line { start, end, .. } = line;
        if line.is_short() {
            return Span { start, end };
        }
        let start = start.max(marked.saturating_sub(IN_FRONT));
        let start = self.character_from(start).min(end);
        let end = end.min(self.character_from(start.saturating_add(SHOWN)));
        Span { start, end }
    }

    // The offset of the first character of UTF-8 that begins at this offset or after it.
    fn character_from(self, offset: usize) -> usize {
        let rest = part(self.text, offset, self.text.len());
        let begins = rest.iter().position(|byte| !matches!(byte, 0x80..=0xBF));
        offset.saturating_add(begins.unwrap_or(0))
    }

    // The bytes of a part of the text.
    pub(crate) fn bytes(self, place: Span) -> &'a [u8] {
        part(self.text, place.start, place.end)
    }

    // How many characters a part of the text has as they are shown: a byte that is none in UTF-8 counts as one.
    fn width(&self, start: usize, end: usize) -> usize {
        let mut width: usize = 0;
        for chunk in part(self.text, start, end).utf8_chunks() {
            width = width
                .saturating_add(chunk.valid().chars().count())
                .saturating_add(chunk.invalid().len());
        }
        width
    }
}
