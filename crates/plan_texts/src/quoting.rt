use command_words::Word;
use run_types::Escaped;
use std::{fmt, str};

// A word as a shell reads it: as it is if it has plain characters alone, otherwise in single quotes.
//
// If a byte of it is not to be printed, it is in the quotes `$'..'` of newer shells, and each such byte is `\xHH` there, as `Escaped`
// has it. So no word can end a line, and no two words have the same text.
#[derive(Clone, Copy)]
pub(crate) struct Quoted<'a>(pub(crate) &'a [u8]);

impl fmt::Display for Quoted<'_> {
    fn fmt<W: fmt::Write>(&self, f: &mut fmt::Formatter<W>) -> fmt::Result {
        if is_plain(self.0) {
            write!(f, "{}", Escaped(self.0))
        } else if is_printing(self.0) {
            write_in_quotes(self.0, f)
        } else {
            write_in_numbers(self.0, f)
        }
    }
}

// Words with a blank between them, each as a shell reads it.
#[derive(Clone, Copy)]
pub(crate) struct Words<'a>(pub(crate) &'a [Word]);

impl fmt::Display for Words<'_> {
    fn fmt<W: fmt::Write>(&self, f: &mut fmt::Formatter<W>) -> fmt::Result {
        for (place, word) in self.0.iter().enumerate() {
            let blank = if place > 0 { " " } else { "" };
            write!(f, "{blank}{}", Quoted(word.bytes()))?;
        }
        Ok(())
    }
}

// Whether a word needs no quotes.
fn is_plain(word: &[u8]) -> bool {
    !word.is_empty() && word.iter().all(|byte| is_plain_byte(*byte))
}

// Whether a byte means nothing to a shell, wherever it is in a word.
fn is_plain_byte(byte: u8) -> bool {
    match byte {
        b'a'..=b'z' | b'A'..=b'Z' | b'0'..=b'9' => true,
        b'%' | b'+' | b',' | b'-' | b'.' | b'/' | b':' | b'=' | b'@' | b'_' => true,
        _ => false,
    }
}

// Whether each character of a word is printed as it is. `Escaped` writes more bytes than that for another one, and one more for each
// backslash.
fn is_printing(word: &[u8]) -> bool {
    let backslashes = word.iter().filter(|byte| **byte == b'\\').count();
    let mut length = Length(0);
    match fmt::Write::write(&mut length, Escaped(word)) {
        Ok(()) => length.0 == word.len().saturating_add(backslashes),
        Err(_) => false,
    }
}

// How many bytes were written.
#[derive(Clone, Copy)]
struct Length(usize);

impl fmt::Write for Length {
    fn write_str(&mut self, text: &str) -> fmt::Result {
        self.0 = self.0.saturating_add(text.len());
        Ok(())
    }
}

// Writes a word of printing characters in single quotes, and a single quote after a backslash between them.
fn write_in_quotes<W: fmt::Write>(word: &[u8], f: &mut fmt::Formatter<W>) -> fmt::Result {
    f.write_str("'")?;
    for (place, part) in word.split(|byte| *byte == b'\'').enumerate() {
        let quote = if place > 0 { "'\\''" } else { "" };
        write!(f, "{quote}{}", str::from_utf8(part).unwrap_or(""))?;
    }
    f.write_str("'")
}

// Writes any word in the quotes in which a backslash begins the number of a byte.
fn write_in_numbers<W: fmt::Write>(word: &[u8], f: &mut fmt::Formatter<W>) -> fmt::Result {
    f.write_str("$'")?;
    for (place, part) in word.split(|byte| *byte == b'\'').enumerate() {
        let quote = if place > 0 { "\\'" } else { "" };
        write!(f, "{quote}{}", Escaped(part))?;
    }
    f.write_str("'")
}
