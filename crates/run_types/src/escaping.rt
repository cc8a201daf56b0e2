use std::fmt;

/// Bytes as messages show them, so that no name forges a line or moves a cursor.
///
/// A printing character of UTF-8 is shown as itself, but a backslash as two. Any other byte is shown as `\xHH`, with two hexadecimal
/// digits in capitals. So the texts of two different names differ.
#[derive(Clone, Copy)]
pub struct Escaped<'a>(pub &'a [u8]);

impl fmt::Display for Escaped<'_> {
    fn fmt<W: fmt::Write>(&self, f: &mut fmt::Formatter<W>) -> fmt::Result {
        for chunk in self.0.utf8_chunks() {
            write_text(chunk.valid(), f)?;
            write_numbers(chunk.invalid(), f)?;
        }
        Ok(())
    }
}

// Writes the characters of a text.
fn write_text<W: fmt::Write>(text: &str, f: &mut fmt::Formatter<W>) -> fmt::Result {
    for character in text.chars() {
        write_character(character, f)?;
    }
    Ok(())
}

// Writes a character, or the numbers of its bytes if it is not to be printed.
fn write_character<W: fmt::Write>(character: char, f: &mut fmt::Formatter<W>) -> fmt::Result {
    if character == '\\' {
        return f.write_str("\\\\");
    }
    if is_printing(character) {
        return f.write_char(character);
    }
    let mut bytes = [0u8; 4];
    write_numbers(character.encode_utf8(&mut bytes).as_bytes(), f)
}

// Writes the number of each byte.
fn write_numbers<W: fmt::Write>(bytes: &[u8], f: &mut fmt::Formatter<W>) -> fmt::Result {
    for byte in bytes {
        write!(f, "\\x{byte:02X}")?;
    }
    Ok(())
}

// Whether a character is no control character, does not separate lines or paragraphs, and does not turn the direction of text.
fn is_printing(character: char) -> bool {
    match character {
        '\u{0}'..='\u{1F}' | '\u{7F}'..='\u{9F}' => false,
        '\u{2028}' | '\u{2029}' => false,
        '\u{61C}' | '\u{200E}' | '\u{200F}' => false,
        '\u{202A}'..='\u{202E}' | '\u{2066}'..='\u{2069}' => false,
        _ => true,
    }
}
