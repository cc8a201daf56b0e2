use std::{fmt, str};

// The unit of U+FFFD, which is written for a byte that is no part of a character.
const REPLACEMENT: u16 = 0xfffd;

// Bytes as a string of JSON, with its quotes. Printing characters of ASCII are themselves, but `"` and `\` after a backslash. Any other
// character is `\uXXXX`, or two of them, as UTF-16 has it. A byte that is no part of a character is U+FFFD: a lone surrogate is no text.
#[derive(Clone, Copy)]
pub(crate) struct JsonString<'a>(pub(crate) &'a [u8]);

impl fmt::Display for JsonString<'_> {
    fn fmt<W: fmt::Write>(&self, f: &mut fmt::Formatter<W>) -> fmt::Result {
        f.write_str("\"")?;
        for chunk in self.0.utf8_chunks() {
            write_text(chunk.valid(), f)?;
            write_replaced(chunk.invalid(), f)?;
        }
        f.write_str("\"")
    }
}

// Writes the characters of a text.
fn write_text<W: fmt::Write>(text: &str, f: &mut fmt::Formatter<W>) -> fmt::Result {
    for unit in text.encode_utf16() {
        write_unit(unit, f)?;
    }
    Ok(())
}

// Writes what replaces bytes that are no part of a character.
fn write_replaced<W: fmt::Write>(bytes: &[u8], f: &mut fmt::Formatter<W>) -> fmt::Result {
    for _ in bytes {
        write_unit(REPLACEMENT, f)?;
    }
    Ok(())
}

// Writes a unit of UTF-16.
fn write_unit<W: fmt::Write>(unit: u16, f: &mut fmt::Formatter<W>) -> fmt::Result {
    match u8::try_from(unit) {
        Ok(b'"') => f.write_str("\\\""),
        Ok(b'\\') => f.write_str("\\\\"),
        Ok(byte) if (32..=126).contains(&byte) => f.write_char(char::from(byte)),
        _ => write!(f, "\\u{unit:04x}"),
    }
}

// Bytes as an array of JSON, of their numbers.
#[derive(Clone, Copy)]
pub(crate) struct JsonBytes<'a>(pub(crate) &'a [u8]);

impl fmt::Display for JsonBytes<'_> {
    fn fmt<W: fmt::Write>(&self, f: &mut fmt::Formatter<W>) -> fmt::Result {
        f.write_str("[")?;
        for (place, byte) in self.0.iter().enumerate() {
            write!(f, "{}{byte}", comma(place))?;
        }
        f.write_str("]")
    }
}

// A member of an object with a name of a file: its string. If the name is not UTF-8, a second member has its bytes.
#[derive(Clone, Copy)]
pub(crate) struct JsonName<'a> {
    pub(crate) member: &'static str,
    pub(crate) name: &'a [u8],
}

impl fmt::Display for JsonName<'_> {
    fn fmt<W: fmt::Write>(&self, f: &mut fmt::Formatter<W>) -> fmt::Result {
        let JsonName { member, name } = *self;
        write!(f, "\"{member}\":{}", JsonString(name))?;
        if is_text(name) {
            return Ok(());
        }
        write!(f, ",\"{member}_bytes\":{}", JsonBytes(name))
    }
}

// What comes before the thing at this place.
pub(crate) fn comma(place: usize) -> &'static str {
    if place > 0 { "," } else { "" }
}

// Whether bytes are UTF-8, so that their string says all of them.
pub(crate) fn is_text(bytes: &[u8]) -> bool {
    str::from_utf8(bytes).is_ok()
}
