// Names of files that look as if another thing were meant.

// What to do about the name of a file that is not there, if its bytes tell that.
pub(crate) fn meant_by(name: &[u8]) -> Option<&'static str> {
    if begins_with_dash(name) {
        return Some("this begins with a typographic dash: write -");
    }
    if has_quotes(name) {
        return Some("typographic quotes quote nothing: write ' or \"");
    }
    if has_braces(name) {
        return Some("no braces are expanded: write each name");
    }
    if name.iter().any(|byte| matches!(byte, b'*' | b'?' | b'[')) {
        return Some("no name is expanded: let the shell write the names into the script");
    }
    match name {
        [] => Some("the name is empty, as an unset variable of the calling shell gives it"),
        [.., b'\r'] => Some("a carriage return is part of it: remove them with tr -d '\\r'"),
        _ => None,
    }
}

// Whether a text begins with a dash that is none of ASCII, or with the sign of minus.
pub(crate) fn begins_with_dash(text: &[u8]) -> bool {
    matches!(text, [0xE2, 0x80, 0x90..=0x95, ..] | [0xE2, 0x88, 0x92, ..])
}

// Whether a text has typographic quotes.
pub(crate) fn has_quotes(text: &[u8]) -> bool {
    let mut threes = text.windows(3);
    threes.any(|three| matches!(three, [0xE2, 0x80, 0x98..=0x9F]))
}

// Whether a name has braces that bash expands: those of a list or of a range.
fn has_braces(name: &[u8]) -> bool {
    let Some(open) = name.iter().position(|byte| *byte == b'{') else {
        return false;
    };
    let (_, after) = name.split_at_checked(open).unwrap_or((name, b""));
    let close = after.iter().position(|byte| *byte == b'}').unwrap_or(0);
    let (inner, _) = after.split_at_checked(close).unwrap_or((b"", after));
    inner.contains(&b',') | inner.windows(2).any(|pair| pair == b"..".as_slice())
}
