ghost use Rattle.std.specs.Prelude.{◌≡◌, ◌<◌, length, slice_get, IfSome};
ghost use Rattle.pipeline_text.specs.ShellBytes.{ends_word, expands, is_special_in_double};
ghost use Rattle.pipeline_text.specs.inner.Peeks.{plain_ahead, word_mark, blank_is_next, is_fault};
ghost use Rattle.pipeline_text.specs.inner.Scans.{moves, unquoted, backslashed, in_single, in_double, in_comment, is_open};

use crate::fault::TextFault;
use crate::mark::{Mark, goes_on, is_blank};

// The place of a byte.
#[derive(Clone, Copy, PartialEq, Eq)]
pub(crate) enum Place {
    // A token may begin here.
    Between,
    // A word goes on here.
    Within,
    // In single quotes.
    Single,
    // In double quotes.
    Double,
    Comment,
}

// What the byte in front does.
#[derive(Clone, Copy)]
pub(crate) enum Move {
    // It is a mark.
    Gives(Mark, Place),
    // It and the next one are a mark.
    Escapes(Mark, Place),
    // It leaves nothing.
    Skips(Place),
    // It and the next one leave nothing.
    Joins(Place),
    // It asks for an expansion.
    Expands,
    // It is a backslash with nothing after it.
    Breaks,
}

// What comes next in a text.
#[derive(Clone, Copy)]
pub(crate) enum Ahead {
    Mark(Mark),
    End,
    Fault(TextFault),
}

// The byte at a position, if there is one.
pub(crate) fn byte_at(text: &[u8], position: usize) -> Option<u8>
    ensures byte { result ≡ slice_get text.now position }
    ensures within { IfSome result (λ _. position < length text.now) }
{
    text.get(position).copied()
}

// Whether an unquoted byte ends a word.
pub(crate) fn ends_word(byte: u8) -> bool
    ensures { result ≡ ends_word byte }
{
    matches!(
        byte,
        b' ' | b'\t' | b'\n' | b'&' | b'(' | b')' | b';' | b'<' | b'>' | b'|'
    )
}

// Whether a byte begins an expansion, in double quotes too.
fn expands(byte: u8) -> bool
    ensures { result ≡ expands byte }
{
    byte == b'$' || byte == b'`'
}

// Whether a backslash quotes a byte in double quotes.
fn is_special_in_double(byte: u8) -> bool
    ensures { result ≡ is_special_in_double byte }
{
    expands(byte) || byte == b'"' || byte == b'\\'
}

// What an unquoted backslash does.
fn backslashed(place: Place, next: Option<u8>) -> Move
    ensures { result ≡ backslashed place next }
{
    match next {
        None => Move::Breaks,
        Some(0) => Move::Skips(place),
        Some(b'\n') => Move::Joins(place),
        Some(byte) => Move::Escapes(Mark::Quoted(byte), Place::Within),
    }
}

// What a byte does that is in no quotes and no comment.
fn unquoted(place: Place, byte: u8, next: Option<u8>) -> Move
    ensures { result ≡ unquoted place byte next }
{
    let begins = place == Place::Between;
    if byte == b'\\' {
        backslashed(place, next)
    } else if byte == b'\'' {
        Move::Gives(Mark::Quote, Place::Single)
    } else if byte == b'"' {
        Move::Gives(Mark::Quote, Place::Double)
    } else if expands(byte) || begins && byte == b'~' {
        Move::Expands
    } else if begins && byte == b'#' {
        Move::Skips(Place::Comment)
    } else if ends_word(byte) {
        Move::Gives(Mark::Plain(byte), Place::Between)
    } else {
        Move::Gives(Mark::Plain(byte), Place::Within)
    }
}

// What a byte does in single quotes.
fn in_single(byte: u8) -> Move
    ensures { result ≡ in_single byte }
{
    match byte {
        b'\'' => Move::Gives(Mark::Quote, Place::Within),
        _ => Move::Gives(Mark::Quoted(byte), Place::Single),
    }
}

// What a byte does in a comment.
fn in_comment(byte: u8) -> Move
    ensures { result ≡ in_comment byte }
{
    match byte {
        b'\n' => Move::Gives(Mark::Plain(byte), Place::Between),
        _ => Move::Skips(Place::Comment),
    }
}

// What a byte does in double quotes.
fn in_double(byte: u8, next: Option<u8>) -> Move
    ensures { result ≡ in_double byte next }
{
    if byte == b'"' {
        Move::Gives(Mark::Quote, Place::Within)
    } else if expands(byte) {
        Move::Expands
    } else if byte == b'\\' {
        match next {
            None => Move::Breaks,
            Some(b'\n') => Move::Joins(Place::Double),
            Some(other) if is_special_in_double(other) => {
                Move::Escapes(Mark::Quoted(other), Place::Double)
            }
            Some(_) => Move::Gives(Mark::Quoted(byte), Place::Double),
        }
    } else {
        Move::Gives(Mark::Quoted(byte), Place::Double)
    }
}

// What a byte does that is not NUL, in its place and before the next byte.
pub(crate) fn moves(place: Place, byte: u8, next: Option<u8>) -> Move
    ensures { result ≡ moves place byte next }
{
    match place {
        Place::Between => unquoted(place, byte, next),
        Place::Within => unquoted(place, byte, next),
        Place::Single => in_single(byte),
        Place::Double => in_double(byte, next),
        Place::Comment => in_comment(byte),
    }
}

// Whether a place is in quotes.
pub(crate) fn is_open(place: Place) -> bool
    ensures { result ≡ is_open place }
{
    matches!(place, Place::Single | Place::Double)
}

// Whether quotes end in what follows.
pub(crate) fn closes(place: Place, rest: &[u8]) -> bool {
    let mut quoted = false;
    for &byte in rest {
        if quoted {
            quoted = false;
        } else if place == Place::Double && byte == b'\\' {
            quoted = true;
        } else if place == Place::Double && byte == b'"'
            || place == Place::Single && byte == b'\''
        {
            return true;
        }
    }
    false
}

// The next byte, if it is unquoted.
pub(crate) fn plain_ahead(ahead: Ahead) -> Option<u8>
    ensures { result ≡ plain_ahead ahead }
{
    match ahead {
        Ahead::Mark(Mark::Plain(byte)) => Some(byte),
        _ => None,
    }
}

// The next mark, if a word goes on with it.
pub(crate) fn word_mark(ahead: Ahead) -> Option<Mark>
    ensures { result ≡ word_mark ahead }
{
    match ahead {
        Ahead::Mark(mark) if goes_on(mark) => Some(mark),
        _ => None,
    }
}

// Whether an unquoted blank comes next.
pub(crate) fn blank_is_next(ahead: Ahead) -> bool
    ensures { result ≡ blank_is_next ahead }
{
    match ahead {
        Ahead::Mark(mark) => is_blank(mark),
        _ => false,
    }
}

// Whether the text is refused at what comes next.
pub(crate) fn is_fault(ahead: Ahead) -> bool
    ensures { result ≡ is_fault ahead }
{
    matches!(ahead, Ahead::Fault(_))
}
