// The strings of tr that are refused.
use crate::refused::RefusedWords;
use crate::wrong::{Advice, Wrong};
use command_words::Word;
use commands::FilterSpec;
use std::alloc::{AllocError, Global};

// What an element of a string is.
#[derive(Clone, Copy, Debug, PartialEq, Eq)]
enum Kind {
    Class,
    Equivalence,
    Repeat,
    // A byte or a range.
    Bytes,
}

// What an element is.
fn kind_of(element: &[u8]) -> Kind {
    match element {
        [b'[', b':', .., b':', b']'] => Kind::Class,
        [b'[', b'=', .., b'=', b']'] => Kind::Equivalence,
        [b'[', inner @ .., b']'] if inner.contains(&b'*') => Kind::Repeat,
        _ => Kind::Bytes,
    }
}

// What is wrong with the strings of tr.
pub(crate) fn wrong_string(refused: &RefusedWords<'_>) -> Result<Wrong, AllocError> {
    let element = refused.bytes();
    let kind = kind_of(element);
    if is_malformed(refused.alloc, element)? {
        return Ok(malformed(kind));
    }
    let is_second = refused.operand() == Some(1) && !refused.has(b'd');
    let cause = match kind {
        _ if element.is_empty() => {
            let advice = Advice::Text("to delete bytes write tr -d and one string");
            return Ok(Wrong::new("the second string is empty").with(advice));
        }
        Kind::Class if is_second => return Ok(unmatched(refused)),
        Kind::Equivalence if is_second => "only the first string may have an equivalence class",
        Kind::Repeat if is_second && is_open(element) => "only one repeat may have no number",
        Kind::Repeat if is_second => "this repeats too often: a string means at most 65536 bytes",
        Kind::Repeat if refused.operand() == Some(0) => "only the second string may have a repeat",
        _ => "with this, the string means more than 65536 bytes",
    };
    Ok(Wrong::new(cause))
}

// Whether an element is refused in each string.
fn is_malformed(alloc: Global, element: &[u8]) -> Result<bool, AllocError> {
    let mut words = Vec::new(alloc);
    for word in [b"tr".as_slice(), b"-ds", b"a", element] {
        words.push(Word::from_vec(Vec::from_slice(alloc, word)?))?;
    }
    Ok(FilterSpec::read(alloc, words.as_slice()).is_err())
}

// What is wrong with an element of this kind that is refused in each string.
fn malformed(kind: Kind) -> Wrong {
    match kind {
        Kind::Class => Wrong::new("there is no class of this name").with(Advice::Text(
            "the classes are alnum, alpha, blank, cntrl, digit, graph, lower, print, punct, space, upper and xdigit",
        )),
        Kind::Repeat => Wrong::new("a number that begins with 0 is octal: 8 and 9 are not allowed"),
        _ => Wrong::new("this range is reversed: its first byte comes after its last one"),
    }
}

// Whether a repeat has no number, or 0.
fn is_open(repeat: &[u8]) -> bool {
    let digits = repeat.rsplit(|byte| *byte == b'*').next().unwrap_or(b"");
    digits.iter().all(|digit| matches!(digit, b'0' | b']'))
}

// What is wrong with a class of the second string that has no other one in the first.
fn unmatched(refused: &RefusedWords<'_>) -> Wrong {
    let cause = match refused.bytes() {
        _ if refused.has(b'c') || refused.has(b'C') =>
            "with -c or -C, no class is allowed in the second string",
        b"[:lower:]" => return unpaired("the first string has no [:upper:] at this place"),
        b"[:upper:]" => return unpaired("the first string has no [:lower:] at this place"),
        _ => "in the second string only the classes [:lower:] and [:upper:] are allowed",
    };
    Wrong::new(cause)
}

// That a class is alone, and why.
fn unpaired(cause: &'static str) -> Wrong {
    Wrong::new(cause).with(Advice::Text(
        "write two classes, such as '[:lower:]' '[:upper:]', or two ranges, such as a-z A-Z",
    ))
}
