// The numbers, the lists of cut and the delimiters that are refused.
use crate::refused::RefusedWords;
use crate::wrong::{Advice, Wrong};
use command_words::{Word, read_number};

// Why a number is refused that no command can count to.
const TOO_LARGE: &str = "this number is too large: the greatest is 9223372036854775807";

// Why an item with other bytes than those of numbers and ranges is refused.
const NO_NUMBER: &str = "this is not a number or a range: write 2, 2-5, 2- or -5";

// What is wrong with the number that is at fault.
pub(crate) fn wrong_number(refused: &RefusedWords<'_>) -> Wrong {
    let wrong = Wrong::new(number_cause(refused));
    match (refused.utility.name, refused.bytes()) {
        ("head", [b'-', digits @ ..]) if are_digits(digits) => wrong.with(Advice::Named(
            "the system's head leaves out last lines: plrun -c '..' | head -n ",
        )),
        _ => wrong,
    }
}

// Why the number that is at fault is refused.
fn number_cause(refused: &RefusedWords<'_>) -> &'static str {
    let digits = match refused.bytes() {
        [b'+' | b'-', digits @ ..] if refused.utility.name == "tail" => digits,
        text => text,
    };
    match read_number(digits) {
        Some(_) => "0 is not allowed here: the least is 1",
        None if are_digits(digits) => TOO_LARGE,
        None => form(digits),
    }
}

// Whether these are digits, one at least.
pub(crate) fn are_digits(text: &[u8]) -> bool {
    !text.is_empty() && text.iter().all(|byte| byte.is_ascii_digit())
}

// Why a text that has other bytes than digits is no number.
fn form(text: &[u8]) -> &'static str {
    match text {
        [] => "a number is missing here",
        [b'+' | b'-', rest @ ..] if are_digits(rest) => "a sign is not allowed here",
        [digits @ .., b'A'..=b'Z' | b'a'..=b'z'] if are_digits(digits) => {
            "a suffix is not allowed here: write the number in full"
        }
        _ => "this is not a number: write digits only",
    }
}

// What is wrong with the list of a command, or with its delimiter.
pub(crate) fn wrong_list(refused: &RefusedWords<'_>) -> Wrong {
    match (refused.utility.name, refused.argument()) {
        ("cut", Some((b'd', delimiter))) => wrong_delimiter(delimiter.bytes()),
        ("cut", Some((_, list))) => Wrong::new(list_cause(refused, list)),
        _ => Wrong::new("this list of delimiters is empty").with(Advice::Text(
            "to put nothing between the columns, write -d '\\0'",
        )),
    }
}

// Why the part of this list that is at fault is refused: an item, or the separator before an empty one.
fn list_cause(refused: &RefusedWords<'_>, list: &Word) -> &'static str {
    match refused.bytes() {
        [] => "this list is empty",
        [b',' | b' ' | b'\t'] if refused.begins(list) => "a number is missing before this",
        [b',' | b' ' | b'\t'] => "a number is missing after this",
        b"-" => "a range needs a number before or after its -",
        item => item_cause(item),
    }
}

// Why an item is refused.
fn item_cause(item: &[u8]) -> &'static str {
    if item.iter().filter(|byte| **byte == b'-').count() > 1 {
        return NO_NUMBER;
    }
    let mut bounds = item.split(|byte| *byte == b'-');
    bounds
        .find_map(bound_cause)
        .unwrap_or("this range is decreasing: write the lower number first")
}

// Why a bound of a range is refused, if it is.
fn bound_cause(bound: &[u8]) -> Option<&'static str> {
    match read_number(bound) {
        _ if bound.is_empty() => None,
        None if are_digits(bound) => Some(TOO_LARGE),
        None => Some(NO_NUMBER),
        Some(0) => Some("0 is not allowed: numbers start at 1"),
        Some(_) => None,
    }
}

// What is wrong with the delimiter of cut.
fn wrong_delimiter(delimiter: &[u8]) -> Wrong {
    let cause = match delimiter {
        [] => "a delimiter is one byte, but this is empty",
        [b'\\', _] => "a delimiter is one byte, but this is a backslash and another byte",
        text if str::from_utf8(text).is_ok_and(|text| text.chars().count() == 1) =>
            "a delimiter is one byte, but this character has several",
        _ => "a delimiter is one byte, but this is longer",
    };
    if delimiter != b"\\t".as_slice() {
        return Wrong::new(cause);
    }
    Wrong::new(cause).with(Advice::Text(
        "leave -d out, since a tab is the default; or let the shell write the tab: \"$(printf '\\t')\"",
    ))
}
