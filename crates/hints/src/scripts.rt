// Hints for texts that are no script.
use crate::expansions::add_expansion;
use crate::hint::Hint;
use crate::names::{begins_with_dash, has_quotes};
use crate::shell::add_first_of_shell;
use crate::source::part;
use command_words::Span;
use pipeline_text::{TextFault, TextFaultKind};
use std::io;

// The operators that are refused. Of two that begin alike, the longer one comes first.
const OPERATORS: [&[u8]; 17] = [
    b"&&", b"||", b";", b"<<<", b"<<", b"<(", b">(", b"<&", b">&", b"<>", b"(", b")", b"2>&1",
    b"2>", b"{", b"for", b"while",
];

// What to do about a redirection of the standard error.
const NO_ERRORS: &str =
    "leave it out: no command here writes to the standard error, but plrun does: redirect that in the shell";

// What to do about an operator that is refused.
fn instead_of(operator: &[u8]) -> &'static str {
    match operator {
        b"&&" => "a script has one foreground pipeline: run the part after && with a second plrun",
        b"||" => "a script has one foreground pipeline: run the part after || with a second plrun",
        b";" => "a script has one foreground pipeline: end the others with &, or run plrun twice",
        b"<<<" => "there are no here-strings: write printf '%s\\n' TEXT | plrun -c '..'",
        b"<<" => "there are no here-documents: write the text to a file, or pipe it to plrun",
        b"<(" => "there is no <(..): make a FIFO with mkfifo, and write it with tee",
        b">(" => "there is no >(..): make a FIFO with mkfifo, and read it",
        b"<&" => "no descriptor is copied: leave it out",
        b">&" => "no descriptor is copied: redirect the standard output of plrun in the shell",
        b"<>" => "write < or >",
        b"(" | b")" => "there are no subshells: leave the parentheses out",
        b"2>&1" | b"2>" => NO_ERRORS,
        b"{" => "commands are not grouped: leave the braces out",
        b"for" | b"while" => "there are no loops: let the shell run plrun in its loop",
        _ => "plrun does not have this: let sh run the command that needs it",
    }
}

// What a text as a whole is, if that is why it is no script.
pub(crate) fn about_text(text: &[u8]) -> Option<&'static str> {
    if text.starts_with(b"\x7FELF") {
        return Some("this is a binary file, not a script");
    }
    if text.starts_with(b"\xEF\xBB\xBF") {
        return Some("the script begins with a byte order mark: remove it with tail -c +4");
    }
    if text.windows(2).any(|pair| pair == b"\r\n".as_slice()) {
        return Some("the lines end with carriage returns: remove them with tr -d '\\r'");
    }
    if has_quotes(text) {
        return Some("the script has typographic quotes, which quote nothing: write ' or \"");
    }
    let mut fours = text.windows(4);
    if fours.any(|four| matches!(four, [b' ', dash @ ..] if begins_with_dash(dash))) {
        return Some("a word begins with a typographic dash, which begins no option: write -");
    }
    None
}

// What is wrong at the byte with this offset, by the kind of the fault.
fn note(kind: TextFaultKind, at: &[u8]) -> &'static str {
    match kind {
        TextFaultKind::UnclosedQuote => "this has no end",
        TextFaultKind::UnsupportedOperator => operator(at),
        TextFaultKind::RedirectWithoutWord => name_missing(at),
        TextFaultKind::EmptyCommand => "there is no command here",
        TextFaultKind::Assignment => assignment(at),
        TextFaultKind::NoForeground =>
            "end the script with a pipeline that is not in the background",
        TextFaultKind::OneAfterAnother =>
            "a script has one foreground pipeline, and it is the last one",
        TextFaultKind::NulByte => "this is a NUL byte",
        TextFaultKind::TooLong => "a script has at most 65536 bytes",
        TextFaultKind::RedirectedTwice => "a command has one < and one >",
        _ => "",
    }
}

// What is wrong with an assignment that begins so.
fn assignment(at: &[u8]) -> &'static str {
    let word = part(at, 0, word_length(at));
    let equals = word.iter().position(|byte| *byte == b'=').unwrap_or(0);
    let value = part(word, equals.saturating_add(1), word.len());
    match part(word, 0, equals) {
        b"LC_ALL" | b"LC_CTYPE" | b"LC_COLLATE" | b"LANG" if matches!(value, b"C" | b"POSIX") => {
            "leave it out: plrun is always in the C locale"
        }
        _ => "there are no variables: set them in the shell that calls plrun",
    }
}

// The length of the word in front of a text, if it has no quotes.
fn word_length(text: &[u8]) -> usize {
    let ends = |byte: &u8| {
        matches!(
            byte,
            b' ' | b'\t' | b'\n' | b'|' | b'&' | b';' | b'<' | b'>'
        )
    };
    text.iter().position(ends).unwrap_or(text.len())
}

// What is wrong with a redirection that begins so and has no name.
fn name_missing(at: &[u8]) -> &'static str {
    match at {
        [b'>', b'(', ..] => {
            return "process substitution is bash's: mkfifo f; tee f .. & wc -l < f";
        }
        [b'<', b'(', ..] => {
            return "process substitution is bash's: mkfifo f; cut .. > f & paste f ..";
        }
        _ => {}
    }
    let rest = part(at, 1, at.len());
    let begin = rest.iter().position(|byte| *byte != b' ').unwrap_or(0);
    match rest.get(begin..) {
        Some([b'<', b'(', ..] | [b'>', b'(', ..]) => {
            "there is no <(..) and no >(..): make a FIFO with mkfifo, and redirect to its name"
        }
        _ => "the name of a file or FIFO must follow",
    }
}

// What an operator that begins so is.
fn operator(at: &[u8]) -> &'static str {
    if let [b'>', b'&', rest @ ..] = at {
        let first = rest.iter().find(|byte| **byte != b' ');
        if !matches!(first, Some(b'0'..=b'9' | b'-')) {
            return ">& is bash's: write >, since no command here writes to the standard error";
        }
    }
    instead_of(operator_in_front(at))
}

// The operator in front of a text, or otherwise its first byte.
fn operator_in_front(text: &[u8]) -> &[u8] {
    let mut operators = OPERATORS.into_iter();
    let found = operators.find(|operator| text.starts_with(operator));
    found.unwrap_or(part(text, 0, 1))
}

// The operator of another shell that leaves the command before this byte without words, if one does: its place, and what to write instead.
// Its first byte ended the command before that one. None if that may be in quotes or in a comment.
fn sign_before(text: &[u8], offset: usize) -> Option<(Span, &'static str)> {
    let (before, _) = text.split_at_checked(offset)?;
    let command = before.rsplit(|byte| ends_command(*byte)).next()?;
    let start = before.len().checked_sub(command.len())?.checked_sub(1)?;
    let (before, sign) = text.split_at_checked(start)?;
    let line = before.rsplit(|byte| *byte == b'\n').next()?;
    let is_odd = |quote: u8| command.iter().filter(|byte| **byte == quote).count() % 2 == 1;
    if line.contains(&b'#') || is_odd(b'\'') || is_odd(b'"') {
        return None;
    }
    let (length, note) = sign_in_front(sign)?;
    let end = start.saturating_add(length);
    Some((Span { start, end }, note))
}

// Whether a byte is an operator that ends a command.
fn ends_command(byte: u8) -> bool {
    matches!(byte, b'|' | b'&' | b';' | b'\n')
}

// The length of the operator of another shell in front of a text, and what to write instead.
fn sign_in_front(text: &[u8]) -> Option<(usize, &'static str)> {
    match text {
        [b'|', b'&', ..] => Some((
            2,
            "|& is bash's: write |, since no command here writes to the standard error",
        )),
        [b'&', b'>', b'|', ..] => None,
        [b'&', b'>', b'>', ..] => Some((
            3,
            "&>> is bash's: write >>, since no command here writes to the standard error",
        )),
        [b'&', b'>', ..] => Some((
            2,
            "&> is bash's: write >, since no command here writes to the standard error",
        )),
        _ => None,
    }
}

// Adds the hint for a text with this fault.
pub(crate) fn add_text_fault(fault: TextFault, hint: &mut Hint<'_>) -> io::Result<()> {
    let TextFault { kind, offset } = fault;
    match kind {
        TextFaultKind::Expansion => add_expansion(offset, hint),
        TextFaultKind::EmptyCommand => add_empty(offset, hint),
        TextFaultKind::OneAfterAnother => add_second(offset, hint),
        TextFaultKind::NoForeground if is_empty(hint.source.text) => {
            hint.point(None, "", "the script is empty")?;
            hint.advise("the script is empty")
        }
        TextFaultKind::NoMemory => hint.point(None, "", "memory was refused"),
        _ => add_at(kind, offset, hint),
    }
}

// Adds that a command is empty, or which operator of another shell makes it so.
fn add_empty(offset: usize, hint: &mut Hint<'_>) -> io::Result<()> {
    match sign_before(hint.source.text, offset) {
        Some((place, note)) => hint.mark(Some(place), note),
        None => add_at(TextFaultKind::EmptyCommand, offset, hint),
    }
}

// Adds the hint for a second pipeline in the foreground.
fn add_second(offset: usize, hint: &mut Hint<'_>) -> io::Result<()> {
    if add_first_of_shell(offset, hint)? {
        return Ok(());
    }
    add_at(TextFaultKind::OneAfterAnother, offset, hint)?;
    hint.repair(
        "end the one before it with & and give it an output file, or run it with a plrun of its own",
    )
}

// Adds the hint for a text with a fault of this kind, at the byte with this offset.
fn add_at(kind: TextFaultKind, offset: usize, hint: &mut Hint<'_>) -> io::Result<()> {
    let text = hint.source.text;
    let rest = part(text, offset, text.len());
    if is_option_of_mkfifo(text, offset) {
        let (start, end) = (offset, offset.saturating_add(word_length(rest)));
        let note = "mkfifo has no options here: its FIFO is no file";
        return hint.mark(Some(Span { start, end }), note);
    }
    let marked = match kind {
        TextFaultKind::UnsupportedOperator => operator_in_front(rest).len(),
        TextFaultKind::Assignment => word_length(rest),
        TextFaultKind::RedirectWithoutWord if matches!(rest, [_, b'(', ..]) => 2,
        _ => 1,
    };
    let (start, end) = (offset, offset.saturating_add(marked));
    hint.mark(Some(Span { start, end }), note(kind, rest))
}

// Whether an option of mkfifo begins at this offset.
fn is_option_of_mkfifo(text: &[u8], offset: usize) -> bool {
    let mut words = part(text, 0, offset).rsplit(|byte| matches!(byte, b' ' | b'\t'));
    if words.next() != Some(b"".as_slice()) {
        return false;
    }
    if !part(text, offset, text.len()).starts_with(b"-") {
        return false;
    }
    match words.find(|word| !word.is_empty()) {
        Some(word) => word.rsplit(|byte| ends_command(*byte)).next() == Some(b"mkfifo".as_slice()),
        None => false,
    }
}

// Whether a text has nothing but blanks, newlines and comments.
fn is_empty(text: &[u8]) -> bool {
    let mut lines = text.split(|byte| *byte == b'\n');
    lines.all(|line| match line.iter().find(|byte| !matches!(byte, b' ' | b'\t')) {
        Some(first) => *first == b'#',
        None => true,
    })
}
