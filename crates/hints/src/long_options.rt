// Long options, which no utility has here, and the letters that mean the same.
use crate::hint::Hint;
use crate::instead::{instead_of_letter, instead_of_long};
use crate::utilities::Utility;
use command_words::{ArgFault, Word};
use commands::FilterSpec;
use std::alloc::{AllocError, Global};
use std::io;

// The letter of each long option of other implementations, by the utility.
const LETTERS: [(&str, &str, u8); 50] = [
    ("cat", "number", b'n'),
    ("cat", "number-nonblank", b'b'),
    ("cat", "show-all", b'A'),
    ("cat", "show-ends", b'E'),
    ("cat", "show-nonprinting", b'v'),
    ("cat", "show-tabs", b'T'),
    ("cat", "squeeze-blank", b's'),
    ("cut", "bytes", b'b'),
    ("cut", "characters", b'c'),
    ("cut", "delimiter", b'd'),
    ("cut", "fields", b'f'),
    ("cut", "only-delimited", b's'),
    ("cut", "zero-terminated", b'z'),
    ("fold", "bytes", b'b'),
    ("fold", "spaces", b's'),
    ("fold", "width", b'w'),
    ("head", "bytes", b'c'),
    ("head", "lines", b'n'),
    ("head", "quiet", b'q'),
    ("head", "silent", b'q'),
    ("head", "verbose", b'v'),
    ("head", "zero-terminated", b'z'),
    ("paste", "delimiters", b'd'),
    ("paste", "serial", b's'),
    ("paste", "zero-terminated", b'z'),
    ("tail", "bytes", b'c'),
    ("tail", "follow", b'f'),
    ("tail", "lines", b'n'),
    ("tail", "quiet", b'q'),
    ("tail", "silent", b'q'),
    ("tail", "verbose", b'v'),
    ("tail", "zero-terminated", b'z'),
    ("tee", "append", b'a'),
    ("tee", "ignore-interrupts", b'i'),
    ("tr", "complement", b'c'),
    ("tr", "delete", b'd'),
    ("tr", "squeeze-repeats", b's'),
    ("tr", "truncate-set1", b't'),
    ("uniq", "all-repeated", b'D'),
    ("uniq", "check-chars", b'w'),
    ("uniq", "count", b'c'),
    ("uniq", "ignore-case", b'i'),
    ("uniq", "repeated", b'd'),
    ("uniq", "skip-chars", b's'),
    ("uniq", "skip-fields", b'f'),
    ("uniq", "unique", b'u'),
    ("uniq", "zero-terminated", b'z'),
    ("wc", "bytes", b'c'),
    ("wc", "chars", b'm'),
    ("wc", "lines", b'l'),
];

// The others of wc.
const LETTERS_OF_WC: [(&str, u8); 2] = [("max-line-length", b'L'), ("words", b'w')];

// The letter of a long option of a utility, if it is known.
fn letter_of(utility: Utility, option: &[u8]) -> Option<u8> {
    for (name, long, letter) in LETTERS {
        if name == utility.name {
            if long.as_bytes() == option {
                return Some(letter);
            }
        }
    }
    let mut others = LETTERS_OF_WC.into_iter();
    match utility.name {
        "wc" => Some(others.find(|other| other.0.as_bytes() == option)?.1),
        _ => None,
    }
}

// A long option: its name, and its argument after an equals sign, if it has one.
fn parts(word: &[u8]) -> (&[u8], Option<&[u8]>) {
    let name = word.strip_prefix(b"--".as_slice()).unwrap_or(word);
    let equals = name.iter().position(|byte| *byte == b'=');
    match equals {
        Some(at) => match name.split_at_checked(at) {
            Some((name, [_, argument @ ..])) => (name, Some(argument)),
            _ => (name, None),
        },
        None => (name, None),
    }
}

// Whether a word needs no quotes.
fn is_plain(word: &[u8]) -> bool {
    let needs_none = |byte: &u8| {
        byte.is_ascii_alphanumeric()
            | matches!(*byte, b',' | b'.' | b'-' | b'_' | b'/' | b':' | b'+')
    };
    !word.is_empty() & word.iter().all(needs_none)
}

// Whether a word can be shown between two single quotes.
fn can_be_quoted(word: &[u8]) -> bool {
    !word
        .iter()
        .any(|byte| byte.is_ascii_control() | (*byte == b'\''))
}

// Adds what to write instead of a long option, which is this word.
pub(crate) fn add_long_option(
    utility: Utility,
    word: &[u8],
    hint: &mut Hint<'_>,
) -> io::Result<()> {
    let (option, argument) = parts(word);
    let letter = letter_of(utility, option);
    match letter {
        Some(letter) if utility.has_option(letter) => add_letter(utility, letter, argument, hint),
        Some(letter) => {
            hint.advise("options have one letter here")?;
            add_instead(instead_of_letter(utility.name, letter), hint)
        }
        None => {
            hint.advise("options have one letter here")?;
            add_instead(instead_of_long(utility.name, option), hint)
        }
    }
}

// Adds what to use instead, if that is known.
fn add_instead(instead: Option<&str>, hint: &mut Hint<'_>) -> io::Result<()> {
    match instead {
        Some(text) => hint.repair(text),
        None => Ok(()),
    }
}

// Adds the letter to write, with the argument of the long option if that is right there.
fn add_letter(
    utility: Utility,
    letter: u8,
    argument: Option<&[u8]>,
    hint: &mut Hint<'_>,
) -> io::Result<()> {
    let mut option = Vec::new(hint.alloc);
    option.push(b'-')?;
    option.push(letter)?;
    match argument {
        Some(argument) if can_be_quoted(argument) => {
            if is_refused(hint.alloc, utility, option.as_slice(), argument)? {
                return hint.repair_with("write ", option.as_slice());
            }
            let text = with_argument(option, argument)?;
            hint.repair_with("write ", text.as_slice())
        }
        _ => hint.repair_with("write ", option.as_slice()),
    }
}

// An option with its argument after it, in quotes if it needs some.
fn with_argument(option: Vec<u8>, argument: &[u8]) -> Result<Vec<u8>, AllocError> {
    let mut text = option;
    let quote = if is_plain(argument) { "" } else { "'" };
    text.push(b' ')?;
    text.extend_from_slice(quote.as_bytes())?;
    text.extend_from_slice(argument)?;
    text.extend_from_slice(quote.as_bytes())?;
    Ok(text)
}

// Whether a utility refuses an option for this argument.
fn is_refused(
    alloc: Global,
    utility: Utility,
    option: &[u8],
    argument: &[u8],
) -> Result<bool, AllocError> {
    let mut words = Vec::new(alloc);
    add_word(alloc, utility.name.as_bytes(), &mut words)?;
    add_word(alloc, option, &mut words)?;
    add_word(alloc, argument, &mut words)?;
    match FilterSpec::read(alloc, words.as_slice()) {
        Ok(_) => Ok(false),
        Err(bad) => Ok(matches!(bad.fault(), ArgFault::BadNumber | ArgFault::BadList)),
    }
}

// Adds a word with these bytes.
fn add_word(alloc: Global, bytes: &[u8], words: &mut Vec<Word>) -> Result<(), AllocError> {
    words.push(Word::from_vec(Vec::from_slice(alloc, bytes)?))?;
    Ok(())
}
