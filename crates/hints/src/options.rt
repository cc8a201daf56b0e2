// Options and operands that are refused, or missing.
use crate::hint::Hint;
use crate::instead::instead_of_letter;
use crate::long_options::add_long_option;
use crate::numbers::are_digits;
use crate::refused::RefusedWords;
use crate::utilities::Utility;
use crate::wrong::{Advice, Wrong};
use command_words::Word;
use run_types::Escaped;
use std::io;

// Adds the hint for an option that a utility does not have.
pub(crate) fn add_option(refused: &RefusedWords<'_>, hint: &mut Hint<'_>) -> io::Result<()> {
    let utility = refused.utility;
    let Some(word) = refused.word() else {
        return Ok(());
    };
    match (word.bytes(), counting(utility)) {
        ([b'-', b'-', ..], _) => {
            hint.mark(word.place(), "there is no such option")?;
            add_long_option(utility, word.bytes(), hint)?;
        }
        ([b'-', digits @ ..], Some(option)) if are_digits(digits) => {
            hint.mark(word.place(), "there is no such option")?;
            let (name, digits) = (utility.name, Escaped(digits));
            let text = format!(in hint.alloc; "write {name} {option} {digits}")?;
            hint.repair(text.as_str())?;
        }
        _ => add_letter(refused, hint)?,
    }
    hint.usage(utility.usage)
}

// Adds that a utility has no option of a letter, and what to use instead.
fn add_letter(refused: &RefusedWords<'_>, hint: &mut Hint<'_>) -> io::Result<()> {
    let (name, bytes) = (refused.utility.name, refused.bytes());
    let letter = bytes.strip_prefix(b"-".as_slice()).unwrap_or(bytes);
    let line = format!(in hint.alloc; "{name} has no option -{}", Escaped(letter))?;
    hint.point(
        refused.bad.place(),
        "there is no such option",
        line.as_str(),
    )?;
    hint.advise(line.as_str())?;
    match letter {
        [letter] => match instead_of_letter(name, *letter) {
            Some(text) => hint.repair(text),
            None => Ok(()),
        },
        _ => Ok(()),
    }
}

// The option that a dash and a number mean in other implementations of a utility, if they mean one.
pub(crate) fn counting(utility: Utility) -> Option<&'static str> {
    match utility.name {
        "head" | "tail" => Some("-n"),
        "fold" => Some("-w"),
        "uniq" => Some("-f"),
        _ => None,
    }
}

// What is missing in a command: the argument of its last option, or what cut selects.
pub(crate) fn missing_argument(refused: &RefusedWords<'_>) -> Wrong {
    if !refused.bytes().is_empty() {
        return Wrong::new(wanted(refused.utility, refused.bytes().last().copied()));
    }
    late_option(refused, b"bcf").unwrap_or(Wrong::new("one of -b, -c and -f must be given"))
}

// What must follow the option with this letter.
fn wanted(utility: Utility, letter: Option<u8>) -> &'static str {
    match (utility.name, letter) {
        ("cut", Some(b'd')) => "a delimiter must follow, as in -d ,",
        ("cut", _) => "a list must follow, such as 1,3-5",
        ("paste", _) => "a list of delimiters must follow, as in -d ,",
        ("fold", _) => "a width must follow, such as 80",
        _ => "a number must follow",
    }
}

// That two options of a command exclude one another, and why.
pub(crate) fn both_excluded(refused: &RefusedWords<'_>) -> Wrong {
    let letters = (refused.bytes().last(), refused.other().last());
    if refused.utility.name == "cut" && letters.0 == letters.1 {
        let advice = Advice::Text("write one list, as in cut -f 1,2");
        return Wrong::new("cut takes one list").with(advice);
    }
    let reason = match (refused.utility.name, letters) {
        ("cut", (Some(b'd'), _) | (_, Some(b'd'))) => "-d is for fields: it goes with -f",
        ("cut", (Some(b's'), _) | (_, Some(b's'))) => "-s is for fields: it goes with -f",
        ("cut", (Some(b'n'), _) | (_, Some(b'n'))) => "-n is for bytes: it goes with -b",
        ("cut", _) => "give one of -b, -c and -f",
        ("tail", _) => "tail counts either bytes or lines",
        ("uniq", _) => "give one of -c, -d and -u",
        _ => "both count bytes here: give one of them",
    };
    Wrong::new("these options exclude one another").with(Advice::Text(reason))
}

// The operand of a command that is refused, or what is missing.
pub(crate) fn wrong_operand(refused: &RefusedWords<'_>) -> Wrong {
    match refused.utility.name {
        "tr" => wrong_of_tr(refused),
        "tail" => wrong_of_tail(refused),
        "uniq" => late_option(refused, refused.utility.letters()).unwrap_or(Wrong::new(
            "uniq takes one input and one output: this is a third file",
        )),
        "tee" => Wrong::new("tee always writes to its standard output: leave this out"),
        _ => Wrong::new("the standard input is read only once, and this names it again"),
    }
}

// A word that would be an option with one of these letters, but comes after an operand.
pub(crate) fn late_option(refused: &RefusedWords<'_>, letters: &[u8]) -> Option<Wrong> {
    for (number, word) in refused.operands().iter().enumerate().skip(1) {
        if let [b'-', letter, ..] = word.bytes() {
            if refused.utility.has_option(*letter) && letters.contains(letter) {
                let wrong = Wrong::new("this comes after an operand, so it is not an option").with(
                    Advice::Order,
                );
                return Some(wrong.at(refused.operand_place(number)));
            }
        }
    }
    None
}

// Whether a word begins as an option does.
fn is_like_option(word: &Word) -> bool {
    matches!(word.bytes(), [b'-', _, ..])
}

// What is wrong with the operands of tail.
fn wrong_of_tail(refused: &RefusedWords<'_>) -> Wrong {
    let is_signed = |word: &Word| matches!(word.bytes(), [b'+', digits @ ..] if are_digits(digits));
    if let Some(number) = refused.operands().iter().position(is_signed) {
        return Wrong::new("this is taken for the name of a file")
            .at(refused.operand_place(number))
            .with(Advice::Named("write tail -n "));
    }
    let second = Wrong::new("tail reads one file: this is a second one");
    match late_option(refused, refused.utility.letters()) {
        Some(late) => late,
        None if refused.operands().iter().skip(1).any(is_like_option) => second.with(Advice::Text(
            "options come before operands, and tail has -c and -n alone",
        )),
        None => second,
    }
}

// What is wrong with the operands of tr.
fn wrong_of_tr(refused: &RefusedWords<'_>) -> Wrong {
    match refused.operand() {
        None => Wrong::new("a string must follow"),
        Some(0) if refused.has(b'd') => Wrong::new(
            "with -d and -s, a second string must follow: the bytes to squeeze",
        ),
        Some(0) => Wrong::new("a second string must follow").with(Advice::Text(
            "to delete bytes write tr -d; to squeeze repeats write tr -s",
        )),
        Some(1) => no_file("with -d, tr takes one string and reads no file"),
        Some(_) => no_file("tr takes at most two strings and reads no file"),
    }
}

// That an operand is one too many, and may be meant as a file.
fn no_file(cause: &'static str) -> Wrong {
    Wrong::new(cause).with(Advice::Named("if this is a file, write < "))
}
