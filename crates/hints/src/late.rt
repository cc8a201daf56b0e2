// Options that come after operands, and so are taken for the names of files.
use crate::hint::Hint;
use crate::numbers::are_digits;
use crate::options::counting;
use crate::source::Source;
use crate::uses::command_with;
use crate::utilities::{Utility, utility_named};
use command_words::Word;
use commands::FilterSpec;
use pipeline_text::Script;
use run_types::Escaped;
use std::alloc::{AllocError, Global};
use std::io;

// What a word of a command is.
#[derive(Clone, Copy, Debug, PartialEq, Eq)]
enum Role {
    // Letters of options, with their argument if they take one.
    Whole,
    // Letters of options, whose argument is the next word.
    Open,
    // The argument of the word before it.
    Argument,
    Operand,
    // What ends the options.
    End,
}

// What a word is, if the word before it has this role.
fn role_of(utility: Utility, word: &[u8], before: Role) -> Role {
    match word {
        _ if before == Role::Open => Role::Argument,
        b"--" => Role::End,
        [b'-', digits @ ..] if are_digits(digits) => role_of_number(utility),
        [b'-', letters @ ..] if !letters.is_empty() => role_of_letters(utility, letters),
        _ => Role::Operand,
    }
}

// What a dash and a number are: an option of other implementations of the utility, or an operand.
fn role_of_number(utility: Utility) -> Role {
    match counting(utility) {
        Some(_) => Role::Whole,
        None => Role::Operand,
    }
}

// What a word is that begins with a dash and has these letters.
fn role_of_letters(utility: Utility, letters: &[u8]) -> Role {
    for (at, letter) in letters.iter().enumerate() {
        if !utility.has_option(*letter) {
            return Role::Operand;
        }
        if utility.takes_argument(*letter) {
            return if at.saturating_add(1) == letters.len() {
                Role::Open
            } else {
                Role::Whole
            };
        }
    }
    Role::Whole
}

// A word that is an option after an operand, or belongs to one.
#[derive(Clone, Copy)]
pub(crate) struct Late<'a> {
    // The first option of the command that comes after an operand.
    pub(crate) first: &'a Word,
    utility: Utility,
    words: &'a [Word],
}

// The first option of a command that comes after an operand, if there is one: its number.
fn first_late(utility: Utility, words: &[Word]) -> Option<usize> {
    let mut has_operand = false;
    let mut before = Role::Whole;
    for (number, word) in words.iter().enumerate().skip(1) {
        before = role_of(utility, word.bytes(), before);
        match before {
            Role::Operand => has_operand = true,
            Role::End => return None,
            Role::Whole | Role::Open if has_operand => return Some(number),
            _ => {}
        }
    }
    None
}

// Whether the word with this number is an option, or the argument of the word before it.
fn is_of_option(utility: Utility, words: &[Word], number: usize) -> bool {
    let role = |at: usize| match words.get(at) {
        Some(word) => role_of(utility, word.bytes(), Role::Whole),
        None => Role::Operand,
    };
    matches!(role(number), Role::Whole | Role::Open) || role(number.saturating_sub(1)) == Role::Open
}

// The late option that an operand of this name is, or belongs to.
pub(crate) fn late_word<'a>(script: Option<&'a Script>, name: &Word) -> Option<Late<'a>> {
    let place = name.place()?;
    let words = command_with(script?, place)?.words.as_slice();
    let utility = utility_named(words.first()?.bytes())?;
    let number = words.iter().position(|word| word.place() == Some(place))?;
    let first = first_late(utility, words)?;
    if number < first {
        return None;
    }
    if !is_of_option(utility, words, number) {
        return None;
    }
    Some(Late {
        first: words.get(first)?,
        utility,
        words,
    })
}

// The words of a command with its options before its operands. None if it would be refused still.
pub(crate) fn in_order(
    alloc: Global,
    utility: Utility,
    words: &[Word],
) -> Result<Option<Vec<Word>>, AllocError> {
    let mut ordered = Vec::new(alloc);
    add_words(alloc, utility, words, true, &mut ordered)?;
    add_words(alloc, utility, words, false, &mut ordered)?;
    match FilterSpec::read(alloc, ordered.as_slice()) {
        Ok(_) => Ok(Some(ordered)),
        Err(_) => Ok(None),
    }
}

// Adds the name and the options of a command, or its operands.
fn add_words(
    alloc: Global,
    utility: Utility,
    words: &[Word],
    options: bool,
    to: &mut Vec<Word>,
) -> Result<(), AllocError> {
    // the name is like an option: it comes first
    let mut role = Role::Whole;
    for (number, word) in words.iter().enumerate() {
        if number > 0 {
            role = role_of(utility, word.bytes(), role);
        }
        if (role != Role::Operand) == options {
            let bytes = Vec::from_slice(alloc, word.bytes())?;
            to.push(match word.place() {
                Some(place) => Word::at(bytes, place),
                None => Word::from_vec(bytes),
            })?;
        }
    }
    Ok(())
}

// Adds what to write instead of a command with these words: the options first.
pub(crate) fn add_order(utility: Utility, words: &[Word], hint: &mut Hint<'_>) -> io::Result<()> {
    match in_order(hint.alloc, utility, words)? {
        Some(ordered) => {
            let text = text_of(hint.alloc, hint.source, ordered.as_slice())?;
            // a tab, for example, is not shown as it is
            if text.iter().any(|byte| byte.is_ascii_control()) {
                return hint.repair("options come before operands");
            }
            hint.repair_with("options come before operands: write ", text.as_slice())
        }
        None => hint.repair("options come before operands"),
    }
}

// Words as the script has them, with blanks between them.
fn text_of(alloc: Global, source: Source<'_>, words: &[Word]) -> Result<Vec<u8>, AllocError> {
    let mut text = Vec::new(alloc);
    for word in words {
        if !text.is_empty() {
            text.push(b' ')?;
        }
        let written = match word.place() {
            Some(place) => source.bytes(place),
            None => word.bytes(),
        };
        text.extend_from_slice(written)?;
    }
    Ok(text)
}

impl Late<'_> {
    // Adds that the option cannot be opened as a file, and what to write.
    pub(crate) fn add_to(self, hint: &mut Hint<'_>) -> io::Result<()> {
        let line = format!(in hint.alloc; "cannot open {}", Escaped(self.first.bytes()))?;
        let note = "this comes after an operand, so it is not an option";
        hint.point(self.first.place(), note, line.as_str())?;
        add_order(self.utility, self.words, hint)
    }
}
