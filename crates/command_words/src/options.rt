ghost use Rattle.std.specs.Prelude.{◌≡◌, ℕ, ◌≤◌, List, [], ◌∷◌, ◌++◌, Option, Some, None, MatchOption, IfOk, IsTrue, length};
ghost use Rattle.command_words.specs.Options.{is_end, is_group, option_kind, group_of, with_given, splits, with_front};
ghost use Rattle.command_words.specs.inner.OptionReads.{MeetsGroup, MeetsFront};
ghost use Rattle.command_words.specs.inner.Refusals.{MeetsWords};

use crate::fault::{ArgFault, BadWords};
use crate::letter::Letter;
use crate::sequence::Sequence;
use crate::word::Word;
use machine::{NoMemory, split_first};
use std::alloc::Global;

/// The options that were given, in order, and the operands.
#[derive(Drop)]
pub struct Options {
    /// Each option's letter, and its argument if it takes one.
    pub given: Sequence<(Letter, Option<Word>)>,
    pub operands: Sequence<Word>,
}

// Whether a byte is an option; and if so, whether it takes an argument.
fn option_kind(letters: &[u8], letter: u8) -> Option<bool>
    ensures { result ≡ option_kind letters.now letter }
{
    if letter == b':' {
        return None;
    }
    let mut rest = letters;
    while let [first, after @ ..] = rest {
        if *first == letter {
            return Some(matches!(after, [b':', ..]));
        }
        rest = after;
    }
    None
}

// Adds an option.
fn give(
    given: &mut Vec<(Letter, Option<Word>)>,
    letter: Letter,
    argument: Option<Word>,
) -> Result<(), NoMemory>
    ensures { IfOk result (λ _. given.new.items ≡ given.old.items ++ (letter, argument) ∷ []) }
{
    given.push((letter, argument))?;
    Ok(())
}

// Adds the options of a group, which ends a word, and returns the one among them whose argument is the next word.
fn read_group(
    alloc: Global,
    letters: &[u8],
    word: &Word,
    group: &[u8],
    given: &mut Vec<(Letter, Option<Word>)>,
) -> Result<Option<Letter>, BadWords>
    ensures { MeetsGroup given.new.items result
        (with_given given.old.items (group_of letters.now group.now)) }
{
    let mut rest = group;
    while let [byte, after @ ..] = rest {
        let letter = Letter::of_word(*byte, word, after.len());
        match option_kind(letters, *byte) {
            None => return Err(BadWords::at(ArgFault::UnknownOption, letter.place())),
            Some(false) => give(given, letter, None)?,
            Some(true) => {
                if after.is_empty() {
                    return Ok(Some(letter));
                }
                give(given, letter, Some(word.last_bytes(alloc, after)?))?;
                return Ok(None);
            }
        }
        rest = after;
    }
    Ok(None)
}

// Whether a word is `--`.
fn is_end(word: &[u8]) -> bool
    ensures { result ≡ is_end word.now }
{
    matches!(word, [b'-', b'-'])
}

// Whether a word is a dash and at least one byte.
fn is_group(word: &[u8]) -> bool
    ensures value { result ≡ is_group word.now }
    ensures long { IsTrue result → 2 ≤ length word.now }
{
    matches!(word, [b'-', _, ..])
}

/// Equal words.
pub fn copies(alloc: Global, words: &[Word]) -> Result<Vec<Word>, NoMemory>
    ensures { IfOk result (λ copied. copied.items ≡ words.now) }
{
    let mut out = Vec::new(alloc);
    for word in words {
        out.push(word.copied(alloc)?)?;
    }
    Ok(out)
}

// Adds the leading options, and returns the operands.
fn read_options<'a>(
    alloc: Global,
    words: &'a [Word],
    letters: &[u8],
    given: &mut Vec<(Letter, Option<Word>)>,
) -> Result<&'a [Word], BadWords>
    ensures { MeetsFront given.new.items result
        (with_front given.old.items (splits letters.now words.now)) }
{
    let mut rest = words;
    'words: while let Some((word, after)) = split_first(rest) {
        let bytes = word.bytes();
        if is_end(bytes) {
            return Ok(after);
        }
        if !is_group(bytes) {
            return Ok(rest);
        }
        rest = after;
        if let Some(letter) = read_group(alloc, letters, word, &bytes[1..], given)? {
            let Some((argument, after)) = split_first(rest) else {
                return Err(BadWords::at(ArgFault::MissingArgument, letter.place()));
            };
            give(given, letter, Some(argument.copied(alloc)?))?;
            rest = after;
        }
    }
    Ok(rest)
}

/// Splits a command's words, without the utility's name, into its options and operands. `letters`
/// are the letters of its options, each with a colon after it if the option takes an argument.
pub fn split_options(alloc: Global, words: &[Word], letters: &[u8]) -> Result<Options, BadWords>
    ensures { MeetsWords result (splits letters.now words.now) }
{
    let mut given = Vec::new(alloc);
    let rest = read_options(alloc, words, letters, &mut given)?;
    let operands = copies(alloc, rest)?;
    Ok(Options {
        given: Sequence::from_vec(given),
        operands: Sequence::from_vec(operands),
    })
}
