ghost use Rattle.std.specs.Prelude.{◌≡◌, [], ◌∷◌, None, Some, IfOk, MatchOption};
ghost use Rattle.command_words.specs.Bytes.{dash};
ghost use Rattle.command_words.specs.inner.Refusals.{MeetsWords};
ghost use Rattle.command_words.specs.declared.fault.ArgFault.TheVariants as faults;
ghost use Rattle.command_words.specs.Arguments.{argument, own_argument, number_or, is_given, names_input_once, input_names};

use crate::fault::{ArgFault, BadWords};
use crate::letter::Letter;
use crate::numbers::read_number;
use crate::sequence::Sequence;
use crate::span::Span;
use crate::streams::is_standard_input;
use crate::word::Word;
use machine::NoMemory;
use std::alloc::Global;

/// The argument of the last option with this letter, if it was given with one.
pub fn argument(given: &[(Letter, Option<Word>)], letter: u8) -> Option<&Word>
    ensures { MatchOption result (argument letter given.now ≡ None)
        (λ word. argument letter given.now ≡ Some word.now) }
{
    let mut at = given.len();
    while at > 0 {
        at -= 1;
        if let Some(word) = own_argument(&given[at], letter) {
            return Some(word);
        }
    }
    None
}

// The argument of an option, if it has this letter.
fn own_argument(option: &(Letter, Option<Word>), letter: u8) -> Option<&Word>
    ensures { MatchOption result (own_argument letter option.now ≡ None)
        (λ word. own_argument letter option.now ≡ Some word.now) }
{
    if option.0.byte() != letter {
        return None;
    }
    option.1.as_ref()
}

/// The number that was given with this letter, or the default.
pub fn number_given(
    given: &[(Letter, Option<Word>)],
    letter: u8,
    default: u64,
) -> Result<u64, BadWords>
    ensures { MeetsWords result (number_or default (argument letter given.now)) }
{
    match argument(given, letter) {
        None => Ok(default),
        Some(word) => match read_number(word.bytes()) {
            None => Err(BadWords::at(ArgFault::BadNumber, word.place())),
            Some(number) => Ok(number),
        },
    }
}

/// Whether an option with this letter was given.
pub fn is_given(given: &[(Letter, Option<Word>)], letter: u8) -> bool
    ensures { result ≡ is_given letter given.now }
{
    given.iter().any(|option| option.0.byte() == letter)
}

// The place of the first option with this letter.
fn place_of(given: &[(Letter, Option<Word>)], letter: u8) -> Option<Span> {
    given
        .iter()
        .find(|option| option.0.byte() == letter)?
        .0
        .place()
}

/// The fault that options exclude one another: the first of these pairs of letters that are both given.
pub fn excluded(given: &[(Letter, Option<Word>)], pairs: &[(u8, u8)]) -> BadWords
    ensures { result ≡ faults.ExclusiveOptions }
{
    for pair in pairs {
        if let (Some(one), Some(other)) = (place_of(given, pair.0), place_of(given, pair.1)) {
            return BadWords::of_both(ArgFault::ExclusiveOptions, one, other);
        }
    }
    BadWords::new(ArgFault::ExclusiveOptions)
}

/// Whether at most one of the words names standard input.
pub fn names_input_once(words: &[Word]) -> bool
    ensures { result ≡ names_input_once words.now }
{
    words
        .iter()
        .filter(|word| is_standard_input(word.bytes()))
        .count()
        <= 1
}

/// The place of the word with this number, from 0.
pub fn place_of_word(words: &[Word], number: usize) -> Option<Span> {
    words.get(number)?.place()
}

/// The place of the name of standard input with this number among the words, from 0.
pub fn place_of_input(words: &[Word], number: usize) -> Option<Span> {
    words
        .iter()
        .filter(|word| is_standard_input(word.bytes()))
        .nth(number)?
        .place()
}

/// The names of the inputs of a command with these operands, without which its input is standard input, named `-`. More than
/// one name of standard input among them is refused.
pub fn input_names(alloc: Global, operands: Sequence<Word>) -> Result<Sequence<Word>, BadWords>
    ensures { MeetsWords result (input_names operands) }
{
    if operands.is_empty() {
        return Ok(standard_input(alloc)?);
    }
    if !names_input_once(operands.as_slice()) {
        return Err(BadWords::at(
            ArgFault::BadOperands,
            place_of_input(operands.as_slice(), 1),
        ));
    }
    Ok(operands)
}

// The name of standard input.
fn standard_input(alloc: Global) -> Result<Sequence<Word>, NoMemory>
    ensures { IfOk result (λ names. names ≡ (dash ∷ []) ∷ []) }
{
    let mut names = Vec::new(alloc);
    names.push(Word::from_vec(Vec::from_slice(alloc, b"-")?))?;
    Ok(Sequence::from_vec(names))
}
