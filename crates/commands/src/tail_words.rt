ghost use Rattle.std.specs.Prelude.{◌≡◌};
ghost use Rattle.command_words.specs.inner.Refusals.{MeetsWords};
ghost use Rattle.commands.specs.TailWords.{input_name, signed, tail_by, tail_means, tail_of_given};

use crate::letters;
use command_words::{
    ArgFault, BadWords, Letter, Options, Sequence, Word, argument, excluded, input_names,
    place_of_word, read_number, split_options,
};
use std::alloc::Global;

/// What tail counts.
#[derive(Clone, Copy, Debug, PartialEq, Eq)]
pub enum Counted {
    Lines,
    Bytes,
}

/// The end from which tail counts.
#[derive(Clone, Copy, Debug, PartialEq, Eq)]
pub enum Origin {
    Beginning,
    End,
}

/// What tail does.
#[derive(Drop)]
pub struct TailSpec {
    pub counted: Counted,
    pub origin: Origin,
    /// The number of the first line or byte that is written, or how many of the last are.
    pub count: u64,
    /// The name of its input; `-` is standard input.
    pub inputs: Sequence<Word>,
}

impl TailSpec {
    /// What tail does by these words, without its name.
    pub fn read(alloc: Global, words: &[Word]) -> Result<TailSpec, BadWords>
        ensures { MeetsWords result (tail_means words.now) }
    {
        let Options { given, operands } = split_options(alloc, words, letters::TAIL)?;
        tail_given(alloc, given.as_slice(), operands)
    }
}

// What tail does by its options and operands.
fn tail_given(
    alloc: Global,
    given: &[(Letter, Option<Word>)],
    operands: Sequence<Word>,
) -> Result<TailSpec, BadWords>
    ensures { MeetsWords result (tail_of_given given.now operands) }
{
    match (argument(given, b'n'), argument(given, b'c')) {
        (Some(_), Some(_)) => Err(excluded(given, &[(b'c', b'n')])),
        (Some(lines), None) => tail_by(Counted::Lines, lines, only_input(alloc, operands)?),
        (None, Some(bytes)) => tail_by(Counted::Bytes, bytes, only_input(alloc, operands)?),
        (None, None) => Ok(TailSpec {
            counted: Counted::Lines,
            origin: Origin::End,
            count: 10,
            inputs: only_input(alloc, operands)?,
        }),
    }
}

// The name of the only input.
fn only_input(alloc: Global, operands: Sequence<Word>) -> Result<Sequence<Word>, BadWords>
    ensures { MeetsWords result (input_name operands) }
{
    if operands.as_slice().len() > 1 {
        return Err(BadWords::at(ArgFault::BadOperands, place_of_word(operands.as_slice(), 1)));
    }
    input_names(alloc, operands)
}

// What tail does by a number with or without a sign.
fn tail_by(counted: Counted, word: &Word, inputs: Sequence<Word>) -> Result<TailSpec, BadWords>
    ensures { MeetsWords result (tail_by counted word.now inputs) }
{
    let (origin, digits) = signed(word.bytes());
    match read_number(digits) {
        None => Err(BadWords::at(ArgFault::BadNumber, word.place())),
        Some(count) => Ok(TailSpec {
            counted,
            origin,
            count,
            inputs,
        }),
    }
}

// The end from which a number counts, and its digits.
fn signed(word: &[u8]) -> (Origin, &[u8])
    ensures origin { result.0 ≡ (signed word.now).0 }
    ensures digits { result.1.now ≡ (signed word.now).1 }
{
    match word {
        [b'+', digits @ ..] => (Origin::Beginning, digits),
        [b'-', digits @ ..] => (Origin::End, digits),
        _ => (Origin::End, word),
    }
}
