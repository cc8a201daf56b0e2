ghost use Rattle.std.specs.Prelude.{◌≡◌, true, false, nat_le, count_by, None, Some, MatchOption, MatchResult};
ghost use Rattle.command_words.specs.inner.Refusals.{MeetsWords};
ghost use Rattle.command_words.specs.Arguments.{argument};
ghost use Rattle.commands.specs.CutWords.{cut_means, cut_of_given, delimiter_of, has_list, is_cut_form, is_form, list_of, parts_of};
ghost use Rattle.command_words.specs.Letters.{letter_d};

use crate::letters;
use crate::lists::read_ranges;
use crate::range::Range;
use command_words::{
    ArgFault, BadWords, Letter, Options, Sequence, Span, Word, argument, excluded, input_names,
    is_given, split_options,
};
use std::alloc::Global;

// The pairs of options that exclude one another, besides those that have lists.
const APART: [(u8, u8); 6] = [
    (b'b', b'd'),
    (b'c', b'd'),
    (b'b', b's'),
    (b'c', b's'),
    (b'c', b'n'),
    (b'f', b'n'),
];

/// What of a line is counted and selected.
#[derive(Clone, Copy, Debug, PartialEq, Eq)]
pub enum Parts {
    Bytes,
    /// Fields, which the delimiter separates; if `only_delimited`, a line without it is left out.
    Fields { delimiter: u8, only_delimited: bool },
}

/// What cut does.
#[derive(Drop)]
pub struct CutSpec {
    /// The numbers that the list selects.
    pub ranges: Sequence<Range>,
    pub parts: Parts,
    /// The names of its inputs; `-` is standard input.
    pub inputs: Sequence<Word>,
}

impl CutSpec {
    /// What cut does by these words, without its name.
    pub fn read(alloc: Global, words: &[Word]) -> Result<CutSpec, BadWords>
        ensures { MeetsWords result (cut_means words.now) }
    {
        let Options { given, operands } = split_options(alloc, words, letters::CUT)?;
        check_lists(given.as_slice())?;
        check_form(given.as_slice())?;
        let inputs = input_names(alloc, operands)?;
        cut_given(alloc, given.as_slice(), inputs)
    }
}

// Whether an option has a list.
fn has_list(option: &(Letter, Option<Word>)) -> bool
    ensures { result ≡ has_list option.now }
{
    matches!(option.0.byte(), b'b' | b'c' | b'f')
}

// The place of the option with a list that has this number among those, from 0.
fn place_of_list(given: &[(Letter, Option<Word>)], number: usize) -> Option<Span> {
    given
        .iter()
        .filter(|option| has_list(option))
        .nth(number)?
        .0
        .place()
}

// Whether at most one list is given.
fn check_lists(given: &[(Letter, Option<Word>)]) -> Result<(), BadWords>
    ensures { MatchResult result (λ _. nat_le (count_by has_list given.now) 1 ≡ true)
        (λ _. nat_le (count_by has_list given.now) 1 ≡ false) }
{
    if given.iter().filter(|option| has_list(option)).count() <= 1 {
        return Ok(());
    }
    match (place_of_list(given, 0), place_of_list(given, 1)) {
        (Some(one), Some(other)) => Err(BadWords::of_both(ArgFault::ExclusiveOptions, one, other)),
        _ => Err(BadWords::new(ArgFault::ExclusiveOptions)),
    }
}

// Whether options are given together as they may be, if at most one list is.
fn check_form(given: &[(Letter, Option<Word>)]) -> Result<(), BadWords>
    requires { nat_le (count_by has_list given.now) 1 ≡ true }
    ensures { MatchResult result (λ _. is_cut_form given.now ≡ true)
        (λ _. is_cut_form given.now ≡ false) }
{
    let bytes = is_given(given, b'b');
    let characters = is_given(given, b'c');
    let fields = is_given(given, b'f');
    if !bytes && !characters && !fields {
        return Err(BadWords::new(ArgFault::MissingArgument));
    }
    let delimiter = is_given(given, b'd');
    let unsplit = is_given(given, b'n');
    let only = is_given(given, b's');
    if is_form(bytes, characters, fields, delimiter, unsplit, only) {
        Ok(())
    } else {
        Err(excluded(given, &APART))
    }
}

// The same by whether each is given.
fn is_form(b: bool, c: bool, f: bool, d: bool, n: bool, s: bool) -> bool
    ensures { result ≡ is_form b c f d n s }
{
    match (b, c, f) {
        (true, false, false) => !d && !s,
        (false, true, false) => !d && !n && !s,
        (false, false, true) => !n,
        _ => false,
    }
}

// What cut does by its options.
fn cut_given(
    alloc: Global,
    given: &[(Letter, Option<Word>)],
    inputs: Sequence<Word>,
) -> Result<CutSpec, BadWords>
    ensures { MeetsWords result (cut_of_given given.now inputs) }
{
    let Some(list) = list_of(given) else {
        return Err(BadWords::new(ArgFault::MissingArgument));
    };
    let ranges = read_ranges(alloc, list)?;
    let parts = parts_of(given)?;
    Ok(CutSpec {
        ranges,
        parts,
        inputs,
    })
}

// The list of bytes or fields.
fn list_of(given: &[(Letter, Option<Word>)]) -> Option<&Word>
    ensures { MatchOption result (list_of given.now ≡ None)
        (λ list. list_of given.now ≡ Some list.now) }
{
    if is_given(given, b'f') {
        return argument(given, b'f');
    }
    if is_given(given, b'b') {
        return argument(given, b'b');
    }
    argument(given, b'c')
}

// What is counted.
fn parts_of(given: &[(Letter, Option<Word>)]) -> Result<Parts, BadWords>
    ensures { MeetsWords result (parts_of given.now) }
{
    if !is_given(given, b'f') {
        return Ok(Parts::Bytes);
    }
    match read_delimiter(given) {
        None => {
            let delimiter = argument(given, b'd');
            let place = delimiter.and_then(|delimiter| delimiter.place());
            Err(BadWords::at(ArgFault::BadList, place))
        }
        Some(delimiter) => Ok(Parts::Fields {
            delimiter,
            only_delimited: is_given(given, b's'),
        }),
    }
}

// The delimiter, if it is one byte: a tab if none is given.
fn read_delimiter(given: &[(Letter, Option<Word>)]) -> Option<u8>
    ensures { result ≡ delimiter_of (argument letter_d given.now) }
{
    match argument(given, b'd') {
        None => Some(b'\t'),
        Some(word) => match word.bytes() {
            [byte] => Some(*byte),
            _ => None,
        },
    }
}
