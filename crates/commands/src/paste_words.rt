ghost use Rattle.std.specs.Prelude.{◌≡◌, ◌<◌, ◌++◌, ◌∷◌, ◌||◌, [], Some, length, not, MatchOption, IfOk, OnOk, if◌then◌else◌};
ghost use Rattle.command_words.specs.Arguments.{argument};
ghost use Rattle.command_words.specs.Streams.{is_standard_input};
ghost use Rattle.command_words.specs.inner.Refusals.{MeetsWords};
ghost use Rattle.commands.specs.PasteWords.{columns, delimiters_of, elements, escaped, first_standard, names, or_dash, paste_means, paste_of_given};
ghost use Rattle.command_words.specs.Letters.{letter_d};

use crate::letters;
use command_words::{
    ArgFault, BadWords, Letter, Options, Sequence, Word, argument, is_given, is_standard_input,
    split_options,
};
use machine::{NoMemory, split_first};
use std::alloc::Global;

/// What paste does.
#[derive(Drop)]
pub struct PasteSpec {
    /// The delimiters, which are used in a circle; `None` is the empty string.
    pub delimiters: Sequence<Option<u8>>,
    /// Whether each operand gives a line.
    pub is_serial: bool,
    /// The names of its inputs; `-` is standard input.
    pub inputs: Sequence<Word>,
    /// For each operand the number of its input.
    pub columns: Sequence<usize>,
}

impl PasteSpec {
    /// What paste does by these words, without its name.
    pub fn read(alloc: Global, words: &[Word]) -> Result<PasteSpec, BadWords>
        ensures { MeetsWords result (paste_means words.now) }
    {
        let Options { given, operands } = split_options(alloc, words, letters::PASTE)?;
        let operands = or_dash(alloc, operands)?;
        paste_given(alloc, given.as_slice(), operands.as_slice())
    }
}

// What paste does by its options and operands.
fn paste_given(
    alloc: Global,
    given: &[(Letter, Option<Word>)],
    operands: &[Word],
) -> Result<PasteSpec, BadWords>
    ensures { MeetsWords result (paste_of_given given.now operands.now) }
{
    let delimiters = read_delimiters(alloc, given)?;
    let Named { inputs, columns } = name_inputs(alloc, operands)?;
    Ok(PasteSpec {
        delimiters,
        is_serial: is_given(given, b's'),
        inputs,
        columns,
    })
}

// The operands; without them `-`.
fn or_dash(alloc: Global, operands: Sequence<Word>) -> Result<Sequence<Word>, NoMemory>
    ensures { IfOk result (λ words. words ≡ or_dash operands) }
{
    if !operands.is_empty() {
        return Ok(operands);
    }
    let mut words = Vec::new(alloc);
    words.push(Word::from_vec(Vec::from_slice(alloc, b"-")?))?;
    Ok(Sequence::from_vec(words))
}

// The delimiters: a tab if no list is given.
fn read_delimiters(
    alloc: Global,
    given: &[(Letter, Option<Word>)],
) -> Result<Sequence<Option<u8>>, BadWords>
    ensures { MeetsWords result (delimiters_of (argument letter_d given.now)) }
{
    match argument(given, b'd') {
        None => Ok(delimiters_in(alloc, b"\t")?),
        Some(list) => {
            if list.bytes().is_empty() {
                return Err(BadWords::at(ArgFault::BadList, list.place()));
            }
            Ok(delimiters_in(alloc, list.bytes())?)
        }
    }
}

// The delimiters of a list.
fn delimiters_in(alloc: Global, list: &[u8]) -> Result<Sequence<Option<u8>>, NoMemory>
    ensures { IfOk result (λ delimiters. delimiters ≡ elements list.now) }
{
    let mut delimiters = Vec::new(alloc);
    let mut rest = list;
    while let Some((element, after)) = first_element(rest) {
        delimiters.push(element)?;
        rest = after;
    }
    Ok(Sequence::from_vec(delimiters))
}

// The first delimiter of a list, and what follows it.
fn first_element(list: &[u8]) -> Option<(Option<u8>, &[u8])>
    ensures { MatchOption result (list.now ≡ [])
        (λ p. (elements list.now ≡ p.0 ∷ elements p.1.now) × (length p.1.now < length list.now)) }
{
    let (byte, after) = split_first(list)?;
    match split_first(after) {
        Some((next, behind)) if *byte == b'\\' => Some((escaped(*next), behind)),
        _ => Some((Some(*byte), after)),
    }
}

// The delimiter that a backslash and this byte mean.
fn escaped(byte: u8) -> Option<u8>
    ensures { result ≡ escaped byte }
{
    match byte {
        b'n' => Some(b'\n'),
        b't' => Some(b'\t'),
        b'0' => None,
        _ => Some(byte),
    }
}

// The names of inputs, and for each operand the number of its input.
#[derive(Drop)]
struct Named {
    inputs: Sequence<Word>,
    columns: Sequence<usize>,
}

// The inputs of these operands.
fn name_inputs(alloc: Global, operands: &[Word]) -> Result<Named, NoMemory>
    ensures { IfOk result
        (λ named. named ≡ record { inputs = names operands.now; columns = columns operands.now }) }
{
    let first = first_standard(operands);
    let mut names = Vec::new(alloc);
    let mut columns = Vec::new(alloc);
    for (p, word) in operands.iter().enumerate() {
        let column = column_of(word.bytes(), first, names.len());
        columns.push(column)?;
        add_name(alloc, &mut names, word, p == first)?;
    }
    Ok(Named {
        inputs: Sequence::from_vec(names),
        columns: Sequence::from_vec(columns),
    })
}

// Adds the name of an operand, unless it names the standard input and is not the first that does.
fn add_name(
    alloc: Global,
    names: &mut Vec<Word>,
    word: &Word,
    is_first: bool,
) -> Result<(), NoMemory>
    ensures { OnOk result
        (names.new.items
        ≡ names.old.items ++ (if is_first || not (is_standard_input word.now) then word.now ∷ [] else [])) }
{
    if !is_first && is_standard_input(word.bytes()) {
        return Ok(());
    }
    names.push(word.copied(alloc)?)?;
    Ok(())
}

// The number of an operand's input, if the first name of the standard input is at `first` and this many names come before
// the operand.
fn column_of(word: &[u8], first: usize, count: usize) -> usize
    ensures { result ≡ (if is_standard_input word.now then first else count) }
{
    if is_standard_input(word) {
        first
    } else {
        count
    }
}

// The place of the first name of the standard input.
fn first_standard(operands: &[Word]) -> usize
    ensures { result ≡ first_standard operands.now }
{
    for i in 0..operands.len() {
        if is_standard_input(operands[i].bytes()) {
            return i;
        }
    }
    operands.len()
}
