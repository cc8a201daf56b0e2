ghost use Rattle.std.specs.Prelude.{◌≡◌};
ghost use Rattle.command_words.specs.inner.Refusals.{MeetsWords};
ghost use Rattle.commands.specs.UniqWords.{files_of, output_of, shown_of, uniq_means};

use crate::letters;
use command_words::{
    ArgFault, BadWords, Letter, Options, Sequence, Word, excluded, input_names, is_given,
    is_standard_output, number_given, place_of_word, split_options,
};
use std::alloc::Global;

// The pairs of options that exclude one another.
const APART: [(u8, u8); 3] = [(b'c', b'd'), (b'c', b'u'), (b'd', b'u')];

/// What uniq writes of a run.
#[derive(Clone, Copy, Debug, PartialEq, Eq)]
pub enum RunsShown {
    /// Its first line.
    Every,
    /// Its first line, after the number of its lines.
    Counted,
    /// Its first line, if it has two lines or more.
    Repeated,
    /// Its line, if it has only one.
    Single,
}

/// What uniq does.
#[derive(Drop)]
pub struct UniqSpec {
    /// How many fields at the beginning of a line are not compared.
    pub skipped_fields: u64,
    /// How many bytes after them are not compared.
    pub skipped_bytes: u64,
    pub shown: RunsShown,
    /// The name of its input; `-` is standard input.
    pub inputs: Sequence<Word>,
    /// The name of its output, or none for standard output.
    pub output: Option<Word>,
}

impl UniqSpec {
    /// What uniq does by these words, without its name.
    pub fn read(alloc: Global, words: &[Word]) -> Result<UniqSpec, BadWords>
        ensures { MeetsWords result (uniq_means words.now) }
    {
        let Options { given, operands } = split_options(alloc, words, letters::UNIQ)?;
        let shown = read_shown(given.as_slice())?;
        let (inputs, output) = read_files(alloc, operands)?;
        let skipped_fields = number_given(given.as_slice(), b'f', 0)?;
        let skipped_bytes = number_given(given.as_slice(), b's', 0)?;
        Ok(UniqSpec {
            skipped_fields,
            skipped_bytes,
            shown,
            inputs,
            output,
        })
    }
}

// Which runs are written.
fn read_shown(given: &[(Letter, Option<Word>)]) -> Result<RunsShown, BadWords>
    ensures { MeetsWords result (shown_of given.now) }
{
    match (
        is_given(given, b'c'),
        is_given(given, b'd'),
        is_given(given, b'u'),
    ) {
        (false, false, false) => Ok(RunsShown::Every),
        (true, false, false) => Ok(RunsShown::Counted),
        (false, true, false) => Ok(RunsShown::Repeated),
        (false, false, true) => Ok(RunsShown::Single),
        _ => Err(excluded(given, &APART)),
    }
}

// The names of the only input and of the output, if there is one.
fn read_files(
    alloc: Global,
    operands: Sequence<Word>,
) -> Result<(Sequence<Word>, Option<Word>), BadWords>
    ensures { MeetsWords result (files_of operands) }
{
    let mut names = operands.into_vec();
    if names.len() > 2 {
        return Err(BadWords::at(ArgFault::BadOperands, place_of_word(names.as_slice(), 2)));
    }
    if names.len() < 2 {
        return Ok((input_names(alloc, Sequence::from_vec(names))?, None));
    }
    let output = output_of(names.pop());
    Ok((Sequence::from_vec(names), output))
}

// The output with this name, if there is a name: none for a name of the standard output.
fn output_of(name: Option<Word>) -> Option<Word>
    ensures { result ≡ output_of name }
{
    match name {
        Some(word) => {
            if is_standard_output(word.bytes()) {
                return None;
            }
            Some(word)
        }
        None => None,
    }
}
