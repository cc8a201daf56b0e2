ghost use Rattle.std.specs.Prelude.{◌≡◌};
ghost use Rattle.command_words.specs.Arguments.{argument};
ghost use Rattle.command_words.specs.inner.Refusals.{MeetsWords};
ghost use Rattle.command_words.specs.Letters.{letter_w};
ghost use Rattle.commands.specs.FoldWords.{width_of, fold_means};

use crate::letters;
use command_words::{
    ArgFault, BadWords, Letter, Options, Sequence, Word, argument, input_names, is_given,
    read_number, split_options,
};
use std::alloc::Global;

/// What fold does: how wide a line may become, and where it is cut.
#[derive(Clone, Copy)]
pub struct FoldForm {
    /// Whether the width counts bytes, and not columns.
    pub bytes: bool,
    /// Whether a line is cut after a blank if it has one.
    pub spaces: bool,
    /// The most columns of a line, or bytes: at least 1.
    pub width: usize,
}

/// What fold does.
#[derive(Drop)]
pub struct FoldSpec {
    /// How lines are cut.
    pub form: FoldForm,
    /// The names of its inputs; `-` is standard input.
    pub inputs: Sequence<Word>,
}

impl FoldSpec {
    /// What fold does by these words, without its name.
    pub fn read(alloc: Global, words: &[Word]) -> Result<FoldSpec, BadWords>
        ensures { MeetsWords result (fold_means words.now) }
    {
        let Options { given, operands } = split_options(alloc, words, letters::FOLD)?;
        let inputs = input_names(alloc, operands)?;
        let width = width_of(given.as_slice())?;
        let form = FoldForm {
            bytes: is_given(given.as_slice(), b'b'),
            spaces: is_given(given.as_slice(), b's'),
            width,
        };
        Ok(FoldSpec { form, inputs })
    }
}

// The width that is given, or 80.
fn width_of(given: &[(Letter, Option<Word>)]) -> Result<usize, BadWords>
    ensures { MeetsWords result (width_of (argument letter_w given.now)) }
{
    let Some(word) = argument(given, b'w') else {
        return Ok(80);
    };
    match read_number(word.bytes()) {
        None | Some(0) => Err(BadWords::at(ArgFault::BadNumber, word.place())),
        Some(width) => Ok(width as usize),
    }
}
