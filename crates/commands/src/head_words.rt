ghost use Rattle.std.specs.Prelude.{◌≡◌};
ghost use Rattle.command_words.specs.inner.Refusals.{MeetsWords};
ghost use Rattle.commands.specs.HeadWords.{head_means};

use crate::letters;
use command_words::{BadWords, Options, Sequence, Word, input_names, number_given, split_options};
use std::alloc::Global;

/// What head does.
#[derive(Drop)]
pub struct HeadSpec {
    /// How many lines are written of each input.
    pub count: u64,
    /// The names of its inputs; `-` is standard input.
    pub inputs: Sequence<Word>,
}

impl HeadSpec {
    /// What head does by these words, without its name.
    pub fn read(alloc: Global, words: &[Word]) -> Result<HeadSpec, BadWords>
        ensures { MeetsWords result (head_means words.now) }
    {
        let Options { given, operands } = split_options(alloc, words, letters::HEAD)?;
        let inputs = input_names(alloc, operands)?;
        let count = number_given(given.as_slice(), b'n', 10)?;
        Ok(HeadSpec { count, inputs })
    }
}
