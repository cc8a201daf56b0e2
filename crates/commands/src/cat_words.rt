ghost use Rattle.std.specs.Prelude.{◌≡◌};
ghost use Rattle.command_words.specs.inner.Refusals.{MeetsWords};
ghost use Rattle.commands.specs.CatWords.{cat_means};

use crate::letters;
use command_words::{BadWords, Sequence, Word, input_names, split_options};
use std::alloc::Global;

/// What cat does.
#[derive(Drop)]
pub struct CatSpec {
    /// The names of its inputs; `-` is standard input.
    pub inputs: Sequence<Word>,
}

impl CatSpec {
    /// What cat does by these words, without its name. `-u` has no effect.
    pub fn read(alloc: Global, words: &[Word]) -> Result<CatSpec, BadWords>
        ensures { MeetsWords result (cat_means words.now) }
    {
        let options = split_options(alloc, words, letters::CAT)?;
        let inputs = input_names(alloc, options.operands)?;
        Ok(CatSpec { inputs })
    }
}
