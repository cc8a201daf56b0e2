ghost use Rattle.std.specs.Prelude.{◌≡◌};
ghost use Rattle.std.specs.List.{list_any};
ghost use Rattle.command_words.specs.Streams.{is_standard_output as is_output};
ghost use Rattle.command_words.specs.inner.Refusals.{MeetsWords};
ghost use Rattle.commands.specs.TeeWords.{tee_means};

use crate::letters;
use command_words::{
    ArgFault, BadWords, Options, Sequence, Span, Word, is_given, is_standard_output, split_options,
};
use std::alloc::Global;

/// What tee does.
#[derive(Drop)]
pub struct TeeSpec {
    /// Whether it writes after what its files hold.
    pub append: bool,
    /// The names of the files that it writes besides its standard output.
    pub outputs: Sequence<Word>,
}

impl TeeSpec {
    /// What tee does by these words, without its name. `-i` has no effect; an operand that names the standard output is refused.
    pub fn read(alloc: Global, words: &[Word]) -> Result<TeeSpec, BadWords>
        ensures { MeetsWords result (tee_means words.now) }
    {
        let Options { given, operands } = split_options(alloc, words, letters::TEE)?;
        if names_output(operands.as_slice()) {
            return Err(BadWords::at(ArgFault::BadOperands, place_of_output(operands.as_slice())));
        }
        Ok(TeeSpec {
            append: is_given(given.as_slice(), b'a'),
            outputs: operands,
        })
    }
}

// Whether one of the words names the standard output.
fn names_output(words: &[Word]) -> bool
    ensures { result ≡ list_any is_output words.now }
{
    words.iter().any(|word| is_standard_output(word.bytes()))
}

// The place of the first of the words that names the standard output.
fn place_of_output(words: &[Word]) -> Option<Span> {
    words
        .iter()
        .find(|word| is_standard_output(word.bytes()))?
        .place()
}
