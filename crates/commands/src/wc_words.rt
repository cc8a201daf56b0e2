ghost use Rattle.std.specs.Prelude.{◌≡◌};
ghost use Rattle.command_words.specs.inner.Refusals.{MeetsWords};
ghost use Rattle.commands.specs.WcWords.{wc_spec, wc_means};

use crate::letters;
use command_words::{
    ArgFault, BadWords, Options, Sequence, Word, excluded, is_given, names_input_once,
    place_of_input, split_options,
};
use std::alloc::Global;

/// What wc does: which numbers it writes, and the operands that name its inputs.
#[derive(Drop)]
pub struct WcSpec {
    /// Whether newlines are counted.
    pub lines: bool,
    /// Whether words are counted.
    pub words: bool,
    /// Whether bytes are counted.
    pub bytes: bool,
    /// The inputs' names; none if standard input is read without an operand.
    pub operands: Sequence<Word>,
}

// What is counted: what an option asks for, or all if none is given.
fn wc_spec(options: Options) -> WcSpec
    ensures { result ≡ wc_spec options }
{
    let given = options.given.as_slice();
    let all = given.is_empty();
    WcSpec {
        lines: is_given(given, b'l') || all,
        words: is_given(given, b'w') || all,
        bytes: is_given(given, b'c') || is_given(given, b'm') || all,
        operands: options.operands,
    }
}

impl WcSpec {
    /// What the words after `wc` mean.
    pub fn read(alloc: Global, words: &[Word]) -> Result<WcSpec, BadWords>
        ensures { MeetsWords result (wc_means words.now) }
    {
        let options = split_options(alloc, words, letters::WC)?;
        let given = options.given.as_slice();
        if is_given(given, b'c') && is_given(given, b'm') {
            return Err(excluded(given, &[(b'c', b'm')]));
        }
        if !names_input_once(options.operands.as_slice()) {
            let place = place_of_input(options.operands.as_slice(), 1);
            return Err(BadWords::at(ArgFault::BadOperands, place));
        }
        Ok(wc_spec(options))
    }
}
