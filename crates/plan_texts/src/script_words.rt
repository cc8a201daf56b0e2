use crate::quoting::Words;
use command_words::Word;
use pipeline_text::{Cmd, Script};

// The command of this number, from 1 over all pipelines.
pub(crate) fn command(script: &Script, number: usize) -> Option<&Cmd> {
    let mut left = number.checked_sub(1)?;
    for pipeline in script.pipelines.as_slice() {
        let commands = pipeline.commands.as_slice();
        if left < commands.len() {
            return commands.get(left);
        }
        left -= commands.len();
    }
    None
}

// The words of the command of this number.
pub(crate) fn words(script: &Script, number: usize) -> &[Word] {
    match command(script, number) {
        Some(command) => command.words.as_slice(),
        None => &[],
    }
}

// The words of the command of this number, as they are printed.
pub(crate) fn shown_words(script: &Script, number: usize) -> Words<'_> {
    Words(words(script, number))
}
