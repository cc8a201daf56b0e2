// Words of commands. An action is the letters of the known options, with `:` after one that takes
// an argument, and then the words, with one blank between them. The result is the options with
// their arguments, a bar, and the operands; or why they are refused.
use super::*;
use command_words::{Options, copies, split_options};

#[derive(Drop)]
struct Words;

fn words_of(alloc: Global, with: &str) -> Result<Vec<Word>, Fail> {
    let mut words = Vec::new(alloc);
    if with.is_empty() {
        return Ok(words);
    }
    for text in with.split(' ') {
        words.push(word(alloc, text)?)?;
    }
    Ok(words)
}

fn add_option(out: &mut Vec<u8>, letter: u8, argument: Option<&Word>) -> Result<(), Fail> {
    out.push(letter)?;
    if let Some(word) = argument {
        out.push(b'=')?;
        out.extend_from_slice(word.bytes())?;
    }
    out.push(b' ')?;
    Ok(())
}

fn add_operands(out: &mut Vec<u8>, operands: &[Word]) -> Result<(), Fail> {
    for word in operands {
        out.push(b' ')?;
        out.extend_from_slice(word.bytes())?;
    }
    Ok(())
}

fn told(alloc: Global, options: &Options) -> Result<Vec<u8>, Fail> {
    let mut out = Vec::new(alloc);
    for (letter, argument) in options.given.as_slice() {
        add_option(&mut out, letter.byte(), argument.as_ref())?;
    }
    out.push(b'|')?;
    add_operands(&mut out, &copies(alloc, options.operands.as_slice())?)?;
    Ok(out)
}

fn split(alloc: Global, letters: &str, words: &[Word]) -> Result<Vec<u8>, Fail> {
    match split_options(alloc, words, letters.as_bytes()) {
        Ok(options) => told(alloc, &options),
        Err(fault) => shown(alloc, &fault),
    }
}

impl Bench for Words {
    fn act(&mut self, alloc: Global, action: &str, with: &str) -> Result<Vec<u8>, Fail> {
        split(alloc, action, &words_of(alloc, with)?)
    }
}

#[test]
fn option_words(rt: HostRuntime) -> Result<(), Fail> {
    play(
        rt.alloc(),
        &mut Words,
        10,
        r"b:c:f:d:ns -sf1 -d : -- -x -> s f=1 d=: | -x
b:c:f:d:ns - -s -> | - -s
b:c:f:d:ns -d -- -- -- -> d=-- | --
b:c:f:d:ns -ns a -n -> n s | a -n
b:c:f:d:ns -d  -> d= |
b:c:f:d:ns -> |
f:s -z -> A2 UnknownOption
f:s -: -> A2 UnknownOption
f:s -s -f -> A3 MissingArgument
f:s -sz -> A2 UnknownOption",
    )
}
