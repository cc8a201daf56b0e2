// In the scripts of these tests ? is a file that is not there, and the name - the standard input or output.
ghost use Rattle.std.specs.Prelude.{◌≤◌, IfOk};

use command_words::Word;
use run_types::{InName, OutName};
use std::alloc::Global;
use std::process::Abort;
use std::test::Fail;
use test_tables::{Bench, bytes_of, debugged, decoded, halves, play, shown, unknown};

mod columns;
mod desk;
mod faults;
mod memory;
mod options;
mod outputs;
mod pair;
mod pipes;
mod watching;

fn holds(rt: &impl Abort, answer: &[u8], wanted: &[u8], line: &str) {
    assert_eq!(rt; answer, wanted, "{line}");
}

// The number that a text means, which is not 0.
fn number(text: &str) -> Result<usize, Fail>
    ensures { IfOk result (λ number. 1 ≤ number) }
{
    let number: usize = text.parse()?;
    if number == 0 {
        return Err("the number is 0")?;
    }
    Ok(number)
}

// No result.
fn done(alloc: Global) -> Result<Vec<u8>, Fail> {
    Ok(Vec::new(alloc))
}

fn word(alloc: Global, name: &str) -> Result<Word, Fail> {
    Ok(Word::from_vec(decoded(alloc, name)?))
}

// What an input is opened by.
fn in_name(alloc: Global, name: &str) -> Result<InName, Fail> {
    if name == "-" {
        return Ok(InName::Standard);
    }
    Ok(InName::File(word(alloc, name)?))
}

// What an output is opened by.
fn out_name(alloc: Global, name: &str, append: bool) -> Result<OutName, Fail> {
    if name == "-" {
        return Ok(OutName::Standard);
    }
    let name = word(alloc, name)?;
    Ok(OutName::File { name, append })
}
