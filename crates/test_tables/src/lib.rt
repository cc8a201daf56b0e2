// The tables of the tests: a script is a text of actions, one a line, each with its result after an
// arrow, as `reads -> 3`. Without an arrow the result is empty. %HH is the byte with that number.
#![tactic(auto)]

use std::alloc::Global;
use std::fmt::{Debug, Display};
use std::test::Fail;

/// What a script acts on.
pub trait Bench {
    /// Does what a line says, and returns the result.
    fn act(&mut self, alloc: Global, action: &str, with: &str) -> Result<Vec<u8>, Fail>;
}

/// Plays a script of `count` lines. It fails with the first line whose result is another one.
pub fn play<B: Bench>(
    alloc: Global,
    bench: &mut B,
    lines: usize,
    script: &str,
) -> Result<(), Fail> {
    let mut played = 0usize;
    for line in script.lines() {
        play_line(alloc, bench, line)?;
        played = played.saturating_add(1);
    }
    if played != lines {
        return Err(Fail::new(format_args!("{played} lines were played")));
    }
    Ok(())
}

// Plays a line.
fn play_line<B: Bench>(alloc: Global, bench: &mut B, line: &str) -> Result<(), Fail> {
    let (action, with, wanted) = parts(line);
    let answer = bench.act(alloc, action, with)?;
    let wanted = decoded(alloc, wanted)?;
    if answer.as_slice() != wanted.as_slice() {
        return Err(Fail::new(format_args!("{line}: the answer was {answer:?}")));
    }
    Ok(())
}

// The action of a line, its argument, and the result.
fn parts<'a>(line: &'a str) -> (&'a str, &'a str, &'a str) {
    let (action, wanted) = halves(line, " -> ");
    let (action, with) = halves(action, " ");
    (action, with, wanted)
}

/// What comes before a mark and after it; all and nothing if it is not there.
pub fn halves<'a>(text: &'a str, mark: &str) -> (&'a str, &'a str) {
    text.split_once(mark).unwrap_or((text, ""))
}

// What a digit of a code means.
fn digit(byte: u8) -> u8 {
    match byte {
        b'0'..=b'9' => byte - b'0',
        b'A'..=b'F' => byte - b'A' + 10,
        _ => 0,
    }
}

/// The bytes that a text means.
pub fn decoded(alloc: Global, text: &str) -> Result<Vec<u8>, Fail> {
    let mut bytes = Vec::new(alloc);
    let mut missing = 0;
    let mut code = 0u8;
    for byte in text.as_bytes() {
        if missing > 0 {
            missing -= 1;
            code = code.wrapping_mul(16).wrapping_add(digit(*byte));
            if missing == 0 {
                bytes.push(code)?;
            }
        } else if *byte == b'%' {
            missing = 2;
            code = 0;
        } else {
            bytes.push(*byte)?;
        }
    }
    Ok(bytes)
}

/// The result for a value, as it is printed.
pub fn shown<T: Display>(alloc: Global, value: &T) -> Result<Vec<u8>, Fail> {
    Ok(format!(in alloc; "{value}")?.into_bytes())
}

/// The result for a value, as it is printed for a reader of the source.
pub fn debugged<T: Debug>(alloc: Global, value: &T) -> Result<Vec<u8>, Fail> {
    Ok(format!(in alloc; "{value:?}")?.into_bytes())
}

/// The result for bytes.
pub fn bytes_of(alloc: Global, bytes: &[u8]) -> Result<Vec<u8>, Fail> {
    Ok(Vec::from_slice(alloc, bytes)?)
}

/// The result of an action that a bench does not know.
pub fn unknown() -> Result<Vec<u8>, Fail> {
    Err("there is no such action")?
}
