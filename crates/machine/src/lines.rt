ghost use Rattle.std.specs.Prelude.{◌≡◌, ◌≤◌, ◌==◌, false, count_by, length, drop, MatchOption};
ghost use Rattle.std.specs.List.{All};
ghost use Rattle.machine.specs.Lines.{content, newline};
ghost use Rattle.machine.specs.inner.Places.{FirstFrom};

use crate::lists::{prefix, skip};
use memchr::memchr;

/// The place of the first such byte from the place `at` on, if there is one.
pub fn find_from(bytes: &[u8], at: usize, byte: u8) -> Option<usize>
    requires { at ≤ length bytes.now }
    ensures { MatchOption result (All (λ x. (x == byte) ≡ false) (drop at bytes.now))
        (FirstFrom bytes.now byte at) }
{
    match memchr(byte, &bytes[at..]) {
        None => None,
        Some(k) => Some(at + k),
    }
}

// How many newlines there are among at most 240 bytes.
fn few_newlines(bytes: &[u8]) -> u8
    requires { length bytes.now ≤ 240 }
    ensures { result ≡ count_by (λ x. x == newline) bytes.now }
{
    let mut count = 0;
    for byte in bytes {
        count += u8::from(*byte == b'\n');
    }
    count
}

/// How many newlines there are.
pub fn newlines(bytes: &[u8]) -> usize
    ensures value { result ≡ count_by (λ x. x == newline) bytes.now }
    ensures few { result ≤ length bytes.now }
{
    let mut count = 0;
    let mut at = 0;
    while at < bytes.len() {
        let some = prefix(skip(bytes, at), 240);
        count += few_newlines(some) as usize;
        at += some.len();
    }
    count
}

/// A line without its newline (POSIX.1-2017 XBD 3.206).
pub fn line_content(line: &[u8]) -> &[u8]
    ensures { result.now ≡ content line.now }
{
    if line.is_empty() {
        return line;
    }
    let last = line.len() - 1;
    if line[last] == b'\n' {
        &line[..last]
    } else {
        line
    }
}
