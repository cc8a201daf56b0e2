ghost use Rattle.machine.specs.FrontLines.{FrontLines};

use crate::lines::{find_from, newlines};

/// The end of the first n lines in these bytes, and how many of them end or begin in what follows.
pub fn front_lines(bytes: &[u8], n: u64) -> (usize, u64)
    ensures { FrontLines bytes.now n result.0 result.1 }
{
    // If no line is left to be passed, none is counted.
    if n == 0 {
        return seek_lines(bytes, n);
    }
    let whole = newlines(bytes) as u64;
    if whole < n {
        return (bytes.len(), n - whole);
    }
    seek_lines(bytes, n)
}

// The same, line by line.
fn seek_lines(bytes: &[u8], n: u64) -> (usize, u64)
    ensures { FrontLines bytes.now n result.0 result.1 }
{
    let mut at = 0;
    let mut left = n;
    while left > 0 {
        match find_from(bytes, at, b'\n') {
            None => return (bytes.len(), left),
            Some(end) => {
                at = end + 1;
                left -= 1;
            }
        }
    }
    (at, left)
}
