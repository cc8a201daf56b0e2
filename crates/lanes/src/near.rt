ghost use Rattle.std.specs.Prelude.{◌≡◌, ◌+◌, ◌≤◌, ◌==◌, false, length, drop, IfSome, MatchOption};
ghost use Rattle.std.specs.List.{All};
ghost use Rattle.machine.specs.inner.Places.{FirstFrom};

use crate::chunk::{CHUNK, chunk_marks};
use machine::find_from;

/// Returns the first place of the byte from `at` on, or None if there is none. A near one is found
/// fast.
#[inline(always)]
pub fn find_near(bytes: &[u8], at: usize, byte: u8) -> Option<usize>
    requires { at ≤ length bytes.now }
    ensures { MatchOption result (All (λ x. (x == byte) ≡ false) (drop at bytes.now))
        (FirstFrom bytes.now byte at) }
{
    if bytes.len() - at >= CHUNK
        && let Some(place) = find_in_chunk(bytes, at, byte)
    {
        return Some(place);
    }
    find_from(bytes, at, byte)
}

// Returns the first place of the byte from `at` on if it is in the next 64 bytes.
#[inline(always)]
fn find_in_chunk(bytes: &[u8], at: usize, byte: u8) -> Option<usize>
    requires { at + 64 ≤ length bytes.now }
    ensures { IfSome result (FirstFrom bytes.now byte at) }
{
    let marks = chunk_marks(bytes, at, byte);
    if marks == 0 {
        return None;
    }
    Some(at + marks.trailing_zeros() as usize)
}
