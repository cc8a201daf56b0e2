// Places of a byte, several at a time.
ghost use Rattle.std.specs.Prelude.{◌≡◌, ◌≢◌, ℕ, ◌+◌, ◌<◌, ◌≤◌, length, take};
ghost use Rattle.lanes.specs.inner.Walks.{HasPassed, Shows};

use crate::bits::without_lowest;
use crate::chunk::marks;

// Goes past `count - 1` places, and on to the next 64 places that have a bit set, or to the last.
#[inline(always)]
pub(crate) fn nth_marks(
    ahead: &[u8],
    len: usize,
    byte: u8,
    base: usize,
    left: u64,
    count: usize,
) -> (usize, u64)
    requires within { len ≤ length ahead.now }
    requires base { base ≤ length ahead.now }
    requires some { 1 ≤ count }
    ensures shows { (from : ℕ) → Shows (take len ahead.now) byte from base left
        → (n : ℕ) × (n < count) × (result.1 ≢ 0 → n + 1 ≡ count)
        × HasPassed (take len ahead.now) byte from n result.0 result.1 }
    ensures ended { result.1 ≡ 0 → len ≤ result.0 + 64 }
    ensures base { result.0 ≤ length ahead.now }
{
    let mut base = base;
    let mut left = left;
    let mut more = count - 1;
    while left == 0 || more > 0 {
        if left != 0 {
            left = without_lowest(left);
            more -= 1;
        } else if base + 64 < len {
            base += 64;
            left = marks(ahead, base, byte);
        } else {
            return (base, 0);
        }
    }
    (base, left)
}
