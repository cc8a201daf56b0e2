// Runs of bytes in front, counted 64 at a time.
ghost use Rattle.std.specs.Prelude.{◌≡◌, ◌≤◌, length, take, nat_lt};
ghost use Rattle.std.specs.List.{prefix_len};

use crate::chunk::CHUNK;
use std::simd::prelude::*;

/// How many of the first 64 bytes come before the first that is at most this one, or 64.
#[inline(always)]
pub fn run_above(bytes: &[u8], byte: u8) -> usize
    requires { 64 ≤ length bytes.now }
    ensures { result ≡ prefix_len (λ x. nat_lt byte x) (take 64 bytes.now) }
{
    let low = u8x64::from_slice(bytes)
        .simd_le(u8x64::splat(byte))
        .to_bitmask();
    if low == 0 {
        return CHUNK;
    }
    low.trailing_zeros() as usize
}
