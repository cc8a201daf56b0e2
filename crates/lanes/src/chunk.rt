// Which of the next 64 bytes pass a test.
ghost use Rattle.std.specs.Prelude.{◌≡◌, ℕ, ◌+◌, ◌<◌, ◌≤◌, ◌==◌, ◌++◌, length, take, drop, map as list_map, slice_index, if◌then◌else◌};
ghost use Rattle.std.specs.Int.{bit_at};
ghost use Rattle.std.specs.Simd.Lanes.{mask_l};

use std::simd::prelude::*;

// The number of bytes that are read or copied at once.
pub(crate) const CHUNK: usize = 64;

// Returns a bit for each of the 64 bytes from `at` on: 1 if it is this byte.
#[inline(always)]
pub(crate) fn chunk_marks(bytes: &[u8], at: usize, byte: u8) -> u64
    requires { at + 64 ≤ length bytes.now }
    ensures { result ≡ mask_l (list_map (λ x. x == byte) (take 64 (drop at bytes.now))) }
{
    u8x64::from_slice(&bytes[at..])
        .simd_eq(u8x64::splat(byte))
        .to_bitmask()
}

// The same if fewer bytes may be left. The bits of places after the end mean nothing.
#[inline(always)]
pub(crate) fn marks(bytes: &[u8], at: usize, byte: u8) -> u64
    requires { at ≤ length bytes.now }
    ensures { (k : ℕ) → k < 64 → at + k < length bytes.now
        → bit_at result k ≡ (if slice_index bytes.now (at + k) == byte then 1 else 0) }
{
    if bytes.len() - at >= CHUNK {
        chunk_marks(bytes, at, byte)
    } else {
        few_marks(&bytes[at..], byte)
    }
}

// The same for fewer than 64 bytes.
#[inline(never)]
fn few_marks(bytes: &[u8], byte: u8) -> u64
    requires { length bytes.now < 64 }
    ensures { (k : ℕ) → k < length bytes.now
        → bit_at result k ≡ (if slice_index bytes.now k == byte then 1 else 0) }
{
    let mut few = [0; 64];
    copy_front(&mut few, bytes);
    chunk_marks(&few, 0, byte)
}

// Copies bytes to the front of others.
fn copy_front(to: &mut [u8], from: &[u8])
    requires { length from.now ≤ length to.old }
    ensures { to.new ≡ from.now ++ drop (length from.now) to.old }
{
    to[..from.len()].copy_from_slice(from);
}
