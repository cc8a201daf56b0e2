// Whether bytes are the same, 64 at a time.
ghost use Rattle.std.specs.Prelude.{◌≡◌, ◌≢◌, ℕ, ◌<◌, ◌≤◌, ◌==◌, true, length, take, slice_index, if◌then◌else◌};
ghost use Rattle.std.specs.Int.{bit_at};
ghost use Rattle.std.specs.Str.{bytes_eq};
ghost use Rattle.lanes.specs.inner.Prefixes.{prefix_bytes};

use crate::bits::lowest;
use crate::prefix::Prefix;
use std::simd::prelude::*;

// How many bytes are compared first.
const EARLY: usize = 16;

/// Whether these are the same bytes.
#[inline(always)]
pub fn are_same(a: Prefix, b: Prefix) -> bool
    ensures { result ≡ bytes_eq (prefix_bytes a.entry) (prefix_bytes b.entry) }
{
    if a.len() != b.len() {
        return false;
    }
    match (a.chunk(), b.chunk()) {
        (Some(x), Some(y)) => !differ_early(x, y, a.len()) && first_difference(x, y) >= a.len(),
        _ => a.bytes() == b.bytes(),
    }
}

// Whether two chunks differ at one of their first `len` places, as far as the first 16 tell.
#[inline(always)]
fn differ_early(a: &[u8], b: &[u8], len: usize) -> bool
    requires a { length a.now ≡ 64 }
    requires b { length b.now ≡ 64 }
    ensures { result ≡ true → (k : ℕ) × (k < len) × (slice_index a.now k ≢ slice_index b.now k) }
{
    let marks = early_differences(a, b);
    if marks == 0 {
        return false;
    }
    let place = lowest(marks);
    place < EARLY && place < len
}

// A bit for each of the first 16 places of two chunks: whether they differ there.
#[inline(always)]
fn early_differences(a: &[u8], b: &[u8]) -> u64
    requires a { length a.now ≡ 64 }
    requires b { length b.now ≡ 64 }
    ensures { (k : ℕ) → k < 16
        → bit_at result k ≡ (if slice_index a.now k == slice_index b.now k then 0 else 1) }
{
    u8x16::from_slice(a)
        .simd_ne(u8x16::from_slice(b))
        .to_bitmask()
}

// The first place at which two chunks differ, or 64.
#[inline(always)]
fn first_difference(a: &[u8], b: &[u8]) -> usize
    requires a { length a.now ≡ 64 }
    requires b { length b.now ≡ 64 }
    ensures most { result ≤ 64 }
    ensures before { (k : ℕ) → k < result → slice_index a.now k ≡ slice_index b.now k }
    ensures there { result < 64 → slice_index a.now result ≢ slice_index b.now result }
{
    let marks = differences(a, b);
    if marks == 0 { 64 } else { lowest(marks) }
}

// A bit for each place of two chunks: whether they differ there.
#[inline(always)]
fn differences(a: &[u8], b: &[u8]) -> u64
    requires a { length a.now ≡ 64 }
    requires b { length b.now ≡ 64 }
    ensures { (k : ℕ) → k < 64
        → bit_at result k ≡ (if slice_index a.now k == slice_index b.now k then 0 else 1) }
{
    u8x64::from_slice(a)
        .simd_ne(u8x64::from_slice(b))
        .to_bitmask()
}
