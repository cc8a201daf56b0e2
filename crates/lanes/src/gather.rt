// Chunks from which bytes are taken out.
ghost use Rattle.std.specs.Prelude.{◌≡◌, ℕ, ◌+◌, ◌++◌, ◌<◌, ◌≤◌, ◌==◌, ◌&&◌, length, take, drop, slice_index, if◌then◌else◌, IfSome};
ghost use Rattle.std.specs.Int.{bit_at};
ghost use Rattle.lanes.specs.inner.Gathers.{unmarked, singled};
ghost use Rattle.lanes.specs.Spans.{in_spans};

use crate::bits::{lowest, without};
use crate::double::same_marks;
use crate::span::{Span, spans_marks};
use std::simd::prelude::*;

// No more bytes of a chunk are taken out run by run: the time goes with their number.
const MANY: u32 = 8;

/// Writes to the front of `few` the 64 bytes from `at` on, but for those that are in a span and the
/// same as the byte before. `gone` tells whether the first is left out. Returns their number, or
/// None if many are left out.
#[inline(always)]
pub fn single_chunk(
    bytes: &[u8],
    at: usize,
    spans: &[Span],
    gone: bool,
    few: &mut [u8],
) -> Option<usize>
    requires bytes { at + 128 ≤ length bytes.now }
    requires few { length few.old ≡ 128 }
    ensures left { IfSome result
        (λ count. (count ≤ 64)
        × (take count few.new
        ≡ singled (in_spans spans.now) gone (take 64 (drop at bytes.now)))) }
    ensures long { length few.new ≡ length few.old }
{
    let doubled = both(spans_marks(bytes, at, spans), same_marks(bytes, at));
    let all = after(gone, doubled);
    if all.count_ones() > MANY {
        return None;
    }
    Some(gather(bytes, at, all, few))
}

/// Copies the first 64 of these bytes to a place.
#[inline(always)]
pub fn put_few(bytes: &mut [u8], to: usize, few: &[u8])
    requires room { to + 64 ≤ length bytes.old }
    requires few { 64 ≤ length few.now }
    ensures copied { take (to + 64) bytes.new ≡ take to bytes.old ++ take 64 few.now }
    ensures rest { (n : ℕ) → to + 64 ≤ n → n ≤ length bytes.old → drop n bytes.new ≡ drop n bytes.old }
    ensures long { length bytes.new ≡ length bytes.old }
{
    u8x64::from_slice(few).copy_to_slice(&mut bytes[to..]);
}

// Returns the bits that are set in both masks.
#[inline(always)]
fn both(a: u64, b: u64) -> u64
    ensures set { (k : ℕ) → bit_at a k ≡ 1 → bit_at result k ≡ bit_at b k }
    ensures clear { (k : ℕ) → bit_at a k ≡ 0 → bit_at result k ≡ 0 }
{
    a & b
}

// Returns the bits of a mask, each one place higher, after a new lowest one.
#[inline(always)]
fn after(first: bool, mask: u64) -> u64
    ensures first { bit_at result 0 ≡ (if first then 1 else 0) }
    ensures later { (k : ℕ) → k < 63 → bit_at result (k + 1) ≡ bit_at mask k }
{
    (mask << 1) + one_if(first)
}

// Returns 1 if it is so, otherwise 0.
#[inline(always)]
fn one_if(so: bool) -> u64
    ensures value { result ≡ (if so then 1 else 0) }
    ensures few { result ≤ 1 }
{
    u64::from(so)
}

// Copies 64 bytes from one place to another.
#[inline(always)]
fn copy_run(bytes: &[u8], from: usize, few: &mut [u8], to: usize)
    requires from { from + 64 ≤ length bytes.now }
    requires to { to + 64 ≤ length few.old }
    ensures copied { take (to + 64) few.new ≡ take to few.old ++ take 64 (drop from bytes.now) }
    ensures long { length few.new ≡ length few.old }
{
    u8x64::from_slice(&bytes[from..]).copy_to_slice(&mut few[to..]);
}

// Writes to the front of `few` those of the 64 bytes from `at` on whose bits are 0, and returns
// their number.
#[inline(always)]
fn gather(bytes: &[u8], at: usize, gone: u64, few: &mut [u8]) -> usize
    requires bytes { at + 128 ≤ length bytes.now }
    requires few { length few.old ≡ 128 }
    ensures left { take result few.new ≡ unmarked gone 0 (take 64 (drop at bytes.now)) }
    ensures bound { result ≤ 64 }
    ensures long { length few.new ≡ length few.old }
{
    let mut left = gone;
    let mut from = 0;
    let mut to = 0;
    'runs: while left != 0 {
        let place = lowest(left);
        copy_run(bytes, at + from, few, to);
        to += place - from;
        from = place + 1;
        left = without(left, place);
    }
    copy_run(bytes, at + from, few, to);
    to + (64 - from)
}
