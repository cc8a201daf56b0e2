ghost use Rattle.std.specs.Prelude.{◌≡◌, ℕ, ◌+◌, ◌<◌, ◌≤◌, ◌++◌, ◌%◌, false, length, take, drop, map as list_map, slice_index, if◌then◌else◌, nat_le, IsTrue};
ghost use Rattle.std.specs.Int.{bit_at};
ghost use Rattle.std.specs.List.{All};
ghost use Rattle.std.specs.Simd.Lanes.{mask_l};
ghost use Rattle.lanes.specs.Spans.{in_span, in_spans, HasNoPair};

use std::simd::prelude::*;

/// A span of bytes: those that are at most `width` after `by` is added to them modulo 256.
#[derive(Clone, Copy)]
pub struct Span {
    pub by: u8,
    pub width: u8,
}

/// Returns whether a byte is in a span.
#[inline(always)]
pub fn is_in_span(span: Span, byte: u8) -> bool
    ensures { result ≡ in_span span byte }
{
    byte.wrapping_add(span.by) <= span.width
}

/// Returns whether a byte is in at least one of the spans.
#[inline(always)]
pub fn is_in_spans(spans: &[Span], byte: u8) -> bool
    ensures { result ≡ in_spans spans.now byte }
{
    for span in spans {
        if is_in_span(*span, byte) {
            return true;
        }
    }
    false
}

// Returns a bit for each of the 64 bytes from `at` on: 1 if it is in the span.
#[inline(always)]
fn span_mask(bytes: &[u8], at: usize, span: Span) -> u64
    requires { at + 64 ≤ length bytes.now }
    ensures { result
        ≡ mask_l
        (list_map (λ x. nat_le ((x + span.by) % 256) span.width) (take 64 (drop at bytes.now))) }
{
    (u8x64::from_slice(&bytes[at..]) + u8x64::splat(span.by))
        .simd_le(u8x64::splat(span.width))
        .to_bitmask()
}

// The same, bit by bit.
#[inline(always)]
fn span_marks(bytes: &[u8], at: usize, span: Span) -> u64
    requires { at + 64 ≤ length bytes.now }
    ensures { (k : ℕ) → k < 64
        → bit_at result k ≡ (if in_span span (slice_index bytes.now (at + k)) then 1 else 0) }
{
    span_mask(bytes, at, span)
}

// The same for several spans: 1 if it is in at least one of them.
#[inline(always)]
pub(crate) fn spans_marks(bytes: &[u8], at: usize, spans: &[Span]) -> u64
    requires { at + 64 ≤ length bytes.now }
    ensures { (k : ℕ) → k < 64
        → bit_at result k ≡ (if in_spans spans.now (slice_index bytes.now (at + k)) then 1 else 0) }
{
    let mut all = 0;
    for span in spans {
        all = either(all, span_marks(bytes, at, *span));
    }
    all
}

// Returns the bits that are set in either mask.
#[inline(always)]
fn either(a: u64, b: u64) -> u64
    ensures set { (k : ℕ) → bit_at a k ≡ 1 → bit_at result k ≡ 1 }
    ensures set_too { (k : ℕ) → bit_at b k ≡ 1 → bit_at result k ≡ 1 }
    ensures clear { (k : ℕ) → bit_at a k ≡ 0 → bit_at b k ≡ 0 → bit_at result k ≡ 0 }
{
    a | b
}

/// Returns true only if none of the 64 bytes from `at` on is in the spans.
#[inline(always)]
pub fn has_none(bytes: &[u8], at: usize, spans: &[Span]) -> bool
    requires { at + 64 ≤ length bytes.now }
    ensures { IsTrue result
        → All (λ x. in_spans spans.now x ≡ false) (take 64 (drop at bytes.now)) }
{
    spans_marks(bytes, at, spans) == 0
}

/// Returns true only if no two adjacent bytes of the 64 from `at` on are both in the spans. `before`
/// tells whether the byte before them is in the spans.
#[inline(always)]
pub fn has_no_pair(bytes: &[u8], at: usize, spans: &[Span], before: bool) -> bool
    requires { at + 64 ≤ length bytes.now }
    ensures { IsTrue result → HasNoPair (in_spans spans.now) before (take 64 (drop at bytes.now)) }
{
    if before && is_in_spans(spans, bytes[at]) {
        return false;
    }
    are_apart(spans_marks(bytes, at, spans))
}

// Returns true only if no two adjacent bits are set.
#[inline(always)]
fn are_apart(mask: u64) -> bool
    ensures { IsTrue result → (k : ℕ) → bit_at mask k ≡ 1 → bit_at mask (1 + k) ≡ 0 }
{
    mask & (mask >> 1) == 0
}

/// Copies 64 bytes to a place nearer to the front, over the bytes there.
#[inline(always)]
pub fn move_chunk(bytes: &mut [u8], from: usize, to: usize)
    requires order { to ≤ from }
    requires room { from + 64 ≤ length bytes.old }
    ensures moved { take (to + 64) bytes.new ≡ take to bytes.old ++ take 64 (drop from bytes.old) }
    ensures rest { drop (from + 64) bytes.new ≡ drop (from + 64) bytes.old }
    ensures long { length bytes.new ≡ length bytes.old }
{
    u8x64::from_slice(&bytes[from..]).copy_to_slice(&mut bytes[to..]);
}
