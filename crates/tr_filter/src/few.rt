// One or two spans of bytes.
ghost use Rattle.std.specs.Prelude.{◌≡◌, ℕ, Some, false, ◌+◌, ◌<◌, ◌≤◌, ◌||◌, length, take, drop, map as list_map, slice_index, if◌then◌else◌, IfSome, IsTrue};
ghost use Rattle.std.specs.List.{All};
ghost use Rattle.lanes.specs.Spans.{in_span};
ghost use Rattle.tr_filter.specs.inner.FewSpans.{in_few, Covers};

use crate::spans::spans_of;
use lanes::{Span, is_in_span};
use std::simd::prelude::*;

// The bytes of one span, or of two.
#[derive(Clone, Copy)]
pub(crate) enum Few {
    One(Span),
    Two(Span, Span),
}

// Whether a byte is in one of them.
fn is_in_few(few: Few, byte: u8) -> bool
    ensures { result ≡ in_few few byte }
{
    match few {
        Few::One(span) => is_in_span(span, byte),
        Few::Two(first, second) => is_in_span(first, byte) || is_in_span(second, byte),
    }
}

// Whether each byte of a set is in one of them.
fn covers(few: Few, set: &[bool; 256]) -> bool
    ensures { IsTrue result → Covers few (Some set.now) }
{
    for index in 0..256usize {
        if set[index] && !is_in_few(few, index as u8) {
            return false;
        }
    }
    true
}

// One or two spans that cover a set, if no more are needed.
pub(crate) fn few_of(set: &[bool; 256]) -> Option<Few>
    ensures { IfSome result (λ few. Covers few (Some set.now)) }
{
    let spans = spans_of(&Some(*set));
    let few = match spans.count {
        0 | 1 => Few::One(spans.spans[0]),
        2 => Few::Two(spans.spans[0], spans.spans[1]),
        _ => return None,
    };
    if covers(few, set) { Some(few) } else { None }
}

// For each of these bytes 255 if it is in the span, and 0 if not.
#[inline(always)]
fn inside(lanes: u8x64, span: Span) -> u8x64
    ensures { result ≡ list_map (λ x. if in_span span x then 255 else 0) lanes }
{
    (lanes + u8x64::splat(span.by))
        .simd_le(u8x64::splat(span.width))
        .select(u8x64::splat(255), u8x64::splat(0))
}

// Whether each of these bytes is 0.
#[inline(always)]
fn are_zero(lanes: u8x64) -> bool
    ensures { IsTrue result → (k : ℕ) → k < 64 → slice_index lanes k ≡ 0 }
{
    lanes.simd_ne(u8x64::splat(0)).to_bitmask() == 0
}

// Whether none of the 64 bytes at this place is in the span.
#[inline(always)]
fn has_none_of_one(bytes: &[u8], at: usize, span: Span) -> bool
    requires { at + 64 ≤ length bytes.now }
    ensures { IsTrue result → All (λ x. in_span span x ≡ false) (take 64 (drop at bytes.now)) }
{
    are_zero(inside(u8x64::from_slice(&bytes[at..]), span))
}

// The same of two spans.
#[inline(always)]
fn has_none_of_two(bytes: &[u8], at: usize, first: Span, second: Span) -> bool
    requires { at + 64 ≤ length bytes.now }
    ensures { IsTrue result
        → All (λ x. (in_span first x || in_span second x) ≡ false) (take 64 (drop at bytes.now)) }
{
    let lanes = u8x64::from_slice(&bytes[at..]);
    are_zero(inside(lanes, first) | inside(lanes, second))
}

// Whether none of the 64 bytes at this place is in one of them.
#[inline(always)]
pub(crate) fn has_none_of(bytes: &[u8], at: usize, few: Few) -> bool
    requires { at + 64 ≤ length bytes.now }
    ensures { IsTrue result → All (λ x. in_few few x ≡ false) (take 64 (drop at bytes.now)) }
{
    match few {
        Few::One(span) => has_none_of_one(bytes, at, span),
        Few::Two(first, second) => has_none_of_two(bytes, at, first, second),
    }
}
