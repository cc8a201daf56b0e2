ghost use Rattle.std.specs.Prelude.{◌≡◌, ℕ, ◌+◌, ◌<◌, ◌≤◌, ◌==◌, length, take, drop, slice_index, if◌then◌else◌, IsTrue};
ghost use Rattle.std.specs.Int.{bit_at};
ghost use Rattle.lanes.specs.inner.Doubles.{HasNoDouble};
ghost use Rattle.lanes.specs.Spans.{in_spans};

use crate::span::{Span, spans_marks};
use std::simd::prelude::*;

// Of the chunk at this place, a bit for each byte: whether it is the same as the next one.
#[inline(always)]
pub(crate) fn same_marks(bytes: &[u8], at: usize) -> u64
    requires { at + 65 ≤ length bytes.now }
    ensures { (k : ℕ) → k < 64
        → bit_at result k ≡ (if slice_index bytes.now (at + k) == slice_index bytes.now (at + k + 1) then 1 else 0) }
{
    u8x64::from_slice(&bytes[at..])
        .simd_eq(u8x64::from_slice(&bytes[at + 1..]))
        .to_bitmask()
}

/// Whether none of the 64 bytes at this place that is in the spans is the same as the next one.
#[inline(always)]
pub fn has_no_double(bytes: &[u8], at: usize, spans: &[Span]) -> bool
    requires { at + 65 ≤ length bytes.now }
    ensures { IsTrue result → HasNoDouble (in_spans spans.now) (take 64 (drop at bytes.now)) }
{
    are_disjoint(spans_marks(bytes, at, spans), same_marks(bytes, at))
}

// Whether no bit is set in both.
#[inline(always)]
fn are_disjoint(a: u64, b: u64) -> bool
    ensures { IsTrue result → (k : ℕ) → bit_at a k ≡ 1 → bit_at b k ≡ 0 }
{
    a & b == 0
}
