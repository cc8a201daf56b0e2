// Sixteen bytes of which some go.
ghost use Rattle.std.specs.Prelude.{◌≡◌, ℕ, Bool, ◌+◌, ◌++◌, ◌<◌, ◌≤◌, length, take, drop, map as list_map, slice_index};
ghost use Rattle.std.specs.Int.RustNames.{count_ones};
ghost use Rattle.std.specs.List.{filter};
ghost use Rattle.std.specs.Simd.Lanes.{mask_l};
ghost use Rattle.tr_filter.specs.inner.Nibbles.{is_left};

use crate::nibbles::{Nibbles, left_marks};
use crate::places::places;
use std::simd::prelude::*;

// Those of the first eight bytes whose bits are set, and then others.
#[inline(always)]
fn front(lanes: u8x16, marks: u64) -> u8x8
    requires { marks < 256 }
    ensures { (p : ℕ → Bool) → marks ≡ mask_l (list_map p (take 8 lanes))
        → take (count_ones marks) result ≡ filter p (take 8 lanes) }
{
    lanes.swizzle_dyn(places(marks)).extract::<0, 8>()
}

// Writes eight bytes to a place.
#[inline(always)]
fn put_lanes(bytes: &mut [u8], to: usize, lanes: u8x8)
    requires room { to + 8 ≤ length bytes.old }
    ensures copied { take (to + 8) bytes.new ≡ take to bytes.old ++ lanes }
    ensures rest { (n : ℕ) → to + 8 ≤ n → n ≤ length bytes.old → drop n bytes.new ≡ drop n bytes.old }
    ensures long { length bytes.new ≡ length bytes.old }
{
    lanes.copy_to_slice(&mut bytes[to..]);
}

// Writes those of the first eight bytes whose bits are set to a place, and returns the place after them.
#[inline(always)]
fn put_eight(bytes: &mut [u8], to: usize, lanes: u8x16, marks: u64) -> usize
    requires room { to + 8 ≤ length bytes.old }
    requires marks { marks < 256 }
    ensures put { (p : ℕ → Bool) → marks ≡ mask_l (list_map p (take 8 lanes))
        → take result bytes.new ≡ take to bytes.old ++ filter p (take 8 lanes) }
    ensures rest { (n : ℕ) → to + 8 ≤ n → n ≤ length bytes.old → drop n bytes.new ≡ drop n bytes.old }
    ensures within { result ≤ to + 8 }
    ensures long { length bytes.new ≡ length bytes.old }
{
    put_lanes(bytes, to, front(lanes, marks));
    to + marks.count_ones() as usize
}

// The last eight bytes, and then the first eight.
#[inline(always)]
fn turned(lanes: u8x16) -> u8x16
    ensures { take 8 result ≡ drop 8 lanes }
{
    lanes.rotate_elements_left::<8>()
}

// Writes those of the sixteen bytes at `from` that are not in the set to `kept`, and returns the place after them.
#[inline(always)]
pub(crate) fn keep_sixteen(bytes: &mut [u8], from: usize, kept: usize, gone: &Nibbles) -> usize
    requires order { kept ≤ from }
    requires room { from + 16 ≤ length bytes.old }
    ensures made { take result bytes.new
        ≡ take kept bytes.old ++ filter (is_left gone.now) (take 16 (drop from bytes.old)) }
    ensures fit { (k : ℕ) → slice_index (take 16 (drop from bytes.old)) k < 256 }
    ensures rest { drop (from + 16) bytes.new ≡ drop (from + 16) bytes.old }
    ensures within { result ≤ kept + 16 }
    ensures long { length bytes.new ≡ length bytes.old }
{
    let lanes = u8x16::from_slice(&bytes[from..]);
    let marks = left_marks(lanes, gone);
    let middle = put_eight(bytes, kept, lanes, marks % 256);
    put_eight(bytes, middle, turned(lanes), marks / 256)
}
