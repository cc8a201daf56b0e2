// Masks of a lane, the 64 bytes that a scan looks at together.
ghost use Rattle.std.specs.Prelude.{◌≡◌, ◌≢◌, ℕ, ◌+◌, ◌<◌, ◌≤◌, ◌∷◌, length, take, drop, map as list_map, not, slice_index, if◌then◌else◌};
ghost use Rattle.std.specs.Int.{bit_at};
ghost use Rattle.std.specs.List.{prefix_len};
ghost use Rattle.std.specs.Simd.Lanes.{mask_l};
ghost use Rattle.command_words.specs.Bytes.{is_blank_byte};
ghost use Rattle.byte_filters.specs.inner.Scans.{is_mover, past_blank};

use command_words::is_blank;
use std::simd::prelude::*;

// How many bytes are looked at at once.
pub(crate) const CHUNK: usize = 64;

// Of the lane at this place, a bit for each byte: whether it ends the line, or can move the column
// in its own way.
#[inline(always)]
fn mover_mask(bytes: &[u8], at: usize) -> u64
    requires { at + 64 ≤ length bytes.now }
    ensures { result ≡ mask_l (list_map is_mover (take 64 (drop at bytes.now))) }
{
    let lane = u8x64::from_slice(&bytes[at..]);
    let near = lane.simd_ge(u8x64::splat(8)) & lane.simd_le(u8x64::splat(10));
    (near | lane.simd_eq(u8x64::splat(13))).to_bitmask()
}

// Of the lane at this place, a bit for each byte: whether it is a blank.
#[inline(always)]
fn blank_mask(bytes: &[u8], at: usize) -> u64
    requires { at + 64 ≤ length bytes.now }
    ensures { result ≡ mask_l (list_map is_blank_byte (take 64 (drop at bytes.now))) }
{
    let lane = u8x64::from_slice(&bytes[at..]);
    (lane.simd_eq(u8x64::splat(b' ')) | lane.simd_eq(u8x64::splat(b'\t'))).to_bitmask()
}

// How many bytes of the lane at this place come before the first that ends the line, or can move
// the column in its own way.
#[inline(always)]
pub(crate) fn lane_run(bytes: &[u8], at: usize) -> usize
    requires { at + 64 ≤ length bytes.now }
    ensures { result ≡ prefix_len (λ x. not (is_mover x)) (take 64 (drop at bytes.now)) }
{
    let movers = mover_mask(bytes, at);
    if movers == 0 {
        return CHUNK;
    }
    movers.trailing_zeros() as usize
}

// 1 if it is so, otherwise 0.
#[inline(always)]
fn one_if(so: bool) -> u64
    ensures value { result ≡ (if so then 1 else 0) }
    ensures few { result ≤ 1 }
{
    u64::from(so)
}

// The bits of a mask, each one place higher, after a new lowest one.
#[inline(always)]
fn after(first: bool, mask: u64) -> u64
    ensures first { bit_at result 0 ≡ (if first then 1 else 0) }
    ensures later { (k : ℕ) → k < 63 → bit_at result (k + 1) ≡ bit_at mask k }
{
    (mask << 1) + one_if(first)
}

// The lowest bits of a mask, this many.
#[inline(always)]
fn lowest_bits(mask: u64, count: usize) -> u64
    requires { (1 ≤ count) × (count ≤ 64) }
    ensures low { (k : ℕ) → k < count → bit_at result k ≡ bit_at mask k }
    ensures high { (k : ℕ) → count ≤ k → bit_at result k ≡ 0 }
{
    mask & (u64::MAX >> (64 - count))
}

// The number of the highest bit that is set.
#[inline(always)]
fn highest(mask: u64) -> usize
    requires { mask ≢ 0 }
    ensures bound { result < 64 }
    ensures set { bit_at mask result ≡ 1 }
    ensures above { (k : ℕ) → result < k → bit_at mask k ≡ 0 }
{
    63 - mask.leading_zeros() as usize
}

// A bit for each of `count` bytes: whether it is a blank. The first is `last`, and those at this place
// follow it.
#[inline(always)]
fn run_blanks(last: u8, bytes: &[u8], at: usize, count: usize) -> u64
    requires room { at + 64 ≤ length bytes.now }
    requires count { (1 ≤ count) × (count ≤ 64) }
    ensures low { (k : ℕ) → k < count
        → bit_at result k
        ≡ (if is_blank_byte (slice_index (last ∷ drop at bytes.now) k) then 1 else 0) }
    ensures high { (k : ℕ) → count ≤ k → bit_at result k ≡ 0 }
{
    lowest_bits(after(is_blank(last), blank_mask(bytes, at)), count)
}

// The place after the last blank among `count` bytes, or `found` if there is none. The first of them
// is `last`, at this place.
#[inline(always)]
pub(crate) fn last_cut(found: usize, last: u8, bytes: &[u8], at: usize, count: usize) -> usize
    requires room { at + 65 ≤ length bytes.now }
    requires count { (1 ≤ count) × (count ≤ 64) }
    ensures { result ≡ past_blank found at count (last ∷ drop (at + 1) bytes.now) }
{
    let blanks = run_blanks(last, bytes, at + 1, count);
    if blanks == 0 {
        return found;
    }
    at + highest(blanks) + 1
}
