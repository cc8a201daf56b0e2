ghost use Rattle.std.specs.Prelude.{◌≡◌, ◌+◌, ◌≤◌, ◌==◌, count_by, length, take, drop, map as list_map, not, if◌then◌else◌};
ghost use Rattle.std.specs.Simd.Lanes.{mask_l};
ghost use Rattle.machine.specs.Lines.{newline};
ghost use Rattle.command_words.specs.Bytes.{is_space};
ghost use Rattle.commands.specs.Wc.{words_after};

use std::simd::prelude::*;

// How many bytes are looked at at once.
pub(crate) const CHUNK: usize = 64;

// Of the chunk at this place, a bit for each byte: whether it is in the class `space`.
#[inline(always)]
fn space_mask(bytes: &[u8], at: usize) -> u64
    requires { at + 64 ≤ length bytes.now }
    ensures { result ≡ mask_l (list_map is_space (take 64 (drop at bytes.now))) }
{
    let chunk = u8x64::from_slice(&bytes[at..]);
    let controls = chunk.simd_ge(u8x64::splat(9)) & chunk.simd_le(u8x64::splat(13));
    (controls | chunk.simd_eq(u8x64::splat(32))).to_bitmask()
}

// 1 if no byte of a word comes before, otherwise 0.
#[inline(always)]
fn gap(before: bool) -> u64
    ensures value { result ≡ (if not before then 1 else 0) }
    ensures few { result ≤ 1 }
{
    u64::from(!before)
}

// How many words begin among the 64 bytes at this place, if `before` says whether a byte of a word
// comes before them.
#[inline(always)]
pub(crate) fn starts(before: bool, bytes: &[u8], at: usize) -> usize
    requires { at + 64 ≤ length bytes.now }
    ensures value { result ≡ words_after before (take 64 (drop at bytes.now)) }
    ensures few { result ≤ 64 }
{
    let here = space_mask(bytes, at);
    let previous = (here << 1) + gap(before);
    (previous & !here).count_ones() as usize
}

// Of the chunk at this place, a bit for each byte: whether it is a newline.
#[inline(always)]
fn newline_mask(bytes: &[u8], at: usize) -> u64
    requires { at + 64 ≤ length bytes.now }
    ensures { result ≡ mask_l (list_map (λ x. x == newline) (take 64 (drop at bytes.now))) }
{
    u8x64::from_slice(&bytes[at..])
        .simd_eq(u8x64::splat(b'\n'))
        .to_bitmask()
}

// How many newlines there are among the 64 bytes at this place.
#[inline(always)]
pub(crate) fn line_ends(bytes: &[u8], at: usize) -> usize
    requires { at + 64 ≤ length bytes.now }
    ensures value { result ≡ count_by (λ x. x == newline) (take 64 (drop at bytes.now)) }
    ensures few { result ≤ 64 }
{
    newline_mask(bytes, at).count_ones() as usize
}
