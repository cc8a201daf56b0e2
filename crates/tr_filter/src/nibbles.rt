// Sets of bytes, by the two halves of a byte.
ghost use Rattle.std.specs.Prelude.{◌≡◌, ℕ, ◌<◌, ◌/◌, ◌%◌, Some, not, map as list_map, slice_index, IfSome, IsTrue};
ghost use Rattle.std.specs.Simd.Lanes.{mask_l};
ghost use Rattle.tr_filter.specs.inner.Nibbles.{is_left, Leaves};

use std::simd::prelude::*;

// A set of bytes. For each low half of a byte, a bit tells for each high half whether the byte is in the set. High halves below
// 8 are in `early`, and the others in `late`.
#[derive(Clone, Copy)]
pub(crate) struct Nibbles {
    pub early: [u8; 16],
    pub late: [u8; 16],
}

// The bit of each high half below 8.
static EARLY: [u8; 16] = [1, 2, 4, 8, 16, 32, 64, 128, 0, 0, 0, 0, 0, 0, 0, 0];

// The bit of each other high half.
static LATE: [u8; 16] = [0, 0, 0, 0, 0, 0, 0, 0, 1, 2, 4, 8, 16, 32, 64, 128];

// Whether a byte is not in the set.
fn is_left(nibbles: &Nibbles, byte: u8) -> bool
    ensures { result ≡ is_left nibbles.now byte }
{
    let low = (byte & 15) as usize;
    let high = (byte >> 4) as usize;
    (nibbles.early[low] & EARLY[high]) | (nibbles.late[low] & LATE[high]) == 0
}

// The tables of a set.
fn tables_of(set: &[bool; 256]) -> Nibbles {
    let mut early = [0; 16];
    let mut late = [0; 16];
    for index in 0..256usize {
        let (low, high) = (index % 16, index / 16);
        if set[index] {
            early[low] |= EARLY[high];
            late[low] |= LATE[high];
        }
    }
    Nibbles { early, late }
}

// Whether the tables have just the bytes of a set.
fn are_tables(set: &[bool; 256], nibbles: &Nibbles) -> bool
    ensures { IsTrue result → Leaves nibbles.now (Some set.now) }
{
    for index in 0..256usize {
        if is_left(nibbles, index as u8) != !set[index] {
            return false;
        }
    }
    true
}

// A set as such tables.
pub(crate) fn nibbles_of(set: &[bool; 256]) -> Option<Nibbles>
    ensures { IfSome result (λ nibbles. Leaves nibbles (Some set.now)) }
{
    let nibbles = tables_of(set);
    if are_tables(set, &nibbles) {
        Some(nibbles)
    } else {
        None
    }
}

// What a table has for the low half of each byte.
#[inline(always)]
fn by_low(table: &[u8; 16], lanes: u8x16) -> u8x16
    ensures { result ≡ list_map (λ x. slice_index table.now (x % 16)) lanes }
{
    u8x16::from_array(*table).swizzle_dyn(lanes & u8x16::splat(15))
}

// What a table has for the high half of each byte.
#[inline(always)]
fn by_high(table: &[u8; 16], lanes: u8x16) -> u8x16
    ensures { result ≡ list_map (λ x. slice_index table.now (x / 16)) lanes }
{
    u8x16::from_array(*table).swizzle_dyn(lanes >> u8x16::splat(4))
}

// A bit for each of these bytes: 1 if it is not in the set.
#[inline(always)]
pub(crate) fn left_marks(lanes: u8x16, nibbles: &Nibbles) -> u64
    ensures marks { result ≡ mask_l (list_map (λ x. is_left nibbles.now x) lanes) }
    ensures fit { (k : ℕ) → slice_index lanes k < 256 }
{
    let early = by_low(&nibbles.early, lanes) & by_high(&EARLY, lanes);
    let late = by_low(&nibbles.late, lanes) & by_high(&LATE, lanes);
    (early | late).simd_eq(u8x16::splat(0)).to_bitmask()
}
