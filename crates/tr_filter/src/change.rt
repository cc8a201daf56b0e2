ghost use Rattle.std.specs.Prelude.{◌≡◌, ℕ, List, ◌≤◌, length, take, not, map as list_map, slice_index};
ghost use Rattle.tr_filter.specs.Shifts.{changed};
ghost use Rattle.tr_words.specs.Tr.{translated, in_set};

use crate::chunks::place;
use crate::deleting::{Deleting, delete, deleting_of};
use crate::moves::{Moves, move_over, moves_of};
use crate::plain::{Plain, is_plain};
use crate::ranges::{Ranges, range_over, ranges_of};
use crate::shift::{Shift, shift_of, shift_over};
use tr_words::TrSpec;

// How bytes are deleted and translated.
#[derive(Clone, Copy)]
pub(crate) enum Change {
    // None is deleted, and none changes.
    Leaves(Plain),
    // None is deleted, and those of a range move.
    Shifts(Shift),
    // None is deleted, and those of two ranges move.
    Moved(Moves),
    // None is deleted, and those of a few ranges move or become one byte.
    Ranged(Ranges),
    // None is deleted, and each becomes what the table has for it.
    Maps([u8; 256]),
    // Some are deleted, and the others do not change.
    Deletes(Deleting),
    // Some are deleted, and the others become what the table has for them.
    Translates(TrSpec),
}

// The quickest way to delete and translate bytes.
pub(crate) fn change_of(spec: &TrSpec) -> Change
    ensures { (xs : List ℕ) → changed result xs ≡ translated spec.now xs }
{
    if spec.deleted.is_none() {
        return map_of(&spec.table);
    }
    match deleting_of(spec) {
        Some(deleting) => Change::Deletes(deleting),
        None => Change::Translates(*spec),
    }
}

// The quickest way to translate bytes by a table.
fn map_of(table: &[u8; 256]) -> Change
    ensures { (xs : List ℕ) → changed result xs ≡ list_map (λ x. slice_index table.now x) xs }
{
    if is_plain(table) {
        return Change::Leaves(Plain { table: *table });
    }
    if let Some(shift) = shift_of(table) {
        return Change::Shifts(shift);
    }
    if let Some(moves) = moves_of(table) {
        return Change::Moved(moves);
    }
    match ranges_of(table) {
        Some(ranges) => Change::Ranged(ranges),
        None => Change::Maps(*table),
    }
}

// Writes at the front what is left of these bytes, and returns its length.
pub(crate) fn apply(way: &Change, bytes: &mut [u8]) -> usize
    ensures made { take result bytes.new ≡ changed way.now bytes.old }
    ensures within { result ≤ length bytes.old }
    ensures long { length bytes.new ≡ length bytes.old }
{
    match way {
        Change::Leaves(_plain) => bytes.len(),
        Change::Shifts(shift) => {
            shift_over(bytes, *shift);
            bytes.len()
        }
        Change::Moved(moves) => {
            move_over(bytes, *moves);
            bytes.len()
        }
        Change::Ranged(ranges) => {
            range_over(bytes, *ranges);
            bytes.len()
        }
        Change::Maps(table) => {
            map_over(bytes, table);
            bytes.len()
        }
        Change::Deletes(deleting) => delete(bytes, deleting),
        Change::Translates(spec) => translate(bytes, spec),
    }
}

// Writes over each byte what the table has for it.
fn map_over(bytes: &mut [u8], table: &[u8; 256])
    ensures { bytes.new ≡ list_map (λ x. slice_index table.now x) bytes.old }
{
    for byte in bytes.iter_mut() {
        *byte = table[*byte as usize];
    }
}

// Whether a byte is not deleted.
fn is_kept(set: &Option<[bool; 256]>, byte: u8) -> bool
    ensures { result ≡ not (in_set set.now byte) }
{
    match set {
        None => true,
        Some(set) => !set[byte as usize],
    }
}

// Writes at the front what the bytes that are not deleted become, and returns their number.
fn translate(bytes: &mut [u8], spec: &TrSpec) -> usize
    ensures made { take result bytes.new ≡ translated spec.now bytes.old }
    ensures within { result ≤ length bytes.old }
    ensures long { length bytes.new ≡ length bytes.old }
{
    let mut kept = 0;
    for i in 0..bytes.len() {
        let byte = bytes[i];
        let remains = is_kept(&spec.deleted, byte);
        kept = place(bytes, kept, spec.table[byte as usize], remains);
    }
    kept
}
