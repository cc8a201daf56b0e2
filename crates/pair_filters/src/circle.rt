// Bytes that take the places of newlines, in a circle.
ghost use Rattle.std.specs.Prelude.{◌≡◌, ℕ, ◌<◌, ◌≤◌, [], ◌∷◌, length, slice_index_or, IfOk, IfSome, IsTrue, OnOk};
ghost use Rattle.pair_filters.specs.Circles.{IsRow, after, number_after, place_after, put_in};
ghost use Rattle.commands.specs.Delimiters.{delimiter};

use crate::delimiters::in_circle;
use crate::table::Place;
use lanes::{Prefix, Walk};
use machine::NoMemory;
use std::alloc::Global;

// Returns the bytes of a row's circle, or none if the rows have none.
pub(crate) fn row_circle(
    alloc: Global,
    delimiters: &[Option<u8>],
    columns: &[usize],
) -> Result<Vec<u8>, NoMemory>
    ensures { IfOk result
        (λ circle. 1 ≤ length circle.items → IsRow delimiters.now columns.now circle.items) }
{
    let mut circle = Vec::new(alloc);
    if columns.is_empty() || !are_same(columns) {
        return Ok(circle);
    }
    for k in 1..columns.len() {
        match byte_at(delimiters, k - 1) {
            None => return Ok(Vec::new(alloc)),
            Some(byte) => circle.push(byte)?,
        }
    }
    circle.push(b'\n')?;
    Ok(circle)
}

// Returns true only if all columns are of one input.
fn are_same(columns: &[usize]) -> bool
    requires { 1 ≤ length columns.now }
    ensures { IsTrue result → (k : ℕ) → k < length columns.now
        → slice_index_or columns.now k 0 ≡ slice_index_or columns.now 0 0 }
{
    for k in 0..columns.len() {
        if columns[k] != columns[0] {
            return false;
        }
    }
    true
}

// Returns the delimiter with number k if it is a byte.
fn byte_at(delimiters: &[Option<u8>], k: usize) -> Option<u8>
    ensures { IfSome result (λ byte. delimiter delimiters.now k ≡ byte ∷ []) }
{
    if delimiters.is_empty() {
        return None;
    }
    delimiters[in_circle(k, delimiters.len())]
}

// Returns these bytes of the only input as rows, and goes to the place after them.
pub(crate) fn put_in_rows(
    alloc: Global,
    circle: &[u8],
    place: &mut Place,
    bytes: &[u8],
) -> Result<Vec<u8>, NoMemory>
    requires column { place.old.column < length circle.now }
    requires some { 1 ≤ length bytes.now }
    ensures made { IfOk result (λ made. made.items ≡ put_in circle.now place.old.column bytes.now) }
    ensures place { OnOk result
        (place.new ≡ place_after (length circle.now) place.old bytes.now) }
    ensures within { place.new.column < length circle.now }
{
    let mut made = Vec::from_slice(alloc, bytes)?;
    let column = replace_newlines(circle, place.column, bytes, made.as_mut_slice());
    let ends_line = bytes[bytes.len() - 1] == b'\n';
    *place = Place {
        column,
        begun: column > 0 || !ends_line,
    };
    Ok(made)
}

// Replaces each newline by the next byte of the circle, and returns the number of the one after it.
pub(crate) fn replace_newlines(circle: &[u8], first: usize, bytes: &[u8], made: &mut [u8]) -> usize
    requires first { first < length circle.now }
    requires copy { made.old ≡ bytes.now }
    ensures made { made.new ≡ put_in circle.now first bytes.now }
    ensures number { result ≡ number_after (length circle.now) first bytes.now }
    ensures below { result < length circle.now }
{
    let mut number = first;
    let mut ends = Walk::new(Prefix::whole(bytes), b'\n');
    while let Some(end) = ends.next() {
        made[end] = circle[number];
        number = number_behind(circle.len(), number);
    }
    number
}

// Returns the number after k in a circle of n.
#[inline(always)]
fn number_behind(n: usize, k: usize) -> usize
    requires { k < n }
    ensures value { result ≡ after n k }
    ensures below { result < n }
{
    if k + 1 == n { 0 } else { k + 1 }
}
