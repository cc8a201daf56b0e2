ghost use Rattle.std.specs.Prelude.{◌≡◌, ℕ, ◌<◌, ◌≤◌, drop, length, slice_index, IfOk};
ghost use Rattle.tr_words.specs.Tables.{set_of, complement, continued, pairs_of, last_for, table_of};

use crate::expansion::add_if;
use command_words::Sequence;
use machine::{NoMemory, skip};
use std::alloc::Global;

// For each byte whether it is among these.
pub(crate) fn set_of(bytes: &[u8]) -> [bool; 256]
    ensures { result ≡ set_of bytes.now }
{
    let mut set = [false; 256];
    for byte in bytes {
        set[*byte as usize] = true;
    }
    set
}

// The bytes that are not among these, rising.
pub(crate) fn complement(alloc: Global, bytes: &[u8]) -> Result<Sequence<u8>, NoMemory>
    ensures { IfOk result (λ others. others ≡ complement bytes.now) }
{
    let set = set_of(bytes);
    let mut others = Vec::new(alloc);
    for index in 0..256usize {
        add_if(&mut others, !set[index], index as u8)?;
    }
    Ok(Sequence::from_vec(others))
}

// The table that leaves each byte as it is.
fn unchanged() -> [u8; 256]
    ensures { (x : ℕ) → x < 256 → slice_index result x ≡ x }
{
    let mut table = [0; 256];
    for byte in 0..=255u8 {
        table[byte as usize] = byte;
    }
    table
}

// What is left after the first byte, which stays if it is the last.
fn next(string: &[u8]) -> &[u8]
    requires { 1 ≤ length string.now }
    ensures value { result.now ≡ continued (slice_index string.now 0) (drop 1 string.now) }
    ensures some { 1 ≤ length result.now }
{
    if string.len() == 1 {
        string
    } else {
        skip(string, 1)
    }
}

// Gives each byte of the first string its byte of the second, the last time that it is there.
fn pair(table: &mut [u8; 256], bytes1: &[u8], bytes2: &[u8])
    ensures { (x : ℕ) → x < 256
        → slice_index table.new x
        ≡ last_for (slice_index table.old x) x (pairs_of bytes1.now bytes2.now) }
{
    if bytes2.is_empty() {
        return;
    }
    let mut rest = bytes2;
    for byte in bytes1 {
        table[*byte as usize] = rest[0];
        rest = next(rest);
    }
}

// For each byte its byte of the second string, the last time that it is in the first, or otherwise
// that byte.
pub(crate) fn table_of(bytes1: &[u8], bytes2: &[u8]) -> [u8; 256]
    ensures { result ≡ table_of (pairs_of bytes1.now bytes2.now) }
{
    let mut table = unchanged();
    pair(&mut table, bytes1, bytes2);
    table
}
