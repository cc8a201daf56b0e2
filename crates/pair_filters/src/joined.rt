// Lines that are joined by the bytes of a circle.
ghost use Rattle.std.specs.Prelude.{◌≡◌, ◌<◌, ◌≤◌, [], ◌∷◌, Some, length, map as list_map, IfOk};
ghost use Rattle.machine.specs.Lines.{newline};
ghost use Rattle.pair_filters.specs.Circles.{number_after, put_in};
ghost use Rattle.pair_filters.specs.Joins.{JoinsBytes};

use crate::circle::replace_newlines;
use crate::serial::Joint;
use machine::{NoMemory, append, append_byte, line_content, room_for};
use std::alloc::Global;

// Returns the delimiters as bytes, or none if one of them is empty.
pub(crate) fn delimiter_bytes(alloc: Global, delimiters: &[Option<u8>]) -> Result<Vec<u8>, NoMemory>
    ensures { IfOk result
        (λ circle. 1 ≤ length circle.items → list_map Some circle.items ≡ delimiters.now) }
{
    let mut circle = Vec::new(alloc);
    for k in 0..delimiters.len() {
        match delimiters[k] {
            None => return Ok(Vec::new(alloc)),
            Some(byte) => circle.push(byte)?,
        }
    }
    Ok(circle)
}

// Returns the contents of lines as far as these bytes have them, joined to what was written before.
pub(crate) fn join_piece(
    alloc: Global,
    circle: &[u8],
    joint: &mut Joint,
    bytes: &[u8],
) -> Result<Vec<u8>, NoMemory>
    requires next { joint.old.next < length circle.now }
    requires some { 1 ≤ length bytes.now }
    ensures { IfOk result
        (λ made. JoinsBytes (list_map Some circle.now) joint.old joint.new bytes.now [] made.items) }
{
    let content = line_content(bytes);
    let due = content.len() < bytes.len();
    if joint.due {
        let (made, next) = put_after(alloc, circle, joint.next, content)?;
        *joint = Joint { next, due };
        return Ok(made);
    }
    let (made, next) = put(alloc, circle, joint.next, content)?;
    *joint = Joint { next, due };
    Ok(made)
}

// Returns these bytes with the bytes of the circle in place of newlines, and the number of the next of those.
fn put(
    alloc: Global,
    circle: &[u8],
    first: usize,
    bytes: &[u8],
) -> Result<(Vec<u8>, usize), NoMemory>
    requires { first < length circle.now }
    ensures { IfOk result
        (λ put. (put.0.items ≡ put_in circle.now first bytes.now)
        × (put.1 ≡ number_after (length circle.now) first bytes.now)) }
{
    let mut made = Vec::from_slice(alloc, bytes)?;
    let next = replace_newlines(circle, first, bytes, made.as_mut_slice());
    Ok((made, next))
}

// The same of a newline and these bytes.
fn put_after(
    alloc: Global,
    circle: &[u8],
    first: usize,
    bytes: &[u8],
) -> Result<(Vec<u8>, usize), NoMemory>
    requires { first < length circle.now }
    ensures { IfOk result
        (λ put. (put.0.items ≡ put_in circle.now first (newline ∷ bytes.now))
        × (put.1 ≡ number_after (length circle.now) first (newline ∷ bytes.now))) }
{
    let mut all = room_for(alloc, bytes.len() + 1)?;
    append_byte(&mut all, b'\n')?;
    append(&mut all, bytes)?;
    put(alloc, circle, first, &all)
}
