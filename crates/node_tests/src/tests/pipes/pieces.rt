// Queues of pieces. A case is a line: steps that add to a queue, and the pieces that are in it
// then, with ` :: ` between them. A bar is between steps and pieces. A step is `bytes`, `piece`,
// `vec` or `mut`, and the bytes after one blank.
ghost use Rattle.std.specs.Prelude.{◌≤◌};
ghost use Rattle.machine.specs.Pieces.{IsBlock};

use super::{holds, piece_of, taken_out};
use bytes::BytesMut;
use machine::Pieces;
use std::alloc::Global;
use std::process::Abort;
use std::test::Fail;

fn push_piece(alloc: Global, pieces: &mut Pieces, bytes: &[u8]) -> Result<(), Fail> {
    pieces.push_piece(piece_of(alloc, bytes)?)?;
    Ok(())
}

fn push_vec(alloc: Global, pieces: &mut Pieces, bytes: &[u8]) -> Result<(), Fail> {
    pieces.push_vec(Vec::from_slice(alloc, bytes)?)?;
    Ok(())
}

fn push_mut(alloc: Global, pieces: &mut Pieces, bytes: &[u8]) -> Result<(), Fail> {
    pieces.push_mut(BytesMut::copy_from_slice(alloc, bytes)?)?;
    Ok(())
}

fn push(alloc: Global, pieces: &mut Pieces, way: &str, bytes: &[u8]) -> Result<(), Fail> {
    match way {
        "bytes" => Ok(pieces.push_bytes(bytes)?),
        "piece" => push_piece(alloc, pieces, bytes),
        "mut" => push_mut(alloc, pieces, bytes),
        _ => push_vec(alloc, pieces, bytes),
    }
}

// A queue after these steps.
fn queue_of(alloc: Global, block: usize, steps: &str) -> Result<Pieces, Fail>
    requires { IsBlock block }
{
    let mut pieces = Pieces::new(alloc, block);
    for step in steps.split('|') {
        let (way, bytes) = step.split_once(' ').ok_or("a step has no bytes")?;
        push(alloc, &mut pieces, way, bytes.as_bytes())?;
    }
    Ok(pieces)
}

fn try_case(rt: &impl Abort, alloc: Global, block: usize, line: &str) -> Result<(), Fail>
    requires { IsBlock block }
{
    let (steps, wanted) = line.split_once(" :: ").ok_or("a line has one part")?;
    let found = taken_out(alloc, queue_of(alloc, block, steps)?, b"|")?;
    holds(rt, &found, wanted.as_bytes(), line);
    Ok(())
}

// Tries the `count` cases of a table with pieces of at most `block` bytes.
fn try_table(
    rt: &impl Abort,
    alloc: Global,
    block: usize,
    cases: usize,
    table: &str,
) -> Result<(), Fail>
    requires { IsBlock block }
{
    let mut tried = 0usize;
    for line in table.lines() {
        try_case(rt, alloc, block, line)?;
        tried = tried.saturating_add(1);
    }
    assert_eq!(rt; tried, cases);
    Ok(())
}

#[test]
fn pieces_keep_their_bytes_and_their_block(rt: HostRuntime) -> Result<(), Fail> {
    try_table(
        &rt,
        rt.alloc(),
        4,
        1,
        r"bytes 0123456789|piece abc|piece ABCDE|vec |vec xy|vec vwxyz|mut |mut ab|mut cdefg :: 0123|4567|89|abc|ABCD|E|xy|vwxy|z|ab|cdef|g",
    )
}

#[test]
fn a_queue_is_cleared(rt: HostRuntime) -> Result<(), Fail> {
    let mut pieces = queue_of(rt.alloc(), 1, "bytes ab")?;
    assert!(rt; !pieces.is_empty());
    pieces.clear();
    assert!(rt; pieces.is_empty());
    assert!(rt; pieces.pop_front().is_none());
    Ok(())
}

#[test]
fn a_piece_gives_its_bytes_back(rt: HostRuntime) -> Result<(), Fail> {
    let piece = piece_of(rt.alloc(), b"abc")?;
    assert_eq!(rt; piece.len(), 3);
    holds(&rt, piece.bytes(), b"abc", "bytes");
    holds(&rt, &piece.into_mut()?, b"abc", "mut");
    Ok(())
}

// What is made of a piece's bytes is not seen by a piece that shared them.
#[test]
fn a_change_is_not_shared(rt: HostRuntime) -> Result<(), Fail> {
    let piece = piece_of(rt.alloc(), b"abc")?;
    let mut bytes = piece.duplicate()?.into_mut()?;
    bytes.as_mut_slice()[0] = b'x';
    holds(&rt, &bytes, b"xbc", "changed");
    holds(&rt, piece.bytes(), b"abc", "shared");
    Ok(())
}

#[test]
fn a_front_is_the_first_bytes(rt: HostRuntime) -> Result<(), Fail> {
    let piece = piece_of(rt.alloc(), b"abc")?;
    if piece.len() < 2 {
        return Err("the piece has lost bytes")?;
    }
    let front = piece.front(2)?;
    holds(&rt, front.bytes(), b"ab", "front");
    holds(&rt, &front.into_mut()?, b"ab", "mut");
    Ok(())
}

// If memory is refused, the queue holds what it held and then a prefix of what was handed in.
#[test]
fn a_refusal_leaves_a_prefix(rt: HostRuntime) -> Result<(), Fail> {
    let mut pieces = Pieces::new(rt.alloc(), 2);
    let text = b"abcdefghijklmnop";
    let is_refused = pieces.push_bytes(text).is_err();
    let bytes = taken_out(rt.alloc(), pieces, b"")?;
    assert!(rt; text.starts_with(&bytes));
    assert!(rt; is_refused || bytes.len() == text.len());
    Ok(())
}
