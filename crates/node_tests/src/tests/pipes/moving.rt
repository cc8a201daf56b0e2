// The ways of an item from pipe to pipe.
use super::{holds, piece_of};
use bounded_pipe::{PipeIn, PipeOut, pipe};
use machine::Item;
use splice_tee::{Moved, duplicate, splice};
use std::alloc::Global;
use std::process::Abort;
use std::test::Fail;

// The item is a piece of this byte.
fn is_byte(rt: &impl Abort, item: &Item, byte: u8) {
    match item {
        Item::Bytes(piece) => holds(rt, piece.bytes(), &[byte], "a piece"),
        Item::Close => holds(rt, b"Close", &[byte], "Close"),
    }
}

fn hands_on(rt: &impl Abort, from: &mut PipeIn, to: &mut PipeOut) {
    assert!(rt; matches!(splice(from, to), Moved::Handed));
}

fn finds_none(rt: &impl Abort, from: &mut PipeIn, to: &mut PipeOut) {
    assert!(rt; matches!(splice(from, to), Moved::Empty));
}

fn holds_back(rt: &impl Abort, from: &mut PipeIn, to: &mut PipeOut, byte: u8) -> Result<(), Fail> {
    match splice(from, to) {
        Moved::Held(item) => is_byte(rt, &item, byte),
        _ => return Err("no item is held")?,
    }
    Ok(())
}

fn puts(rt: &impl Abort, alloc: Global, writer: &mut PipeOut, byte: u8) -> Result<(), Fail> {
    assert!(rt; writer.put(Item::Bytes(piece_of(alloc, &[byte])?)).is_ok());
    Ok(())
}

fn gives(rt: &impl Abort, reader: &mut PipeIn, byte: u8) -> Result<(), Fail> {
    is_byte(rt, &reader.take().ok_or("nothing came")?, byte);
    Ok(())
}

// A byte goes on from a pipe to one that has no room for two. The next byte is taken and held back.
fn one_goes_on(
    rt: &impl Abort,
    alloc: Global,
    writer: &mut PipeOut,
    from: &mut PipeIn,
    to: &mut PipeOut,
) -> Result<(), Fail> {
    puts(rt, alloc, writer, b'x')?;
    hands_on(rt, from, to);
    finds_none(rt, from, to);
    puts(rt, alloc, writer, b'y')?;
    holds_back(rt, from, to, b'y')?;
    assert!(rt; from.take().is_none());
    Ok(())
}

#[test]
fn splice_by_hand(rt: HostRuntime) -> Result<(), Fail> {
    for (capacity, bytes) in [(1, 65536), (2, 1)] {
        let (mut a_out, mut a_in) = pipe(rt.alloc(), 1, 65536)?;
        let (mut b_out, mut b_in) = pipe(rt.alloc(), capacity, bytes)?;
        one_goes_on(&rt, rt.alloc(), &mut a_out, &mut a_in, &mut b_out)?;
        gives(&rt, &mut b_in, b'x')?;
    }
    Ok(())
}

#[test]
fn a_duplicate_is_equal(rt: HostRuntime) -> Result<(), Fail> {
    let piece = piece_of(rt.alloc(), b"abc")?;
    let copy = duplicate(&piece)?;
    assert_eq!(rt; copy.bytes(), piece.bytes());
    Ok(())
}
