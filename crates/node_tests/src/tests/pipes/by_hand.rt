// One pipe whose ends are both held here. `put BYTES` puts a piece, and `close` puts Close; an item
// that comes back is shown. `take` shows the item that it took, or `none`. `beside` shows how many
// items the pipe holds, and `gone` if the reader is gone. `hang-up` hangs up the reader, and `grow
// CAPACITY` gives the pipe new rings.
ghost use Rattle.bounded_pipe.specs.Ends.{AreEnds, IsCapacity, IsLimit};

use super::piece_of;
use crate::tests::{Bench, bytes_of, done, number, play, shown, unknown};
use bounded_pipe::{BYTES_MAX, CAPACITY_MAX, PipeIn, PipeOut, beside, pipe, regrow};
use machine::Item;
use std::alloc::Global;
use std::process::Abort;
use std::test::Fail;

#[derive(Drop)]
struct Held {
    writer: PipeOut,
    reader: PipeIn,
    ghost ends: { AreEnds writer reader },
}

// An item, as it is shown.
fn item_text(alloc: Global, item: &Item) -> Result<Vec<u8>, Fail> {
    match item {
        Item::Bytes(piece) => bytes_of(alloc, piece.bytes()),
        Item::Close => bytes_of(alloc, b"Close"),
    }
}

impl Held {
    fn put(&mut self, alloc: Global, item: Item) -> Result<Vec<u8>, Fail> {
        match self.writer.put(item) {
            Ok(()) => done(alloc),
            Err(back) => item_text(alloc, &back),
        }
    }

    fn take(&mut self, alloc: Global) -> Result<Vec<u8>, Fail> {
        match self.reader.take() {
            Some(item) => item_text(alloc, &item),
            None => bytes_of(alloc, b"none"),
        }
    }

    fn grow(&mut self, alloc: Global, capacity: usize) -> Result<Vec<u8>, Fail> {
        if capacity < self.writer.capacity() || CAPACITY_MAX < capacity {
            return Err("the pipe cannot have that capacity")?;
        }
        regrow(alloc, &mut self.writer, &mut self.reader, capacity)?;
        done(alloc)
    }

    fn mark(&mut self, alloc: Global, action: &str) -> Result<Vec<u8>, Fail> {
        match action {
            "hang-up" => {
                self.reader.hang_up();
                done(alloc)
            }
            "gone" => shown(alloc, &self.writer.reader_gone()),
            _ => unknown(),
        }
    }
}

impl Bench for Held {
    fn act(&mut self, alloc: Global, action: &str, with: &str) -> Result<Vec<u8>, Fail> {
        match action {
            "put" => self.put(alloc, Item::Bytes(piece_of(alloc, with.as_bytes())?)),
            "close" => self.put(alloc, Item::Close),
            "take" => self.take(alloc),
            "beside" => shown(alloc, &beside(&mut self.writer, &mut self.reader)),
            "grow" => self.grow(alloc, number(with)?),
            _ => self.mark(alloc, action),
        }
    }
}

// A new pipe that can hold `capacity` items, of `bytes` bytes together.
fn hold(alloc: Global, capacity: usize, bytes: usize) -> Result<Held, Fail>
    requires capacity { IsCapacity capacity }
    requires bytes { IsLimit bytes }
{
    let (writer, reader) = pipe(alloc, capacity, bytes)?;
    Ok(Held { writer, reader })
}

// Plays a script of `count` lines on such a pipe.
fn play_pipe(
    alloc: Global,
    capacity: usize,
    bytes: usize,
    lines: usize,
    script: &str,
) -> Result<(), Fail>
    requires capacity { IsCapacity capacity }
    requires bytes { IsLimit bytes }
{
    let mut held = hold(alloc, capacity, bytes)?;
    play(alloc, &mut held, lines, script)
}

#[test]
fn pipe_by_hand(rt: HostRuntime) -> Result<(), Fail> {
    let script = r"beside -> 0
put a
beside -> 1
put b -> b
take -> a
beside -> 0
take -> none
gone -> false
hang-up
hang-up
beside -> 0
gone -> true
gone -> true";
    play_pipe(rt.alloc(), 1, 65536, 13, script)
}

#[test]
fn pipes_grow(rt: HostRuntime) -> Result<(), Fail> {
    let script = r"put a
grow 3
beside -> 1
put b
put c
beside -> 3
put d -> d
take -> a";
    play_pipe(rt.alloc(), 1, 65536, 8, script)
}

#[test]
fn bytes_limit(rt: HostRuntime) -> Result<(), Fail> {
    let script = r"put ab
put cd -> cd
put e
put f -> f
take -> ab
beside -> 1
put cd
close
beside -> 3
take -> e
take -> cd
take -> Close
take -> none";
    play_pipe(rt.alloc(), 4, 3, 13, script)
}

// A pipe grows twice after items were taken. The bytes that were taken before count no more, and the limit stays.
#[test]
fn pipes_grow_in_the_middle(rt: HostRuntime) -> Result<(), Fail> {
    let script = r"put ab
put cd
put e -> e
take -> ab
take -> cd
put ef
grow 3
put ghij
put k -> k
take -> ef
put k
grow 3
put l
put m -> m
take -> ghij
put m
put n -> n
beside -> 3
take -> k
take -> l
take -> m
take -> none";
    play_pipe(rt.alloc(), 2, 6, 22, script)
}

// Close, a hang-up and its note are kept when a pipe grows.
#[test]
fn marks_are_kept_when_a_pipe_grows(rt: HostRuntime) -> Result<(), Fail> {
    let script = r"put a
close
grow 3
gone -> false
hang-up
grow 4
gone -> true
grow 5
gone -> true
take -> a
take -> Close
hang-up
gone -> true
beside -> 0";
    play_pipe(rt.alloc(), 2, 65536, 14, script)
}

// The two ends are never compared, so the numbers alone tell the writer what was taken.
#[test]
fn numbers_make_room(rt: HostRuntime) -> Result<(), Fail> {
    let mut held = hold(rt.alloc(), 4096, 4)?;
    for _ in 0..1000 {
        let script = r"put abcd
put e -> e
take -> abcd";
        play(rt.alloc(), &mut held, 3, script)?;
    }
    Ok(())
}

// The number of the first take fills the place until the writer has received it. The bytes of the two others are told together, by a
// take that finds nothing.
#[test]
fn an_empty_take_tells_the_rest(rt: HostRuntime) -> Result<(), Fail> {
    let script = r"put a
put b
put c
take -> a
take -> b
take -> c
put abcd -> abcd
put abcd -> abcd
take -> none
put abcd";
    play_pipe(rt.alloc(), 4096, 4, 10, script)
}

#[test]
fn an_item_above_the_limit_comes_back(rt: HostRuntime) -> Result<(), Fail> {
    let script = r"put abcd -> abcd
beside -> 0
put abcd -> abcd
put abc
take -> abc
put abcd -> abcd
grow 3
put abcd -> abcd
put abc";
    play_pipe(rt.alloc(), 2, 3, 9, script)
}

#[test]
fn close_takes_no_bytes(rt: HostRuntime) -> Result<(), Fail> {
    let script = r"put abc
put d -> d
close
beside -> 2
close -> Close
take -> abc
take -> Close";
    play_pipe(rt.alloc(), 2, 3, 7, script)
}

// Puts as many items as a pipe can hold, and one more.
fn fill(rt: &impl Abort, writer: &mut PipeOut, round: u64) {
    for _ in 0..CAPACITY_MAX {
        assert!(rt; writer.put(Item::Close).is_ok(), "in round {round}");
    }
    assert!(rt; writer.put(Item::Close).is_err(), "in round {round}");
}

// Takes as many items as a pipe can hold, and no more.
fn empty(rt: &impl Abort, reader: &mut PipeIn, round: u64) {
    for _ in 0..CAPACITY_MAX {
        assert!(rt; reader.take().is_some(), "in round {round}");
    }
    assert!(rt; reader.take().is_none(), "in round {round}");
}

#[test]
fn the_greatest_pipe_is_filled_twice(rt: HostRuntime) -> Result<(), Fail> {
    let (mut writer, mut reader) = pipe(rt.alloc(), CAPACITY_MAX, BYTES_MAX)?;
    for round in 0..2 {
        fill(&rt, &mut writer, round);
        empty(&rt, &mut reader, round);
    }
    Ok(())
}

// Whether each of these pieces is put into the pipe and taken out of it, one after the other.
fn pass_through(
    alloc: Global,
    writer: &mut PipeOut,
    reader: &mut PipeIn,
    lengths: &[usize],
) -> Result<bool, Fail> {
    for length in lengths {
        let piece = piece_of(alloc, vec![in alloc; 7; *length]?.as_slice())?;
        if writer.put(Item::Bytes(piece)).is_err() || reader.take().is_none() {
            return Ok(false);
        }
    }
    Ok(true)
}

// With a large limit small sums are not told. The pipe has room for the longest piece all the same.
#[test]
fn a_large_limit_keeps_room_for_the_longest_piece(rt: HostRuntime) -> Result<(), Fail> {
    let alloc = rt.alloc();
    let (mut writer, mut reader) = pipe(alloc, 1, 131_072)?;
    let lengths = [32_767, 65_536, 65_536, 1, 32_766, 65_536, 32_768, 65_536];
    for _ in 0..10 {
        assert!(rt; pass_through(alloc, &mut writer, &mut reader, &lengths)?);
    }
    Ok(())
}
