ghost use Rattle.std.specs.Prelude.{◌≤◌, length, IfOk};
ghost use Rattle.bounded_pipe.specs.Ends.{AreEnds, WritesOn, ReadsOn, Consistent, IsCapacity, IsLimit};

use bounded_pipe::{PipeIn, PipeOut, beside, pipe, regrow};
use machine::{Item, NoMemory, Piece};
use std::alloc::Global;
use std::process::Abort;
use std::snapshot::Snapshot;
use std::sync::Wait;
use std::test::Fail;
use std::thread;
use std::thread::{Promise, Threads};

// How many pieces go through the pipe.
const PIECES: u8 = 200;

// The bytes of a piece: one to three, all of them equal.
fn bytes_of(three: &[u8; 3]) -> &[u8]
    ensures { (1 ≤ length result.now) × (length result.now ≤ 3) }
{
    &three[..1 + usize::from(three[0] % 3)]
}

fn piece(alloc: Global, byte: u8) -> Result<Item, NoMemory> {
    let bytes = Vec::from_slice(alloc, bytes_of(&[byte; 3]))?;
    Ok(Item::Bytes(Piece::from_vec(bytes)?))
}

fn is_piece(item: &Item, byte: u8) -> bool {
    match item {
        Item::Bytes(piece) => piece.bytes() == bytes_of(&[byte; 3]),
        Item::Close => false,
    }
}

// The promise that the same writing end comes back, with a record that goes on.
#[derive(Drop)]
struct SameWriter(Snapshot<PipeOut>);

impl Promise<PipeOut> for SameWriter {
    ghost kept_by = { λ promise end. WritesOn promise.0.value end };
}

// The same promise of the reading end, and whether all that it took came in order.
#[derive(Drop)]
struct SameReader(Snapshot<PipeIn>);

impl Promise<(PipeIn, bool)> for SameReader {
    ghost kept_by = { λ promise back. ReadsOn promise.0.value back.0 };
}

// Puts an item as soon as there is room.
fn put_waiting(rt: &impl Wait, writer: &mut PipeOut, item: Item)
    ensures { WritesOn writer.old writer.new }
{
    let mut item = item;
    for _ in rt.forever() {
        match writer.put(item) {
            Ok(()) => return,
            Err(back) => item = back,
        }
    }
}

// Takes an item as soon as there is one.
fn take_waiting(rt: &impl Wait, reader: &mut PipeIn) -> Item
    ensures { ReadsOn reader.old reader.new }
{
    for _ in rt.forever() {
        if let Some(item) = reader.take() {
            return item;
        }
    }
    unreachable!()
}

// Puts the pieces, and then Close. If memory for a piece is refused, it puts Close in its place.
fn write_all(rt: &impl Wait, alloc: Global, writer: PipeOut) -> PipeOut
    ensures { WritesOn writer result }
{
    let mut writer = writer;
    for byte in 0..PIECES {
        let item = piece(alloc, byte).unwrap_or(Item::Close);
        put_waiting(rt, &mut writer, item);
    }
    put_waiting(rt, &mut writer, Item::Close);
    writer
}

// Takes the pieces, and then Close, and hangs up. Returns whether they came in order.
fn read_all(rt: &impl Wait, reader: PipeIn) -> (PipeIn, bool)
    ensures { ReadsOn reader result.0 }
{
    let mut reader = reader;
    let mut in_order = true;
    for byte in 0..PIECES {
        let item = take_waiting(rt, &mut reader);
        in_order &= is_piece(&item, byte);
    }
    let last = take_waiting(rt, &mut reader);
    reader.hang_up();
    (reader, in_order && matches!(last, Item::Close))
}

// Both ends of a pipe, and whether all came through it in order.
#[derive(Drop)]
struct Through {
    writer: PipeOut,
    reader: PipeIn,
    in_order: bool,
}

// The writing end goes to a thread, while this one reads. Then both ends meet.
fn lend_writer<R: Threads + Wait + Sync>(
    rt: &R,
    alloc: Global,
    writer: PipeOut,
    reader: PipeIn,
) -> Result<Through, NoMemory>
    requires { AreEnds writer reader }
    ensures writer { IfOk result (λ back. WritesOn writer back.writer) }
    ensures reader { IfOk result (λ back. ReadsOn reader back.reader) }
    ensures consistent { IfOk result (λ back. Consistent back.writer back.reader) }
{
    let mut back = thread::scope(
        thread::scope_env(),
        rt,
        move |scope| -> Result<Through, NoMemory>
            ensures { IfOk result
                (λ back. WritesOn writer back.writer × ReadsOn reader back.reader) }
        {
            let promise = SameWriter(Snapshot::of(&writer));
            let Ok(child) = scope.spawn_with(promise, move || write_all(rt, alloc, writer)) else {
                return Err(NoMemory);
            };
            let (reader, in_order) = read_all(rt, reader);
            Ok(Through {
                writer: child.join(rt),
                reader,
                in_order,
            })
        },
    )?;
    let _between = beside(&mut back.writer, &mut back.reader);
    Ok(back)
}

// The reading end goes to a thread, while this one writes. Then both ends meet.
fn lend_reader<R: Threads + Wait + Sync>(
    rt: &R,
    alloc: Global,
    writer: PipeOut,
    reader: PipeIn,
) -> Result<Through, NoMemory>
    requires { AreEnds writer reader }
    ensures writer { IfOk result (λ back. WritesOn writer back.writer) }
    ensures reader { IfOk result (λ back. ReadsOn reader back.reader) }
    ensures consistent { IfOk result (λ back. Consistent back.writer back.reader) }
{
    let mut back = thread::scope(
        thread::scope_env(),
        rt,
        move |scope| -> Result<Through, NoMemory>
            ensures { IfOk result
                (λ back. WritesOn writer back.writer × ReadsOn reader back.reader) }
        {
            let promise = SameReader(Snapshot::of(&reader));
            let Ok(child) = scope.spawn_with(promise, move || read_all(rt, reader)) else {
                return Err(NoMemory);
            };
            let writer = write_all(rt, alloc, writer);
            let (reader, in_order) = child.join(rt);
            Ok(Through {
                writer,
                reader,
                in_order,
            })
        },
    )?;
    let _between = beside(&mut back.writer, &mut back.reader);
    Ok(back)
}

// Each end of such a pipe goes to a thread, while the other one stays here.
fn goes_through<R: Abort + Threads + Wait + Sync>(
    rt: &R,
    alloc: Global,
    capacity: usize,
    bytes: usize,
) -> Result<(), Fail>
    requires capacity { IsCapacity capacity }
    requires bytes { IsLimit bytes }
{
    let (writer, reader) = pipe(alloc, capacity, bytes)?;
    let mut first = lend_writer(rt, alloc, writer, reader)?;
    assert!(rt; first.in_order, "at {capacity} and {bytes}");
    assert!(rt; first.writer.reader_gone(), "at {capacity} and {bytes}");

    let (writer, reader) = pipe(alloc, capacity, bytes)?;
    let mut second = lend_reader(rt, alloc, writer, reader)?;
    assert!(rt; second.in_order, "at {capacity} and {bytes}");
    assert!(rt; second.writer.reader_gone(), "at {capacity} and {bytes}");
    Ok(())
}

#[test]
fn each_end_goes_to_a_thread_and_comes_back(rt: HostRuntime) -> Result<(), Fail> {
    goes_through(&rt, rt.alloc(), 1, 65536)?;
    goes_through(&rt, rt.alloc(), 3, 65536)?;
    goes_through(&rt, rt.alloc(), 256, 65536)?;
    goes_through(&rt, rt.alloc(), 256, 3)?;
    goes_through(&rt, rt.alloc(), 3, 4)
}

#[test]
fn ends_of_a_grown_pipe_go_to_threads(rt: HostRuntime) -> Result<(), Fail> {
    let alloc = rt.alloc();
    let (writer, reader) = pipe(alloc, 1, 3)?;
    let mut first = lend_writer(&rt, alloc, writer, reader)?;
    regrow(alloc, &mut first.writer, &mut first.reader, 4)?;
    let second = lend_reader(&rt, alloc, first.writer, first.reader)?;
    assert!(rt; first.in_order && second.in_order);
    Ok(())
}
