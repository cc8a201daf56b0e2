//! One bounded pipe with two ends, over three rings: one of items, one with a single place for the hang-up mark, and one with a
//! single place for numbers of bytes. There is no lock. Only `pipe` and `regrow` take memory; only `regrow` has a loop.
#![tactic(auto)]

ghost use Rattle.std.specs.Prelude.{◌≡◌, ◌+◌, ◌≤◌, [], length, IfOk, false};
ghost use Rattle.bounded_pipe.specs.Ends.{AreEnds, Beside, Consistent, IsCapacity, IsLimit};
ghost use Rattle.bounded_pipe.specs.Events.{SameWriting, SameReading};

mod amounts;
mod counting;
mod fullness;
mod growing;
pub mod laws;
mod past;
mod reading;
mod writing;

pub use amounts::Amounts;
use counting::settle;
pub use fullness::{holds_capacity, is_full};
pub use growing::regrow;
use machine::{Item, NoMemory};
pub use reading::PipeIn;
use rtrb::RingBuffer;
use std::alloc::Global;
pub use writing::PipeOut;

/// The most items that a pipe can be made for.
pub const CAPACITY_MAX: usize = 4096;

/// The most bytes that a pipe can be made for.
pub const BYTES_MAX: usize = 268_435_456;

// The mark that goes from the reading end to the writing end.
#[derive(Clone, Copy)]
struct HangUp;

/// A new pipe, which can hold `capacity` items, of `bytes` bytes together. It takes all the memory that its ends need until the
/// pipe grows.
pub fn pipe(alloc: Global, capacity: usize, bytes: usize) -> Result<(PipeOut, PipeIn), NoMemory>
    requires capacity { IsCapacity capacity }
    requires bytes { IsLimit bytes }
    ensures beside { IfOk result (λ ends. Beside ends.0 ends.1) }
    ensures writer { IfOk result (λ ends. (ends.0.put ≡ []) × (ends.0.noted ≡ false)) }
    ensures capacity { IfOk result (λ ends. ends.0.capacity ≡ capacity) }
    ensures bytes { IfOk result (λ ends. ends.0.limit ≡ bytes) }
    ensures reader { IfOk result (λ ends. (ends.1.taken ≡ []) × (ends.1.hung_up ≡ false)) }
{
    let (putter, taker) = RingBuffer::<Item>::new(alloc, capacity)?;
    let (teller, listener) = RingBuffer::<HangUp>::new(alloc, 1)?;
    let (telling, told) = RingBuffer::<u64>::new(alloc, 1)?;
    let limit = bytes as u64;
    Ok((
        PipeOut::new(putter, listener, told, limit),
        PipeIn::new(taker, teller, telling, limit),
    ))
}

/// How many items are in the pipe, for a thread that holds both of its ends. Each end sees all that the other did, and the writer
/// counts exactly the bytes in the pipe. Neither puts, takes, hangs up or notes anything.
#[tactic(auto, using(crate::proofs::Records::beside_consistent, crate::proofs::Records::beside_lengths))]
pub fn beside(writer: &mut PipeOut, reader: &mut PipeIn) -> usize
    requires { AreEnds writer.old reader.old }
    ensures beside { Beside writer.new reader.new }
    ensures consistent { Consistent writer.new reader.new }
    ensures between { length writer.new.put ≡ length reader.new.taken + result }
    ensures within { result ≤ writer.new.capacity }
    ensures known { result ≡ length reader.new.known }
    ensures writer { SameWriting writer.old writer.new }
    ensures reader { SameReading reader.old reader.new }
{
    // The reader looks last, so that it knows exactly the items in the pipe.
    writer.items.slots_beside(&mut reader.items);
    writer.marks.slots_beside(&mut reader.marks);
    settle(&mut writer.counter, &mut reader.teller);
    reader.items.slots_beside(&mut writer.items)
}
