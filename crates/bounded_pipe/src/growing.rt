// How a pipe gets new rings, with room for more items.
ghost use Rattle.std.specs.Prelude.{◌≡◌, ◌<◌, ◌≤◌, ◌↔◌, length, OnOk, IsErr, IsTrue, IsFalse};
ghost use Rattle.rtrb.specs.Ring.{sent, received, known_free, SameProducer, SameConsumer};
ghost use Rattle.bounded_pipe.specs.Ends.{AreEnds, Beside};
ghost use Rattle.bounded_pipe.specs.Events.{Regrows};
ghost use Rattle.bounded_pipe.specs.inner.Rings.{IsUnused};

use crate::past::Past;
use crate::{HangUp, PipeIn, PipeOut, beside};
use machine::{Item, NoMemory};
use rtrb::{Consumer, Producer, RingBuffer};
use std::alloc::Global;

// The items that were taken through the pipe of this end so far.
fn past_of(_reader: &PipeIn) -> Past
    ensures { result.items ≡ _reader.now.taken }
{
    Past {}
}

// Tells and notes the hang-up again through a new ring, if it was told and noted before.
fn pass_marks(
    teller: &mut Producer<HangUp>,
    listener: &mut Consumer<HangUp>,
    hung_up: bool,
    noted: bool,
)
    requires fresh { IsUnused teller.old listener.old }
    requires room { 0 < known_free teller.old }
    requires noted { IsTrue noted → IsTrue hung_up }
    ensures teller { SameProducer teller.old teller.new }
    ensures listener { SameConsumer listener.old listener.new }
    ensures told { (IsTrue hung_up ↔ (0 < length (sent teller.new)))
        × (IsFalse hung_up → 0 < known_free teller.new) }
    ensures noted { IsTrue noted ↔ (0 < length (received listener.new)) }
{
    if !hung_up {
        return;
    }
    teller.push_reserved(HangUp);
    if !noted {
        return;
    }
    listener.slots_beside(teller);
    listener.pop_known();
}

/// Gives a pipe new rings with room for `capacity` items, at least as many as before, and moves the items in it over in order. All
/// memory is taken first, so a refusal changes nothing.
pub fn regrow(
    alloc: Global,
    writer: &mut PipeOut,
    reader: &mut PipeIn,
    capacity: usize,
) -> Result<(), NoMemory>
    requires ends { AreEnds writer.old reader.old }
    requires capacity { (writer.old.capacity ≤ capacity) × (capacity ≤ 4096) }
    ensures regrows { OnOk result (Regrows capacity writer.old writer.new reader.old reader.new) }
    ensures beside { OnOk result (Beside writer.new reader.new) }
    ensures refused { IsErr result → (writer.new ≡ writer.old) × (reader.new ≡ reader.old) }
{
    let (mut putter, taker) = RingBuffer::<Item>::new(alloc, capacity)?;
    let (mut teller, mut listener) = RingBuffer::<HangUp>::new(alloc, 1)?;
    let (telling, told) = RingBuffer::<u64>::new(alloc, 1)?;
    beside(writer, reader);
    let before = past_of(reader);
    pass_marks(
        &mut teller,
        &mut listener,
        reader.has_hung_up(),
        writer.has_noted(),
    );
    let same = past_of(reader);
    reader.renew(&mut putter, taker, teller, telling, same);
    writer.renew(putter, listener, told, before);
    beside(writer, reader);
    Ok(())
}
