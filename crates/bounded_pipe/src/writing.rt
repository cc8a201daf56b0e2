use crate::HangUp;
use crate::amounts::Amounts;
use crate::counting::{Counter, item_size};
use crate::past::Past;
use machine::Item;
use rtrb::{Consumer, Producer, PushError};
use std::marker::Model;

/// The writing end of a pipe. It can move to a thread of its own.
#[derive(Drop)]
pub struct PipeOut {
    pub(crate) items: Producer<Item>,
    pub(crate) marks: Consumer<HangUp>,
    pub(crate) counter: Counter,
    noted: bool,
    past: Past,
    // What was put so far. It is no part of the view: no clause speaks of it.
    amounts: Amounts,
}

impl Model for PipeOut {
    ghost use Rattle.std.specs.Prelude.{◌<◌, ◌↔◌, IsTrue, length, sum};
    ghost use Rattle.rtrb.specs.Ring.{sent, received};
    ghost use Rattle.bounded_pipe.specs.Sizes.{size_of};
    ghost use Rattle.bounded_pipe.specs.inner.Counts.{Counts};
    ghost use Rattle.bounded_pipe.specs.Ends.{Writing};
    ghost use Rattle.bounded_pipe.specs.inner.Rings.{writing};

    ghost Value = { Writing };

    ghost view = { λ e. writing e.items e.marks e.counter.numbers e.counter.limit e.counter.count e.past.items e.noted };

    ghost invariant = { λ e. (IsTrue e.noted ↔ (0 < length (received e.marks)))
        × Counts (size_of (sent e.items)) e.counter.limit e.counter.count (sum (received e.counter.numbers)) e.counter.excess };
}

impl PipeOut {
    ghost use Rattle.std.specs.Prelude.{◌≡◌, ℕ, List, ◌+◌, ◌<◌, ◌≤◌, ◌↔◌, [], false, ◌⊎◌, length};
    ghost use Rattle.std.specs.Prelude.{IsTrue, IsFalse, IsOk, IsErr, OnOk, IfErr};
    ghost use Rattle.rtrb.specs.Ring.{sent, received};
    ghost use Rattle.bounded_pipe.specs.Sizes.{item_size, size_of};
    ghost use Rattle.bounded_pipe.specs.Ends.{Reading, WritesOn, SeeEachOther, IsLimit};
    ghost use Rattle.bounded_pipe.specs.inner.Known.{FindsFull, KnowsAsMuch};
    ghost use Rattle.bounded_pipe.specs.Events.{Puts, Notes, SameWriting};
    ghost use Rattle.bounded_pipe.specs.inner.Rings.{writing};

    // The writing end over these ends of three new rings.
    pub(crate) fn new(
        items: Producer<Item>,
        marks: Consumer<HangUp>,
        numbers: Consumer<u64>,
        limit: u64,
    ) -> PipeOut
        requires limit { IsLimit limit }
        requires fresh { (sent items ≡ []) × (received marks ≡ []) × (received numbers ≡ []) }
        ensures { result ≡ writing items marks numbers limit 0 [] false }
    {
        PipeOut {
            items,
            marks,
            counter: Counter {
                numbers,
                limit,
                count: 0,
                excess: 0,
            },
            noted: false,
            past: Past::new(),
            amounts: Amounts::NONE,
        }
    }

    /// Puts an item into the pipe, or gives it back if the pipe is full. It receives a number from the reader first, if there is one.
    pub fn put(&mut self, item: Item) -> Result<(), Item>
        ensures ok { OnOk result (Puts item self.old self.new) }
        ensures refused { IfErr result (λ back. (back ≡ item) × SameWriting self.old self.new) }
        ensures goes_on { WritesOn self.old self.new }
        ensures fits { OnOk result (item_size item ≤ self.old.limit) }

        // If each end has seen all that the other did, only a full pipe refuses, and both have still seen all after that.
        ensures full { IsErr result → FindsFull (item_size item) self.old self.new }

        // What it knows of free places, bytes and marks.
        ensures succeeds { 0 < self.old.free → self.old.count + item_size item ≤ self.old.limit
            → IsOk result }
        ensures one_less { OnOk result (self.old.free ≤ self.new.free + 1) }
        ensures pending { self.new.pending ≡ self.old.pending }
    {
        self.counter.receive();
        let size = item_size(&item);
        if !self.counter.has_room(size) {
            return Err(item);
        }
        match self.items.push(item) {
            Ok(()) => {
                self.counter.count += size;
                self.amounts.add(size);
                Ok(())
            }
            Err(PushError::Full(back)) => Err(back),
        }
    }

    /// Whether the reader has hung up, as far as this end can see. It notes what it saw, and says
    /// so from then on.
    #[tactic(auto, using(crate::proofs::Records::sees_open))]
    pub fn reader_gone(&mut self) -> bool
        ensures gone { IsTrue result → Notes self.old self.new }
        ensures not_gone { IsFalse result → self.new ≡ self.old }
        ensures again { IsTrue self.old.noted → self.new ≡ self.old }
        ensures goes_on { WritesOn self.old self.new }

        // If each end has seen all that the other did, it is false only if the reader has not hung up.
        ensures still_there { IsFalse result → (reader : Reading) → SeeEachOther self.old reader
            → IsFalse reader.hung_up }

        // What it knows of free places and marks.
        ensures same { KnowsAsMuch self.old self.new }
        ensures sees { IsTrue self.old.noted ⊎ (0 < self.old.pending) → IsTrue result }
        ensures none_seen { IsFalse result → IsFalse self.old.noted × (self.old.pending ≡ 0) }
    {
        if !self.noted && self.marks.pop().is_ok() {
            self.noted = true;
        }
        self.noted
    }

    /// How many items the pipe can hold.
    pub fn capacity(&self) -> usize
        ensures { result ≡ self.now.capacity }
    {
        self.items.capacity()
    }

    // Whether it counts too many bytes in the pipe for an item of this size.
    pub(crate) fn lacks_bytes(&self, size: u64) -> bool
        ensures { IsTrue result ↔ (self.now.limit < self.now.count + size) }
    {
        !self.counter.has_room(size)
    }

    /// How many pieces were put so far, and how many bytes, also before the pipe grew.
    pub fn amounts(&self) -> Amounts {
        self.amounts
    }

    /// Whether it has noted that the reader hung up.
    pub fn has_noted(&self) -> bool
        ensures { result ≡ self.now.noted }
    {
        self.noted
    }

    // Goes on with these ends of new rings, which hold the bytes that it counts.
    pub(crate) fn renew(
        &mut self,
        items: Producer<Item>,
        marks: Consumer<HangUp>,
        numbers: Consumer<u64>,
        past: Past,
    )
        requires marks { IsTrue self.old.noted ↔ (0 < length (received marks)) }
        requires items { size_of (sent items) ≡ self.old.count }
        requires numbers { received numbers ≡ [] }
        ensures { self.new
            ≡ writing items marks numbers self.old.limit self.old.count past.items self.old.noted }
    {
        self.items = items;
        self.marks = marks;
        self.counter.numbers = numbers;
        self.counter.excess = 0;
        self.past = past;
    }
}
