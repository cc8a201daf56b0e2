// How the two ends keep the bytes in a pipe within its limit. The writing end counts the bytes that it puts. The reading end tells
// how many it took, and the writing end takes that number off its count.
ghost use Rattle.std.specs.Prelude.{◌≡◌, ℕ, ◌+◌, ◌-◌, ◌<◌, ◌≤◌, ◌↔◌, sum, IsTrue};
ghost use Rattle.rtrb.specs.Ring.{IsPair, SameConsumer, SameProducer, sent, received, producer_capacity};
ghost use Rattle.bounded_pipe.specs.Sizes.{item_size, taken_size};
ghost use Rattle.bounded_pipe.specs.inner.Counts.{TakesOff, Tells, TellsAll};

use machine::Item;
use rtrb::{Consumer, Producer};

// How many bytes an item has.
pub(crate) fn item_size(item: &Item) -> u64
    ensures value { result ≡ item_size item.now }
    ensures small { result ≤ 65536 }
{
    match item {
        Item::Bytes(piece) => piece.len() as u64,
        Item::Close => 0,
    }
}

// How many bytes were taken, if an item was taken.
pub(crate) fn taken_size(item: &Option<Item>) -> u64
    ensures value { result ≡ taken_size item.now }
    ensures small { result ≤ 65536 }
{
    match item {
        Some(item) => item_size(item),
        None => 0,
    }
}

// How many bytes a writing end counts in its pipe.
#[derive(Drop)]
pub(crate) struct Counter {
    pub(crate) numbers: Consumer<u64>,
    pub(crate) limit: u64,
    pub(crate) count: u64,
    // By how much the numbers that came were above the count: always 0, since a reader tells no more than it took. The writing end
    // alone cannot know that.
    pub(crate) excess: u64,
}

impl Counter {
    // Takes a number off the count, not below 0.
    pub(crate) fn take_off(&mut self, number: u64)
        ensures taken { TakesOff number self.old.count self.old.excess self.new.count self.new.excess }
        ensures numbers { self.new.numbers ≡ self.old.numbers }
        ensures limit { self.new.limit ≡ self.old.limit }
    {
        if number <= self.count {
            self.count -= number;
            return;
        }
        self.excess = self.excess.saturating_add(number - self.count);
        self.count = 0;
    }

    // Receives one number, if there is one.
    pub(crate) fn receive(&mut self)
        ensures received { (number : ℕ)
            × (sum (received self.new.numbers) ≡ sum (received self.old.numbers) + number)
            × TakesOff number self.old.count self.old.excess self.new.count self.new.excess }
        ensures ring { SameConsumer self.old.numbers self.new.numbers }
        ensures limit { self.new.limit ≡ self.old.limit }
    {
        if let Ok(number) = self.numbers.pop() {
            self.take_off(number);
        }
    }

    // Whether an item of this size keeps the count within the limit.
    pub(crate) fn has_room(&self, size: u64) -> bool
        requires { self.now.count ≤ self.now.limit }
        ensures { IsTrue result ↔ (self.now.count + size ≤ self.now.limit) }
    {
        size <= self.limit - self.count
    }
}

// How many bytes a reading end has taken and not yet told.
#[derive(Drop)]
pub(crate) struct Teller {
    pub(crate) numbers: Producer<u64>,
    pub(crate) untold: u64,
    // The fewest bytes that it tells.
    pub(crate) least: u64,
}

// The fewest bytes that the reading end of a pipe with this limit tells. A number costs both ends a place in memory that moves between
// their threads. An item has at most 65,536 bytes, so with a large limit less than a quarter of it may stay untold: an empty pipe
// then still takes every item.
pub(crate) fn least_told(limit: u64) -> u64 {
    if limit < 131_072 { 1 } else { limit / 4 }
}

impl Teller {
    // Adds the size of an item that was taken. At the greatest number the sum stays.
    pub(crate) fn add(&mut self, size: u64)
        ensures tells { (taken told : ℕ) → Tells taken told self.old.untold
            → Tells (taken + size) told self.new.untold }
        ensures numbers { self.new.numbers ≡ self.old.numbers }
        ensures nothing { size ≡ 0 → self.new ≡ self.old }
    {
        self.untold = self.untold.saturating_add(size);
    }

    // Tells the sum if it is enough and the place is free. The greatest number is never told, since it may be too small.
    pub(crate) fn tell(&mut self)
        ensures tells { (taken : ℕ) → Tells taken (sum (sent self.old.numbers)) self.old.untold
            → Tells taken (sum (sent self.new.numbers)) self.new.untold }
        ensures ring { SameProducer self.old.numbers self.new.numbers }
        ensures nothing { self.old.untold ≡ 0 → self.new ≡ self.old }
    {
        if self.untold == 0 || self.untold < self.least || self.untold == u64::MAX {
            return;
        }
        if self.numbers.push(self.untold).is_ok() {
            self.untold = 0;
        }
    }
}

// Receives the number that is in the ring of numbers, if there is one.
fn receive_told(counter: &mut Counter, teller: &mut Teller)
    requires pair { IsPair teller.old.numbers counter.old.numbers }
    requires place { producer_capacity teller.old.numbers ≡ 1 }
    ensures received { (number : ℕ)
        × (sum (received counter.old.numbers) + number ≡ sum (sent teller.old.numbers))
        × TakesOff number counter.old.count counter.old.excess counter.new.count counter.new.excess }
    ensures all { received counter.new.numbers ≡ sent teller.new.numbers }
    ensures sent { sent teller.new.numbers ≡ sent teller.old.numbers }
    ensures counter { SameConsumer counter.old.numbers counter.new.numbers
        × (counter.new.limit ≡ counter.old.limit) }
    ensures teller { SameProducer teller.old.numbers teller.new.numbers
        × (teller.new.untold ≡ teller.old.untold) }
{
    teller.numbers.slots_beside(&mut counter.numbers);
    if counter.numbers.slots_beside(&mut teller.numbers) > 0 {
        let number = counter.numbers.pop_known();
        counter.take_off(number);
    }
}

// Tells what was not yet told, and receives it.
fn receive_untold(counter: &mut Counter, teller: &mut Teller)
    requires pair { IsPair teller.old.numbers counter.old.numbers }
    requires place { producer_capacity teller.old.numbers ≡ 1 }
    requires all { received counter.old.numbers ≡ sent teller.old.numbers }
    ensures received { TakesOff teller.old.untold counter.old.count counter.old.excess counter.new.count counter.new.excess }
    ensures told { TellsAll teller.old.untold (sum (sent teller.old.numbers)) teller.new.untold
        (sum (sent teller.new.numbers)) }
    ensures all { received counter.new.numbers ≡ sent teller.new.numbers }
    ensures counter { SameConsumer counter.old.numbers counter.new.numbers
        × (counter.new.limit ≡ counter.old.limit) }
    ensures teller { SameProducer teller.old.numbers teller.new.numbers }
{
    if teller.untold == 0 {
        return;
    }
    teller.numbers.slots_beside(&mut counter.numbers);
    teller.numbers.push_reserved(teller.untold);
    counter.numbers.slots_beside(&mut teller.numbers);
    let number = counter.numbers.pop_known();
    counter.take_off(number);
    teller.untold = 0;
}

// Empties the ring of numbers: all that was taken is told and received, so that the count is exact.
pub(crate) fn settle(counter: &mut Counter, teller: &mut Teller)
    requires pair { IsPair teller.old.numbers counter.old.numbers }
    requires place { producer_capacity teller.old.numbers ≡ 1 }
    ensures settled { (number left over : ℕ)
        × (sum (received counter.old.numbers) + number ≡ sum (sent teller.old.numbers))
        × TakesOff (number + teller.old.untold) counter.old.count counter.old.excess left over
        × (counter.new.count ≡ left - over) }
    ensures excess { counter.new.excess ≡ 0 }
    ensures told { TellsAll teller.old.untold (sum (sent teller.old.numbers)) teller.new.untold
        (sum (sent teller.new.numbers)) }
    ensures heard { sum (received counter.new.numbers) ≡ sum (sent teller.new.numbers) }
    ensures counter { SameConsumer counter.old.numbers counter.new.numbers
        × (counter.new.limit ≡ counter.old.limit) }
    ensures teller { SameProducer teller.old.numbers teller.new.numbers }
{
    receive_told(counter, teller);
    receive_untold(counter, teller);
    counter.count = counter.count.saturating_sub(counter.excess);
    counter.excess = 0;
}
