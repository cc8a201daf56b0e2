ghost use Rattle.std.specs.Prelude.{◌≡◌, ◌≤◌, ◌<◌, ◌+◌, ◌++◌, [], ◌∷◌, length, IfSome, IsSome, IsNone};
ghost use mathlib.Core.List.{IsPrefix};
ghost use Rattle.rtrb.specs.Ring.{sent, received, known_free, known_items, SameProducer, SameConsumer};
ghost use Rattle.bounded_pipe.specs.Pipes.{BeginsWithPiece};
ghost use Rattle.bounded_pipe.specs.Sizes.{size_of, taken_size};

use crate::HangUp;
use crate::counting::{Teller, least_told, taken_size};
use crate::past::Past;
use machine::Item;
use rtrb::{Consumer, Producer};
use std::marker::Model;

/// The reading end of a pipe. It can move to a thread of its own.
#[derive(Drop)]
pub struct PipeIn {
    pub(crate) items: Consumer<Item>,
    pub(crate) marks: Producer<HangUp>,
    pub(crate) teller: Teller,
    hung_up: bool,
    past: Past,
}

impl Model for PipeIn {
    ghost use Rattle.std.specs.Prelude.{◌≡◌, ◌<◌, ◌↔◌, IsTrue, IsFalse, length, sum};
    ghost use Rattle.rtrb.specs.Ring.{sent, received, known_free, producer_capacity};
    ghost use Rattle.bounded_pipe.specs.Sizes.{size_of};
    ghost use Rattle.bounded_pipe.specs.inner.Counts.{Tells};
    ghost use Rattle.bounded_pipe.specs.Ends.{Reading};
    ghost use Rattle.bounded_pipe.specs.inner.Rings.{reading};

    ghost Value = { Reading };

    ghost view = { λ e. reading e.items e.marks e.teller.numbers e.teller.untold e.past.items e.hung_up };

    ghost invariant = { λ e. (IsTrue e.hung_up ↔ (0 < length (sent e.marks)))
        × (IsFalse e.hung_up → 0 < known_free e.marks)
        × (producer_capacity e.teller.numbers ≡ 1)
        × Tells (size_of (received e.items)) (sum (sent e.teller.numbers)) e.teller.untold };
}

impl PipeIn {
    ghost use Rattle.std.specs.Prelude.{◌≡◌, ℕ, List, ◌<◌, ◌≤◌, ◌↔◌, [], ◌∷◌, length, false};
    ghost use Rattle.std.specs.Prelude.{IsTrue, IsFalse, IsSome, IsNone, IfSome};
    ghost use mathlib.Core.List.{IsPrefix};
    ghost use Rattle.rtrb.specs.Ring.{sent, received, known_free, producer_capacity, SameProducer};
    ghost use Rattle.bounded_pipe.specs.Ends.{Writing, ReadsOn, SeeEachOther, IsEmpty};
    ghost use Rattle.bounded_pipe.specs.Pipes.{BeginsWithPiece};
    ghost use Rattle.bounded_pipe.specs.Events.{Takes, HangsUp, SameReading};
    ghost use Rattle.bounded_pipe.specs.Names.{ring_name};
    ghost use Rattle.bounded_pipe.specs.inner.Rings.{IsUnused, reading};

    // The reading end over these ends of three new rings, of a pipe with this limit.
    pub(crate) fn new(
        items: Consumer<Item>,
        marks: Producer<HangUp>,
        numbers: Producer<u64>,
        limit: u64,
    ) -> PipeIn
        requires items { received items ≡ [] }
        requires marks { (sent marks ≡ []) × (known_free marks ≡ 1) }
        requires numbers { (sent numbers ≡ []) × (producer_capacity numbers ≡ 1) }
        ensures { result ≡ reading items marks numbers 0 [] false }
    {
        PipeIn {
            items,
            marks,
            teller: Teller {
                numbers,
                untold: 0,
                least: least_told(limit),
            },
            hung_up: false,
            past: Past::new(),
        }
    }

    /// Takes the oldest item out of the pipe, if this end can see one. It tells the writer how many bytes were taken, once these are
    /// enough and the place for that is free, also when there is no item.
    pub fn take(&mut self) -> Option<Item>
        ensures some { IfSome result (λ item. Takes item self.old self.new) }
        ensures none { IsNone result → SameReading self.old self.new }
        ensures unchanged { IsNone result → self.old.untold ≡ 0 → self.new ≡ self.old }
        ensures goes_on { ReadsOn self.old self.new }

        // If each end has seen all that the other did, it gives nothing only if the pipe is empty.
        ensures empty { IsNone result → (writer : Writing) → SeeEachOther writer self.old
            → IsEmpty writer self.old }

        // What it knows of the items in the pipe.
        ensures succeeds { 0 < length self.old.known → IsSome result }
        ensures none_known { IsNone result → self.old.known ≡ [] }
        ensures oldest { IfSome result (λ item. IsPrefix self.old.known (item ∷ self.new.known)) }
    {
        let item = pop_one(&mut self.items);
        self.teller.add(taken_size(&item));
        self.teller.tell();
        item
    }

    /// Tells the writer that nothing more will be taken. A second call changes nothing.
    pub fn hang_up(&mut self)
        ensures hung_up { HangsUp self.old self.new }
        ensures again { IsTrue self.old.hung_up → self.new ≡ self.old }
        ensures goes_on { ReadsOn self.old self.new }

        // What it knows of the items in the pipe.
        ensures known { self.new.known ≡ self.old.known }
    {
        if !self.hung_up {
            self.marks.push_reserved(HangUp);
            self.hung_up = true;
        }
    }

    /// How many items it has seen in the pipe and not taken.
    pub fn known(&self) -> usize
        ensures { result ≡ length self.now.known }
    {
        self.items.cached_slots()
    }

    /// How many bytes the oldest item has that it can see in the pipe, if that is a piece. It takes nothing.
    pub fn next_size(&mut self) -> Option<usize>
        ensures same { SameReading self.old self.new }
        ensures goes_on { ReadsOn self.old self.new }

        // What it knows of the items in the pipe.
        ensures known { IsPrefix self.old.known self.new.known }
        ensures next { IfSome result (λ size. BeginsWithPiece size self.new.known) }
    {
        if self.items.cached_slots() == 0 && self.items.slots() == 0 {
            return None;
        }
        piece_size(self.items.peek_known())
    }

    /// Whether it has hung up.
    pub fn has_hung_up(&self) -> bool
        ensures { result ≡ self.now.hung_up }
    {
        self.hung_up
    }

    // Moves the items that it has seen to new rings, and goes on with these ends of them.
    pub(crate) fn renew(
        &mut self,
        putter: &mut Producer<Item>,
        items: Consumer<Item>,
        marks: Producer<HangUp>,
        numbers: Producer<u64>,
        past: Past,
    )
        requires items { IsUnused putter.old items }
        requires room { length self.old.known ≤ known_free putter.old }
        requires marks { (IsTrue self.old.hung_up ↔ (0 < length (sent marks)))
            × (IsFalse self.old.hung_up → 0 < known_free marks) }
        requires numbers { (sent numbers ≡ []) × (producer_capacity numbers ≡ 1) }
        ensures putter { SameProducer putter.old putter.new × (sent putter.new ≡ self.old.known) }
        ensures name { self.new.pipe
            ≡ record {
              items = ring_name items.end;
              marks = ring_name marks.end;
              numbers = ring_name numbers.end;
              before = past.items;
            } }
        ensures taken { self.new.taken ≡ past.items }
        ensures hung_up { self.new.hung_up ≡ self.old.hung_up }
    {
        let mut items = items;
        hand_over(&mut self.items, putter);
        items.slots_beside(putter);
        self.items = items;
        self.marks = marks;
        self.teller.numbers = numbers;
        self.teller.untold = 0;
        self.past = past;
    }
}

// How many bytes an item has, if it is a piece.
fn piece_size(item: &Item) -> Option<usize>
    ensures { IfSome result (λ size. BeginsWithPiece size (item.now ∷ [])) }
{
    match item {
        Item::Bytes(piece) => Some(piece.len()),
        Item::Close => None,
    }
}

// Pops the oldest item, if one is seen.
#[tactic(auto, using(crate::proofs::SizeLaws::size_of_push, crate::proofs::Records::prefix_reflexive, crate::proofs::Records::prefix_more))]
fn pop_one(items: &mut Consumer<Item>) -> Option<Item>
    ensures ring { SameConsumer items.old items.new }
    ensures some { IfSome result
        (λ item. (received items.new ≡ received items.old ++ item ∷ [])
        × IsPrefix (known_items items.old) (item ∷ known_items items.new)) }
    ensures none { IsNone result
        → (received items.new ≡ received items.old) × (known_items items.new ≡ []) }
    ensures size { size_of (received items.new)
        ≡ size_of (received items.old) + taken_size result }
    ensures goes_on { IsPrefix (received items.old) (received items.new) }
    ensures succeeds { 0 < length (known_items items.old) → IsSome result }
{
    match items.pop() {
        Ok(item) => Some(item),
        Err(_) => None,
    }
}

// Moves all items that were seen in one ring to another.
fn hand_over(from: &mut Consumer<Item>, to: &mut Producer<Item>)
    requires { length (known_items from.old) ≤ known_free to.old }
    ensures same { SameProducer to.old to.new }
    ensures sent { sent to.new ≡ sent to.old ++ known_items from.old }
{
    for _ in 0..from.cached_slots() {
        to.push_reserved(from.pop_known());
    }
}
