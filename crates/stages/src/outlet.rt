ghost use Rattle.std.specs.Prelude.{◌≡◌, ℕ, ◌<◌, ◌≤◌, List, [], ◌≢◌, length, count_by, slice_get, slice_index_or, IfOk, IfSome, IsNone, IsSome, IsErr, Option, None, Some, Bool, true, false};
ghost use Rattle.std.specs.List.{AllByRecursion, HoldsAt};
ghost use Rattle.machine.specs.Pieces.{IsBlock};
ghost use Rattle.machine.specs.declared.protocol.Want.{Want};
ghost use Rattle.bounded_pipe.specs.Ends.{Writing};
ghost use Rattle.splice_tee.specs.BranchStates.{is_open, IsLacking, NoOtherLacks, NoneLacks, IsFirstLacking, SomeOpen};
ghost use Rattle.stages.specs.Stages.{is_close, front_size};
ghost use Rattle.stages.specs.Owed.{is_finished};
ghost use Rattle.stages.specs.inner.Moves.{Offers, OutletKeeps, Serves, Advances, NextIs, is_piece};
ghost use Rattle.stages.specs.inner.Steps.{IsUnmarked, SeesReaders};
ghost use Rattle.stages.specs.Outlets.{IsRefusing, Spent, IsNewWriting, IsNewOutlet};

use bounded_pipe::PipeOut;
use machine::{Item, NoMemory, Pieces};
use splice_tee::{Branches, duplicate};
use std::alloc::Global;
use std::marker::Model;

// What came of an offer.
#[derive(Drop)]
pub(crate) enum Offer {
    // The branch has the item.
    Put,
    // The branch has no room now, and gives the item back.
    Full(Item),
    // The reader has hung up.
    Gone,
}

/// The branches of a stage, and the items that are owed to them.
#[derive(Drop)]
pub struct Outlet {
    pipes: Vec<usize>,
    pub(crate) ends: Vec<PipeOut>,
    pub(crate) served: Branches,
    pub(crate) front: Option<Item>,
    pub(crate) owed: Pieces,
}

impl Model for Outlet {
    ghost use Rattle.std.specs.Prelude.{◌≡◌, length};
    ghost use Rattle.stages.specs.Outlets.{Putting};

    ghost Value = { Putting };

    ghost view = { λ o. record {
      pipes = o.pipes.items;
      ends = o.ends.items;
      served = o.served;
      front = o.front;
      block = o.owed.block;
      owed = o.owed.pieces;
    } };

    ghost invariant = { λ o. (length o.pipes.items ≡ length o.served)
        × (length o.ends.items ≡ length o.served) };
}

// Offers an item to one branch: its end is asked first whether the reader is gone.
fn offer_item(end: &mut PipeOut, item: Item) -> Offer
    ensures { Offers item end.old end.new result }
{
    if end.reader_gone() {
        return Offer::Gone;
    }
    match end.put(item) {
        Ok(()) => Offer::Put,
        Err(back) => Offer::Full(back),
    }
}

// An equal item, which shares its bytes.
fn copy_of(item: &Item) -> Result<Item, NoMemory>
    ensures equal { IfOk result (λ copy. copy ≡ item.now) }
    ensures err { IsErr result → is_close (Some item.now) ≡ false }
{
    match item {
        Item::Bytes(piece) => Ok(Item::Bytes(duplicate(piece)?)),
        Item::Close => Ok(Item::Close),
    }
}

// Whether the front item is a piece.
fn has_piece(front: &Option<Item>) -> bool
    ensures { result ≡ is_piece front.now }
{
    match front {
        Some(Item::Bytes(_)) => true,
        Some(Item::Close) => false,
        None => false,
    }
}

// Whether the front item is Close.
pub(crate) fn has_close(front: &Option<Item>) -> bool
    ensures { result ≡ is_close front.now }
{
    match front {
        Some(Item::Bytes(_)) => false,
        Some(Item::Close) => true,
        None => false,
    }
}

// The next item that is owed: a piece, or Close if no piece is left of a machine that has finished.
fn next_item(owed: &mut Pieces, finished: bool) -> Option<Item>
    ensures next { NextIs finished owed.old.pieces owed.new.pieces result }
    ensures block { owed.new.block ≡ owed.old.block }
{
    match owed.pop_front() {
        Some(piece) => Some(Item::Bytes(piece)),
        None if finished => Some(Item::Close),
        None => None,
    }
}

impl Outlet {
    /// Branches on which nothing was put, with the numbers of their pipes. They get pieces of at most `block`
    /// bytes.
    pub fn new(
        alloc: Global,
        pipes: Vec<usize>,
        ends: Vec<PipeOut>,
        block: usize,
    ) -> Result<Outlet, NoMemory>
        requires numbered { length pipes.items ≡ length ends.items }
        requires count { length ends.items ≤ 33 }
        requires block { IsBlock block }
        requires fresh { AllByRecursion IsNewWriting ends.items }
        ensures ends { IfOk result
            (λ o. (o.pipes ≡ pipes.items) × (o.ends ≡ ends.items) × (o.block ≡ block)) }
        ensures fresh { IfOk result IsNewOutlet }
    {
        let served = Branches::new(alloc, ends.len())?;
        Ok(Outlet {
            pipes,
            ends,
            served,
            front: None,
            owed: Pieces::new(alloc, block),
        })
    }

    // Offers a copy of the front item to a branch that lacks it. Whether there was an event.
    fn offer_to(&mut self, k: usize) -> Result<bool, NoMemory>
        requires lacks { IsLacking self.old.served k }
        requires front { IsSome self.old.front }
        ensures serves { IfOk result (λ moved. Serves moved self.old self.new) }
        ensures front { self.new.front ≡ self.old.front }
        ensures refused { IfOk result
            (λ moved. moved ≡ false → HoldsAt (IsRefusing (front_size self.old.front)) self.old.ends k) }
        ensures others { (j : ℕ) (w : Writing) → j ≢ k
            → slice_index_or self.new.ends j w ≡ slice_index_or self.old.ends j w }
        ensures count { length self.new.served ≡ length self.old.served }
        ensures err { IsErr result → (self.new ≡ self.old) × (is_close self.old.front ≡ false) }
    {
        let Some(front) = &self.front else {
            return Ok(false);
        };
        let item = copy_of(front)?;
        match offer_item(&mut self.ends[k], item) {
            Offer::Put => {
                self.served.given(k);
                Ok(true)
            }
            Offer::Gone => {
                self.served.close(k);
                Ok(true)
            }
            Offer::Full(_) => Ok(false),
        }
    }

    // Offers the front piece itself to the one branch that lacks it; once it has it, or is closed, nothing is
    // at the front. Whether there was an event.
    fn offer_last(&mut self, k: usize) -> bool
        requires lacks { IsLacking self.old.served k }
        requires last { NoOtherLacks self.old.served k }
        requires front { is_piece self.old.front ≡ true }
        ensures serves { Serves result self.old self.new }
        ensures refused { result ≡ false → HoldsAt (IsRefusing (front_size self.old.front)) self.old.ends k }
        ensures count { length self.new.served ≡ length self.old.served }
    {
        let Some(item) = self.front.take() else {
            return false;
        };
        match offer_item(&mut self.ends[k], item) {
            Offer::Put => {
                self.served.given(k);
                self.served.next_piece();
                true
            }
            Offer::Gone => {
                self.served.close(k);
                self.served.next_piece();
                true
            }
            Offer::Full(back) => {
                self.front = Some(back);
                false
            }
        }
    }

    // Offers the front item to each open branch that lacks it, in branch order. Whether there was an event.
    pub(crate) fn serve(&mut self) -> Result<bool, NoMemory>
        requires { IsSome self.old.front }
        ensures serves { IfOk result (λ moved. Serves moved self.old self.new) }
        ensures refused { IfOk result
            (λ moved. moved ≡ false → (k : ℕ) → IsLacking self.old.served k
            → HoldsAt (IsRefusing (front_size self.old.front)) self.old.ends k) }
        ensures count { length self.new.served ≡ length self.old.served }
        ensures err { IsErr result
            → (moved : Bool) × Serves moved self.old self.new × (is_close self.new.front ≡ false) }
    {
        let mut moved = false;
        let mut from = 0;
        while let Some(k) = self.served.lacks(from) {
            if has_piece(&self.front) && self.served.no_other_lacks(k) {
                return Ok(self.offer_last(k) || moved);
            }
            if self.offer_to(k)? {
                moved = true;
            }
            from = k + 1;
        }
        Ok(moved)
    }

    // Closes this branch if its reader has hung up. Whether it was closed.
    fn close_if_gone(&mut self, k: usize) -> bool
        requires { IsLacking self.old.served k }
        ensures serves { Serves result self.old self.new }
        ensures there { result ≡ false → self.new ≡ self.old }
        ensures sees { result ≡ false → HoldsAt IsUnmarked self.old.ends k }
        ensures count { length self.new.served ≡ length self.old.served }
    {
        let gone = self.ends[k].reader_gone();
        if gone {
            self.served.close(k);
        }
        gone
    }

    // Closes the first open branch that lacks the front item and whose reader has hung up. Whether there was one.
    pub(crate) fn close_gone(&mut self) -> bool
        ensures serves { Serves result self.old self.new }
        ensures there { result ≡ false → self.new ≡ self.old }
        ensures sees { result ≡ false → SeesReaders self.new }
    {
        let mut from = 0;
        while let Some(k) = self.served.lacks(from) {
            if self.close_if_gone(k) {
                return true;
            }
            from = k + 1;
        }
        false
    }

    // Drops the front piece if each open branch has it.
    fn turn_over(&mut self, finished: bool)
        ensures advances { Advances finished self.old self.new }
        ensures front { IsSome self.new.front → NoneLacks self.new.served
            → is_close self.new.front ≡ true }
        ensures owed { self.new.owed ≡ self.old.owed }
        ensures turned { IsNone self.new.front → IsSome self.old.front → NoneLacks self.old.served }
    {
        if has_piece(&self.front) && self.served.lacks(0).is_none() {
            self.front = None;
            self.served.next_piece();
        }
    }

    // Makes the next item the front item if there is none.
    fn load(&mut self, finished: bool)
        ensures advances { Advances finished self.old self.new }
        ensures front { IsNone self.new.front → (finished ≡ false) × (self.new.owed ≡ []) }
        ensures served { self.new.served ≡ self.old.served }
        ensures kept { IsSome self.old.front → self.new.front ≡ self.old.front }
        ensures none { IsNone self.new.front → IsNone self.old.front × (self.old.owed ≡ []) }
    {
        if self.front.is_none() {
            self.front = next_item(&mut self.owed, finished);
        }
    }

    // Makes the next item the front item if each open branch has the front one. Returns the first
    // branch that lacks it.
    pub(crate) fn advance(&mut self, finished: bool) -> Option<usize>
        ensures advances { Advances finished self.old self.new }
        ensures some { IfSome result
            (λ k. IsFirstLacking self.new.served k × IsSome self.new.front) }
        ensures none { IsNone result → (want : Want) (made : List ℕ) → finished ≡ is_finished want
            → OutletKeeps want made self.old → SomeOpen self.old.served → Spent finished self.new }
        ensures in_turn { IsNone self.new.front
            → (IsSome self.old.front → NoneLacks self.old.served) × (self.old.owed ≡ []) }
    {
        self.turn_over(finished);
        self.load(finished);
        if self.front.is_none() {
            return None;
        }
        self.served.lacks(0)
    }

    // The number of the pipe of one branch.
    pub(crate) fn pipe(&self, k: usize) -> usize
        requires { k < length self.now.served }
        ensures { slice_get self.now.pipes k ≡ Some result }
    {
        self.pipes[k]
    }

    // How many branches are open.
    pub(crate) fn open_count(&self) -> usize
        ensures { result ≡ count_by is_open self.now.served }
    {
        self.served.open_count()
    }

    // Whether Close is the front item, some branch is open, and each open one has it.
    #[tactic(auto, using(crate::proofs::lemmas::SpentLaws::some_open))]
    pub(crate) fn is_closed(&self) -> bool
        ensures { result ≡ true
            → (is_close self.now.front ≡ true) × NoneLacks self.now.served × SomeOpen self.now.served }
    {
        self.served.lacks(0).is_none() && has_close(&self.front) && self.served.open_count() > 0
    }

    // Drops all that is owed.
    pub(crate) fn clear(&mut self)
        ensures { self.new ≡ record self.old { front = None; owed = [] } }
    {
        self.front = None;
        self.owed.clear();
    }
}
