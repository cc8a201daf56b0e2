ghost use Rattle.std.specs.Prelude.{◌≡◌, ℕ, ◌+◌, ◌<◌, ◌≤◌, List, [], ◌∷◌, ◌++◌, length};
ghost use Rattle.line_filters.specs.KeptParts.{AreCounted, AreSized, amount_of, ends_open};

use crate::held::Held;
use crate::longest::LongestPiece;
use commands::Counted;
use machine::{NoMemory, Piece, Pieces, newlines};
use std::alloc::Global;
use std::collections::VecDeque;
use std::mem;

// The bytes of the pieces that hold the last lines, or bytes. The bytes of each piece but the last
// are at least half of its memory.
#[derive(Drop)]
pub(crate) struct Kept {
    alloc: Global,
    counted: Counted,
    full: VecDeque<Held>,
    last: Held,
    amount: u128,
    incomplete: bool,
    longest: LongestPiece,
    ghost right: { AreCounted counted (full.items ++ last ∷ []) amount incomplete },
    ghost sized: { AreSized longest.bytes (full.items ++ last ∷ []) },
}

impl Kept {
    ghost use Rattle.std.specs.Prelude.{IsErr, OnOk, max};
    ghost use Rattle.machine.specs.Pieces.{contents};
    ghost use Rattle.line_filters.specs.KeptParts.{kept_bytes, later_bytes};
    ghost use Rattle.line_filters.specs.Skips.{members_in, last_of, skipped};

    // No bytes yet.
    pub(crate) fn new(alloc: Global, counted: Counted) -> Kept
        ensures none { kept_bytes result.full.items result.last ≡ [] }
        ensures counted { result.counted ≡ counted }
    {
        Kept {
            alloc,
            counted,
            full: VecDeque::new(alloc),
            last: Held::new(alloc),
            amount: 0,
            incomplete: false,
            longest: LongestPiece::new(),
        }
    }

    // What is counted.
    pub(crate) fn counted(&self) -> Counted
        ensures { result ≡ self.now.counted }
    {
        self.counted
    }

    // Keeps the bytes of a piece more.
    pub(crate) fn push(&mut self, piece: Piece) -> Result<(), NoMemory>
        ensures pieces { OnOk result
            (kept_bytes self.new.full.items self.new.last
            ≡ kept_bytes self.old.full.items self.old.last ++ piece) }
        ensures counted { self.new.counted ≡ self.old.counted }
        ensures refused { IsErr result
            → later_bytes self.new.full.items self.new.last
            ≡ later_bytes self.old.full.items self.old.last }
        ensures longest { self.new.longest.bytes ≡ max self.old.longest.bytes (length piece) }
    {
        self.longest.note(&piece);
        let amount = amount_in(self.counted, piece.bytes());
        let incomplete = is_incomplete(piece.bytes());
        if self.last.has_room_for(piece.len()) {
            self.lengthen(piece.bytes(), amount, incomplete)
        } else {
            self.add(piece.bytes(), amount, incomplete)
        }
    }

    // Drops the leading bytes that have none of the last `count` lines or bytes, whatever follows.
    pub(crate) fn leave(&mut self, count: u64)
        ensures last { (zs : List ℕ)
            → last_of self.old.counted count (kept_bytes self.new.full.items self.new.last ++ zs)
            ≡ last_of self.old.counted count (kept_bytes self.old.full.items self.old.last ++ zs) }
        ensures counted { self.new.counted ≡ self.old.counted }
        ensures few { amount_of self.old.counted (later_bytes self.new.full.items self.new.last)
            ≤ count }
        ensures longest { self.new.longest ≡ self.old.longest }
    {
        while let Some(first) = self.full.front() {
            let rest = self.amount - u128::from(first.amount);
            if rest <= u128::from(count) {
                return;
            }
            let _first = self.full.pop_front();
            self.amount = rest;
        }
    }

    // How many lines, or bytes, there are.
    pub(crate) fn members(&self) -> u128
        ensures { result
            ≡ members_in self.now.counted (kept_bytes self.now.full.items self.now.last) }
    {
        match self.counted {
            Counted::Bytes => self.amount,
            Counted::Lines => {
                if self.incomplete {
                    self.amount + 1
                } else {
                    self.amount
                }
            }
        }
    }

    // Puts out what follows the first lines or bytes.
    pub(crate) fn put_behind(self, skip: u128, out: &mut Pieces) -> Result<(), NoMemory>
        ensures ok { OnOk result
            (contents out.new
            ≡ contents out.old
            ++ skipped self.counted skip (kept_bytes self.full.items self.last)) }
        ensures block { out.new.block ≡ out.old.block }
    {
        let Kept {
            counted,
            mut full,
            last,
            ..
        } = self;
        let mut left = skip;
        while let Some(held) = full.pop_front() {
            left = held.put_behind(counted, left, out)?;
        }
        last.put_behind(counted, left, out)?;
        Ok(())
    }
}

impl Kept {
    ghost use Rattle.std.specs.Prelude.{IsErr, OnOk};
    ghost use Rattle.line_filters.specs.KeptParts.{kept_bytes, later_bytes};

    // Appends bytes to the last ones.
    fn lengthen(&mut self, more: &[u8], amount: u64, incomplete: bool) -> Result<(), NoMemory>
        requires amount { amount ≡ amount_of self.old.counted more.now }
        requires some { 1 ≤ length more.now }
        requires incomplete { incomplete ≡ ends_open more.now }
        requires few { length self.old.last.bytes.items + length more.now ≤ 4096 }
        ensures kept { OnOk result
            (kept_bytes self.new.full.items self.new.last
            ≡ kept_bytes self.old.full.items self.old.last ++ more.now) }
        ensures counted { self.new.counted ≡ self.old.counted }
        ensures refused { IsErr result
            → later_bytes self.new.full.items self.new.last
            ≡ later_bytes self.old.full.items self.old.last }
        ensures longest { self.new.longest ≡ self.old.longest }
    {
        self.last.bytes.extend_from_slice(more)?;
        self.last.amount += amount;
        self.amount += u128::from(amount);
        self.incomplete = incomplete;
        Ok(())
    }

    // Keeps bytes after the last ones in memory of their own.
    fn add(&mut self, more: &[u8], amount: u64, incomplete: bool) -> Result<(), NoMemory>
        requires amount { amount ≡ amount_of self.old.counted more.now }
        requires some { 1 ≤ length more.now }
        requires incomplete { incomplete ≡ ends_open more.now }
        requires longest { length more.now ≤ self.old.longest.bytes }
        ensures kept { OnOk result
            (kept_bytes self.new.full.items self.new.last
            ≡ kept_bytes self.old.full.items self.old.last ++ more.now) }
        ensures counted { self.new.counted ≡ self.old.counted }
        ensures refused { IsErr result
            → later_bytes self.new.full.items self.new.last
            ≡ later_bytes self.old.full.items self.old.last }
        ensures longest { self.new.longest ≡ self.old.longest }
    {
        let more = Held::copied(self.alloc, more, amount)?;
        self.full.reserve(1)?;
        self.last.give_back_room();
        let last = mem::replace(&mut self.last, more);
        self.full.push_back_reserved(last);
        self.amount += u128::from(amount);
        self.incomplete = incomplete;
        Ok(())
    }
}

// How many newlines, or bytes, there are.
fn amount_in(counted: Counted, bytes: &[u8]) -> u64
    ensures { result ≡ amount_of counted bytes.now }
{
    match counted {
        Counted::Lines => newlines(bytes) as u64,
        Counted::Bytes => bytes.len() as u64,
    }
}

// Whether the last line is incomplete.
fn is_incomplete(bytes: &[u8]) -> bool
    requires { 1 ≤ length bytes.now }
    ensures { result ≡ ends_open bytes.now }
{
    bytes[bytes.len() - 1] != b'\n'
}
