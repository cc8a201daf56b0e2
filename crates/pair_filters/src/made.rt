// What uniq writes. Long lines in it are not copied.
ghost use Rattle.std.specs.Prelude.{◌≡◌, ◌≤◌, ◌+◌, [], ◌∷◌, ◌++◌, length, OnOk, IfOk};
ghost use Rattle.std.specs.List.{concat};
ghost use Rattle.lanes.specs.inner.Prefixes.{prefix_bytes};
ghost use Rattle.machine.specs.Pieces.{contents};

use lanes::{Prefix, Written};
use machine::{NoMemory, Piece, Pieces, clear_and_shrink};
use std::alloc::Global;
use std::collections::VecDeque;
use std::marker::Model;

// Room for what is written of a first piece.
const ROOM: usize = 4096;

// The most bytes of a piece.
const MOST: usize = 65536;

// Bytes that were written. Contracts see them as a list.
#[derive(Drop)]
pub(crate) struct Made {
    // The bytes up to the end of the last long line.
    before: Pieces,
    // The bytes after it.
    last: Written,
}

impl Model for Made {
    ghost use Rattle.std.specs.Prelude.{List, ℕ, ◌++◌};
    ghost use Rattle.machine.specs.Pieces.{contents};

    ghost Value = { List ℕ };

    ghost view = { λ made. contents made.before ++ made.last };
}

impl Made {
    // Begins with no bytes.
    pub(crate) fn new(alloc: Global) -> Made
        ensures { result ≡ [] }
    {
        Made {
            before: Pieces::new(alloc, MOST),
            last: Written::new(alloc, ROOM),
        }
    }

    // Appends bytes.
    pub(crate) fn put(&mut self, bytes: &[u8]) -> Result<(), NoMemory>
        ensures { OnOk result (self.new ≡ self.old ++ bytes.now) }
    {
        self.last.put(bytes)
    }

    // Appends bytes, short ones as a chunk or two.
    #[inline(always)]
    pub(crate) fn put_part(&mut self, prefix: Prefix) -> Result<(), NoMemory>
        ensures { OnOk result (self.new ≡ self.old ++ prefix_bytes prefix.entry) }
    {
        self.last.put_part(prefix)
    }

    // Appends a byte.
    #[inline(always)]
    pub(crate) fn put_byte(&mut self, byte: u8) -> Result<(), NoMemory>
        ensures { OnOk result (self.new ≡ self.old ++ byte ∷ []) }
    {
        self.last.put_byte(byte)
    }

    // Appends a long line, whose memory is given back as its pieces are made.
    pub(crate) fn put_line(&mut self, line: Vec<u8>) -> Result<(), NoMemory>
        ensures { OnOk result (self.new ≡ self.old ++ line.items) }
    {
        self.before.push_bytes(self.last.bytes())?;
        self.last.clear();
        push_long(&mut self.before, line)?;
        Ok(())
    }

    // Removes all bytes.
    pub(crate) fn clear(&mut self)
        ensures { self.new ≡ [] }
    {
        self.before.clear();
        self.last.clear();
    }

    // Puts all bytes out.
    pub(crate) fn pour(&mut self, out: &mut Pieces) -> Result<(), NoMemory>
        ensures ok { OnOk result (contents out.new ≡ contents out.old ++ self.old) }
        ensures block { out.new.block ≡ out.old.block }
    {
        push_all(out, &mut self.before)?;
        out.push_bytes(self.last.bytes())?;
        Ok(())
    }
}

// Moves all pieces.
fn push_all(to: &mut Pieces, from: &mut Pieces) -> Result<(), NoMemory>
    ensures ok { OnOk result (contents to.new ≡ contents to.old ++ contents from.old) }
    ensures block { to.new.block ≡ to.old.block }
{
    while let Some(piece) = from.pop_front() {
        to.push_piece(piece)?;
    }
    Ok(())
}

// Adds a long line. No more than one piece of it is in memory twice.
fn push_long(to: &mut Pieces, line: Vec<u8>) -> Result<(), NoMemory>
    ensures { OnOk result (contents to.new ≡ contents to.old ++ line.items) }
{
    let mut line = line;
    let mut ends = cut_ends(&mut line)?;
    to.push_bytes(line.as_slice())?;
    clear_and_shrink(&mut line);
    push_ends(to, &mut ends)?;
    Ok(())
}

// Adds these pieces.
fn push_ends(to: &mut Pieces, ends: &mut VecDeque<Piece>) -> Result<(), NoMemory>
    ensures { OnOk result (contents to.new ≡ contents to.old ++ concat ends.old.items) }
{
    while let Some(piece) = ends.pop_front() {
        to.push_piece(piece)?;
    }
    Ok(())
}

// Cuts all but the first piece off, and returns the pieces in order.
fn cut_ends(line: &mut Vec<u8>) -> Result<VecDeque<Piece>, NoMemory>
    ensures { IfOk result (λ ends. line.old.items ≡ line.new.items ++ concat ends.items) }
{
    let mut ends = VecDeque::new(*line.allocator());
    while line.len() > MOST {
        let piece = cut_end(line)?;
        ends.push_front(piece)?;
    }
    Ok(ends)
}

// Cuts the last piece off, and gives its memory back.
fn cut_end(line: &mut Vec<u8>) -> Result<Piece, NoMemory>
    requires { 65536 ≤ length line.old.items }
    ensures cut { IfOk result (λ piece. line.old.items ≡ line.new.items ++ piece) }
    ensures shorter { OnOk result (length line.new.items + 65536 ≡ length line.old.items) }
{
    let at = line.len() - MOST;
    let end = Vec::from_slice(*line.allocator(), &line[at..])?;
    line.truncate(at);
    line.shrink_to(at);
    Piece::from_vec(end)
}
