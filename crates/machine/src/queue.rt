ghost use Rattle.std.specs.Prelude.{◌≡◌, ℕ, ◌≤◌, ◌↔◌, List, [], ◌∷◌, ◌++◌, length, take, slice_get, Some, IsTrue, IfSome, IfNone, OnOk, OnErr};
ghost use Rattle.std.specs.List.{All};
ghost use mathlib.Core.List.{IsPrefix};
ghost use Rattle.machine.specs.Pieces.{IsPieceLong, Adds, queued, IsBlock};

use crate::memory::NoMemory;
use crate::piece::Piece;
use bytes::BytesMut;
use std::alloc::Global;
use std::collections::VecDeque;
use std::marker::Model;

/// A queue of pieces, each no longer than the queue's block.
#[derive(Drop)]
pub struct Pieces {
    alloc: Global,
    block: usize,
    pieces: VecDeque<Piece>,
}

impl Model for Pieces {
    ghost use Rattle.std.specs.List.{All};
    ghost use Rattle.machine.specs.Pieces.{IsBlock, IsPieceLong, Queued};

    ghost Value = { Queued };

    ghost view = { λ q. record { block = q.block; pieces = q.pieces.items } };

    ghost invariant = { λ q. IsBlock q.block × All (IsPieceLong q.block) q.pieces.items };
}

impl Pieces {
    /// An empty queue of pieces of at most `block` bytes.
    pub fn new(alloc: Global, block: usize) -> Pieces
        requires { IsBlock block }
        ensures { result ≡ record { block = block; pieces = [] } }
    {
        Pieces {
            alloc,
            block,
            pieces: VecDeque::new(alloc),
        }
    }

    /// Adds these bytes, cut into pieces. After NoMemory a prefix of them was added.
    pub fn push_bytes(&mut self, bytes: &[u8]) -> Result<(), NoMemory>
        ensures ok { OnOk result (Adds self.old self.new bytes.now) }
        ensures err { OnErr result
            ((front : List ℕ) × IsPrefix front bytes.now × Adds self.old self.new front) }
    {
        append_cut(&mut self.pieces, self.alloc, self.block, bytes)
    }

    /// Adds this piece as it is, or cut if it is longer than the block. After NoMemory a prefix of
    /// it was added.
    pub fn push_piece(&mut self, piece: Piece) -> Result<(), NoMemory>
        ensures ok { OnOk result (Adds self.old self.new piece) }
        ensures err { OnErr result
            ((front : List ℕ) × IsPrefix front piece × Adds self.old self.new front) }
    {
        if piece.len() <= self.block {
            append(&mut self.pieces, piece)
        } else {
            append_cut(&mut self.pieces, self.alloc, self.block, piece.bytes())
        }
    }

    /// Adds these bytes, if any, as one piece if they are no longer than the block, otherwise cut.
    /// After NoMemory a prefix of them was added.
    pub fn push_vec(&mut self, bytes: Vec<u8>) -> Result<(), NoMemory>
        ensures ok { OnOk result (Adds self.old self.new bytes.items) }
        ensures err { OnErr result
            ((front : List ℕ) × IsPrefix front bytes.items × Adds self.old self.new front) }
    {
        if bytes.len() <= self.block {
            append_whole(&mut self.pieces, self.block, bytes)
        } else {
            append_cut(&mut self.pieces, self.alloc, self.block, bytes.as_slice())
        }
    }

    /// Adds these bytes, if any, as one piece if they are no longer than the block, otherwise cut.
    /// After NoMemory a prefix of them was added.
    pub fn push_mut(&mut self, bytes: BytesMut) -> Result<(), NoMemory>
        ensures ok { OnOk result (Adds self.old self.new bytes.items) }
        ensures err { OnErr result
            ((front : List ℕ) × IsPrefix front bytes.items × Adds self.old self.new front) }
    {
        if bytes.len() <= self.block {
            append_frozen(&mut self.pieces, self.block, bytes)
        } else {
            append_cut(&mut self.pieces, self.alloc, self.block, bytes.as_slice())
        }
    }

    /// Whether no piece is left.
    pub fn is_empty(&self) -> bool
        ensures value { IsTrue result ↔ (self.now.pieces ≡ []) }
        ensures long { All (IsPieceLong self.now.block) self.now.pieces }
    {
        self.pieces.is_empty()
    }

    /// How many pieces there are.
    pub fn len(&self) -> usize
        ensures { result ≡ length self.now.pieces }
    {
        self.pieces.len()
    }

    /// The oldest piece, if there is one.
    pub fn front(&self) -> Option<&Piece>
        ensures some { IfSome result (λ piece. slice_get self.now.pieces 0 ≡ Some piece.now) }
        ensures long { IfSome result (λ piece. IsPieceLong self.now.block piece.now) }
        ensures none { IfNone result (self.now.pieces ≡ []) }
    {
        self.pieces.front()
    }

    /// Takes the oldest piece, if there is one.
    pub fn pop_front(&mut self) -> Option<Piece>
        ensures some { IfSome result (λ piece. self.old.pieces ≡ piece ∷ self.new.pieces) }
        ensures long { IfSome result (IsPieceLong self.old.block) }
        ensures none { IfNone result ((self.old.pieces ≡ []) × (self.new.pieces ≡ [])) }
        ensures block { self.new.block ≡ self.old.block }
    {
        let _ = &self.block;
        self.pieces.pop_front()
    }

    /// Drops the pieces after the first `len`.
    pub fn truncate(&mut self, len: usize)
        ensures { self.new ≡ record self.old { pieces = take len self.old.pieces } }
    {
        self.pieces.truncate(len);
    }

    /// Drops all pieces.
    pub fn clear(&mut self)
        ensures { self.new ≡ record self.old { pieces = [] } }
    {
        self.pieces = VecDeque::new(self.alloc);
    }
}

// One piece more.
fn append(pieces: &mut VecDeque<Piece>, piece: Piece) -> Result<(), NoMemory>
    ensures ok { OnOk result (pieces.new.items ≡ pieces.old.items ++ piece ∷ []) }
    ensures err { OnErr result (pieces.new.items ≡ pieces.old.items) }
{
    match pieces.push_back(piece) {
        Ok(()) => Ok(()),
        Err(_) => Err(NoMemory),
    }
}

// The bytes, if any, as one piece.
fn append_whole(pieces: &mut VecDeque<Piece>, block: usize, bytes: Vec<u8>) -> Result<(), NoMemory>
    requires block { IsBlock block }
    requires short { length bytes.items ≤ block }
    ensures ok { OnOk result
        (Adds (queued block pieces.old.items) (queued block pieces.new.items) bytes.items) }
    ensures err { OnErr result (pieces.new.items ≡ pieces.old.items) }
    ensures long { All (IsPieceLong block) pieces.old.items
        → All (IsPieceLong block) pieces.new.items }
{
    if bytes.is_empty() {
        return Ok(());
    }
    append(pieces, Piece::from_vec(bytes)?)
}

// The bytes, if any, as one piece that is made of their own memory.
fn append_frozen(
    pieces: &mut VecDeque<Piece>,
    block: usize,
    bytes: BytesMut,
) -> Result<(), NoMemory>
    requires block { IsBlock block }
    requires short { length bytes.items ≤ block }
    ensures ok { OnOk result
        (Adds (queued block pieces.old.items) (queued block pieces.new.items) bytes.items) }
    ensures err { OnErr result (pieces.new.items ≡ pieces.old.items) }
    ensures long { All (IsPieceLong block) pieces.old.items
        → All (IsPieceLong block) pieces.new.items }
{
    if bytes.is_empty() {
        return Ok(());
    }
    append(pieces, Piece::from_mut(bytes)?)
}

// The bytes, cut into pieces of `block` bytes and a last one that may be shorter.
fn append_cut(
    pieces: &mut VecDeque<Piece>,
    alloc: Global,
    block: usize,
    bytes: &[u8],
) -> Result<(), NoMemory>
    requires { IsBlock block }
    ensures ok { OnOk result
        (Adds (queued block pieces.old.items) (queued block pieces.new.items) bytes.now) }
    ensures err { OnErr result
        ((front : List ℕ) × IsPrefix front bytes.now
        × Adds (queued block pieces.old.items) (queued block pieces.new.items) front) }
    ensures long { All (IsPieceLong block) pieces.old.items
        → All (IsPieceLong block) pieces.new.items }
{
    let mut at = 0;
    while at < bytes.len() {
        let end = at + block.min(bytes.len() - at);
        let part = Vec::from_slice(alloc, &bytes[at..end])?;
        let piece = Piece::from_vec(part)?;
        append(pieces, piece)?;
        at = end;
    }
    Ok(())
}
