ghost use Rattle.std.specs.Prelude.{◌≡◌, ◌≤◌, ◌<◌, ◌∷◌, ◌++◌, [], length, IfOk, IsTrue, IsFalse};
ghost use Rattle.collector.specs.Files.{batch_bytes};

use machine::{NoMemory, Piece};
use std::alloc::Global;
use std::marker::Model;

/// Bytes that a sink writes at once.
#[derive(Drop)]
pub enum Batch {
    /// Those of short pieces, one after the other.
    Joined(Vec<u8>),
    /// Those of one piece.
    Single(Piece),
    /// Those of several pieces, one after the other.
    Several(FewPieces),
}

impl Batch {
    /// Whether it has no bytes.
    pub fn is_empty(&self) -> bool
        ensures none { IsTrue result → batch_bytes self.now ≡ [] }
        ensures some { IsFalse result → 1 ≤ length (batch_bytes self.now) }
    {
        match self {
            Batch::Joined(bytes) => bytes.is_empty(),
            Batch::Single(piece) => piece.len() == 0,
            Batch::Several(pieces) => pieces.is_empty(),
        }
    }
}

// How many pieces are handed over at once, at most.
const MOST: usize = 8;

/// Pieces that come one after the other, 8 at most. There is memory for all 8 from the beginning.
#[derive(Drop)]
pub struct FewPieces {
    pieces: Vec<Piece>,
}

impl Model for FewPieces {
    ghost use Rattle.std.specs.Prelude.{ℕ, List, ◌≤◌, length};
    ghost use Rattle.std.specs.Vec.{vec_capacity};

    ghost Value = { List (List ℕ) };

    ghost view = { λ s. s.pieces.items };

    ghost invariant = { λ s. (length s.pieces.items ≤ 8) × (8 ≤ vec_capacity s.pieces) };
}

impl FewPieces {
    /// None yet.
    pub fn new(alloc: Global) -> Result<FewPieces, NoMemory>
        ensures { IfOk result (λ pieces. pieces ≡ []) }
    {
        let pieces = Vec::with_capacity(alloc, MOST)?;
        Ok(FewPieces { pieces })
    }

    /// Whether there is no room for one more.
    pub fn is_full(&self) -> bool
        ensures { IsFalse result → length self.now < 8 }
    {
        self.pieces.len() >= MOST
    }

    /// Adds one more, for which there is room.
    pub fn push(&mut self, piece: Piece)
        requires { length self.old < 8 }
        ensures { self.new ≡ self.old ++ piece ∷ [] }
    {
        let Ok(()) = self.pieces.push(piece) else {
            unreachable!()
        };
    }

    /// Drops all of them.
    pub fn clear(&mut self)
        ensures { self.new ≡ [] }
    {
        self.pieces.clear();
    }

    /// Whether there is none.
    pub fn is_empty(&self) -> bool
        ensures none { IsTrue result → self.now ≡ [] }
        ensures some { IsFalse result → 1 ≤ length (batch_bytes (Batch.Several self.now)) }
    {
        match self.pieces.as_slice() {
            [] => true,
            [first, ..] => first.len() == 0,
        }
    }

    /// All of them.
    pub fn as_slice(&self) -> &[Piece]
        ensures value { result.now ≡ self.now }
        ensures few { length self.now ≤ 8 }
    {
        self.pieces.as_slice()
    }
}
