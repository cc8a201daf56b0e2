ghost use Rattle.std.specs.Prelude.{◌≡◌, ◌≤◌, length, take, IfOk};
ghost use Rattle.machine.specs.Pieces.{IsPieceLong};

use crate::memory::NoMemory;
use crate::piece::Piece;
use bytes::{Bytes, BytesMut};
use std::alloc::Global;
use std::mem;

// How many blocks are kept at most: as many as a pipe of 16 pieces has on its way, and two more.
const MOST: usize = 18;

/// The memory of the pieces that were made last. A block is used again once no piece has it any more, and those at the front are used
/// first, since the caches of the processor still have them. No clause says so.
#[derive(Drop)]
pub struct Blocks {
    alloc: Global,
    // Those that were made last. One that is out is empty here.
    kept: Vec<Bytes>,
    // The place of the block that is out, or of one more.
    place: usize,
}

impl Blocks {
    /// No block yet.
    pub fn new(alloc: Global) -> Blocks {
        Blocks {
            alloc,
            kept: Vec::new(alloc),
            place: 0,
        }
    }

    /// A block of this many bytes, whatever they are.
    pub fn block(&mut self, len: usize) -> Result<BytesMut, NoMemory>
        ensures { IfOk result (λ block. length block.items ≡ len) }
    {
        self.place = self.first_free();
        self.drop_last_free();
        if let Some(kept) = self.kept.get_mut(self.place) {
            if let Ok(block) = mem::replace(kept, Bytes::new()).try_into_mut() {
                if block.len() == len {
                    return Ok(block);
                }
            }
        }
        Ok(BytesMut::zeroed(self.alloc, len)?)
    }

    /// The piece of the first `count` bytes of a block. If they are less than half of it, they are copied, so that a short piece keeps no long
    /// block.
    pub fn piece(&mut self, block: BytesMut, count: usize) -> Result<Piece, NoMemory>
        requires few { count ≤ length block.items }
        requires long { IsPieceLong 65536 (take count block.items) }
        ensures { IfOk result (λ piece. piece ≡ take count block.items) }
    {
        if count < block.len() / 2 {
            let bytes = Vec::from_slice(self.alloc, &block.as_slice()[..count])?;
            self.keep(block.freeze()?);
            return Piece::from_vec(bytes);
        }
        let whole = block.freeze()?;
        let bytes = whole.slice(..count)?;
        self.keep(whole);
        Ok(Piece::from_bytes(self.alloc, bytes))
    }

    // The place of the first block that no piece has, or of one more.
    fn first_free(&self) -> usize {
        for place in 0..self.kept.len() {
            if self.kept[place].is_unique() {
                return place;
            }
        }
        self.kept.len()
    }

    // Drops the last block if no piece has it, and two more are free at least.
    fn drop_last_free(&mut self) {
        let is_free = match self.kept.last() {
            Some(last) => last.is_unique(),
            None => false,
        };
        if is_free && self.place.saturating_add(2) < self.kept.len() {
            let _ = self.kept.pop();
        }
    }

    // Keeps a block at the place of the one that is out, or as one more if there is room.
    fn keep(&mut self, block: Bytes) {
        if let Some(kept) = self.kept.get_mut(self.place) {
            *kept = block;
        } else if self.kept.len() < MOST {
            let _ = self.kept.push(block);
        }
    }
}
