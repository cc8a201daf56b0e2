ghost use Rattle.std.specs.Prelude.{◌≡◌, ◌≤◌, length, take, IfOk};
ghost use Rattle.machine.specs.Pieces.{IsPieceLong};

use crate::memory::NoMemory;
use bytes::{Bytes, BytesMut};
use std::alloc::Global;
use std::marker::Model;

/// A piece of a stream: 1 to 65,536 bytes, which other pieces may share. Contracts see the list of its bytes.
pub struct Piece {
    alloc: Global,
    bytes: Bytes,
}

impl Model for Piece {
    ghost use Rattle.std.specs.Prelude.{List, ℕ};
    ghost use Rattle.machine.specs.Pieces.{IsPieceLong};

    ghost Value = { List ℕ };

    ghost view = { λ p. p.bytes };

    ghost invariant = { λ p. IsPieceLong 65536 p.bytes };
}

// Dropping a piece is a call, so that a proof need not look at who owns its bytes.
impl Drop for Piece {
    fn drop(self) {
        let Piece { alloc: _, bytes } = self;
        drop(bytes);
    }
}

impl Piece {
    /// The piece of these bytes. It copies none of them.
    pub fn from_vec(bytes: Vec<u8>) -> Result<Piece, NoMemory>
        requires { IsPieceLong 65536 bytes.items }
        ensures { IfOk result (λ piece. piece ≡ bytes.items) }
    {
        let alloc = *bytes.allocator();
        let bytes = Bytes::from_vec(bytes)?;
        Ok(Piece { alloc, bytes })
    }

    // The piece of these bytes. It copies none of them.
    pub(crate) fn from_mut(bytes: BytesMut) -> Result<Piece, NoMemory>
        requires { IsPieceLong 65536 bytes.items }
        ensures { IfOk result (λ piece. piece ≡ bytes.items) }
    {
        let alloc = *bytes.allocator();
        let bytes = bytes.freeze()?;
        Ok(Piece { alloc, bytes })
    }

    // The piece of these bytes, which it shares.
    pub(crate) fn from_bytes(alloc: Global, bytes: Bytes) -> Piece
        requires { IsPieceLong 65536 bytes }
        ensures { result ≡ bytes }
    {
        Piece { alloc, bytes }
    }

    /// Its bytes.
    pub fn bytes(&self) -> &[u8]
        ensures value { result.now ≡ self.now }
        ensures long { IsPieceLong 65536 self.now }
    {
        self.bytes.as_slice()
    }

    /// How many bytes it has: never 0.
    pub fn len(&self) -> usize
        ensures value { result ≡ length self.now }
        ensures long { IsPieceLong 65536 self.now }
    {
        self.bytes.len()
    }

    /// Its bytes, for changes. They are copied only if another piece shares them.
    pub fn into_mut(self) -> Result<BytesMut, NoMemory>
        ensures value { IfOk result (λ bytes. bytes.items ≡ self) }
        ensures long { IsPieceLong 65536 self }
    {
        let Piece { alloc, bytes } = self;
        match bytes.try_into_mut() {
            Ok(own) => Ok(own),
            Err(shared) => Ok(BytesMut::copy_from_slice(alloc, shared.as_slice())?),
        }
    }

    /// An equal piece, which shares its bytes.
    pub fn duplicate(&self) -> Result<Piece, NoMemory>
        ensures { IfOk result (λ copy. copy ≡ self.now) }
    {
        let bytes = self.bytes.clone()?;
        Ok(Piece {
            alloc: self.alloc,
            bytes,
        })
    }

    /// The piece of its first `count` bytes, which it shares.
    pub fn front(&self, count: usize) -> Result<Piece, NoMemory>
        requires { (1 ≤ count) × (count ≤ length self.now) }
        ensures { IfOk result (λ piece. piece ≡ take count self.now) }
    {
        let bytes = self.bytes.slice(..count)?;
        Ok(Piece {
            alloc: self.alloc,
            bytes,
        })
    }
}

/// What is in a pipe: a piece, or the mark that the writer has closed it.
#[derive(Drop)]
pub enum Item {
    Bytes(Piece),
    Close,
}
