ghost use Rattle.std.specs.Prelude.{◌≡◌, ◌<◌, ◌≤◌, ◌↔◌, ◌++◌, true, [], length, take, drop, min, IfOk, IfErr};

use std::alloc::{AllocError, Global};
use std::marker::Model;

// How many bytes a thread reads at most for one request: as many as a source asks for at most, so that they can go on as one piece.
const READ_SIZE: usize = 57_344;

// Room for the bytes of a read.
#[derive(Drop)]
pub(crate) struct Buffer {
    pub(crate) bytes: Vec<u8>,
    ghost room: { 0 < length bytes.items },
}

impl Buffer {
    // Room for one read.
    pub(crate) fn for_read(alloc: Global) -> Result<Buffer, AllocError> {
        let bytes = vec![in alloc; 0; READ_SIZE]?;
        Ok(Buffer { bytes })
    }

    // These bytes.
    fn into_bytes(self) -> Vec<u8>
        ensures { result ≡ self.bytes }
    {
        self.bytes
    }
}

// The bytes that a read gave: those of a buffer from one place up to another. Contracts see it as the bytes that are left. Before
// the first byte is given, none at all is the end.
#[derive(Drop)]
pub(crate) struct Chunk {
    buffer: Buffer,
    from: usize,
    upto: usize,
}

impl Model for Chunk {
    ghost use Rattle.std.specs.Prelude.{ℕ, List, ◌≤◌, length, take, drop};

    ghost Value = { List ℕ };

    ghost view = { λ c. drop c.from (take c.upto c.buffer.bytes.items) };

    ghost invariant = { λ c. (c.from ≤ c.upto) × (c.upto ≤ length c.buffer.bytes.items) };
}

impl Chunk {
    // The first bytes of the buffer, this many.
    pub(crate) fn new(buffer: Buffer, count: usize) -> Chunk
        requires { count ≤ length buffer.bytes.items }
        ensures { result ≡ take count buffer.bytes.items }
    {
        Chunk {
            buffer,
            from: 0,
            upto: count,
        }
    }

    #[tactic(auto, using(crate::proofs::lemmas::Chunks::empty_part))]
    // Whether all bytes have been given.
    pub(crate) fn is_empty(&self) -> bool
        ensures { result ≡ true ↔ (self.now ≡ []) }
    {
        self.from == self.upto
    }

    // How many bytes the read gave.
    pub(crate) fn count(&self) -> usize {
        self.upto
    }

    // All its bytes, without copying them, if all are left, they are at most this many, and they fill half of the buffer at least. Otherwise it stays
    // as it is.
    pub(crate) fn into_whole(self, most: usize) -> Result<Vec<u8>, Chunk>
        ensures whole { IfOk result (λ bytes. bytes.items ≡ self) }
        ensures long { IfOk result
            (λ bytes. (1 ≤ length bytes.items) × (length bytes.items ≤ most)) }
        ensures back { IfErr result (λ back. back ≡ self) }
    {
        let is_short = self.upto == 0 || self.upto < self.buffer.bytes.len() / 2;
        if is_short || self.from != 0 || self.upto > most {
            return Err(self);
        }
        let Chunk { buffer, upto, .. } = self;
        let mut bytes = buffer.into_bytes();
        bytes.truncate(upto);
        Ok(bytes)
    }

    // Gives the next bytes, as many as fit. Returns how many.
    pub(crate) fn give(&mut self, into: &mut [u8]) -> usize
        ensures count { result ≤ length into.new }
        ensures given { into.new ≡ take result self.old ++ drop result into.old }
        ensures after { self.new ≡ drop result self.old }
        ensures most { result ≡ min (length self.old) (length into.old) }
    {
        let count = (self.upto - self.from).min(into.len());
        into[..count].copy_from_slice(&self.buffer.bytes[self.from..self.from + count]);
        self.from += count;
        count
    }

    // The buffer, for the next read.
    pub(crate) fn into_buffer(self) -> Buffer {
        self.buffer
    }
}
