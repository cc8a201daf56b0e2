ghost use Rattle.std.specs.Prelude.{◌≡◌, ◌≤◌, ◌+◌, [], length, IsTrue, IfOk};
ghost use Rattle.line_filters.specs.KeptParts.{amount_of};
ghost use Rattle.line_filters.specs.Skips.{PutsBehind};

use crate::bytes::{put, put_vec};
use crate::skipping::skip_to;
use commands::Counted;
use machine::{NoMemory, Pieces};
use std::alloc::Global;

// Memory for this many bytes is taken at once if pieces are short. No more are put together.
const ROOM: usize = 4096;

// Bytes that are kept, and how many newlines, or bytes, there are.
#[derive(Drop)]
pub(crate) struct Held {
    pub(crate) bytes: Vec<u8>,
    pub(crate) amount: u64,
}

impl Held {
    // No bytes.
    pub(crate) fn new(alloc: Global) -> Held
        ensures bytes { result.bytes.items ≡ [] }
        ensures amount { result.amount ≡ 0 }
    {
        Held {
            bytes: Vec::new(alloc),
            amount: 0,
        }
    }

    // A copy of these bytes, with the number of them that is counted. It takes memory for more of
    // them if they are few.
    pub(crate) fn copied(alloc: Global, bytes: &[u8], amount: u64) -> Result<Held, NoMemory>
        ensures bytes { IfOk result (λ held. held.bytes.items ≡ bytes.now) }
        ensures amount { IfOk result (λ held. held.amount ≡ amount) }
    {
        let room = if bytes.len() <= ROOM / 2 {
            ROOM
        } else {
            bytes.len()
        };
        let mut copy = Vec::with_capacity(alloc, room)?;
        copy.extend_from_slice(bytes)?;
        Ok(Held {
            bytes: copy,
            amount,
        })
    }

    // Whether its memory has room for this many bytes more, and they are few together.
    pub(crate) fn has_room_for(&self, count: usize) -> bool
        ensures { IsTrue result → length self.now.bytes.items + count ≤ 4096 }
    {
        let room = self.bytes.capacity().min(ROOM);
        self.bytes.len() <= room && count <= room - self.bytes.len()
    }

    // Gives memory back, if the bytes are less than half of it.
    pub(crate) fn give_back_room(&mut self)
        ensures bytes { self.new.bytes.items ≡ self.old.bytes.items }
        ensures amount { self.new.amount ≡ self.old.amount }
    {
        if self.bytes.len() < self.bytes.capacity() / 2 {
            self.bytes.shrink_to_fit();
        }
    }

    // Puts out what follows the first lines or bytes, and returns how many of them end or begin
    // later.
    pub(crate) fn put_behind(
        self,
        counted: Counted,
        skip: u128,
        out: &mut Pieces,
    ) -> Result<u128, NoMemory>
        requires { self.amount ≡ amount_of counted self.bytes.items }
        ensures ok { IfOk result
            (λ left. PutsBehind counted self.bytes.items skip left out.old out.new) }
        ensures block { out.new.block ≡ out.old.block }
    {
        if u128::from(self.amount) < skip {
            return Ok(skip - u128::from(self.amount));
        }
        let (end, left) = skip_to(counted, &self.bytes, skip as u64);
        let left = u128::from(left);
        if end == 0 {
            put_vec(self.bytes, out)?;
            return Ok(left);
        }
        put(&self.bytes[end..], out)?;
        Ok(left)
    }
}
