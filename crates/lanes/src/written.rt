ghost use Rattle.std.specs.Prelude.{◌≡◌, ◌≤◌, ◌<◌, ◌+◌, [], ◌∷◌, ◌++◌, length, take, drop, OnOk};
ghost use Rattle.lanes.specs.inner.Prefixes.{prefix_bytes};

use crate::chunk::CHUNK;
use crate::prefix::Prefix;
use machine::{NoMemory, clear_and_shrink};
use std::alloc::Global;
use std::marker::Model;
use std::simd::prelude::*;

// The greatest room that is asked for at once.
const ROOM_MAX: usize = 65536;

// The memory that is kept after `clear`.
const KEPT: usize = 131_072;

/// Bytes that were written. Contracts see them as a list.
#[derive(Drop)]
pub struct Written {
    // The bytes that were written, followed by room for more.
    bytes: Vec<u8>,
    len: usize,
    // The room that is added whenever memory is taken.
    room: usize,
}

impl Model for Written {
    ghost use Rattle.std.specs.Prelude.{◌≤◌, List, ℕ, length, take};

    ghost Value = { List ℕ };

    ghost view = { λ written. take written.len written.bytes.items };

    ghost invariant = { λ written. (written.len ≤ length written.bytes.items)
        × (written.room ≤ 65600) };
}

impl Written {
    /// Begins with no bytes. Whenever memory is taken, room for `room` more bytes is added.
    pub fn new(alloc: Global, room: usize) -> Written
        ensures { result ≡ [] }
    {
        Written {
            bytes: Vec::new(alloc),
            len: 0,
            room: room.min(ROOM_MAX) + CHUNK,
        }
    }

    /// Appends bytes.
    #[inline(never)]
    pub fn put(&mut self, bytes: &[u8]) -> Result<(), NoMemory>
        ensures { OnOk result (self.new ≡ self.old ++ bytes.now) }
    {
        make_room(&mut self.bytes, self.len, bytes.len(), self.room)?;
        copy_to(&mut self.bytes, self.len, bytes);
        self.len += bytes.len();
        Ok(())
    }

    /// Appends bytes. Up to 64 of them are copied in one step.
    #[inline(always)]
    pub fn put_prefix(&mut self, prefix: Prefix) -> Result<(), NoMemory>
        ensures { OnOk result (self.new ≡ self.old ++ prefix_bytes prefix.entry) }
    {
        match prefix.chunk() {
            Some(chunk) if self.bytes.len() - self.len >= CHUNK => {
                put_chunk(&mut self.bytes, self.len, chunk);
                self.len += prefix.len();
                Ok(())
            }
            _ => self.put(prefix.bytes()),
        }
    }

    /// Appends a byte.
    #[inline(always)]
    pub fn put_byte(&mut self, byte: u8) -> Result<(), NoMemory>
        ensures { OnOk result (self.new ≡ self.old ++ byte ∷ []) }
    {
        if self.len < self.bytes.len() {
            put_at(&mut self.bytes, self.len, byte);
            self.len += 1;
            return Ok(());
        }
        self.put(&[byte])
    }

    /// Removes all bytes. The memory is kept for the next ones, unless it is more than 128 KiB.
    pub fn clear(&mut self)
        ensures { self.new ≡ [] }
    {
        self.len = 0;
        if self.bytes.len() > KEPT {
            clear_and_shrink(&mut self.bytes);
        }
    }

    /// Returns the bytes.
    pub fn bytes(&self) -> &[u8]
        ensures { result.now ≡ self.now }
    {
        &self.bytes[..self.len]
    }

    /// Returns the bytes as a vector.
    pub fn into_vec(self) -> Vec<u8>
        ensures { result.items ≡ self }
    {
        let Written { mut bytes, len, .. } = self;
        bytes.truncate(len);
        bytes
    }
}

// Makes room for `count` bytes after the first `len`, and for `more` if memory has to be taken.
fn make_room(bytes: &mut Vec<u8>, len: usize, count: usize, more: usize) -> Result<(), NoMemory>
    requires len { len ≤ length bytes.old.items }
    requires more { more ≤ 65600 }
    ensures kept { take len bytes.new.items ≡ take len bytes.old.items }
    ensures long { len ≤ length bytes.new.items }
    ensures room { OnOk result (len + count ≤ length bytes.new.items) }
{
    if bytes.len() - len >= count {
        return Ok(());
    }
    let end = len.saturating_add(count).saturating_add(more);
    bytes.resize(end, 0)?;
    Ok(())
}

// Writes a byte at this place.
#[inline(always)]
fn put_at(bytes: &mut Vec<u8>, at: usize, byte: u8)
    requires { at < length bytes.old.items }
    ensures written { take (at + 1) bytes.new.items ≡ take at bytes.old.items ++ byte ∷ [] }
    ensures long { length bytes.new.items ≡ length bytes.old.items }
{
    bytes[at] = byte;
}

// Copies bytes to this place.
fn copy_to(bytes: &mut Vec<u8>, at: usize, from: &[u8])
    requires { at + length from.now ≤ length bytes.old.items }
    ensures { bytes.new.items
        ≡ take at bytes.old.items ++ (from.now ++ drop (at + length from.now) bytes.old.items) }
{
    bytes[at..at + from.len()].copy_from_slice(from);
}

// Copies 64 bytes to this place of a vector.
#[inline(always)]
fn put_chunk(bytes: &mut Vec<u8>, at: usize, chunk: &[u8])
    requires chunk { length chunk.now ≡ 64 }
    requires room { at + 64 ≤ length bytes.old.items }
    ensures copied { take (at + 64) bytes.new.items ≡ take at bytes.old.items ++ chunk.now }
    ensures long { length bytes.new.items ≡ length bytes.old.items }
{
    copy_chunk(bytes.as_mut_slice(), at, chunk);
}

// Copies 64 bytes to this place of a slice.
#[inline(always)]
fn copy_chunk(bytes: &mut [u8], at: usize, chunk: &[u8])
    requires chunk { length chunk.now ≡ 64 }
    requires room { at + 64 ≤ length bytes.old }
    ensures copied { take (at + 64) bytes.new ≡ take at bytes.old ++ chunk.now }
    ensures long { length bytes.new ≡ length bytes.old }
{
    u8x64::from_slice(chunk).copy_to_slice(&mut bytes[at..]);
}

impl Written {
    /// Writes bytes, short ones as a chunk or two.
    #[inline(always)]
    pub fn put_part(&mut self, prefix: Prefix) -> Result<(), NoMemory>
        ensures { OnOk result (self.new ≡ self.old ++ prefix_bytes prefix.entry) }
    {
        match prefix.two_chunks() {
            Some(chunks) if prefix.len() > CHUNK && self.bytes.len() - self.len >= 2 * CHUNK => {
                put_two(&mut self.bytes, self.len, chunks);
                self.len += prefix.len();
                Ok(())
            }
            _ => self.put_prefix(prefix),
        }
    }

    /// Writes bytes, short ones as a chunk, and a byte after them.
    #[inline(always)]
    pub fn put_prefix_then(&mut self, prefix: Prefix, byte: u8) -> Result<(), NoMemory>
        ensures { OnOk result (self.new ≡ self.old ++ (prefix_bytes prefix.entry ++ byte ∷ [])) }
    {
        match prefix.chunk() {
            Some(chunk) if self.bytes.len() - self.len > CHUNK => {
                put_chunk_then(&mut self.bytes, self.len, chunk, prefix.len(), byte);
                self.len += prefix.len() + 1;
                Ok(())
            }
            _ => {
                self.put_part(prefix)?;
                self.put_byte(byte)?;
                Ok(())
            }
        }
    }
}

// Copies a chunk to this place, and writes a byte after the first `len` of it.
#[inline(always)]
fn put_chunk_then(bytes: &mut Vec<u8>, at: usize, chunk: &[u8], len: usize, byte: u8)
    requires chunk { length chunk.now ≡ 64 }
    requires len { len ≤ 64 }
    requires room { at + 64 < length bytes.old.items }
    ensures written { take (at + len + 1) bytes.new.items
        ≡ take at bytes.old.items ++ (take len chunk.now ++ byte ∷ []) }
    ensures long { length bytes.new.items ≡ length bytes.old.items }
{
    put_chunk(bytes, at, chunk);
    put_at(bytes, at + len, byte);
}

// Copies two chunks to this place.
#[inline(always)]
fn put_two(bytes: &mut Vec<u8>, at: usize, chunks: &[u8])
    requires chunks { length chunks.now ≡ 128 }
    requires room { at + 128 ≤ length bytes.old.items }
    ensures copied { take (at + 128) bytes.new.items ≡ take at bytes.old.items ++ chunks.now }
    ensures long { length bytes.new.items ≡ length bytes.old.items }
{
    put_chunk(bytes, at, &chunks[..CHUNK]);
    put_chunk(bytes, at + CHUNK, &chunks[CHUNK..]);
}
