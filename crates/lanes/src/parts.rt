ghost use Rattle.std.specs.Prelude.{◌≡◌, ◌≢◌, ◌+◌, ◌-◌, ◌<◌, ◌≤◌, ◌==◌, false, length, take, drop, IsTrue};
ghost use Rattle.std.specs.List.{All};
ghost use Rattle.lanes.specs.inner.Prefixes.{prefix_bytes};
ghost use Rattle.lanes.specs.inner.Walks.{AreMarks, Course, Sought};

use crate::bits::{clear_bits, from_bit};
use crate::chunk::marks;
use crate::prefix::Prefix;
use crate::walk::Walk;
use std::marker::Model;

/// Bytes, and a byte whose places in them are sought. Contracts see the two.
#[derive(Drop)]
pub struct Part<'a> {
    content: Prefix<'a>,
    byte: u8,
    // A bit for each of the first 64 places: 1 if the byte is there.
    left: u64,
}

impl<'a> Model for Part<'a> {
    ghost use Rattle.lanes.specs.inner.Prefixes.{prefix_bytes};
    ghost use Rattle.lanes.specs.inner.Walks.{AreMarks, Sought};

    ghost Value = { Sought };

    ghost view = { λ part. record { bytes = prefix_bytes part.content; byte = part.byte } };

    ghost invariant = { λ part. AreMarks (prefix_bytes part.content) part.byte 0 part.left };
}

impl<'a> Part<'a> {
    ghost use Rattle.lanes.specs.inner.Prefixes.{prefix_bytes};

    /// Returns these bytes as a part.
    #[inline(always)]
    pub fn new(content: Prefix<'a>, byte: u8) -> Part<'a>
        ensures { result ≡ record { bytes = prefix_bytes content.entry; byte = byte } }
    {
        let left = first_marks(content, byte);
        Part {
            content,
            byte,
            left,
        }
    }

    /// Returns the bytes.
    #[inline(always)]
    pub fn content(&self) -> Prefix<'a>
        ensures { prefix_bytes result ≡ self.now.bytes }
    {
        self.content
    }

    /// Returns the byte whose places are sought.
    #[inline(always)]
    pub fn byte(&self) -> u8
        ensures { result ≡ self.now.byte }
    {
        self.byte
    }

    /// Returns true only if the byte is nowhere in the bytes. It looks at no more than 64 of them.
    #[inline(always)]
    pub fn is_without(&self) -> bool
        ensures { IsTrue result → All (λ x. (x == self.now.byte) ≡ false) self.now.bytes }
    {
        self.content.len() <= clear_bits(self.left)
    }

    /// Begins a walk over the places of the byte.
    #[inline(always)]
    pub fn walk(&self) -> Walk<'a>
        ensures { result ≡ record { bytes = self.now.bytes; byte = self.now.byte; from = 0 } }
    {
        Walk::with_marks(self.content, self.byte, self.left)
    }
}

/// Parts of bytes in which one byte is sought. Parts that are next to each other share a search of
/// 64 bytes. Contracts see the bytes and the byte.
#[derive(Drop)]
pub struct Parts<'a> {
    bytes: &'a [u8],
    byte: u8,
    // A bit for each of the 64 places from `base` on: 1 if the byte is there.
    base: usize,
    marks: u64,
}

impl<'a> Model for Parts<'a> {
    ghost use Rattle.std.specs.Prelude.{◌≤◌, length};
    ghost use Rattle.lanes.specs.inner.Walks.{AreMarks, Sought};

    ghost Value = { Sought };

    ghost view = { λ parts. record { bytes = parts.bytes.now; byte = parts.byte } };

    ghost invariant = { λ parts. (parts.base ≤ length parts.bytes.now)
        × AreMarks parts.bytes.now parts.byte parts.base parts.marks };
}

impl<'a> Parts<'a> {
    /// Begins with no part.
    pub fn new(bytes: &'a [u8], byte: u8) -> Parts<'a>
        ensures { result ≡ record { bytes = bytes.now; byte = byte } }
    {
        Parts {
            bytes,
            byte,
            base: bytes.len(),
            marks: 0,
        }
    }

    /// Returns the bytes from `start` up to `end`.
    #[inline(always)]
    pub fn part(&mut self, start: usize, end: usize) -> Part<'a>
        requires order { start ≤ end }
        requires within { end ≤ length self.old.bytes }
        ensures same { self.new ≡ self.old }
        ensures part { result ≡ record {
          bytes = take (end - start) (drop start self.old.bytes);
          byte = self.old.byte;
        } }
    {
        let (base, marks) = marks_for(self.bytes, self.byte, self.base, self.marks, start, end);
        self.base = base;
        self.marks = marks;
        Part {
            content: Prefix::new(&self.bytes[start..], end - start),
            byte: self.byte,
            left: from_bit(marks, start - base),
        }
    }
}

// Returns a bit for each of the first 64 places: 1 if the byte is there.
#[inline(always)]
fn first_marks(content: Prefix, byte: u8) -> u64
    ensures { AreMarks (prefix_bytes content.entry) byte 0 result }
{
    let (ahead, _len) = content.parts();
    marks(ahead, 0, byte)
}

// Returns marks that hold for a part: these if the part ends within their 64 places, otherwise new
// ones.
#[inline(always)]
fn marks_for(
    bytes: &[u8],
    byte: u8,
    base: usize,
    left: u64,
    start: usize,
    end: usize,
) -> (usize, u64)
    requires base { base ≤ length bytes.now }
    requires order { start ≤ end }
    requires within { end ≤ length bytes.now }
    requires marks { AreMarks bytes.now byte base left }
    ensures marks { AreMarks bytes.now byte result.0 result.1 }
    ensures low { result.0 ≤ start }
    ensures near { start < result.0 + 64 }
    ensures ended { result.0 ≢ start → end < result.0 + 64 }
{
    if base <= start && end < base + 64 {
        return (base, left);
    }
    (start, marks(bytes, start, byte))
}
