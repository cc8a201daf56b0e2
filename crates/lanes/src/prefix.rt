ghost use Rattle.std.specs.Prelude.{◌≡◌, ◌-◌, ◌≤◌, length, take, drop, IfSome};

use crate::chunk::CHUNK;

/// The first bytes of a slice. The bytes that follow them may be read too, so that a short prefix
/// can be read in one step.
#[derive(Clone, Copy)]
pub struct Prefix<'a> {
    of: &'a [u8],
    len: usize,
    ghost within: { len ≤ length of.now },
}

impl<'a> Prefix<'a> {
    ghost use Rattle.lanes.specs.inner.Prefixes.{prefix_bytes};

    /// The first `len` bytes of a slice.
    #[inline(always)]
    pub fn new(of: &'a [u8], len: usize) -> Prefix<'a>
        requires { len ≤ length of.now }
        ensures { prefix_bytes result ≡ take len of.now }
    {
        Prefix { of, len }
    }

    /// All bytes of a slice.
    #[inline(always)]
    pub fn whole(bytes: &'a [u8]) -> Prefix<'a>
        ensures { prefix_bytes result ≡ bytes.now }
    {
        Prefix {
            of: bytes,
            len: bytes.len(),
        }
    }

    /// Returns the bytes.
    #[inline(always)]
    pub fn bytes(self) -> &'a [u8]
        ensures { result.now ≡ prefix_bytes self.entry }
    {
        &self.of[..self.len]
    }

    /// Returns the number of bytes.
    #[inline(always)]
    pub fn len(self) -> usize
        ensures { result ≡ length (prefix_bytes self.entry) }
    {
        self.len
    }

    /// Returns the bytes from `start` up to `end`.
    #[inline(always)]
    pub fn part(self, start: usize, end: usize) -> Prefix<'a>
        requires { (start ≤ end) × (end ≤ length (prefix_bytes self)) }
        ensures { prefix_bytes result ≡ take (end - start) (drop start (prefix_bytes self.entry)) }
    {
        Prefix {
            of: &self.of[start..],
            len: end - start,
        }
    }

    // Returns the slice, and how many of its bytes belong to the prefix.
    #[inline(always)]
    pub(crate) fn parts(self) -> (&'a [u8], usize)
        ensures bytes { take result.1 result.0.now ≡ prefix_bytes self.entry }
        ensures within { result.1 ≤ length result.0.now }
    {
        (self.of, self.len)
    }

    // Returns 64 bytes that begin with the prefix, if it is no longer and the slice has them.
    #[inline(always)]
    pub(crate) fn chunk(self) -> Option<&'a [u8]>
        ensures { IfSome result
            (λ chunk. (length chunk.now ≡ 64) × (length (prefix_bytes self.entry) ≤ 64)
            × (take (length (prefix_bytes self.entry)) chunk.now ≡ prefix_bytes self.entry)) }
    {
        if self.len <= CHUNK && self.of.len() >= CHUNK {
            return Some(&self.of[..CHUNK]);
        }
        None
    }

    // Two chunks that begin with them, if they are no longer and are found there.
    #[inline(always)]
    pub(crate) fn two_chunks(self) -> Option<&'a [u8]>
        ensures { IfSome result
            (λ chunks. (length chunks.now ≡ 128) × (length (prefix_bytes self.entry) ≤ 128)
            × (take (length (prefix_bytes self.entry)) chunks.now ≡ prefix_bytes self.entry)) }
    {
        if self.len <= 2 * CHUNK && self.of.len() >= 2 * CHUNK {
            return Some(&self.of[..2 * CHUNK]);
        }
        None
    }
}
