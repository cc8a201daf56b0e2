ghost use Rattle.std.specs.Prelude.{◌≡◌, ◌+◌, ◌++◌, ◌<◌, ◌≤◌, length, take, drop, slice_set, if◌then◌else◌};

use lanes::move_chunk;

// How many bytes are looked at, or moved, at once.
pub(crate) const CHUNK: usize = 64;

// The end of the chunk at this place, which is shorter at the end of all.
#[inline(always)]
pub(crate) fn chunk_end(len: usize, at: usize) -> usize
    requires { at < len }
    ensures after { at < result }
    ensures within { result ≤ len }
{
    if len - at >= CHUNK { at + CHUNK } else { len }
}

// Moves 64 bytes to the front, unless they are there.
#[inline(always)]
pub(crate) fn keep_chunk(bytes: &mut [u8], from: usize, to: usize)
    requires order { to ≤ from }
    requires room { from + 64 ≤ length bytes.old }
    ensures moved { take (to + 64) bytes.new ≡ take to bytes.old ++ take 64 (drop from bytes.old) }
    ensures rest { drop (from + 64) bytes.new ≡ drop (from + 64) bytes.old }
    ensures long { length bytes.new ≡ length bytes.old }
{
    if from != to {
        move_chunk(bytes, from, to);
    }
}

// Writes a byte at `kept`, and counts it if it stays.
#[inline(always)]
pub(crate) fn place(bytes: &mut [u8], kept: usize, byte: u8, stays: bool) -> usize
    requires { kept < length bytes.old }
    ensures written { bytes.new ≡ slice_set bytes.old kept byte }
    ensures next { result ≡ (if stays then kept + 1 else kept) }
{
    bytes[kept] = byte;
    kept + usize::from(stays)
}
