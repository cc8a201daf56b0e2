ghost use Rattle.std.specs.Prelude.{◌≡◌, ◌+◌, ◌≤◌, true, ℕ, List, Option, Some, length, take, drop, slice_index, IfSome, IsTrue};
ghost use Rattle.lanes.specs.inner.Doubles.{HasNoDouble};
ghost use Rattle.tr_filter.specs.Covers.{in_all, Cover, Exact};
ghost use Rattle.tr_words.specs.Tr.{squeezed, last_of, stays as is_staying};
ghost use Rattle.tr_filter.specs.inner.Progress.{Pressed};

use crate::chunks::{CHUNK, chunk_end, keep_chunk, place};
use crate::spans::{Spans, are_exact, spans_of};
use lanes::{has_no_double, put_few, single_chunk};

// Bytes whose runs become a single one. The spans cover them, and have no others if they are exact.
#[derive(Clone, Copy)]
pub(crate) struct Squeezing {
    pub set: [bool; 256],
    pub spans: Spans,
    pub exact: bool,
    ghost covers: { Cover (Some set) spans },
    ghost same: { exact ≡ true → Exact (Some set) spans },
}

// The squeezing of this set.
pub(crate) fn squeezing_of(set: &[bool; 256]) -> Squeezing
    ensures { result.set ≡ set.now }
{
    let spans = spans_of(&Some(*set));
    let exact = are_exact(&Some(*set), &spans);
    Squeezing {
        set: *set,
        spans,
        exact,
    }
}

// Whether a byte stays if `last` comes before it.
#[inline(always)]
fn stays(set: &[bool; 256], last: Option<u8>, byte: u8) -> bool
    ensures { result ≡ is_staying (Some set.now) (last, byte) }
{
    !((last == Some(byte)) & set[byte as usize])
}

// Whether it is certain that none of the 64 bytes at this place is squeezed, if `last` comes before them.
#[inline(always)]
fn is_quiet(bytes: &[u8], at: usize, squeezing: &Squeezing, last: Option<u8>) -> bool
    requires { at + 65 ≤ length bytes.now }
    ensures first { IsTrue result → is_staying (Some squeezing.now.set) (last, slice_index bytes.now at) ≡ true }
    ensures apart { IsTrue result → HasNoDouble (in_all squeezing.now.spans) (take 64 (drop at bytes.now)) }
{
    stays(&squeezing.set, last, bytes[at]) && has_no_double(bytes, at, squeezing.spans.all())
}

// Squeezes the first `len` bytes, if `last` comes before them. Writes at the front those that stay,
// and returns their number and the last byte of all.
pub(crate) fn squeeze(
    bytes: &mut [u8],
    len: usize,
    squeezing: &Squeezing,
    last: Option<u8>,
) -> (usize, Option<u8>)
    requires { len ≤ length bytes.old }
    ensures made { take result.0 bytes.new ≡ squeezed (Some squeezing.now.set) last (take len bytes.old) }
    ensures last { result.1 ≡ last_of last (take len bytes.old) }
    ensures within { result.0 ≤ len }
{
    let mut few = [0; 128];
    let mut last = last;
    let mut kept = 0;
    let mut at = 0;
    while at < len {
        if len - at > CHUNK && is_quiet(bytes, at, squeezing, last) {
            last = Some(bytes[at + 63]);
            keep_chunk(bytes, at, kept);
            kept += CHUNK;
            at += CHUNK;
        } else {
            let end = chunk_end(len, at);
            let (kept_now, last_now) = squeeze_next(
                bytes, squeezing, at, end, kept, last, &mut few,
            );
            kept = kept_now;
            last = last_now;
            at = end;
        }
    }
    (kept, last)
}

// Writes to the front of `few` what is left of the 64 bytes at this place, if `last` comes before them and few of them go, and
// returns its length.
#[inline(always)]
fn few_squeezed(
    bytes: &[u8],
    at: usize,
    squeezing: &Squeezing,
    last: Option<u8>,
    few: &mut [u8],
) -> Option<usize>
    requires bytes { at + 128 ≤ length bytes.now }
    requires few { length few.old ≡ 128 }
    ensures left { IfSome result
        (λ count. (count ≤ 64)
        × (take count few.new ≡ squeezed (Some squeezing.now.set) last (take 64 (drop at bytes.now)))) }
    ensures long { length few.new ≡ length few.old }
{
    if !squeezing.exact {
        return None;
    }
    let gone = !stays(&squeezing.set, last, bytes[at]);
    let count = single_chunk(bytes, at, squeezing.spans.all(), gone, few)?;
    Some(count)
}

// The same of a part of the bytes, after the first `kept` ones are made. A chunk that loses few bytes is moved run by run.
#[inline(never)]
fn squeeze_next(
    bytes: &mut [u8],
    squeezing: &Squeezing,
    from: usize,
    to: usize,
    kept: usize,
    last: Option<u8>,
    few: &mut [u8],
) -> (usize, Option<u8>)
    requires order { from ≤ to }
    requires within { to ≤ length bytes.old }
    requires front { kept ≤ from }
    requires few { length few.old ≡ 128 }
    ensures pressed { (before : Option ℕ) (xs : List ℕ) → length bytes.old ≡ length xs
        → Pressed (Some squeezing.now.set) before xs bytes.old kept from last
        → Pressed (Some squeezing.now.set) before xs bytes.new result.0 to result.1 }
    ensures long { length bytes.new ≡ length bytes.old }
    ensures front { result.0 ≤ to }
    ensures few { length few.new ≡ length few.old }
{
    if to - from == CHUNK
        && bytes.len() - from >= 2 * CHUNK
        && let Some(count) = few_squeezed(bytes, from, squeezing, last, few)
    {
        let next = bytes[from + 63];
        put_few(bytes, kept, few);
        return (kept + count, Some(next));
    }
    squeeze_part(bytes, &squeezing.set, from, to, kept, last)
}

// The same of a part of the bytes, byte by byte, after the first `kept` ones are made.
fn squeeze_part(
    bytes: &mut [u8],
    set: &[bool; 256],
    from: usize,
    to: usize,
    kept: usize,
    last: Option<u8>,
) -> (usize, Option<u8>)
    requires order { from ≤ to }
    requires within { to ≤ length bytes.old }
    requires front { kept ≤ from }
    ensures pressed { (before : Option ℕ) (xs : List ℕ) → length bytes.old ≡ length xs
        → Pressed (Some set.now) before xs bytes.old kept from last
        → Pressed (Some set.now) before xs bytes.new result.0 to result.1 }
    ensures long { length bytes.new ≡ length bytes.old }
    ensures front { result.0 ≤ to }
{
    let mut last = last;
    let mut kept = kept;
    for i in from..to {
        let byte = bytes[i];
        kept = place(bytes, kept, byte, stays(set, last, byte));
        last = Some(byte);
    }
    (kept, last)
}
