ghost use Rattle.std.specs.Prelude.{◌≡◌, ℕ, List, Some, ◌≤◌, ◌<◌, length, take, IfSome};
ghost use Rattle.std.specs.Option.{ForSome};
ghost use Rattle.tr_filter.specs.Covers.{IsPlain};
ghost use Rattle.tr_filter.specs.inner.Nibbles.{Leaves};
ghost use Rattle.tr_filter.specs.inner.FewSpans.{Covers};
ghost use Rattle.tr_words.specs.Tr.{translated};
ghost use Rattle.tr_filter.specs.inner.Progress.{Thinned};

use crate::chunks::{CHUNK, keep_chunk, place};
use crate::few::{Few, few_of, has_none_of};
use crate::keeping::keep_sixteen;
use crate::nibbles::{Nibbles, nibbles_of};
use crate::plain::is_plain;
use tr_words::TrSpec;

// The most bytes that are gone through before chunks are tested again.
const STRETCH: usize = 1024;

// A tr that deletes bytes, and leaves all others as they are. If one or two spans cover the bytes that it deletes, it has these.
#[derive(Clone, Copy)]
pub(crate) struct Deleting {
    pub spec: TrSpec,
    pub set: [bool; 256],
    pub nibbles: Nibbles,
    pub few: Option<Few>,
    ghost plain: { IsPlain spec.table },
    ghost deletes: { spec.deleted ≡ Some set },
    ghost leaves: { Leaves nibbles spec.deleted },
    ghost covers: { ForSome few (λ few. Covers few spec.deleted) },
}

// The same, if tr is one.
pub(crate) fn deleting_of(spec: &TrSpec) -> Option<Deleting>
    ensures { IfSome result (λ d. d.spec ≡ spec.now) }
{
    let set = spec.deleted?;
    if !is_plain(&spec.table) {
        return None;
    }
    let nibbles = nibbles_of(&set)?;
    Some(Deleting {
        spec: *spec,
        set,
        nibbles,
        few: few_of(&set),
    })
}

// Writes at the front those of these bytes that are not deleted, and returns their number.
pub(crate) fn delete(bytes: &mut [u8], deleting: &Deleting) -> usize
    ensures made { take result bytes.new ≡ translated deleting.now.spec bytes.old }
    ensures within { result ≤ length bytes.old }
    ensures long { length bytes.new ≡ length bytes.old }
{
    match deleting.few {
        Some(few) => delete_by_few(bytes, deleting, few),
        None => delete_next(bytes, deleting, 0, bytes.len(), 0),
    }
}

// The same, if a few spans cover the bytes that go. A chunk in which these have no byte is moved as it is. After one that is not
// so, a stretch of bytes is gone through before the next test. It doubles until a test succeeds.
#[inline(never)]
fn delete_by_few(bytes: &mut [u8], deleting: &Deleting, few: Few) -> usize
    requires { Covers few deleting.now.spec.deleted }
    ensures made { take result bytes.new ≡ translated deleting.now.spec bytes.old }
    ensures within { result ≤ length bytes.old }
    ensures long { length bytes.new ≡ length bytes.old }
{
    let mut kept = 0;
    let mut at = 0;
    let mut stretch = CHUNK;
    while at < bytes.len() {
        if bytes.len() - at >= CHUNK && has_none_of(bytes, at, few) {
            keep_chunk(bytes, at, kept);
            kept += CHUNK;
            at += CHUNK;
            stretch = CHUNK;
        } else {
            let end = stretch_end(bytes.len(), at, stretch);
            kept = delete_next(bytes, deleting, at, end, kept);
            at = end;
            stretch = longer(stretch);
        }
    }
    kept
}

// The end of a stretch at this place.
#[inline(always)]
fn stretch_end(len: usize, at: usize, stretch: usize) -> usize
    requires at { at < len }
    requires some { 0 < stretch }
    ensures after { at < result }
    ensures within { result ≤ len }
{
    if len - at >= stretch {
        at + stretch
    } else {
        len
    }
}

// The next stretch is twice as long, up to a bound.
#[inline(always)]
fn longer(stretch: usize) -> usize
    requires { 0 < stretch }
    ensures { 0 < result }
{
    if stretch < STRETCH {
        2 * stretch
    } else {
        stretch
    }
}

// Deletes from a part of the bytes, after the first `kept` ones are made, sixteen at a time. Those at the end go byte by byte.
#[inline(never)]
fn delete_next(bytes: &mut [u8], deleting: &Deleting, from: usize, to: usize, kept: usize) -> usize
    requires order { from ≤ to }
    requires within { to ≤ length bytes.old }
    requires front { kept ≤ from }
    ensures thinned { (xs : List ℕ) → length bytes.old ≡ length xs
        → Thinned deleting.now.spec xs bytes.old kept from
        → Thinned deleting.now.spec xs bytes.new result to }
    ensures long { length bytes.new ≡ length bytes.old }
    ensures front { result ≤ to }
{
    let mut kept = kept;
    let mut at = from;
    while to - at >= 16 {
        kept = keep_sixteen(bytes, at, kept, &deleting.nibbles);
        at += 16;
    }
    delete_part(bytes, deleting, at, to, kept)
}

// The same of a part of the bytes, byte by byte, after the first `kept` ones are made.
fn delete_part(bytes: &mut [u8], deleting: &Deleting, from: usize, to: usize, kept: usize) -> usize
    requires order { from ≤ to }
    requires within { to ≤ length bytes.old }
    requires front { kept ≤ from }
    ensures thinned { (xs : List ℕ) → length bytes.old ≡ length xs
        → Thinned deleting.now.spec xs bytes.old kept from
        → Thinned deleting.now.spec xs bytes.new result to }
    ensures long { length bytes.new ≡ length bytes.old }
    ensures front { result ≤ to }
{
    let mut kept = kept;
    for i in from..to {
        let byte = bytes[i];
        kept = place(bytes, kept, byte, !deleting.set[byte as usize]);
    }
    kept
}
