ghost use Rattle.std.specs.Prelude.{◌≡◌, ◌≤◌, length, nat_lt, if◌then◌else◌};
ghost use Rattle.std.specs.List.{prefix_len};
ghost use Rattle.commands.specs.Fold.{last_break};
ghost use Rattle.byte_filters.specs.inner.Scans.{IsEvenUpTo, is_even, is_inside, is_plain};

use crate::lane::CHUNK;
use crate::segment::{LAST, few_plain};
use commands::FoldForm;
use lanes::{find_near, run_above};
use memchr::memrchr2;

// How many bytes come before the first newline, or all.
fn content_len(bytes: &[u8]) -> usize
    ensures { result ≡ prefix_len is_inside bytes.now }
{
    match find_near(bytes, 0, b'\n') {
        Some(place) => place,
        None => bytes.len(),
    }
}

// How many bytes in front move the column by one, and are no newline.
#[inline(always)]
fn plain_len(bytes: &[u8]) -> usize
    ensures { result ≤ prefix_len is_plain bytes.now }
{
    let mut at = 0;
    while bytes.len() - at >= CHUNK {
        let run = run_above(&bytes[at..], LAST);
        if run < CHUNK {
            return at + run;
        }
        at += CHUNK;
    }
    at + few_plain(&bytes[at..])
}

// How many bytes in front neither end the line nor move the column in their own way. There may be more.
#[inline(always)]
pub(crate) fn even_len(spec: &FoldForm, bytes: &[u8]) -> usize
    ensures { IsEvenUpTo spec.now bytes.now result }
{
    if spec.bytes {
        content_len(bytes)
    } else {
        plain_len(bytes)
    }
}

// After how many bytes a line is cut if these fit and no more: under `-s` after the last blank, if
// there is one.
#[inline(always)]
#[tactic(auto, using(crate::proofs::lemmas::AheadLaws::cut_behind_all, crate::proofs::lemmas::AheadLaws::cut_behind_last, crate::proofs::lemmas::AheadLaws::cut_behind_none))]
pub(crate) fn cut_place(spec: &FoldForm, bytes: &[u8]) -> usize
    requires { length bytes.now ≤ prefix_len (is_even spec.now) bytes.now }
    ensures value { result
        ≡ (let b = last_break spec.now 0 0 (length bytes.now) bytes.now
        in if nat_lt 0 b then b else length bytes.now) }
    ensures within { result ≤ length bytes.now }
{
    if !spec.spaces {
        return bytes.len();
    }
    match memrchr2(b' ', b'\t', bytes) {
        Some(place) => place + 1,
        None => bytes.len(),
    }
}
