ghost use Rattle.std.specs.Prelude.{◌≡◌, ◌++◌, ◌∷◌, [], ◌≤◌, ◌-◌, drop, length, MatchOption, IfNone, IfOk, OnOk, if◌then◌else◌};
ghost use Rattle.lanes.specs.inner.Prefixes.{prefix_bytes};
ghost use Rattle.machine.specs.Lines.{HasNoNewline, newline};
ghost use Rattle.commands.specs.Fold.{folded};
ghost use Rattle.byte_filters.specs.FoldCuts.{IsUncut};
ghost use Rattle.byte_filters.specs.inner.Scans.{IsEvenUpTo, IsPart, Folds};

use crate::ahead::{cut_place, even_len};
use crate::segment::{SegmentEnd, begun, scanned};
use commands::FoldForm;
use lanes::{Prefix, Written};
use machine::{NoMemory, prefix, skip};

// A part of a stream that was folded: how many bytes it has, and whether the line is cut after
// them.
#[derive(Clone, Copy)]
pub(crate) struct Part {
    pub count: usize,
    pub cut: bool,
}

// The first part that is known, if there is one, found by a scan.
#[inline(never)]
fn scanned_part(spec: &FoldForm, bytes: &[u8]) -> Option<Part>
    ensures part { MatchOption result (folded spec.now bytes.now ≡ bytes.now)
        (λ part. IsPart spec.now bytes.now part.count part.cut) }
    ensures plain { IfNone result (HasNoNewline bytes.now) }
{
    let [first, ..] = bytes else {
        return None;
    };
    if *first == b'\n' {
        return Some(Part {
            count: 1,
            cut: false,
        });
    }
    match scanned(spec, begun(spec, *first), bytes) {
        SegmentEnd::Cut(count) => Some(Part { count, cut: true }),
        SegmentEnd::Line(count) => Some(Part {
            count: count + 1,
            cut: false,
        }),
        SegmentEnd::Open(_) => None,
    }
}

// The first part that is known, if there is one. The first `even` bytes are none that ends the line, or moves the column in
// its own way. If they fit and a newline follows, none of them is looked at again.
#[inline(always)]
fn first_part(spec: &FoldForm, bytes: &[u8], even: usize) -> Option<Part>
    requires { IsEvenUpTo spec.now bytes.now even }
    ensures part { MatchOption result (folded spec.now bytes.now ≡ bytes.now)
        (λ part. IsPart spec.now bytes.now part.count part.cut) }
    ensures plain { IfNone result (HasNoNewline bytes.now) }
{
    if even <= spec.width {
        if even == bytes.len() {
            return None;
        }
        if bytes[even] == b'\n' {
            return Some(Part {
                count: even + 1,
                cut: false,
            });
        }
    }
    scanned_part(spec, bytes)
}

// Writes the bytes of a part, and a newline if the line is cut after them.
#[inline(always)]
fn put_part(made: &mut Written, part: Prefix, cut: bool) -> Result<(), NoMemory>
    ensures { OnOk result
        (made.new
        ≡ made.old ++ (prefix_bytes part.entry ++ (if cut then newline ∷ [] else []))) }
{
    if cut {
        made.put_prefix_then(part, b'\n')?;
    } else {
        made.put_part(part)?;
    }
    Ok(())
}

// Writes segments that are as wide as a line may become, while one byte more of the first `even` is left for the next one.
// Returns how many bytes they have.
#[inline(always)]
fn put_wide(
    spec: &FoldForm,
    bytes: &[u8],
    even: usize,
    made: &mut Written,
) -> Result<usize, NoMemory>
    requires { IsEvenUpTo spec.now bytes.now even }
    ensures within { IfOk result (λ count. count ≤ length bytes.now) }
    ensures left { IfOk result
        (λ count. IsEvenUpTo spec.now (drop count bytes.now) (even - count)) }
    ensures order { IfOk result (λ count. count ≤ even) }
    ensures folds { IfOk result
        (λ count. Folds spec.now bytes.now (drop count bytes.now) made.old made.new) }
{
    let mut at = 0;
    'cuts: while 0 < spec.width && spec.width < even - at {
        let rest = &bytes[at..];
        let count = cut_place(spec, prefix(rest, spec.width));
        made.put_prefix_then(Prefix::new(rest, count), b'\n')?;
        at += count;
    }
    Ok(at)
}

// Writes the text that these bytes give, whatever follows them, and says how many of them it is made of.
pub(crate) fn fold_text(
    spec: &FoldForm,
    bytes: &[u8],
    made: &mut Written,
) -> Result<usize, NoMemory>
    ensures within { IfOk result (λ count. count ≤ length bytes.now) }
    ensures folds { IfOk result
        (λ count. Folds spec.now bytes.now (drop count bytes.now) made.old made.new) }
    ensures ends { IfOk result
        (λ count. folded spec.now (drop count bytes.now) ≡ drop count bytes.now) }
    ensures plain { IfOk result (λ count. HasNoNewline (drop count bytes.now)) }
    ensures uncut { IfOk result (λ count. IsUncut spec.now (drop count bytes.now)) }
{
    let mut at = 0;
    'parts: loop {
        let line = &bytes[at..];
        let even = even_len(spec, line);
        let wide = put_wide(spec, line, even, made)?;
        let rest = skip(line, wide);
        let Some(part) = first_part(spec, rest, even - wide) else {
            return Ok(at + wide);
        };
        put_part(made, Prefix::new(rest, part.count), part.cut)?;
        at += wide + part.count;
    }
}
