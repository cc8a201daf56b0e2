// Lines of fewer than 128 bytes, far from the end of a piece: nothing is asked for each field.
ghost use Rattle.std.specs.Prelude.{◌≡◌, ◌≢◌, ℕ, ◌+◌, ◌-◌, ◌<◌, ◌≤◌, Bool, Some, false, [], ◌∷◌, ◌++◌, length, take, drop, IfOk, IfSome, MatchOption, if◌then◌else◌};
ghost use Rattle.std.specs.List.{join_with_byte};
ghost use Rattle.commands.specs.Cut.{cut_content, cut_line, fields as fields_of};
ghost use Rattle.commands.specs.Selections.{is_selected, selected};
ghost use Rattle.commands.specs.declared.cut_words.Parts.{Parts};
ghost use Rattle.line_filters.specs.inner.FieldPlaces.{FieldsUpTo, IsWalkedTo};
ghost use Rattle.line_filters.specs.inner.Walked.{Walked};
ghost use Rattle.machine.specs.Lines.{newline};
ghost use Rattle.machine.specs.inner.Places.{FirstFrom};

use crate::fields::{field_start, fields_end};
use crate::ranges::Ranges;
use crate::steps::Step;
use lanes::{Prefix, Walk, Written, put_few};
use machine::NoMemory;

// A near line ends within this many bytes.
pub(crate) const NEAR: usize = 128;

// How many bytes there have to be from the beginning of a near line on.
pub(crate) const AHEAD: usize = 256;

// How many bytes may have been put together when a line is added to them.
const FULL: usize = 768;

// Appends what cut -f writes of the near lines at the front, up to two that are without the
// delimiter, and returns how many bytes they have.
#[inline(never)]
pub(crate) fn put_near_lines(
    ranges: &Ranges,
    delimiter: u8,
    only_delimited: bool,
    bytes: &[u8],
    few: &mut [u8],
    made: &mut Written,
) -> Result<usize, NoMemory>
    requires room { length few.old ≡ 1024 }
    ensures lines { IfOk result
        (λ count. Walked
        (cut_line (is_selected ranges.now.ranges.items) (Parts.Fields delimiter only_delimited))
        [] [] bytes.now count made.old made.new) }
    ensures within { IfOk result (λ count. count ≤ length bytes.now) }
    ensures long { length few.new ≡ length few.old }
{
    let mut at = 0;
    let mut count = 0;
    let mut was_without = false;
    while bytes.len() - at >= AHEAD {
        count = emptied(few, count, made)?;
        let rest = &bytes[at..];
        let Some((end, to, is_without)) = put_near_line(
            ranges,
            delimiter,
            only_delimited,
            rest,
            few,
            count,
        ) else {
            return put_few_out(few, count, at, made);
        };
        at += end + 1;
        count = to;
        if is_without && was_without {
            return put_few_out(few, count, at, made);
        }
        was_without = is_without;
    }
    put_few_out(few, count, at, made)
}

// Puts the bytes out if there is no room for another line, and returns how many are left.
#[inline(always)]
fn emptied(few: &[u8], count: usize, made: &mut Written) -> Result<usize, NoMemory>
    requires { count ≤ length few.now }
    ensures { IfOk result
        (λ left. (left ≤ 768) × (made.new ++ take left few.now ≡ made.old ++ take count few.now)) }
{
    if count <= FULL {
        return Ok(count);
    }
    made.put(&few[..count])?;
    Ok(0)
}

// Puts the bytes out, and returns this place.
#[inline(always)]
fn put_few_out(few: &[u8], count: usize, at: usize, made: &mut Written) -> Result<usize, NoMemory>
    requires { count ≤ length few.now }
    ensures { IfOk result (λ place. (place ≡ at) × (made.new ≡ made.old ++ take count few.now)) }
{
    made.put(&few[..count])?;
    Ok(at)
}

// Writes what cut -f writes of the line at the front, if it is near, after the first `count` bytes.
// Returns the end of the line and of what was written, and whether it is without the delimiter.
#[inline(always)]
fn put_near_line(
    ranges: &Ranges,
    delimiter: u8,
    only_delimited: bool,
    bytes: &[u8],
    few: &mut [u8],
    count: usize,
) -> Option<(usize, usize, bool)>
    requires bytes { 256 ≤ length bytes.now }
    requires room { (count ≤ 768) × (length few.old ≡ 1024) }
    ensures line { MatchOption result (few.new ≡ few.old)
        (λ r. FirstFrom bytes.now newline 0 r.0 × (r.1 ≤ 1024)
        × (take r.1 few.new
        ≡ take count few.old
        ++ cut_content (is_selected ranges.now.ranges.items)
        (Parts.Fields delimiter only_delimited) (take r.0 bytes.now))) }
    ensures long { length few.new ≡ length few.old }
{
    let end = near_end(bytes)?;
    let mut walk = Walk::new(Prefix::new(bytes, end), delimiter);
    match walk.peek() {
        None => {
            let to = put_near_whole(only_delimited, bytes, end, few, count);
            Some((end, to, true))
        }
        Some(_) => {
            let to = put_near_fields(ranges, bytes, end, &mut walk, few, count);
            Some((end, end_line(few, to), false))
        }
    }
}

// Writes a near line without the delimiter after the first `count` bytes, unless only delimited
// lines are written. Returns the end of what was written.
#[inline(never)]
fn put_near_whole(
    only_delimited: bool,
    bytes: &[u8],
    end: usize,
    few: &mut [u8],
    count: usize,
) -> usize
    requires bytes { 256 ≤ length bytes.now }
    requires short { end < 128 }
    requires room { (count ≤ 768) × (length few.old ≡ 1024) }
    ensures whole { take result few.new
        ≡ take count few.old
        ++ (if only_delimited then [] else take end bytes.now ++ newline ∷ []) }
    ensures few { result ≤ 1024 }
    ensures long { length few.new ≡ length few.old }
{
    if only_delimited {
        return count;
    }
    let to = copy_near(bytes, 0, end, few, count);
    end_line(few, to)
}

// Returns the end of the line at the front, if it is near.
#[inline(always)]
fn near_end(bytes: &[u8]) -> Option<usize>
    requires { 128 ≤ length bytes.now }
    ensures { IfSome result (λ end. FirstFrom bytes.now newline 0 end × (end < 128)) }
{
    Walk::new(Prefix::new(bytes, NEAR), b'\n').next()
}

// Writes a newline at this place, and returns the next one.
#[inline(always)]
fn end_line(few: &mut [u8], to: usize) -> usize
    requires { to < length few.old }
    ensures next { result ≡ to + 1 }
    ensures written { take (to + 1) few.new ≡ take to few.old ++ newline ∷ [] }
    ensures long { length few.new ≡ length few.old }
{
    few[to] = b'\n';
    to + 1
}

// Writes the selected fields of a near line, joined by the delimiter, after the first `count`
// bytes. Returns the end of what was written.
#[inline(always)]
fn put_near_fields(
    ranges: &Ranges,
    bytes: &[u8],
    len: usize,
    walk: &mut Walk,
    few: &mut [u8],
    count: usize,
) -> usize
    requires bytes { 256 ≤ length bytes.now }
    requires short { len < 128 }
    requires walk { (walk.old.bytes ≡ take len bytes.now) × (walk.old.from ≡ 0) }
    requires room { (count ≤ 768) × (length few.old ≡ 1024) }
    ensures fields { take result few.new
        ≡ take count few.old
        ++ join_with_byte walk.old.byte
        (selected (is_selected ranges.now.ranges.items)
        (fields_of walk.old.byte (take len bytes.now))) }
    ensures few { result ≤ count + len + 1 }
    ensures long { length few.new ≡ length few.old }
{
    let mut to = count;
    let mut first = true;
    for step in ranges.steps.as_slice() {
        let Some(start) = field_start(walk, step.skip) else {
            return to;
        };
        let lead = lead_of(first, start);
        let Some(end) = step_end(*step, walk) else {
            return copy_near(bytes, lead, len, few, to);
        };
        to = copy_near(bytes, lead, end, few, to);
        first = false;
    }
    to
}

// Returns the place of the delimiter before the fields at `start`, or `start` if they are the
// first.
#[inline(always)]
fn lead_of(first: bool, start: usize) -> usize
    requires { first ≡ false → 1 ≤ start }
    ensures { result ≡ (if first then start else start - 1) }
{
    if first { start } else { start - 1 }
}

// Returns the end of the fields that a step takes, and goes past them. Returns None if they go on
// to the end.
#[inline(always)]
fn step_end(step: Step, walk: &mut Walk) -> Option<usize>
    requires within { walk.old.from ≤ length walk.old.bytes }
    requires some { IfSome step.take (λ count. 1 ≤ count) }
    ensures { MatchOption result
        (IfSome step.take
        (λ count. length (fields_of walk.old.byte (drop walk.old.from walk.old.bytes)) ≤ count))
        (λ end. (count : ℕ) × (step.take ≡ Some count)
        × FieldsUpTo walk.old.byte count walk.old.bytes walk.old.from end
        × IsWalkedTo (end + 1) walk.old walk.new) }
{
    match step.take {
        None => None,
        Some(count) => fields_end(walk, count),
    }
}

// Copies the bytes from `start` up to `end` to this place, and returns the place after them.
#[inline(always)]
fn copy_near(bytes: &[u8], start: usize, end: usize, few: &mut [u8], to: usize) -> usize
    requires order { (start ≤ end) × (end ≤ 128) }
    requires bytes { 256 ≤ length bytes.now }
    requires room { to + 128 ≤ length few.old }
    ensures end { result ≡ to + (end - start) }
    ensures copied { take result few.new
        ≡ take to few.old ++ take (end - start) (drop start bytes.now) }
    ensures long { length few.new ≡ length few.old }
{
    put_few(few, to, &bytes[start..]);
    if end - start <= 64 {
        return to + (end - start);
    }
    put_few(few, to + 64, &bytes[start + 64..]);
    to + (end - start)
}
