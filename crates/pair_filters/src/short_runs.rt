// Runs of short lines: each line takes one step, whether it goes on with a run or not.
ghost use Rattle.std.specs.Prelude.{◌≡◌, ◌≢◌, ℕ, ◌+◌, ◌-◌, ◌<◌, ◌≤◌, ◌==◌, ◌∷◌, [], ◌++◌, true, length, take, drop, slice_index, decimal, IfOk, IfSome, if◌then◌else◌};
ghost use Rattle.std.specs.Int.{bit_at};
ghost use Rattle.std.specs.Str.{bytes_eq};
ghost use Rattle.machine.specs.Lines.{content, newline};
ghost use Rattle.machine.specs.inner.Places.{FirstFrom};
ghost use Rattle.command_words.specs.Bytes.{space};
ghost use Rattle.commands.specs.Uniq.{run_text};
ghost use Rattle.pair_filters.specs.LineKeys.{IsEnded};
ghost use Rattle.pair_filters.specs.UniqSteps.{one_more};
ghost use Rattle.pair_filters.specs.inner.ShortSteps.{TakesRuns, are_alike, line_at};

use crate::made::Made;
use crate::runs::Rules;
use commands::RunsShown;
use lanes::{Prefix, Walk};
use machine::{NoMemory, newlines};
use std::simd::prelude::*;

// A short line has at most this many bytes, with its newline.
const SHORT: usize = 16;

// How many bytes are looked at to tell what lines to expect, and how many newlines they have if the
// lines are short.
const FIRST: usize = 64;

const FEW: usize = 6;

// A run of this many lines is left to the general way, since its number may get a second digit.
const MANY: u64 = 9;

// How many bytes may have been put together when those of a run are added to them.
const FULL: usize = 224;

// How many bytes are put together at most.
const ROOM: usize = 256;

// The line that was taken last: the places of its first byte and of its newline, and how many lines
// its run has so far.
#[derive(Clone, Copy)]
pub(crate) struct LastLine {
    pub(crate) start: usize,
    pub(crate) end: usize,
    pub(crate) count: u64,
}

// Whether many short lines are expected: the first 64 bytes have at least six newlines.
pub(crate) fn begins_short(bytes: &[u8]) -> bool {
    bytes.len() >= FIRST && newlines(&bytes[..FIRST]) >= FEW
}

// Whether the lines after one of `len` bytes, with which a run begins, are taken as short ones: if
// they may be, and it and the 7 before it are short. `history` has a bit for each of these, 1 if it
// is short.
#[inline(always)]
pub(crate) fn are_short(rules: Rules, may_be: bool, history: &mut u8, len: usize) -> bool
    ensures { result ≡ true
        → (len < 16) × (rules.skipped_fields ≡ 0) × (rules.skipped_bytes ≡ 0) }
{
    if !may_be {
        return false;
    }
    *history = (*history << 1) | u8::from(len < SHORT);
    if *history != u8::MAX {
        return false;
    }
    *history = 0;
    len < SHORT && rules.compares_lines()
}

// Takes short lines after the line from `start` to `end`, with which a run begins. Writes what is
// written of the runs that they end, and returns the last line. Each form has a loop of its own.
#[inline(never)]
pub(crate) fn put_short_runs(
    rules: Rules,
    bytes: &[u8],
    start: usize,
    end: usize,
    made: &mut Made,
) -> Result<LastLine, NoMemory>
    requires lines { (rules.skipped_fields ≡ 0) × (rules.skipped_bytes ≡ 0) }
    requires line { FirstFrom bytes.now newline start end }
    requires short { end < start + 16 }
    ensures { IfOk result
        (λ last. TakesRuns rules bytes.now start end last made.old made.new) }
{
    match rules.shown {
        RunsShown::Every => walk_short(rules, RunsShown::Every, bytes, start, end, made),
        RunsShown::Counted => walk_short(rules, RunsShown::Counted, bytes, start, end, made),
        RunsShown::Repeated => walk_short(rules, RunsShown::Repeated, bytes, start, end, made),
        RunsShown::Single => walk_short(rules, RunsShown::Single, bytes, start, end, made),
    }
}

// The same for one form.
#[inline(always)]
fn walk_short(
    rules: Rules,
    shown: RunsShown,
    bytes: &[u8],
    start: usize,
    end: usize,
    made: &mut Made,
) -> Result<LastLine, NoMemory>
    requires shown { rules.shown ≡ shown }
    requires lines { (rules.skipped_fields ≡ 0) × (rules.skipped_bytes ≡ 0) }
    requires line { FirstFrom bytes.now newline start end }
    requires short { end < start + 16 }
    ensures { IfOk result
        (λ last. TakesRuns rules bytes.now start end last made.old made.new) }
{
    let base = end + 1;
    let mut walk = Walk::new(Prefix::whole(&bytes[base..]), b'\n');
    let mut last = LastLine {
        start,
        end,
        count: 1,
    };
    let mut few = [0; ROOM];
    let mut to = 0;
    while last.count < MANY && bytes.len() - last.end > SHORT {
        to = emptied(&few, to, made)?;
        let Some(place) = short_place(&mut walk) else {
            return put_few_out(&few, to, last, made);
        };
        let (line, after) = take_short(shown, bytes, last, base + place, &mut few, to);
        last = line;
        to = after;
    }
    put_few_out(&few, to, last, made)
}

// Puts the bytes out if there is no room for another run, and returns how many are left.
#[inline(always)]
fn emptied(few: &[u8], count: usize, made: &mut Made) -> Result<usize, NoMemory>
    requires { count ≤ length few.now }
    ensures { IfOk result
        (λ left. (left ≤ 224) × (made.new ++ take left few.now ≡ made.old ++ take count few.now)) }
{
    if count <= FULL {
        return Ok(count);
    }
    made.put(&few[..count])?;
    Ok(0)
}

// Puts the bytes out, and returns this line.
#[inline(always)]
fn put_few_out(
    few: &[u8],
    count: usize,
    line: LastLine,
    made: &mut Made,
) -> Result<LastLine, NoMemory>
    requires { count ≤ length few.now }
    ensures { IfOk result (λ last. (last ≡ line) × (made.new ≡ made.old ++ take count few.now)) }
{
    made.put(&few[..count])?;
    Ok(line)
}

// Returns the end of the next line, if that is short.
#[inline(always)]
fn short_place(walk: &mut Walk) -> Option<usize>
    ensures { IfSome result
        (λ place. FirstFrom walk.old.bytes walk.old.byte walk.old.from place
        × (place < walk.old.from + 16) × (walk.new ≡ record walk.old { from = place + 1 })) }
{
    let from = walk.from();
    let place = walk.next()?;
    if place - from < SHORT {
        Some(place)
    } else {
        None
    }
}

// Takes the short line that follows the last one and ends at `end`. Writes what is written of the
// run that it ends, if it ends one, after the first `to` bytes. Returns that line, and the end of
// what was written.
#[inline(always)]
fn take_short(
    shown: RunsShown,
    bytes: &[u8],
    last: LastLine,
    end: usize,
    few: &mut [u8],
    to: usize,
) -> (LastLine, usize)
    requires line { FirstFrom bytes.now newline last.start last.end }
    requires next { FirstFrom bytes.now newline (last.end + 1) end }
    requires short { (last.end < last.start + 16) × (end ≤ last.end + 16) }
    requires bytes { last.end + 17 ≤ length bytes.now }
    requires count { (1 ≤ last.count) × (last.count < 9) }
    requires room { (to ≤ 224) × (length few.old ≡ 256) }
    ensures places { (result.0.start ≡ last.end + 1) × (result.0.end ≡ end) }
    ensures count { result.0.count
        ≡ (if are_alike bytes.now last end then one_more shown last.count else 1) }
    ensures made { take result.1 few.new
        ≡ take to few.old
        ++ (if are_alike bytes.now last end then []
        else run_text shown (line_at bytes.now last.start last.end) last.count) }
    ensures few { result.1 ≤ 256 }
    ensures long { length few.new ≡ length few.old }
{
    let start = last.end + 1;
    let line = &bytes[last.start..];
    let is_same = begin_alike(line, &bytes[start..], end + 1 - start);
    let after = put_short_run(shown, line, start - last.start, last.count, few, to);
    let count = count_after(shown, is_same, last.count);
    (
        LastLine { start, end, count },
        end_after(is_same, to, after),
    )
}

// Whether two slices begin with the same bytes, as far as the first `len` of them.
#[inline(always)]
fn begin_alike(a: &[u8], b: &[u8], len: usize) -> bool
    requires a { 16 ≤ length a.now }
    requires b { 16 ≤ length b.now }
    requires len { len ≤ 16 }
    ensures { result ≡ bytes_eq (take len a.now) (take len b.now) }
{
    len <= first_difference(a, b)
}

// Returns the first of the first 16 places at which two slices differ, or a place after them.
#[inline(always)]
fn first_difference(a: &[u8], b: &[u8]) -> usize
    requires a { 16 ≤ length a.now }
    requires b { 16 ≤ length b.now }
    ensures before { (k : ℕ) → k < result → k < 16 → slice_index a.now k ≡ slice_index b.now k }
    ensures there { result < 16 → slice_index a.now result ≢ slice_index b.now result }
{
    let marks = differences(a, b);
    if marks == 0 {
        SHORT
    } else {
        marks.trailing_zeros() as usize
    }
}

// Returns a bit for each of the first 16 places of two slices: 1 if they differ there.
#[inline(always)]
fn differences(a: &[u8], b: &[u8]) -> u64
    requires a { 16 ≤ length a.now }
    requires b { 16 ≤ length b.now }
    ensures { (k : ℕ) → k < 16
        → bit_at result k ≡ (if slice_index a.now k == slice_index b.now k then 0 else 1) }
{
    u8x16::from_slice(a)
        .simd_ne(u8x16::from_slice(b))
        .to_bitmask()
}

// Returns how many lines the run has with one more line, which goes on with it or begins one.
#[inline(always)]
fn count_after(shown: RunsShown, is_same: bool, count: u64) -> u64
    requires { count < 9 }
    ensures { result ≡ (if is_same then one_more shown count else 1) }
{
    if is_same { short_more(shown, count) } else { 1 }
}

// Returns how many lines a short run has with one more, as `Rules::one_more` does.
#[inline(always)]
fn short_more(shown: RunsShown, count: u64) -> u64
    requires { count < 9 }
    ensures { result ≡ one_more shown count }
{
    match shown {
        RunsShown::Counted => count + 1,
        RunsShown::Every | RunsShown::Repeated | RunsShown::Single => 2,
    }
}

// Returns the end of what was written: where it was, or that of a run.
#[inline(always)]
fn end_after(is_same: bool, to: usize, after: usize) -> usize
    ensures { result ≡ (if is_same then to else after) }
{
    if is_same { to } else { after }
}

// Writes what is written of a run of this many lines after the first `to` bytes, and returns its
// end. The first `len` bytes of `line` are the run's line, with its newline.
#[inline(always)]
fn put_short_run(
    shown: RunsShown,
    line: &[u8],
    len: usize,
    count: u64,
    few: &mut [u8],
    to: usize,
) -> usize
    requires line { 16 ≤ length line.now }
    requires ended { IsEnded (take len line.now) }
    requires len { len ≤ 16 }
    requires count { count ≤ 9 }
    requires room { (to ≤ 224) × (length few.old ≡ 256) }
    ensures made { take result few.new
        ≡ take to few.old ++ run_text shown (content (take len line.now)) count }
    ensures kept { take to few.new ≡ take to few.old }
    ensures few { result ≤ 256 }
    ensures long { length few.new ≡ length few.old }
{
    match shown {
        RunsShown::Every => copy_short(line, len, few, to),
        RunsShown::Counted => put_short_counted(line, len, count, few, to),
        RunsShown::Repeated => {
            let end = copy_short(line, len, few, to);
            if count >= 2 { end } else { to }
        }
        RunsShown::Single => {
            let end = copy_short(line, len, few, to);
            if count == 1 { end } else { to }
        }
    }
}

// Writes a number of one digit, a space and a line after the first `to` bytes, and returns their
// end.
#[inline(always)]
fn put_short_counted(line: &[u8], len: usize, count: u64, few: &mut [u8], to: usize) -> usize
    requires line { 16 ≤ length line.now }
    requires len { len ≤ 16 }
    requires count { count ≤ 9 }
    requires room { (to ≤ 224) × (length few.old ≡ 256) }
    ensures made { take result few.new
        ≡ take to few.old ++ (decimal count ++ space ∷ take len line.now) }
    ensures kept { take to few.new ≡ take to few.old }
    ensures few { result ≤ 256 }
    ensures long { length few.new ≡ length few.old }
{
    put_at(few, to, b'0' + count as u8);
    put_at(few, to + 1, b' ');
    copy_short(line, len, few, to + 2)
}

// Writes a byte at this place.
#[inline(always)]
fn put_at(few: &mut [u8], to: usize, byte: u8)
    requires { to < length few.old }
    ensures written { take (to + 1) few.new ≡ take to few.old ++ byte ∷ [] }
    ensures long { length few.new ≡ length few.old }
{
    few[to] = byte;
}

// Copies the first `len` bytes to this place, and returns the place after them.
#[inline(always)]
fn copy_short(bytes: &[u8], len: usize, few: &mut [u8], to: usize) -> usize
    requires bytes { 16 ≤ length bytes.now }
    requires len { len ≤ 16 }
    requires room { to + 16 ≤ length few.old }
    ensures end { result ≡ to + len }
    ensures copied { take result few.new ≡ take to few.old ++ take len bytes.now }
    ensures kept { take to few.new ≡ take to few.old }
    ensures long { length few.new ≡ length few.old }
{
    copy_sixteen(bytes, few, to);
    to + len
}

// Copies the first 16 bytes to this place.
#[inline(always)]
fn copy_sixteen(bytes: &[u8], few: &mut [u8], to: usize)
    requires bytes { 16 ≤ length bytes.now }
    requires room { to + 16 ≤ length few.old }
    ensures copied { take (to + 16) few.new ≡ take to few.old ++ take 16 bytes.now }
    ensures long { length few.new ≡ length few.old }
{
    u8x16::from_slice(bytes).copy_to_slice(&mut few[to..]);
}
