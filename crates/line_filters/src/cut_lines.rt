ghost use Rattle.std.specs.Prelude.{◌≡◌, ◌≢◌, ℕ, ◌+◌, ◌-◌, ◌≤◌, ◌==◌, false, List, [], ◌∷◌, ◌++◌, length, take, drop, if◌then◌else◌, MatchOption, IfOk, OnOk};
ghost use Rattle.std.specs.List.{All, flat_map};
ghost use Rattle.lanes.specs.inner.Prefixes.{prefix_bytes};
ghost use Rattle.lanes.specs.inner.Walks.{IsOneOfSeveral};
ghost use Rattle.machine.specs.Lines.{led, newline};
ghost use Rattle.line_filters.specs.ByLine.{Makes, MakesLines};
ghost use Rattle.commands.specs.Cut.{cut_content, cut_line};
ghost use Rattle.line_filters.specs.inner.Walked.{Walked};
ghost use Rattle.commands.specs.Selections.{is_selected, selected_from};
ghost use Rattle.line_filters.specs.CutLeft.{cut_input, cut_left};
ghost use Rattle.line_filters.specs.ShortLines.{bytes_left};

use crate::cut_content::{put_byte_content, put_bytes, put_whole, write_fields};
use crate::near_lines::{AHEAD, NEAR, put_near_lines};
use crate::ranges::Ranges;
use crate::short_lines::put_short_lines;
use commands::Parts;
use lanes::{Part, Prefix, Walk, Written};
use machine::{NoMemory, append, clear_and_shrink, line_content};

// How many lines have to end in 64 bytes for them to be cut byte by byte.
const SHORT_LINES: u32 = 5;

// More bytes than a line that is counted may have when more of it come.
const LONGEST: usize = 1 << 63;

// Appends what cut writes of these bytes, if `partial` or `passed` tells what of their first line
// was read before them, and keeps what tells the same of the next one.
pub(crate) fn put_lines(
    ranges: &Ranges,
    parts: Parts,
    partial: &mut Vec<u8>,
    passed: &mut usize,
    bytes: &[u8],
    made: &mut Written,
) -> Result<(), NoMemory>
    ensures lines { OnOk result
        (Makes (cut_left (is_selected ranges.now.ranges.items) parts partial.old.items passed.old)
        (cut_left (is_selected ranges.now.ranges.items) parts partial.new.items passed.new)
        bytes.now made.old made.new) }
    ensures counted { parts ≡ Parts.Bytes → partial.new.items ≡ partial.old.items }
{
    match parts {
        Parts::Bytes => put_byte_lines(ranges, passed, bytes, made),
        Parts::Fields {
            delimiter,
            only_delimited,
        } => put_field_lines(ranges, delimiter, only_delimited, partial, bytes, made),
    }
}

// The same with -b.
#[inline(never)]
fn put_byte_lines(
    ranges: &Ranges,
    passed: &mut usize,
    bytes: &[u8],
    made: &mut Written,
) -> Result<(), NoMemory>
    ensures { OnOk result
        (Makes (bytes_left (is_selected ranges.now.ranges.items) passed.old)
        (bytes_left (is_selected ranges.now.ranges.items) passed.new) bytes.now made.old made.new) }
{
    let mut ends = Walk::new(Prefix::whole(bytes), b'\n');
    let mut at = 0;
    while let Some(end) = ends.next_far() {
        let rest = Prefix::new(&bytes[at..], end - at);
        put_byte_line(ranges, passed, rest, made)?;
        at = end + 1;
        if let Some(last) = ends.pass_several(SHORT_LINES) {
            put_short_lines(ranges, &bytes[at..last + 1], made)?;
            at = last + 1;
        }
    }
    put_begun_bytes(ranges, passed, &bytes[at..], made)?;
    Ok(())
}

// Appends what cut -b writes of the rest of a line, after `passed` bytes of it.
#[inline(always)]
fn put_byte_line(
    ranges: &Ranges,
    passed: &mut usize,
    rest: Prefix,
    made: &mut Written,
) -> Result<(), NoMemory>
    ensures made { OnOk result
        (made.new
        ≡ made.old
        ++ (selected_from (is_selected ranges.now.ranges.items) (passed.old + 1)
        (prefix_bytes rest.entry) ++ newline ∷ [])) }
    ensures passed { OnOk result (passed.new ≡ 0) }
{
    if *passed == 0 {
        return put_byte_content(ranges, rest, made);
    }
    put_begun_bytes(ranges, passed, rest.bytes(), made)?;
    made.put_byte(b'\n')?;
    *passed = 0;
    Ok(())
}

// Appends the selected ones of these bytes of a line, which come after `passed` others.
#[inline(never)]
fn put_begun_bytes(
    ranges: &Ranges,
    passed: &mut usize,
    bytes: &[u8],
    made: &mut Written,
) -> Result<(), NoMemory>
    ensures made { OnOk result
        (made.new
        ≡ made.old
        ++ selected_from (is_selected ranges.now.ranges.items) (passed.old + 1) bytes.now) }
    ensures passed { OnOk result (passed.new ≡ passed.old + length bytes.now) }
{
    let before = *passed;
    if before >= LONGEST {
        return Err(NoMemory);
    }
    put_bytes(ranges, before, Prefix::whole(bytes), made)?;
    *passed = before + bytes.len();
    Ok(())
}

// put_lines with -f.
#[inline(never)]
fn put_field_lines(
    ranges: &Ranges,
    delimiter: u8,
    only_delimited: bool,
    partial: &mut Vec<u8>,
    bytes: &[u8],
    made: &mut Written,
) -> Result<(), NoMemory>
    ensures { OnOk result
        (MakesLines
        (cut_line (is_selected ranges.now.ranges.items) (Parts.Fields delimiter only_delimited))
        partial.old.items partial.new.items bytes.now made.old made.new) }
{
    let mut few = [0; 1024];
    let mut at = 0;
    while at < bytes.len() {
        at += put_if_near(
            ranges,
            delimiter,
            only_delimited,
            partial,
            &bytes[at..],
            &mut few,
            made,
        )?;
        at += put_far_lines(
            ranges,
            delimiter,
            only_delimited,
            partial,
            &bytes[at..],
            made,
        )?;
    }
    Ok(())
}

// Appends what cut -f writes of near lines, if no line is begun, and returns how many bytes they
// have.
#[inline(always)]
fn put_if_near(
    ranges: &Ranges,
    delimiter: u8,
    only_delimited: bool,
    partial: &[u8],
    bytes: &[u8],
    few: &mut [u8],
    made: &mut Written,
) -> Result<usize, NoMemory>
    requires room { length few.old ≡ 1024 }
    ensures lines { IfOk result
        (λ count. Walked
        (cut_line (is_selected ranges.now.ranges.items) (Parts.Fields delimiter only_delimited))
        partial.now partial.now bytes.now count made.old made.new) }
    ensures within { IfOk result (λ count. count ≤ length bytes.now) }
    ensures long { length few.new ≡ length few.old }
{
    if !partial.is_empty() {
        return Ok(0);
    }
    put_near_lines(ranges, delimiter, only_delimited, bytes, few, made)
}

// Appends what cut -f writes of all lines that end, or of those up to one after which a near line
// may come. Returns how many bytes they have.
#[inline(never)]
fn put_far_lines(
    ranges: &Ranges,
    delimiter: u8,
    only_delimited: bool,
    partial: &mut Vec<u8>,
    bytes: &[u8],
    made: &mut Written,
) -> Result<usize, NoMemory>
    ensures lines { IfOk result
        (λ count. Walked
        (cut_line (is_selected ranges.now.ranges.items) (Parts.Fields delimiter only_delimited))
        partial.old.items partial.new.items bytes.now count made.old made.new) }
    ensures within { IfOk result (λ count. count ≤ length bytes.now) }
    ensures some { IfOk result (λ count. length bytes.now ≢ 0 → count ≢ 0) }
{
    let mut ends = Walk::new(Prefix::whole(bytes), b'\n');
    let mut contents = lanes::Parts::new(bytes, delimiter);
    let mut at = 0;
    while let Some(end) = ends.next_line() {
        let rest = contents.part(at, end);
        let is_without = rest.is_without();
        put_field_line(ranges, only_delimited, partial, rest, made)?;
        let is_near = end - at < NEAR && !is_without;
        at = end + 1;
        if is_near && bytes.len() - at >= AHEAD {
            return Ok(at);
        }
        if let Some(last) = pass_without(is_without, &mut ends, &mut contents, at, bytes.len()) {
            put_lines_whole(
                only_delimited,
                Prefix::new(&bytes[at..], last + 1 - at),
                made,
            )?;
            at = last + 1;
        }
    }
    append(partial, &bytes[at..])?;
    Ok(bytes.len())
}

// Goes past several lines at once if the next 64 bytes have no delimiter, and returns the end of
// the last one. It does not look at them unless the line before them is without the delimiter.
#[inline(always)]
fn pass_without(
    is_without: bool,
    ends: &mut Walk,
    contents: &mut lanes::Parts,
    at: usize,
    len: usize,
) -> Option<usize>
    requires bytes { ends.old.bytes ≡ contents.old.bytes }
    requires len { length contents.old.bytes ≡ len }
    requires from { (ends.old.from ≡ at) × (at ≤ len) }
    ensures same { contents.new ≡ contents.old }
    ensures passed { MatchOption result (ends.new ≡ ends.old)
        (λ place. IsOneOfSeveral ends.old place × (ends.new ≡ record ends.old { from = place + 1 })
        × All (λ x. (x == contents.old.byte) ≡ false)
        (take (place + 1 - at) (drop at contents.old.bytes))) }
{
    if !is_without {
        return None;
    }
    let next = contents.part(at, at + (len - at).min(64));
    if !next.is_without() {
        return None;
    }
    ends.pass_several(SHORT_LINES)
}

// Appends lines without the delimiter, unless only delimited lines are written.
#[inline(always)]
fn put_lines_whole(only_delimited: bool, lines: Prefix, made: &mut Written) -> Result<(), NoMemory>
    ensures { OnOk result
        (made.new ≡ made.old ++ (if only_delimited then [] else prefix_bytes lines.entry)) }
{
    if only_delimited {
        return Ok(());
    }
    made.put_prefix(lines)
}

// Appends what cut -f writes of a line that `partial` begins and this ends.
#[inline(always)]
fn put_field_line(
    ranges: &Ranges,
    only_delimited: bool,
    partial: &mut Vec<u8>,
    rest: Part,
    made: &mut Written,
) -> Result<(), NoMemory>
    ensures made { OnOk result
        (made.new
        ≡ made.old
        ++ cut_content (is_selected ranges.now.ranges.items)
        (Parts.Fields rest.entry.byte only_delimited) (partial.old.items ++ rest.entry.bytes)) }
    ensures partial { OnOk result (partial.new.items ≡ []) }
{
    if partial.is_empty() {
        return put_content(ranges, only_delimited, rest, made);
    }
    put_begun_line(ranges, only_delimited, partial, rest, made)
}

// Appends what cut -f writes of the content of a line.
#[inline(always)]
fn put_content(
    ranges: &Ranges,
    only_delimited: bool,
    content: Part,
    made: &mut Written,
) -> Result<(), NoMemory>
    ensures { OnOk result
        (made.new
        ≡ made.old
        ++ cut_content (is_selected ranges.now.ranges.items)
        (Parts.Fields content.entry.byte only_delimited) content.entry.bytes) }
{
    if content.is_without() {
        put_whole(only_delimited, content.content(), made)?;
        return Ok(());
    }
    write_fields(ranges, only_delimited, content, made)
}

// Appends what cut -f writes of a line that `partial` begins and this ends, and empties `partial`.
#[inline(never)]
fn put_begun_line(
    ranges: &Ranges,
    only_delimited: bool,
    partial: &mut Vec<u8>,
    rest: Part,
    made: &mut Written,
) -> Result<(), NoMemory>
    ensures made { OnOk result
        (made.new
        ≡ made.old
        ++ cut_content (is_selected ranges.now.ranges.items)
        (Parts.Fields rest.entry.byte only_delimited) (partial.old.items ++ rest.entry.bytes)) }
    ensures partial { OnOk result (partial.new.items ≡ []) }
{
    append(partial, rest.content().bytes())?;
    let content = Part::new(Prefix::whole(partial), rest.byte());
    write_fields(ranges, only_delimited, content, made)?;
    clear_and_shrink(partial);
    Ok(())
}

// Appends what cut writes of an input's last line, if `partial` or `passed` tells that it is begun.
pub(crate) fn put_last(
    ranges: &Ranges,
    parts: Parts,
    partial: &mut Vec<u8>,
    passed: &mut usize,
    made: &mut Written,
) -> Result<(), NoMemory>
    ensures made { OnOk result
        (made.new
        ≡ made.old
        ++ cut_left (is_selected ranges.now.ranges.items) parts partial.old.items passed.old []) }
    ensures none { OnOk result
        ((xs : List ℕ)
        → cut_left (is_selected ranges.now.ranges.items) parts partial.new.items passed.new xs
        ≡ cut_input (is_selected ranges.now.ranges.items) parts xs) }
    ensures counted { parts ≡ Parts.Bytes → partial.new.items ≡ partial.old.items }
{
    match parts {
        Parts::Bytes => put_last_newline(passed, made),
        Parts::Fields {
            delimiter,
            only_delimited,
        } => put_last_line(ranges, delimiter, only_delimited, partial, made),
    }
}

// Appends the newline of a line that is begun.
fn put_last_newline(passed: &mut usize, made: &mut Written) -> Result<(), NoMemory>
    ensures made { OnOk result
        (made.new ≡ made.old ++ (if passed.old == 0 then [] else newline ∷ [])) }
    ensures passed { OnOk result (passed.new ≡ 0) }
{
    if *passed > 0 {
        made.put_byte(b'\n')?;
        *passed = 0;
    }
    Ok(())
}

// Appends what cut -f writes of an input's last line, if `partial` is its beginning.
fn put_last_line(
    ranges: &Ranges,
    delimiter: u8,
    only_delimited: bool,
    partial: &mut Vec<u8>,
    made: &mut Written,
) -> Result<(), NoMemory>
    ensures made { OnOk result
        (made.new
        ≡ made.old
        ++ flat_map
        (cut_line (is_selected ranges.now.ranges.items) (Parts.Fields delimiter only_delimited))
        (led partial.old.items [])) }
    ensures partial { OnOk result (partial.new.items ≡ []) }
{
    if partial.is_empty() {
        return Ok(());
    }
    let content = Part::new(Prefix::whole(line_content(partial)), delimiter);
    write_fields(ranges, only_delimited, content, made)?;
    clear_and_shrink(partial);
    Ok(())
}
