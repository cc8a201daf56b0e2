ghost use Rattle.std.specs.Prelude.{◌≡◌, ℕ, ◌+◌, ◌-◌, ◌<◌, ◌≤◌, ◌^◌, false, [], ◌∷◌, ◌++◌, length, take, drop, nat_le, OnOk, if◌then◌else◌};
ghost use Rattle.std.specs.List.{join_with_byte};
ghost use Rattle.commands.specs.Cut.{cut_content, fields as fields_of};
ghost use Rattle.lanes.specs.inner.Prefixes.{prefix_bytes};
ghost use Rattle.machine.specs.Lines.{newline};
ghost use Rattle.commands.specs.declared.cut_words.Parts.{Parts};
ghost use Rattle.commands.specs.Selections.{is_selected, is_up_to, selected, selected_from};

use crate::fields::{field_start, range_end};
use crate::ranges::Ranges;
use lanes::{Part, Prefix, Walk, Written};
use machine::NoMemory;

// Appends what cut -b writes of the content of a line.
#[inline(always)]
pub(crate) fn put_byte_content(
    ranges: &Ranges,
    content: Prefix,
    made: &mut Written,
) -> Result<(), NoMemory>
    ensures { OnOk result
        (made.new
        ≡ made.old
        ++ cut_content (is_selected ranges.now.ranges.items) Parts.Bytes
        (prefix_bytes content.entry)) }
{
    put_bytes(ranges, 0, content, made)?;
    made.put_byte(b'\n')?;
    Ok(())
}

// The same with -f. The byte that is sought in the content is the delimiter.
#[inline(never)]
pub(crate) fn write_fields(
    ranges: &Ranges,
    only_delimited: bool,
    content: Part,
    made: &mut Written,
) -> Result<(), NoMemory>
    ensures { OnOk result
        (made.new
        ≡ made.old
        ++ cut_content (is_selected ranges.now.ranges.items)
        (Parts.Fields content.entry.byte only_delimited) content.entry.bytes) }
{
    let bytes = content.content();
    let mut walk = content.walk();
    match walk.peek() {
        Some(_) => {
            put_fields(ranges, content.byte(), bytes, &mut walk, made)?;
            made.put_byte(b'\n')?;
            Ok(())
        }
        None => {
            put_whole(only_delimited, bytes, made)?;
            Ok(())
        }
    }
}

// Appends a content without the delimiter, and a newline, unless only delimited lines are written.
#[inline(always)]
pub(crate) fn put_whole(
    only_delimited: bool,
    content: Prefix,
    made: &mut Written,
) -> Result<(), NoMemory>
    ensures { OnOk result
        (made.new
        ≡ made.old
        ++ (if only_delimited then [] else prefix_bytes content.entry ++ newline ∷ [])) }
{
    if only_delimited {
        return Ok(());
    }
    made.put_prefix(content)?;
    made.put_byte(b'\n')?;
    Ok(())
}

// Appends the selected bytes, if `before` bytes of the line came before them.
#[inline(always)]
pub(crate) fn put_bytes(
    ranges: &Ranges,
    before: usize,
    content: Prefix,
    made: &mut Written,
) -> Result<(), NoMemory>
    requires { before < 2 ^ 63 }
    ensures { OnOk result
        (made.new
        ≡ made.old
        ++ selected_from (is_selected ranges.now.ranges.items) (before + 1)
        (prefix_bytes content.entry)) }
{
    let mut passed = 0;
    let mut at = 0;
    while let Some(range) = ranges.next_range(&mut passed, before + at + 1) {
        let first = range.first - before;
        if content.len() < first {
            return Ok(());
        }
        let end = end_within(range.last, before, content.len());
        made.put_prefix(content.part(first - 1, end))?;
        at = end;
        passed += usize::from(Ranges::ends_before(range.last, before + end + 1));
    }
    Ok(())
}

// Appends the selected fields, joined by the delimiter.
#[inline(always)]
fn put_fields(
    ranges: &Ranges,
    delimiter: u8,
    content: Prefix,
    walk: &mut Walk,
    made: &mut Written,
) -> Result<(), NoMemory>
    requires { walk.old ≡ record { bytes = prefix_bytes content; byte = delimiter; from = 0 } }
    ensures { OnOk result
        (made.new
        ≡ made.old
        ++ join_with_byte delimiter
        (selected (is_selected ranges.now.ranges.items)
        (fields_of delimiter (prefix_bytes content.entry)))) }
{
    let mut passed = 0;
    let mut at = 0;
    let mut number = 1;
    let mut first = true;
    while let Some(range) = ranges.next_range(&mut passed, number) {
        let Some(start) = field_start(walk, range.first - number) else {
            return Ok(());
        };
        let Some((end, next)) = range_end(range, walk) else {
            put_range(content, first, start, content.len(), made)?;
            return Ok(());
        };
        put_range(content, first, start, end, made)?;
        first = false;
        at = end + 1;
        number = next;
        passed += 1;
    }
    Ok(())
}

// Appends the fields from `start` up to `end`, with the delimiter before them unless they are the first.
#[inline(always)]
fn put_range(
    content: Prefix,
    first: bool,
    start: usize,
    end: usize,
    made: &mut Written,
) -> Result<(), NoMemory>
    requires led { first ≡ false → 1 ≤ start }
    requires order { start ≤ end }
    requires within { end ≤ length (prefix_bytes content) }
    ensures { OnOk result
        (made.new
        ≡ made.old
        ++ take (end - (if first then start else start - 1))
        (drop (if first then start else start - 1) (prefix_bytes content.entry))) }
{
    let lead = if first { start } else { start - 1 };
    made.put_prefix(content.part(lead, end))
}

// Returns how many bytes there are up to the last of these numbers, if `before` bytes came before
// them, or the length if that is less.
#[inline(always)]
fn end_within(last: Option<usize>, before: usize, length: usize) -> usize
    ensures within { result ≤ length }
    ensures same { (k : ℕ) → 1 ≤ k → k ≤ length → is_up_to last (before + k) ≡ nat_le k result }
{
    match last {
        Some(last) => last.saturating_sub(before).min(length),
        None => length,
    }
}
