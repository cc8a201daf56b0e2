ghost use Rattle.std.specs.Prelude.{◌≡◌, [], ◌∷◌, ◌+◌, ◌++◌, ◌<◌, ◌≤◌, drop, length, IfOk};
ghost use Rattle.std.specs.List.{position_or_len};
ghost use Rattle.command_words.specs.inner.Refusals.{MeetsWords};
ghost use Rattle.commands.specs.Lists.{element, is_separator, range_between, range_of, ranges_in};

use crate::range::Range;
use command_words::{ArgFault, BadWords, Sequence, Span, Word, read_number};
use machine::{NoMemory, find_from};
use std::alloc::Global;

// The ranges of a list.
pub(crate) fn read_ranges(alloc: Global, list: &Word) -> Result<Sequence<Range>, BadWords>
    ensures { MeetsWords result (ranges_in list.now) }
{
    let mut ranges = Vec::new(alloc);
    let mut rest = list.bytes();
    loop {
        let end = element_end(rest);
        let Some(range) = read_element(&rest[..end]) else {
            return Err(BadWords::at(ArgFault::BadList, place_of(list, rest, end)));
        };
        add(&mut ranges, range)?;
        if end >= rest.len() {
            return Ok(Sequence::from_vec(ranges));
        }
        rest = after(rest, end);
    }
}

// The place of the first element of what is left of a list, which ends at `end` there: with the separator next to it if it is empty.
fn place_of(list: &Word, left: &[u8], end: usize) -> Option<Span> {
    let start = list.bytes().len().saturating_sub(left.len());
    if end > 0 {
        return list.part(start, start.saturating_add(end));
    }
    match start.checked_sub(1) {
        Some(before) => list.part(before, start),
        None => list.part(0, 1),
    }
}

// Adds a range.
fn add(ranges: &mut Vec<Range>, range: Range) -> Result<(), NoMemory>
    ensures { IfOk result (λ _. ranges.new.items ≡ ranges.old.items ++ range ∷ []) }
{
    ranges.push(range)?;
    Ok(())
}

// What follows the separator at `end`.
fn after(list: &[u8], end: usize) -> &[u8]
    requires { end < length list.now }
    ensures { result.now ≡ drop (end + 1) list.now }
{
    &list[end + 1..]
}

// The end of the first element.
fn element_end(list: &[u8]) -> usize
    ensures end { result ≡ position_or_len is_separator list.now }
    ensures within { result ≤ length list.now }
{
    for i in 0..list.len() {
        if is_separator(list[i]) {
            return i;
        }
    }
    list.len()
}

// Whether a byte separates two elements.
fn is_separator(byte: u8) -> bool
    ensures { result ≡ is_separator byte }
{
    byte == b',' || byte == b' ' || byte == b'\t'
}

// The range of an element.
fn read_element(part: &[u8]) -> Option<Range>
    ensures { result ≡ element part.now }
{
    match find_from(part, 0, b'-') {
        Some(at) => read_between(&part[..at], &part[at + 1..]),
        None => {
            let number = read_number(part)? as usize;
            checked(number, Some(number))
        }
    }
}

// The range of what comes before a dash and after it.
fn read_between(low: &[u8], high: &[u8]) -> Option<Range>
    ensures { result ≡ range_between low.now high.now }
{
    if low.is_empty() && high.is_empty() {
        return None;
    }
    if low.is_empty() {
        return checked(1, Some(read_number(high)? as usize));
    }
    let first = read_number(low)? as usize;
    if high.is_empty() {
        return checked(first, None);
    }
    checked(first, Some(read_number(high)? as usize))
}

// The range, if its first number is at least 1 and not above its last one.
fn checked(first: usize, last: Option<usize>) -> Option<Range>
    ensures { result ≡ range_of first last }
{
    let is_reversed = match last {
        None => false,
        Some(last) => last < first,
    };
    if first == 0 || is_reversed {
        return None;
    }
    Some(Range { first, last })
}
