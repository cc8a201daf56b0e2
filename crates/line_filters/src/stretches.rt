// The fields of a long content, which are put together in the memory that it has.
ghost use Rattle.std.specs.Prelude.{◌≡◌, ◌+◌, ◌-◌, ◌≤◌, false, [], ◌∷◌, ◌++◌, length, take, drop, OnOk, if◌then◌else◌};
ghost use Rattle.std.specs.List.{join_with_byte};
ghost use Rattle.commands.specs.Cut.{fields as fields_of};
ghost use Rattle.commands.specs.Selections.{is_selected, selected};
ghost use Rattle.lanes.specs.inner.Prefixes.{prefix_bytes};
ghost use Rattle.line_filters.specs.inner.Stretches.{kept_of, reach_of};

use crate::fields::{field_start, range_end};
use crate::ranges::Ranges;
use lanes::{Prefix, Walk};
use machine::NoMemory;
use std::collections::VecDeque;

// Bytes that are kept of a content: how many are skipped before them, and how many they are.
#[derive(Clone, Copy)]
pub(crate) struct Stretch {
    skip: usize,
    len: usize,
}

// Removes all but the selected fields, joined by the delimiter.
pub(crate) fn keep_fields(
    ranges: &Ranges,
    delimiter: u8,
    content: &mut Vec<u8>,
) -> Result<(), NoMemory>
    ensures { OnOk result
        (content.new.items
        ≡ join_with_byte delimiter
        (selected (is_selected ranges.now.ranges.items) (fields_of delimiter content.old.items))) }
{
    let mut stretches = VecDeque::new(*content.allocator());
    let whole = Prefix::whole(content);
    let mut walk = Walk::new(whole, delimiter);
    find_fields(ranges, delimiter, whole, &mut walk, &mut stretches)?;
    keep(content, &mut stretches);
    Ok(())
}

// Finds the stretches of the selected fields. Each has the delimiter before it, unless it is the first.
fn find_fields(
    ranges: &Ranges,
    delimiter: u8,
    content: Prefix,
    walk: &mut Walk,
    stretches: &mut VecDeque<Stretch>,
) -> Result<(), NoMemory>
    requires walk { walk.old ≡ record { bytes = prefix_bytes content; byte = delimiter; from = 0 } }
    requires none { stretches.old.items ≡ [] }
    ensures fields { OnOk result
        (kept_of stretches.new.items (prefix_bytes content.entry)
        ≡ join_with_byte delimiter
        (selected (is_selected ranges.now.ranges.items)
        (fields_of delimiter (prefix_bytes content.entry)))) }
    ensures within { OnOk result
        (reach_of stretches.new.items ≤ length (prefix_bytes content.entry)) }
{
    let mut passed = 0;
    let mut at = 0;
    let mut number = 1;
    let mut first = true;
    while let Some(range) = ranges.next_range(&mut passed, number) {
        let Some(start) = field_start(walk, range.first - number) else {
            return Ok(());
        };
        let Some((end, next)) = range_end(range, walk) else {
            add_stretch(stretches, first, at, start, content.len())?;
            return Ok(());
        };
        add_stretch(stretches, first, at, start, end)?;
        first = false;
        at = end + 1;
        number = next;
        passed += 1;
    }
    Ok(())
}

// Adds the fields from `start` up to `end`, with the delimiter before them unless they are the
// first. The field at `at` comes after the last stretch.
fn add_stretch(
    stretches: &mut VecDeque<Stretch>,
    first: bool,
    at: usize,
    start: usize,
    end: usize,
) -> Result<(), NoMemory>
    requires led { first ≡ false → 1 ≤ start }
    requires after { at ≤ start }
    requires order { start ≤ end }
    ensures { OnOk result
        (stretches.new.items
        ≡ stretches.old.items
        ++ record { skip = start - at; len = end - (if first then start else start - 1) } ∷ []) }
{
    let lead = if first { start } else { start - 1 };
    stretches.push_back(Stretch {
        skip: start - at,
        len: end - lead,
    })?;
    Ok(())
}

// Removes all but these stretches.
fn keep(content: &mut Vec<u8>, stretches: &mut VecDeque<Stretch>)
    requires { reach_of stretches.old.items ≤ length content.old.items }
    ensures { content.new.items ≡ kept_of stretches.old.items content.old.items }
{
    let mut kept = 0;
    let mut at = 0;
    while let Some(stretch) = stretches.pop_front() {
        let from = at + stretch.skip;
        let end = from + stretch.len;
        move_back(content, kept, from, end);
        kept += stretch.len;
        at = end;
    }
    content.truncate(kept);
}

// Moves the bytes from `from` up to `end` to this place before them.
fn move_back(content: &mut Vec<u8>, to: usize, from: usize, end: usize)
    requires order { (to ≤ from) × (from ≤ end) }
    requires within { end ≤ length content.old.items }
    ensures moved { take (to + (end - from)) content.new.items
        ≡ take to content.old.items ++ take (end - from) (drop from content.old.items) }
    ensures rest { drop end content.new.items ≡ drop end content.old.items }
    ensures long { length content.new.items ≡ length content.old.items }
{
    content.copy_within(from..end, to);
}
