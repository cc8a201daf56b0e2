ghost use Rattle.std.specs.Prelude.{◌≡◌, ◌+◌, ◌<◌, ◌≤◌, true, length, drop, MatchOption};
ghost use Rattle.commands.specs.Cut.{fields};
ghost use Rattle.line_filters.specs.inner.FieldPlaces.{FieldsUpTo, FieldsBefore, FieldsOf, AllFieldsOf, IsWalkedTo};
ghost use Rattle.commands.specs.Selections.{is_in};

use commands::Range;
use lanes::Walk;

// Returns the delimiter that ends the last of `count` fields, if it has one, and goes past it.
#[inline(always)]
pub(crate) fn fields_end(walk: &mut Walk, count: usize) -> Option<usize>
    requires within { walk.old.from ≤ length walk.old.bytes }
    requires some { 1 ≤ count }
    ensures { MatchOption result
        (length (fields walk.old.byte (drop walk.old.from walk.old.bytes)) ≤ count)
        (λ end. FieldsUpTo walk.old.byte count walk.old.bytes walk.old.from end
        × IsWalkedTo (end + 1) walk.old walk.new) }
{
    walk.nth(count)
}

// Returns the beginning of the field after `count` fields, if there is one, and goes to it.
#[inline(always)]
pub(crate) fn field_start(walk: &mut Walk, count: usize) -> Option<usize>
    requires within { walk.old.from ≤ length walk.old.bytes }
    ensures { MatchOption result
        (length (fields walk.old.byte (drop walk.old.from walk.old.bytes)) ≤ count)
        (λ start. FieldsBefore walk.old.byte count walk.old.bytes walk.old.from start
        × IsWalkedTo start walk.old walk.new) }
{
    if count == 0 {
        return Some(walk.from());
    }
    match fields_end(walk, count) {
        None => None,
        Some(_) => Some(walk.from()),
    }
}

// Returns the end of the fields of a range and the number of the field after it, and goes past
// them. The next field is the first of the range. Returns None if they go on to the end.
#[inline(always)]
pub(crate) fn range_end(range: Range, walk: &mut Walk) -> Option<(usize, usize)>
    requires within { walk.old.from ≤ length walk.old.bytes }
    requires short { length walk.old.bytes < 9223372036854775808 }
    requires numbered { 1 ≤ range.first }
    requires few { range.first ≤ walk.old.from + 1 }
    requires some { is_in range range.first ≡ true }
    ensures { MatchOption result (AllFieldsOf range walk.old.byte walk.old.bytes walk.old.from)
        (λ place. FieldsOf range walk.old.byte walk.old.bytes walk.old.from place.0 place.1
        × IsWalkedTo (place.0 + 1) walk.old walk.new) }
{
    match range.last {
        None => None,
        Some(last) => match fields_end(walk, last - range.first + 1) {
            None => None,
            Some(end) => Some((end, last + 1)),
        },
    }
}
