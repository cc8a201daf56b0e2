ghost use Rattle.std.specs.Prelude.{◌≡◌, ℕ, suc, ◌≤◌, ◌++◌, Bool, ◌||◌, length, take, OnOk, if◌then◌else◌};
ghost use Rattle.commands.specs.Selections.{is_selected};
ghost use Rattle.line_filters.specs.ShortLines.{bytes_of_lines};

use crate::ranges::Ranges;
use lanes::{Prefix, Written};
use machine::NoMemory;

// Appends what cut -b writes of a few short lines.
#[inline(never)]
pub(crate) fn put_short_lines(
    ranges: &Ranges,
    lines: &[u8],
    made: &mut Written,
) -> Result<(), NoMemory>
    requires { length lines.now ≤ 64 }
    ensures { OnOk result
        (made.new ≡ made.old ++ bytes_of_lines (is_selected ranges.now.ranges.items) 0 lines.now) }
{
    let mut few = [0; 64];
    let count = pick(ranges, lines, &mut few);
    made.put_prefix(Prefix::new(&few, count))
}

// Copies what cut -b writes of a few short lines to the front of `few`, and returns its length.
#[inline(always)]
fn pick(ranges: &Ranges, lines: &[u8], few: &mut [u8]) -> usize
    requires short { length lines.now ≤ 64 }
    requires room { length few.old ≡ 64 }
    ensures picked { take result few.new
        ≡ bytes_of_lines (is_selected ranges.now.ranges.items) 0 lines.now }
    ensures within { result ≤ length few.new }
{
    let mut passed = 0;
    let mut made = 0;
    for byte in lines {
        let is_end = *byte == b'\n';
        few[made] = *byte;
        made += count_of(is_end, ranges.low[passed]);
        passed = passed_after(is_end, passed);
    }
    made
}

// Returns 1 if a byte is written: it is a newline, or selected.
#[inline(always)]
fn count_of(is_end: bool, is_selected: bool) -> usize
    ensures { result ≡ (if is_end || is_selected then 1 else 0) }
{
    usize::from(is_end | is_selected)
}

// Returns how many bytes of a line were passed after one more, if it does not end the line.
#[inline(always)]
fn passed_after(is_end: bool, passed: usize) -> usize
    requires { passed ≤ 64 }
    ensures { result ≡ (if is_end then 0 else suc passed) }
{
    if is_end { 0 } else { passed + 1 }
}
