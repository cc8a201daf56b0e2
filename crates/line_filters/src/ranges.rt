ghost use Rattle.std.specs.Prelude.{◌≡◌, ℕ, ◌+◌, ◌<◌, ◌≤◌, false, length, slice_index_or, IfSome, MatchOption, IfOk, not};
ghost use Rattle.std.specs.List.Sorted.{IsNonDecreasingBy};
ghost use Rattle.commands.specs.Selections.{is_in, is_selected};
ghost use Rattle.line_filters.specs.inner.Steps.{Follows, Follows-prop};

use crate::steps::{Step, steps_of};
use commands::Range;
use machine::NoMemory;
use std::alloc::Global;

// Ranges in the order of their first numbers.
#[derive(Drop)]
pub(crate) struct Ranges {
    ranges: Vec<Range>,
    // Which of the numbers from 1 to 64 are selected.
    pub(crate) low: [bool; 64],
    // What they select, as steps over the numbers.
    pub(crate) steps: Vec<Step>,
    ghost rising: { IsNonDecreasingBy (λ range. range.first) ranges.items },
    ghost lows: { (k : ℕ) → k < 64
        → slice_index_or low k false ≡ is_selected ranges.items (k + 1) },
    ghost follows: { Follows (is_selected ranges.items) 1 steps.items } by { Follows-prop (is_selected ranges.items) 1 steps.items },
}

impl Ranges {
    ghost use Rattle.std.specs.Prelude.{[], ◌∷◌, ◌++◌};
    ghost use Rattle.commands.specs.Selections.{is_up_to};
    ghost use Rattle.line_filters.specs.inner.Ranges.{IsAllOf, IsNextRange, IsNoneFrom, IsPassed, is_covered};

    // These ranges, put in order.
    pub(crate) fn new(alloc: Global, ranges: &[Range]) -> Result<Ranges, NoMemory>
        ensures { IfOk result
            (λ all. (n : ℕ) → is_selected all.ranges.items n ≡ is_selected ranges.now n) }
    {
        let mut sorted = Vec::from_slice(alloc, ranges)?;
        sorted.sort_by_key(|range| range.first)?;
        let ranges = Ranges::that_add(alloc, sorted.as_slice())?;
        let low = Ranges::low_numbers(ranges.as_slice());
        let steps = steps_of(alloc, ranges.as_slice())?;
        Ok(Ranges { ranges, low, steps })
    }

    // Returns for each number from 1 to 64 whether it is selected.
    fn low_numbers(ranges: &[Range]) -> [bool; 64]
        ensures { (k : ℕ) → k < 64
            → slice_index_or result k false ≡ is_selected ranges.now (k + 1) }
    {
        let mut low = [false; 64];
        let mut at = 0;
        while at < 64 {
            low[at] = Ranges::is_selected(ranges, at + 1);
            at += 1;
        }
        low
    }

    // Returns whether a number is in at least one of the ranges.
    fn is_selected(ranges: &[Range], n: usize) -> bool
        ensures { result ≡ is_selected ranges.now n }
    {
        for range in ranges {
            if Ranges::is_in(*range, n) {
                return true;
            }
        }
        false
    }

    // Returns whether a number is in a range.
    fn is_in(range: Range, n: usize) -> bool
        ensures { result ≡ is_in range n }
    {
        range.first <= n && !Ranges::ends_before(range.last, n)
    }

    // The ranges that go further than those before them. All others select nothing more.
    fn that_add(alloc: Global, sorted: &[Range]) -> Result<Vec<Range>, NoMemory>
        requires { IsNonDecreasingBy (λ range. range.first) sorted.now }
        ensures { IfOk result (λ kept. IsAllOf sorted.now kept.items) }
    {
        let mut kept = Vec::new(alloc);
        let mut top = None;
        for range in sorted {
            if Ranges::is_covered(top, *range) {
                continue;
            }
            Ranges::add(&mut kept, *range)?;
            top = Some(*range);
        }
        Ok(kept)
    }

    // Whether a range goes no further than this one, if there is one.
    fn is_covered(top: Option<Range>, range: Range) -> bool
        ensures { result ≡ is_covered top range }
    {
        let Some(top) = top else {
            return false;
        };
        match (top.last, range.last) {
            (None, _) => true,
            (Some(_), None) => false,
            (Some(top), Some(last)) => last <= top,
        }
    }

    // Adds a range.
    pub(crate) fn add(ranges: &mut Vec<Range>, range: Range) -> Result<(), NoMemory>
        ensures { IfOk result (λ _. ranges.new.items ≡ ranges.old.items ++ range ∷ []) }
    {
        ranges.push(range)?;
        Ok(())
    }

    // The next selected numbers from `n` on. `passed` is how many ranges end before `n`. The range
    // after those ends at the end of the returned one.
    #[inline(always)]
    pub(crate) fn next_range(&self, passed: &mut usize, n: usize) -> Option<Range>
        requires { IsPassed self.now.ranges.items passed.old n }
        ensures passed { IsPassed self.now.ranges.items passed.new n }
        ensures range { MatchOption result (IsNoneFrom (is_selected self.now.ranges.items) n)
            (IsNextRange (is_selected self.now.ranges.items) n) }
        ensures ended { IfSome result (λ range. (m : ℕ) → n ≤ m → is_up_to range.last m ≡ false
            → IsPassed self.now.ranges.items (passed.new + 1) m) }
        ensures few { IfSome result (λ _. passed.new < length self.now.ranges.items) }
    {
        while *passed < self.ranges.len() {
            let range = self.ranges[*passed];
            let first = range.first.max(n);
            if !Ranges::ends_before(range.last, first) {
                return Some(Range {
                    first,
                    last: range.last,
                });
            }
            *passed += 1;
        }
        None
    }

    // Whether numbers that have this last one, or none, end before `n`.
    #[inline(always)]
    pub(crate) fn ends_before(last: Option<usize>, n: usize) -> bool
        ensures { result ≡ not (is_up_to last n) }
    {
        match last {
            None => false,
            Some(last) => last < n,
        }
    }
}
