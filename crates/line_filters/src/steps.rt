ghost use Rattle.std.specs.Prelude.{◌≡◌, ℕ, ◌<◌, ◌≤◌, ◌^◌, ◌++◌, ◌∷◌, [], true, false, IfOk, MatchOption};
ghost use Rattle.std.specs.List.Sorted.{IsNonDecreasingBy};
ghost use Rattle.commands.specs.Selections.{is_selected, is_up_to};
ghost use Rattle.line_filters.specs.inner.Steps.{Follows};

use commands::Range;
use machine::NoMemory;
use std::alloc::Global;

// How many numbers are passed, and how many after them are taken: all, if there is no count.
#[derive(Clone, Copy)]
pub(crate) struct Step {
    pub(crate) skip: usize,
    pub(crate) take: Option<usize>,
}

// The steps from number 1 on that take what these ranges select.
pub(crate) fn steps_of(alloc: Global, ranges: &[Range]) -> Result<Vec<Step>, NoMemory>
    requires { IsNonDecreasingBy (λ range. range.first) ranges.now }
    ensures { IfOk result (λ steps. Follows (is_selected ranges.now) 1 steps.items) }
{
    let mut steps = Vec::new(alloc);
    let mut number = 1;
    for range in ranges {
        let first = range.first.max(number);
        let Some(end) = end_of(*range) else {
            let skip = first - number;
            add(&mut steps, Step { skip, take: None })?;
            return Ok(steps);
        };
        if end <= first {
            continue;
        }
        let skip = first - number;
        let take = Some(end - first);
        add(&mut steps, Step { skip, take })?;
        number = end;
    }
    Ok(steps)
}

// Returns the number after a range, or None if there is none.
fn end_of(range: Range) -> Option<usize>
    ensures { MatchOption result
        ((k : ℕ) → k < 2 ^ 64 → is_up_to range.last k ≡ true)
        (λ end. ((k : ℕ) → k < end → is_up_to range.last k ≡ true)
        × ((k : ℕ) → end ≤ k → is_up_to range.last k ≡ false)) }
{
    match range.last {
        None => None,
        Some(last) => last.checked_add(1),
    }
}

// Adds a step.
fn add(steps: &mut Vec<Step>, step: Step) -> Result<(), NoMemory>
    ensures { IfOk result (λ _. steps.new.items ≡ steps.old.items ++ step ∷ []) }
{
    steps.push(step)?;
    Ok(())
}
