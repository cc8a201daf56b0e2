ghost use Rattle.std.specs.Prelude.{◌≡◌, ℕ, ◌<◌, ◌≤◌, length, nat_le, IfOk, MatchOption};
ghost use Rattle.std.specs.List.{All};
ghost use Rattle.graphs.specs.inner.Rows.{links_at};
ghost use Rattle.graphs.specs.inner.StripSteps.{AreWithin, IsStripped, left_of, IsOpen, AreMirrored, AreCounted};

use machine::NoMemory;
use std::alloc::Global;

// Whether at most `most` of these nodes have no mark.
fn is_bare(marks: &[bool], links: &[usize], most: usize) -> bool
    requires { All (λ t. t < length marks.now) links.now }
    ensures { result ≡ nat_le (left_of marks.now links.now) most }
{
    links.iter().filter(|t| !marks[**t]).count() <= most
}

// The lowest node from `from` on that has no mark and at most `most` links to nodes that have none.
fn next_bare(marks: &[bool], links: &[Vec<usize>], most: usize, from: usize) -> Option<usize>
    requires same { length links.now ≡ length marks.now }
    requires within { AreWithin (length marks.now) links.now }
    ensures { MatchOption result
        ((t : ℕ) → from ≤ t → IsOpen most (links_at links.now) marks.now t → ⊥)
        (λ k. IsOpen most (links_at links.now) marks.now k
        × ((t : ℕ) → from ≤ t → t < k → IsOpen most (links_at links.now) marks.now t → ⊥)) }
{
    for k in from..links.len() {
        if !marks[k] && is_bare(marks, links[k].as_slice(), most) {
            return Some(k);
        }
    }
    None
}

// The lowest of these numbers and `first`.
fn lowest(numbers: &[usize], first: usize) -> usize
    ensures own { result ≤ first }
    ensures each { All (λ t. result ≤ t) numbers.now }
{
    let mut low = first;
    for number in numbers {
        if *number < low {
            low = *number;
        }
    }
    low
}

// Takes nodes away, each time the lowest that has at most `most` links to nodes that are still there, until there is none.
// `back` has, for each node, at least those that have a link to it.
pub(crate) fn strip(
    alloc: Global,
    links: &[Vec<usize>],
    back: &[Vec<usize>],
    most: usize,
) -> Result<Vec<usize>, NoMemory>
    requires same { length back.now ≡ length links.now }
    requires within { AreWithin (length links.now) links.now }
    requires mirrored { AreMirrored (length links.now) (links_at links.now) (links_at back.now) }
    ensures { IfOk result
        (λ taken. IsStripped most (length links.now) (links_at links.now) taken.items
        × AreCounted (length links.now) taken.items) }
{
    let mut taken = Vec::new(alloc);
    let mut marks = vec![in alloc; false; links.len()]?;
    let mut from = 0;
    while let Some(k) = next_bare(marks.as_slice(), links, most, from) {
        taken.push(k)?;
        marks[k] = true;
        from = lowest(back[k].as_slice(), k);
    }
    Ok(taken)
}
