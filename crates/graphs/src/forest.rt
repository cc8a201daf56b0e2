ghost use Rattle.std.specs.Prelude.{◌≡◌, ◌<◌, ◌++◌, ◌↔◌, length, IfOk, IsTrue};
ghost use Rattle.std.specs.List.{All};
ghost use Rattle.graphs.specs.Graph.{Graph, IsForest};
ghost use Rattle.graphs.specs.inner.Rows.{flipped};

use crate::stripping::strip;
use crate::table::{flip, table_of};
use machine::NoMemory;
use std::alloc::Global;

// The pairs, and then the pairs the other way round.
fn both_ways(alloc: Global, pipes: &[(usize, usize)]) -> Result<Vec<(usize, usize)>, NoMemory>
    ensures { IfOk result (λ ends. ends.items ≡ pipes.now ++ flipped pipes.now) }
{
    let other = flip(alloc, pipes)?;
    let mut ends = Vec::from_slice(alloc, pipes)?;
    ends.extend_from_slice(other.as_slice())?;
    Ok(ends)
}

// The nodes, one after another, each with at most one pipe to those that are still there; all of
// them if they are a forest.
fn peeled(alloc: Global, count: usize, pipes: &[(usize, usize)]) -> Result<Vec<usize>, NoMemory>
    requires { All (λ e. (e.0 < e.1) × (e.1 < count)) pipes.now }
    ensures { (g : Graph) → length g.nodes ≡ count → g.pipes ≡ pipes.now
        → IfOk result (λ taken. (length taken.items ≡ count) ↔ IsForest g) }
{
    let ends = both_ways(alloc, pipes)?;
    let links = table_of(alloc, count, ends.as_slice())?;
    strip(alloc, links.as_slice(), links.as_slice(), 1)
}

/// Whether `count` nodes, which pipes join, can be ordered so that each has at most one pipe to
/// later ones.
pub fn is_forest(alloc: Global, count: usize, pipes: &[(usize, usize)]) -> Result<bool, NoMemory>
    requires { All (λ e. (e.0 < e.1) × (e.1 < count)) pipes.now }
    ensures { (g : Graph) → length g.nodes ≡ count → g.pipes ≡ pipes.now
        → IfOk result (λ yes. IsTrue yes ↔ IsForest g) }
{
    let taken = peeled(alloc, count, pipes)?;
    Ok(taken.len() == count)
}
