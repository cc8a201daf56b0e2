ghost use Rattle.std.specs.Prelude.{◌≡◌, ℕ, ◌<◌, length, List, [], IfOk};
ghost use Rattle.std.specs.List.{All};
ghost use Rattle.graphs.specs.inner.Rows.{links_at, row, flipped};

use machine::NoMemory;
use std::alloc::Global;

// Empty lists, `count` of them.
fn empty_rows(alloc: Global, count: usize) -> Result<Vec<Vec<usize>>, NoMemory>
    ensures count { IfOk result (λ rows. length rows.items ≡ count) }
    ensures empty { IfOk result (λ rows. (k : ℕ) → links_at rows.items k ≡ []) }
{
    let mut rows = Vec::new(alloc);
    for _ in 0..count {
        rows.push(Vec::new(alloc))?;
    }
    Ok(rows)
}

// For each number below `count` the second of each pair whose first it is.
pub(crate) fn table_of(
    alloc: Global,
    count: usize,
    ends: &[(usize, usize)],
) -> Result<Vec<Vec<usize>>, NoMemory>
    requires { All (λ e. e.0 < count) ends.now }
    ensures count { IfOk result (λ rows. length rows.items ≡ count) }
    ensures rows { IfOk result (λ rows. (k : ℕ) → links_at rows.items k ≡ row ends.now k) }
{
    let mut rows = empty_rows(alloc, count)?;
    for (from, to) in ends {
        rows[*from].push(*to)?;
    }
    Ok(rows)
}

// The pairs the other way round.
pub(crate) fn flip(alloc: Global, ends: &[(usize, usize)]) -> Result<Vec<(usize, usize)>, NoMemory>
    ensures { IfOk result (λ other. other.items ≡ flipped ends.now) }
{
    Ok(ends.iter().map(|e| (e.1, e.0)).collect(alloc)?)
}
