ghost use Rattle.std.specs.Prelude.{◌≡◌, ◌≢◌, ◌<◌, length, nat_lt, IfOk, MatchOption};
ghost use Rattle.std.specs.List.{All, list_all, range_with_len};
ghost use Rattle.graphs.specs.Orders.{IsPlannedOrder, HasNoOrder};

use crate::stripping::strip;
use crate::table::{flip, table_of};
use machine::NoMemory;
use std::alloc::Global;

// The things, one after another, each the lowest whose writers all were taken before; all of them, or there is no order.
fn taken_in_order(
    alloc: Global,
    count: usize,
    pipes: &[(usize, usize)],
) -> Result<Vec<usize>, NoMemory>
    requires { All (λ e. (e.0 < count) × (e.1 < count)) pipes.now }
    ensures all { IfOk result
        (λ order. length order.items ≡ count → IsPlannedOrder count pipes.now order.items) }
    ensures some { IfOk result (λ order. length order.items ≢ count → HasNoOrder pipes.now) }
{
    let back = table_of(alloc, count, pipes)?;
    let other = flip(alloc, pipes)?;
    let links = table_of(alloc, count, other.as_slice())?;
    strip(alloc, links.as_slice(), back.as_slice(), 0)
}

// Whether each pipe goes to a higher number.
fn go_up(pipes: &[(usize, usize)]) -> bool
    ensures { result ≡ list_all (λ e. nat_lt e.0 e.1) pipes.now }
{
    pipes.iter().all(|e| e.0 < e.1)
}

// The numbers below a count, in rising order.
fn rising(alloc: Global, count: usize) -> Result<Vec<usize>, NoMemory>
    ensures { IfOk result (λ numbers. numbers.items ≡ range_with_len 0 count) }
{
    Ok((0..count).collect(alloc)?)
}

/// The planned order of `count` things that pipes join, or None if no order puts the writer of each
/// pipe before its reader.
#[tactic(auto, using(crate::proofs::lemmas::RiseLaws::rising_is_planned))]
pub fn planned_order(
    alloc: Global,
    count: usize,
    pipes: &[(usize, usize)],
) -> Result<Option<Vec<usize>>, NoMemory>
    requires { All (λ e. (e.0 < count) × (e.1 < count)) pipes.now }
    ensures { IfOk result
        (λ found. MatchOption found (HasNoOrder pipes.now)
        (λ order. IsPlannedOrder count pipes.now order.items)) }
{
    if go_up(pipes) {
        return Ok(Some(rising(alloc, count)?));
    }
    let order = taken_in_order(alloc, count, pipes)?;
    if order.len() == count {
        Ok(Some(order))
    } else {
        Ok(None)
    }
}
