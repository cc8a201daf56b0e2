ghost use Rattle.std.specs.Prelude.{◌≡◌, ◌+◌, ◌≤◌, ◌<◌, ℕ, length, Some, IfOk, slice_index_or};
ghost use Rattle.graphs.specs.inner.Circles.{ComesRound, IsCircle, MeetsCircle, next_of, walk};

use machine::NoMemory;
use std::alloc::Global;

// The place that the table has after this one.
fn next_at(next: &[Option<usize>], place: usize) -> Option<usize>
    ensures { result ≡ next_of next.now place }
{
    match next.get(place) {
        Some(then) => *then,
        None => None,
    }
}

// The place one step further than the table has places.
fn far_from(next: &[Option<usize>], from: usize) -> Option<usize>
    ensures { result ≡ walk next.now from (length next.now + 1) }
{
    let mut place = from;
    for _ in next {
        place = next_at(next, place)?;
    }
    next_at(next, place)
}

// The lowest place that no more steps lead to than the table has places.
fn lowest_ahead(next: &[Option<usize>], from: usize) -> usize
    ensures reached { (n : ℕ) × (walk next.now from n ≡ Some result) }
    ensures lowest { (n k : ℕ) → n ≤ length next.now → walk next.now from n ≡ Some k → result ≤ k }
{
    let mut low = from;
    let mut place = from;
    for _ in next {
        match next_at(next, place) {
            Some(then) => place = then,
            None => return low,
        }
        low = low.min(place);
    }
    low
}

// The circle that goes from a place round to it again.
fn round(alloc: Global, next: &[Option<usize>], start: usize) -> Result<Vec<usize>, NoMemory>
    requires { ComesRound next.now start }
    ensures circle { IfOk result (λ places. IsCircle next.now places.items) }
    ensures from { IfOk result
        (λ places. (i : ℕ) → i < length places.items
        → walk next.now start i ≡ Some (slice_index_or places.items i 0)) }
{
    let mut places = Vec::new(alloc);
    let mut place = start;
    for _ in next {
        places.push(place)?;
        match next_at(next, place) {
            Some(then) if then != start => place = then,
            _ => return Ok(places),
        }
    }
    Ok(places)
}

/// The circle that the walk from a place by this table reaches, from its lowest place on, or None
/// if the walk ends.
pub fn circle(
    alloc: Global,
    next: &[Option<usize>],
    from: usize,
) -> Result<Option<Vec<usize>>, NoMemory>
    ensures { IfOk result (MeetsCircle next.now from) }
{
    let Some(place) = far_from(next, from) else {
        return Ok(None);
    };
    let low = lowest_ahead(next, place);
    Ok(Some(round(alloc, next, low)?))
}
