ghost use Rattle.std.specs.Prelude.{◌≡◌, ◌≢◌, ℕ, ◌+◌, ◌-◌, ◌<◌, ◌≤◌, ◌==◌, false, length, take, drop, IfSome, MatchOption};
ghost use Rattle.std.specs.Int.{bit_at};
ghost use Rattle.std.specs.List.{All};
ghost use Rattle.machine.specs.inner.Places.{FirstFrom};
ghost use Rattle.lanes.specs.inner.Walks.{AreMarks, Course, IsNth, IsOneOfSeveral, Shows, places_from};

use crate::bits::{highest, lowest, without};
use crate::chunk::marks;
use crate::nth::nth_marks;
use crate::prefix::Prefix;
use machine::find_from;
use std::marker::Model;

// How many places are looked at before a search is called that is faster for a place far away.
const NEAR: usize = 256;

/// A walk over the places of a byte, in order. Contracts see the bytes, that byte, and the place
/// from which on its places are still to come.
#[derive(Drop)]
pub struct Walk<'a> {
    ahead: &'a [u8],
    len: usize,
    byte: u8,
    from: usize,
    // A bit for each of the 64 places from `base` on: 1 if the byte is there and still to come.
    base: usize,
    left: u64,
}

impl<'a> Model for Walk<'a> {
    ghost use Rattle.std.specs.Prelude.{◌≤◌, ◌+◌, length, take};
    ghost use Rattle.lanes.specs.inner.Walks.{Course, Shows};

    ghost Value = { Course };

    ghost view = { λ walk. record {
      bytes = take walk.len walk.ahead.now;
      byte = walk.byte;
      from = walk.from;
    } };

    ghost invariant = { λ walk. (walk.len ≤ length walk.ahead.now)
        × (walk.base ≤ length walk.ahead.now)
        × Shows (take walk.len walk.ahead.now) walk.byte walk.from walk.base walk.left };
}

impl<'a> Walk<'a> {
    ghost use Rattle.lanes.specs.inner.Prefixes.{prefix_bytes};

    /// Begins a walk over all places of a byte.
    #[inline(always)]
    pub fn new(line: Prefix<'a>, byte: u8) -> Walk<'a>
        ensures { result ≡ record { bytes = prefix_bytes line.entry; byte = byte; from = 0 } }
    {
        let (ahead, len) = line.parts();
        let left = marks(ahead, 0, byte);
        Walk {
            ahead,
            len,
            byte,
            from: 0,
            base: 0,
            left,
        }
    }

    /// Returns the place from which on places are still to come.
    #[inline(always)]
    pub fn from(&self) -> usize
        ensures { result ≡ self.now.from }
    {
        self.from
    }

    /// Returns the next place, or None if there is none, and stays before it.
    #[inline(always)]
    pub fn peek(&mut self) -> Option<usize>
        ensures same { self.new ≡ self.old }
        ensures place { MatchOption result
            (All (λ x. (x == self.old.byte) ≡ false) (drop self.old.from self.old.bytes))
            (FirstFrom self.old.bytes self.old.byte self.old.from) }
    {
        let (base, left) = next_marks(self.ahead, self.len, self.byte, self.base, self.left);
        self.base = base;
        self.left = left;
        place_in(self.len, base, left)
    }

    /// Returns the next place, or None if there is none, and goes past it.
    #[inline(always)]
    pub fn next(&mut self) -> Option<usize>
        ensures { MatchOption result
            (All (λ x. (x == self.old.byte) ≡ false) (drop self.old.from self.old.bytes)
            × (self.new ≡ self.old))
            (λ place. FirstFrom self.old.bytes self.old.byte self.old.from place
            × (self.new ≡ record self.old { from = place + 1 })) }
    {
        let (base, left) = next_marks(self.ahead, self.len, self.byte, self.base, self.left);
        self.base = base;
        self.left = left;
        let Some(place) = place_in(self.len, base, left) else {
            return None;
        };
        self.left = without(left, place - base);
        self.from = place + 1;
        Some(place)
    }

    /// The same as `next`, for places that may be far away from each other.
    #[inline(always)]
    pub fn next_far(&mut self) -> Option<usize>
        ensures { MatchOption result
            (All (λ x. (x == self.old.byte) ≡ false) (drop self.old.from self.old.bytes)
            × (self.new ≡ self.old))
            (λ place. FirstFrom self.old.bytes self.old.byte self.old.from place
            × (self.new ≡ record self.old { from = place + 1 })) }
    {
        let (base, left) = next_marks_far(self.ahead, self.len, self.byte, self.base, self.left);
        self.base = base;
        self.left = left;
        let Some(place) = place_in(self.len, base, left) else {
            return None;
        };
        self.left = without(left, place - base);
        self.from = place + 1;
        Some(place)
    }

    /// The same as `next_far`, for the ends of lines: a search begins at the walk's place.
    #[inline(always)]
    pub fn next_line(&mut self) -> Option<usize>
        ensures { MatchOption result
            (All (λ x. (x == self.old.byte) ≡ false) (drop self.old.from self.old.bytes)
            × (self.new ≡ self.old))
            (λ place. FirstFrom self.old.bytes self.old.byte self.old.from place
            × (self.new ≡ record self.old { from = place + 1 })) }
    {
        self.look_from_here();
        self.next_far()
    }

    /// Returns the `count`-th place from here on, or None if there are fewer, and goes past it.
    #[inline(always)]
    pub fn nth(&mut self, count: usize) -> Option<usize>
        requires some { 1 ≤ count }
        ensures { MatchOption result (places_from self.old < count)
            (λ place. IsNth self.old count place
            × (self.new ≡ record self.old { from = place + 1 })) }
    {
        let (base, left) = nth_marks(self.ahead, self.len, self.byte, self.base, self.left, count);
        let Some(place) = place_in(self.len, base, left) else {
            return None;
        };
        self.base = base;
        self.left = without(left, place - base);
        self.from = place + 1;
        Some(place)
    }

    // Looks at the 64 places from here on, if none is left of those that were looked at.
    #[inline(always)]
    fn look_from_here(&mut self)
        ensures { self.new ≡ self.old }
    {
        if self.left == 0 && self.from < self.len {
            self.base = self.from;
            self.left = marks(self.ahead, self.from, self.byte);
        }
    }

    /// Goes past several places at once, if at least `count` of them are close together, and returns
    /// the last one. If it returns None, it went past none.
    #[inline(always)]
    pub fn pass_several(&mut self, count: u32) -> Option<usize>
        ensures { MatchOption result (self.new ≡ self.old)
            (λ place. IsOneOfSeveral self.old place
            × (self.new ≡ record self.old { from = place + 1 })) }
    {
        if self.left.count_ones() < count {
            return None;
        }
        let place = last_place(self.len, self.from, self.base, self.left)?;
        self.left = 0;
        self.from = place + 1;
        Some(place)
    }

    // Begins a walk with these marks of the first 64 places.
    #[inline(always)]
    pub(crate) fn with_marks(line: Prefix<'a>, byte: u8, left: u64) -> Walk<'a>
        requires { AreMarks (prefix_bytes line) byte 0 left }
        ensures { result ≡ record { bytes = prefix_bytes line.entry; byte = byte; from = 0 } }
    {
        let (ahead, len) = line.parts();
        Walk {
            ahead,
            len,
            byte,
            from: 0,
            base: 0,
            left,
        }
    }
}

// Goes to the next 64 places that have a bit set, or to the last places.
#[inline(always)]
fn next_marks(ahead: &[u8], len: usize, byte: u8, base: usize, left: u64) -> (usize, u64)
    requires within { len ≤ length ahead.now }
    requires base { base ≤ length ahead.now }
    ensures shows { (from : ℕ) → Shows (take len ahead.now) byte from base left
        → Shows (take len ahead.now) byte from result.0 result.1 }
    ensures ended { result.1 ≡ 0 → len ≤ result.0 + 64 }
    ensures base { result.0 ≤ length ahead.now }
{
    let mut base = base;
    let mut left = left;
    while left == 0 && base + 64 < len {
        base += 64;
        left = marks(ahead, base, byte);
    }
    (base, left)
}

// The same. It is faster if the place is far away, and slower if it is near.
#[inline(always)]
fn next_marks_far(ahead: &[u8], len: usize, byte: u8, base: usize, left: u64) -> (usize, u64)
    requires within { len ≤ length ahead.now }
    requires base { base ≤ length ahead.now }
    ensures shows { (from : ℕ) → Shows (take len ahead.now) byte from base left
        → Shows (take len ahead.now) byte from result.0 result.1 }
    ensures ended { result.1 ≡ 0 → len ≤ result.0 + 64 }
    ensures base { result.0 ≤ length ahead.now }
{
    let (base, left) = near_marks(ahead, len, byte, base, left);
    if left == 0 && base + 64 < len {
        return far_marks(ahead, len, byte, base);
    }
    (base, left)
}

// The same, but goes on by no more than 320 places.
#[inline(always)]
fn near_marks(ahead: &[u8], len: usize, byte: u8, base: usize, left: u64) -> (usize, u64)
    requires within { len ≤ length ahead.now }
    requires base { base ≤ length ahead.now }
    ensures shows { (from : ℕ) → Shows (take len ahead.now) byte from base left
        → Shows (take len ahead.now) byte from result.0 result.1 }
    ensures base { result.0 ≤ length ahead.now }
{
    let end = base + NEAR;
    let mut base = base;
    let mut left = left;
    while left == 0 && base + 64 < len && base < end {
        base += 64;
        left = marks(ahead, base, byte);
    }
    (base, left)
}

// Goes on to the next place, however far it is, or to the last places.
#[inline(never)]
fn far_marks(ahead: &[u8], len: usize, byte: u8, base: usize) -> (usize, u64)
    requires within { len ≤ length ahead.now }
    requires more { base + 64 < len }
    ensures shows { (from : ℕ) → Shows (take len ahead.now) byte from base 0
        → Shows (take len ahead.now) byte from result.0 result.1 }
    ensures ended { result.1 ≡ 0 → len ≤ result.0 + 64 }
    ensures base { result.0 ≤ length ahead.now }
{
    match find_from(&ahead[..len], base + 64, byte) {
        None => (len - 64, 0),
        Some(place) => (place, marks(ahead, place, byte)),
    }
}

// Returns the lowest place that has a bit set, if it is before the end.
#[inline(always)]
fn place_in(len: usize, base: usize, left: u64) -> Option<usize>
    requires { base + 64 < 18446744073709551616 }
    ensures { MatchOption result
        (((k : ℕ) → base + k < len → bit_at left k ≡ 0) × (left ≢ 0 → len ≤ base + 64))
        (λ place. (base ≤ place) × (place < base + 64) × (place < len)
        × (bit_at left (place - base) ≡ 1) × ((k : ℕ) → base + k < place → bit_at left k ≡ 0)) }
{
    if left == 0 {
        return None;
    }
    let place = base + lowest(left);
    if place < len { Some(place) } else { None }
}

// Returns the highest place that has a bit set, if it is before the end and near `from`.
#[inline(always)]
fn last_place(len: usize, from: usize, base: usize, left: u64) -> Option<usize>
    requires base { base + 64 < 18446744073709551616 }
    requires from { from + 64 < 18446744073709551616 }
    ensures { IfSome result
        (λ place. (base ≤ place) × (place < base + 64) × (place < len) × (place < from + 64)
        × (bit_at left (place - base) ≡ 1) × ((k : ℕ) → place < base + k → bit_at left k ≡ 0)) }
{
    if left == 0 {
        return None;
    }
    let place = base + highest(left);
    if place < len && place < from + 64 {
        Some(place)
    } else {
        None
    }
}
