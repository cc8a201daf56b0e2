// Files that can be read at any place. Such a file goes to the end that its reader needs without a read of what is before that.
ghost use Rattle.std.specs.Prelude.{◌≡◌, ◌-◌, ◌<◌, ◌≤◌, None, IfSome, IsTrue, length, take, drop, refl};
ghost use Rattle.collector.specs.InputEnds.{IsHeldFirst, IsHeldLeft};
ghost use Rattle.file_stores.specs.inner.Ends.{Finds};
ghost use Rattle.file_stores.specs.inner.Placed.{still_in, GoesTo, HasEndAt};

use crate::ends::{Search, newline_from_end};
use collector::NeededEnd;
use std::alloc::Global;
use std::fs::{File, OpenFile};
use std::io::{Read, Seek, SeekFrom};
use std::os::unix::fs::FileExt;

// How many bytes are looked at at once.
const BLOCK: usize = 65_536;

// A file that can be read at any place.
pub(crate) trait AnyPlace: Read {
    ghost use Rattle.std.specs.Prelude.{Option};
    ghost use Rattle.file_stores.specs.inner.Placed.{Placed};

    // All its bytes, and the place from which on it is read next, where they are known.
    ghost placed: { Self → Option Placed } = { λ _. None };

    // How many bytes it has. None if that is not known.
    fn size(&self) -> Option<u64>
        ensures { IfSome (placed self.now) (λ p. IfSome result (λ n. n ≡ length p.bytes)) };

    // The place from which on it is read next. None if that is not known.
    fn place(&mut self) -> Option<u64>
        ensures same { placed self.new ≡ placed self.old }
        ensures value { IfSome (placed self.old) (λ p. IfSome result (λ n. n ≡ p.at)) };

    // Fills the slice with its bytes from this place on. Returns whether it did.
    fn fill(&self, into: &mut [u8], from: u64) -> bool
        ensures { IfSome (placed self.now)
            (λ p. IsTrue result → into.new ≡ take (length into.new) (drop from p.bytes)) };

    // Goes to this place, or stays where it is.
    fn go_to(&mut self, place: u64)
        ensures { GoesTo place (placed self.old) (placed self.new) };

    // Its reads go on from that place.
    ghost reads_on: { (file : Self) → Self.remaining file ≡ still_in (placed file) };
}

impl AnyPlace for File {
    ghost reads_on = { λ _. refl };

    fn size(&self) -> Option<u64> {
        Some(self.metadata().ok()?.len())
    }

    fn place(&mut self) -> Option<u64> {
        self.seek(SeekFrom::Current(0)).ok()
    }

    fn fill(&self, into: &mut [u8], from: u64) -> bool {
        self.read_exact_at(into, from).is_ok()
    }

    fn go_to(&mut self, place: u64) {
        let _ = self.seek(SeekFrom::Start(place));
    }
}

/// A reader that can leave out a part of its remaining bytes.
pub trait LeavesPart: Read {
    /// Leaves out a front, if its reader needs only this end of it. It may leave out nothing.
    fn leave_front(&mut self, alloc: Global, needed: NeededEnd)
        ensures { IsHeldLeft needed (Self.remaining self.old) (Self.remaining self.new) };

    /// Leaves what follows the first lines, this many, to others that read on in its file.
    fn leave_rest(&mut self, lines: u64)
        ensures { IsHeldFirst lines (Self.remaining self.old) (Self.remaining self.new) };
}

// Goes to the beginning of the end that is needed, if that is found.
pub(crate) fn go_to_end<F: AnyPlace>(file: &mut F, alloc: Global, needed: NeededEnd)
    ensures { IsHeldLeft needed (still_in (F.placed file.old)) (still_in (F.placed file.new)) }
{
    if let Some(place) = begin_in(file, alloc, needed) {
        file.go_to(place);
    }
}

// The place at which the end begins that is needed. None if it is not found, or if the size of the file changes meanwhile.
fn begin_in<F: AnyPlace>(file: &mut F, alloc: Global, needed: NeededEnd) -> Option<u64>
    ensures same { F.placed file.new ≡ F.placed file.old }
    ensures found { IfSome (F.placed file.old) (λ p. IfSome result (HasEndAt needed p)) }
{
    let first = file.place()?;
    let size = file.size()?;
    if size <= first || !has_byte(file, size - 1) {
        return None;
    }
    let begin = end_in(file, alloc, first, size, needed)?;
    if file.size() == Some(size) {
        Some(begin)
    } else {
        None
    }
}

// The place at which the end begins that is needed, if the file has this size, and is read next from the first place on.
fn end_in<F: AnyPlace>(
    file: &F,
    alloc: Global,
    first: u64,
    size: u64,
    needed: NeededEnd,
) -> Option<u64>
    requires { first < size }
    ensures { IfSome (F.placed file.now)
        (λ p. first ≡ p.at → size ≡ length p.bytes → IfSome result (HasEndAt needed p)) }
{
    match needed {
        NeededEnd::Lines(count) => lines_in(file, alloc, first, size, count),
        NeededEnd::Bytes(count) => Some(first.max(size.saturating_sub(count))),
    }
}

// Whether it has a byte at this place. Some files of the system have fewer bytes than it says.
fn has_byte<F: AnyPlace>(file: &F, place: u64) -> bool {
    file.fill(&mut [0], place)
}

// The same of the last lines: this many of them, and at least one. The bytes before the first place are not looked at.
fn lines_in<F: AnyPlace>(file: &F, alloc: Global, first: u64, size: u64, count: u64) -> Option<u64>
    requires { first < size }
    ensures { IfSome (F.placed file.now)
        (λ p. first ≡ p.at → size ≡ length p.bytes
        → IfSome result (HasEndAt (NeededEnd.Lines count) p)) }
{
    let mut block = Vec::from_elem(alloc, 0, BLOCK).ok()?;
    let passed = count.saturating_sub(1);
    // The last byte ends the last line, or is a part of it.
    let found = search_back(file, block.as_mut_slice(), first, size - 1, passed)?;
    match found {
        Search::Found(place) => first.checked_add(place),
        Search::Before(_) => None,
    }
}

// Searches the bytes between two places, from their end, for a newline. It passes over this many of them. None if a read fails.
fn search_back<F: AnyPlace>(
    file: &F,
    block: &mut [u8],
    first: u64,
    end: u64,
    passed: u64,
) -> Option<Search>
    requires room { 0 < length block.old }
    requires order { first ≤ end }
    ensures { IfSome (F.placed file.now)
        (λ p. IfSome result (Finds passed (take (end - first) (drop first p.bytes)))) }
{
    let size = block.len() as u64;
    let mut left = passed;
    let mut at = end;
    while at > first {
        let count = size.min(at - first);
        at -= count;
        let some = &mut block[..count as usize];
        if !file.fill(some, at) {
            return None;
        }
        match newline_from_end(some, left) {
            Search::Found(place) => return Some(Search::Found(at - first + place)),
            Search::Before(more) => left = more,
        }
    }
    Some(Search::Before(left))
}
