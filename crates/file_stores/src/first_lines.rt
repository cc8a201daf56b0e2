// A file that is read no further than its first lines, if a limit is set.
ghost use Rattle.std.specs.Prelude.{List, Option, None, Some, ℕ};
ghost use Rattle.collector.specs.InputEnds.{IsHeldFirst};
ghost use Rattle.file_stores.specs.inner.Limits.{limited};

use crate::placed::{AnyPlace, LeavesPart, go_to_end};
use crate::tries::TryRead;
use collector::NeededEnd;
use machine::front_lines;
use std::alloc::Global;
use std::io::{self, Read};

// A file, and how many of its lines may still be read. None if there is no limit.
#[derive(Drop)]
pub(crate) struct FirstLines<F> {
    file: F,
    lines: Option<u64>,
}

impl<F> FirstLines<F> {
    // All of the file.
    pub(crate) fn all(file: F) -> FirstLines<F> {
        FirstLines { file, lines: None }
    }
}

impl<F: TryRead> Read for FirstLines<F> {
    ghost remaining = { λ f. limited f.lines (F.Read.remaining f.file) };

    fn read(&mut self, into: &mut [u8]) -> io::Result<usize> {
        self.try_read(into)
    }
}

impl<F: TryRead> TryRead for FirstLines<F> {
    ghost failed = { λ f. F.failed f.file };

    fn try_read(&mut self, into: &mut [u8]) -> io::Result<usize> {
        match self.lines {
            None => self.file.try_read(into),
            Some(0) => Ok(0),
            Some(lines) => {
                let count = self.file.try_read(into)?;
                let (end, left) = front_lines(&into[..count], lines);
                self.lines = Some(left);
                Ok(end)
            }
        }
    }
}

impl<F: AnyPlace + TryRead> LeavesPart for FirstLines<F> {
    fn leave_front(&mut self, alloc: Global, needed: NeededEnd) {
        if self.lines.is_none() {
            go_to_end(&mut self.file, alloc, needed);
        }
    }

    fn leave_rest(&mut self, lines: u64) {
        self.lines = Some(fewer(self.lines, lines));
    }
}

// The smaller one of two limits. The first may not be set.
pub(crate) fn fewer(limit: Option<u64>, lines: u64) -> u64
    ensures { (left : Option (List ℕ))
        → IsHeldFirst lines (limited limit left) (limited (Some result) left) }
{
    match limit {
        None => lines,
        Some(limit) => limit.min(lines),
    }
}
