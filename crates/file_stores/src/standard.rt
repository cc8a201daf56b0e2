ghost use Rattle.collector.specs.InputEnds.{IsHeldFirst};
ghost use Rattle.file_stores.specs.inner.Limits.{limited, unlimited};
ghost use Rattle.file_stores.specs.inner.Standard.{CopiesLines, LeavesLines};

use crate::first_lines::fewer;
use crate::tries::TryRead;
use machine::front_lines;
use std::io::{self, BufRead, Read};

// The standard input.
#[derive(Drop)]
pub(crate) struct StandardInput<S> {
    // Once it is dropped, the file is read on after the last byte that was taken here.
    reader: S,
    // How many lines may still be taken. None if there is no limit.
    lines: Option<u64>,
}

impl<S> StandardInput<S> {
    // All of it.
    pub(crate) fn new(reader: S) -> StandardInput<S> {
        StandardInput {
            reader,
            lines: None,
        }
    }
}

impl<S: Read> StandardInput<S> {
    // No more than its first lines are taken, this many. It is a regular file, and nothing was read of it.
    pub(crate) fn read_lines_only(&mut self, lines: u64)
        ensures { IsHeldFirst lines (limited self.old.lines (S.remaining self.old.reader))
            (limited self.new.lines (S.remaining self.new.reader)) }
    {
        self.lines = Some(fewer(self.lines, lines));
    }
}

impl<S: BufRead + TryRead> Read for StandardInput<S> {
    ghost remaining = { λ i. limited i.lines (S.Read.remaining i.reader) };

    fn read(&mut self, into: &mut [u8]) -> io::Result<usize> {
        self.try_read(into)
    }
}

impl<S: BufRead + TryRead> TryRead for StandardInput<S> {
    ghost failed = { λ i. unlimited i.lines (S.failed i.reader) };

    fn try_read(&mut self, into: &mut [u8]) -> io::Result<usize> {
        match self.lines {
            None => self.reader.try_read(into),
            Some(0) => Ok(0),
            Some(lines) => {
                let (count, left) = copy_lines(self.reader.fill_buf()?, lines, into);
                self.reader.consume(count);
                self.lines = Some(lines_after(into.len(), count, left));
                Ok(count)
            }
        }
    }
}

// Copies the first of these lines, as much of them as there is room for. Returns how many bytes that are, and how many lines may still be
// taken.
fn copy_lines(ahead: &[u8], lines: u64, into: &mut [u8]) -> (usize, u64)
    ensures { CopiesLines ahead.now lines into.old into.new result.0 result.1 }
{
    let room = ahead.len().min(into.len());
    let (end, left) = front_lines(&ahead[..room], lines);
    into[..end].copy_from_slice(&ahead[..end]);
    (end, left)
}

// How many lines are left after a read into this much room that gave this many bytes. None are left after the end.
fn lines_after(room: usize, count: usize, left: u64) -> u64
    ensures { LeavesLines room count left result }
{
    if count == 0 && room > 0 { 0 } else { left }
}
