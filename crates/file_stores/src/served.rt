// The work of a thread of a run: to read an input, or to write an output.
ghost use Rattle.file_stores.specs.inner.Served.{left_of_work};

use crate::placed::LeavesPart;
use collector::NeededEnd;
use std::alloc::Global;
use std::io::{self, Read, Write};
use std::sync::Wait;
use waiting_inputs::OpensLate;
use waiting_outputs::Taker;

/// What a thread of a run does: it reads an input, or it writes what is handed over to an output. A thread is asked for reads alone. So the
/// thread of an output returns one byte from a read once it has written what was handed over. Contracts see the bytes that an input has left.
#[derive(Drop)]
pub struct Served<F, W: Write + Drop> {
    work: Work<F, W>,
}

// The work of a thread.
#[derive(Drop)]
enum Work<F, W: Write + Drop> {
    // It reads this file.
    Reads(F),
    // It writes.
    Writes(Answered<W>),
}

// What is handed over to a thread, and whether the last of it is written, as far as it could be.
#[derive(Drop)]
struct Answered<W: Write + Drop> {
    taker: Taker<W>,
    has_answered: bool,
}

impl<F, W: Write + Drop> Served<F, W> {
    // A thread that reads this file.
    pub(crate) fn reads(file: F) -> Served<F, W> {
        Served {
            work: Work::Reads(file),
        }
    }

    // A thread that writes what is handed over.
    pub(crate) fn writes(taker: Taker<W>) -> Served<F, W> {
        Served {
            work: Work::Writes(Answered {
                taker,
                has_answered: false,
            }),
        }
    }
}

impl<F: Read, W: Write + Drop> Read for Served<F, W> {
    ghost remaining = { λ s. left_of_work F.remaining s.work };

    fn read(&mut self, into: &mut [u8]) -> io::Result<usize> {
        match &mut self.work {
            Work::Reads(file) => file.read(into),
            Work::Writes(answered) => Ok(into.len().min(usize::from(answered.has_answered))),
        }
    }
}

impl<F: LeavesPart, W: Write + Drop> LeavesPart for Served<F, W> {
    fn leave_front(&mut self, alloc: Global, needed: NeededEnd) {
        if let Work::Reads(file) = &mut self.work {
            file.leave_front(alloc, needed);
        }
    }

    fn leave_rest(&mut self, lines: u64) {
        if let Work::Reads(file) = &mut self.work {
            file.leave_rest(lines);
        }
    }
}

// The work that comes before a read: a file is opened, or bytes that were handed over are written.
impl<R: Wait, F: OpensLate<R>, W: Write + Drop> OpensLate<R> for Served<F, W> {
    fn open_late(&mut self, rt: &R) {
        match &mut self.work {
            Work::Reads(file) => file.open_late(rt),
            Work::Writes(answered) => answered.has_answered = answered.taker.do_next(rt),
        }
    }
}
