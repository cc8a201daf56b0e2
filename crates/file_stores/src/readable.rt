ghost use Rattle.std.specs.Prelude.{◌≡◌};
ghost use Rattle.std.specs.Io.{ReadsAtMost};
ghost use Rattle.std.specs.Io.KnownBytes.{ReadConsumes};
ghost use Rattle.file_stores.specs.inner.Readable.{once_open, left_now, left_in, failed_in};
ghost use Rattle.file_stores.specs.inner.Tries.{IsTried};

use crate::fifo::{AtFifo, Fifo};
use crate::first_lines::FirstLines;
use crate::placed::{AnyPlace, LeavesPart};
use crate::standard::StandardInput;
use crate::tries::TryRead;
use crate::writable::Opener;
use collector::NeededEnd;
use std::alloc::Global;
use std::io::{self, BufRead, ErrorKind, Read};
use std::sync::Wait;
use waiting_inputs::OpensLate;

/// What the host reads: an input, or an output that is only opened, and gives no byte. Contracts see the bytes that files like `F`, and a
/// standard input like `S`, have left.
#[derive(Drop)]
pub struct Readable<F, S> {
    from: ReadFrom<F, S>,
}

// What is read.
#[derive(Drop)]
enum ReadFrom<F, S> {
    // An open file.
    File(FirstLines<F>),
    // The standard input.
    Standard(StandardInput<S>),
    // A FIFO of the file system, which is opened before the first read.
    Fifo(LateFile<F>),
    // An output, which is opened before the first read.
    Opener(Opener<F>),
}

// A FIFO, and its file once it is open, or why it could not be opened.
#[derive(Drop)]
struct LateFile<F> {
    fifo: Fifo,
    file: Result<F, ErrorKind>,
}

impl<F, S> Readable<F, S> {
    // An open file.
    pub(crate) fn file(file: F) -> Readable<F, S> {
        Readable {
            from: ReadFrom::File(FirstLines::all(file)),
        }
    }

    // The standard input.
    pub(crate) fn standard(reader: S) -> Readable<F, S> {
        Readable {
            from: ReadFrom::Standard(StandardInput::new(reader)),
        }
    }

    // A FIFO that is to be opened.
    pub(crate) fn fifo(fifo: Fifo) -> Readable<F, S> {
        Readable {
            from: ReadFrom::Fifo(LateFile {
                fifo,
                file: Err(ErrorKind::NotFound),
            }),
        }
    }

    // An output that is to be opened.
    pub(crate) fn opener(opener: Opener<F>) -> Readable<F, S> {
        Readable {
            from: ReadFrom::Opener(opener),
        }
    }
}

impl<F: TryRead, S: BufRead + TryRead> Read for Readable<F, S> {
    ghost remaining = { λ r. left_in F.Read.remaining S.Read.remaining r.from };

    fn read(&mut self, into: &mut [u8]) -> io::Result<usize> {
        self.try_read(into)
    }
}

impl<F: TryRead, S: BufRead + TryRead> TryRead for Readable<F, S> {
    ghost failed = { λ r. failed_in F.failed S.failed r.from };

    fn try_read(&mut self, into: &mut [u8]) -> io::Result<usize>
        ensures bound { ReadsAtMost result into.new }
        ensures bytes { ReadConsumes (left_in F.Read.remaining S.Read.remaining self.old.from)
            (left_in F.Read.remaining S.Read.remaining self.new.from) result into.new }
        ensures now { ReadConsumes (left_now F.Read.remaining S.Read.remaining self.old.from)
            (left_now F.Read.remaining S.Read.remaining self.new.from) result into.new }
        ensures tried { IsTried (failed_in F.failed S.failed self.old.from)
            (failed_in F.failed S.failed self.new.from) result }
    {
        match &mut self.from {
            ReadFrom::File(file) => file.try_read(into),
            ReadFrom::Standard(input) => input.try_read(into),
            ReadFrom::Fifo(late) => late.try_read(into),
            ReadFrom::Opener(_) => Ok(0),
        }
    }
}

impl<F: AnyPlace + TryRead, S: BufRead + TryRead> LeavesPart for Readable<F, S> {
    fn leave_front(&mut self, alloc: Global, needed: NeededEnd) {
        if let ReadFrom::File(file) = &mut self.from {
            file.leave_front(alloc, needed);
        }
    }

    fn leave_rest(&mut self, lines: u64) {
        match &mut self.from {
            ReadFrom::File(file) => file.leave_rest(lines),
            ReadFrom::Standard(input) => input.read_lines_only(lines),
            ReadFrom::Fifo(_) | ReadFrom::Opener(_) => {}
        }
    }
}

impl<F: TryRead> LateFile<F> {
    // Reads once, if it is open. It fails if it is not.
    fn try_read(&mut self, into: &mut [u8]) -> io::Result<usize>
        ensures bound { ReadsAtMost result into.new }
        ensures bytes { ReadConsumes (once_open F.Read.remaining self.old.file)
            (once_open F.Read.remaining self.new.file) result into.new }
        ensures tried { IsTried (once_open F.failed self.old.file)
            (once_open F.failed self.new.file) result }
    {
        match &mut self.file {
            Ok(file) => file.try_read(into),
            Err(kind) => Err(io::Error::from(*kind)),
        }
    }
}

impl<R: Wait, F: AtFifo<R> + TryRead + Drop, S: BufRead + TryRead> OpensLate<R> for Readable<F, S> {
    fn open_late(&mut self, rt: &R) {
        match &mut self.from {
            ReadFrom::File(_) | ReadFrom::Standard(_) => {}
            ReadFrom::Fifo(late) => late.open(rt),
            ReadFrom::Opener(opener) => opener.open(rt),
        }
    }
}

impl<F: Drop> LateFile<F> {
    // Opens it, if it is not open. This waits for its writer.
    fn open<R>(&mut self, rt: &R)
    where
        F: AtFifo<R>,
    {
        if self.file.is_err() {
            self.file = F::to_read(&self.fifo, rt).map_err(|error| error.kind());
        }
    }
}
