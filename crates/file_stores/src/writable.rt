ghost use Rattle.std.specs.Prelude.{◌≡◌, IfSome, Some};
ghost use Rattle.std.specs.Option.{option_and_then};
ghost use Rattle.std.specs.Io.{WritesAtMost};
ghost use Rattle.std.specs.Io.KnownBytes.{WriteAppends};
ghost use Rattle.file_stores.specs.inner.Writable.{open_file, held_now, held_in, failed_in};
ghost use Rattle.file_stores.specs.inner.Tries.{IsTried};

use crate::fifo::{AtFifo, Fifo};
use crate::tries::TryWrite;
use rtrb::{Consumer, Producer, RingBuffer};
use std::alloc::{AllocError, Global};
use std::fs::File;
use std::io::{self, ErrorKind, Write};

// The result of an opening.
type Opened<F> = Result<F, ErrorKind>;

// The task that opens a FIFO to write to it, and passes the file on.
#[derive(Drop)]
pub(crate) struct Opener<F> {
    fifo: Fifo,
    append: bool,
    // None once it was opened.
    to: Option<Producer<Opened<F>>>,
}

impl<F: Drop> Opener<F> {
    // Opens it, the first time. This waits for its reader.
    pub(crate) fn open<R>(&mut self, rt: &R)
    where
        F: AtFifo<R>,
    {
        if let Some(mut to) = self.to.take() {
            let opened = match F::to_write(&self.fifo, rt, self.append) {
                Ok(file) => Ok(file),
                Err(error) => Err(error.kind()),
            };
            // There is room for it, since it is the first.
            let _ = to.push(opened);
        }
    }
}

/// What an output is written to: an open file, the standard output, or a FIFO that is being opened. Contracts see the bytes that files like `F`,
/// and a standard output like `S`, hold.
#[derive(Drop)]
pub struct Writable<F, S> {
    to: WriteTo<F, S>,
}

// What is written to.
#[derive(Drop)]
enum WriteTo<F, S> {
    // An open file.
    File(F),
    // The standard output.
    Standard(S),
    // A FIFO of the file system.
    Fifo(AwaitedFile<F>),
}

// A FIFO that another thread opens.
#[derive(Drop)]
struct AwaitedFile<F> {
    state: Awaited<F>,
}

// How far its opening is.
#[derive(Drop)]
enum Awaited<F> {
    // The file comes from here, or the cause of the failure.
    Opening(Consumer<Opened<F>>),
    // It is open.
    Open(F),
    // It could not be opened.
    Failed(ErrorKind),
    // It is closed after all that was written.
    Closed,
}

impl<F, S> Writable<F, S> {
    // An open file.
    pub(crate) fn file(file: F) -> Writable<F, S> {
        Writable {
            to: WriteTo::File(file),
        }
    }

    // The standard output.
    pub(crate) fn standard(to: S) -> Writable<F, S> {
        Writable {
            to: WriteTo::Standard(to),
        }
    }
}

// A FIFO to write to, and the task that opens it.
pub(crate) fn writable_fifo<F: Drop, S>(
    alloc: Global,
    fifo: Fifo,
    append: bool,
) -> Result<(Writable<F, S>, Opener<F>), AllocError> {
    let (to, from) = RingBuffer::new(alloc, 1)?;
    let writable = Writable {
        to: WriteTo::Fifo(AwaitedFile {
            state: Awaited::Opening(from),
        }),
    };
    let opener = Opener {
        fifo,
        append,
        to: Some(to),
    };
    Ok((writable, opener))
}

// It is flushed once, after all that is written. That stores the bytes of a file. A FIFO is closed then, once it is open, since its reader waits
// for the end. The standard output stays as it is.
impl<F: Stores + Drop, S: TryWrite + Drop> Write for Writable<F, S> {
    ghost contents = { λ w. held_in F.Write.contents S.Write.contents w.to };

    fn write(&mut self, from: &[u8]) -> io::Result<usize> {
        self.try_write(from)
    }

    fn flush(&mut self) -> io::Result<()> {
        match &mut self.to {
            WriteTo::File(file) => file.store(),
            WriteTo::Standard(_) => Ok(()),
            WriteTo::Fifo(awaited) => awaited.close(),
        }
    }
}

impl<F: Stores + Drop, S: TryWrite + Drop> TryWrite for Writable<F, S> {
    ghost failed = { λ w. failed_in F.TryWrite.failed S.failed w.to };

    fn try_write(&mut self, from: &[u8]) -> io::Result<usize>
        ensures bound { WritesAtMost result from.now }
        ensures bytes { WriteAppends (held_in F.Write.contents S.Write.contents self.old.to)
            (held_in F.Write.contents S.Write.contents self.new.to) result from.now }
        ensures now { WriteAppends (held_now F.Write.contents S.Write.contents self.old.to)
            (held_now F.Write.contents S.Write.contents self.new.to) result from.now }
        ensures tried { IsTried (failed_in F.TryWrite.failed S.failed self.old.to)
            (failed_in F.TryWrite.failed S.failed self.new.to) result }
    {
        match &mut self.to {
            WriteTo::File(file) => file.try_write(from),
            WriteTo::Standard(to) => to.try_write(from),
            WriteTo::Fifo(awaited) => awaited.try_write(from),
        }
    }
}

impl<F: TryWrite + Drop> AwaitedFile<F> {
    // Writes once. It fails if it could not be opened. It would block if it is not open yet.
    fn try_write(&mut self, from: &[u8]) -> io::Result<usize>
        ensures bound { WritesAtMost result from.now }
        ensures bytes { WriteAppends (option_and_then F.Write.contents (open_file self.old.state))
            (option_and_then F.Write.contents (open_file self.new.state)) result from.now }
        ensures tried { IsTried (option_and_then F.failed (open_file self.old.state))
            (option_and_then F.failed (open_file self.new.state)) result }
    {
        self.take_file();
        match &mut self.state {
            Awaited::Open(file) => file.try_write(from),
            Awaited::Opening(_) => Err(io::Error::from(ErrorKind::WouldBlock)),
            Awaited::Failed(kind) => Err(io::Error::from(*kind)),
            Awaited::Closed => Err(io::Error::from(ErrorKind::Other)),
        }
    }
}

impl<F: Drop> AwaitedFile<F> {
    // Closes it. It fails if it could not be opened, or is not open yet.
    fn close(&mut self) -> io::Result<()> {
        self.take_file();
        match &self.state {
            Awaited::Open(_) => {}
            Awaited::Opening(_) => return Err(io::Error::from(ErrorKind::WouldBlock)),
            Awaited::Failed(kind) => return Err(io::Error::from(*kind)),
            Awaited::Closed => return Err(io::Error::from(ErrorKind::Other)),
        }
        self.state = Awaited::Closed;
        Ok(())
    }

    // Takes its file, if that has come and was not taken. An open file stays as it is.
    fn take_file(&mut self)
        ensures { IfSome (open_file self.old.state) (λ file. open_file self.new.state ≡ Some file) }
    {
        if let Awaited::Opening(from) = &mut self.state
            && let Some(state) = come_from(from)
        {
            self.state = state;
        }
    }
}

// The open file that has come from here, or the cause of the failure. None if neither has come yet.
fn come_from<F: Drop>(from: &mut Consumer<Opened<F>>) -> Option<Awaited<F>> {
    // Nothing comes after that, so this is asked first.
    let is_over = from.is_abandoned();
    match from.pop() {
        Ok(Ok(file)) => Some(Awaited::Open(file)),
        Ok(Err(kind)) => Some(Awaited::Failed(kind)),
        Err(_) if is_over => Some(Awaited::Failed(ErrorKind::Other)),
        Err(_) => None,
    }
}

// A file whose bytes can be stored.
pub(crate) trait Stores: TryWrite {
    // Waits until its bytes are stored. It is only looked at, so they stay as they are.
    fn store(&self) -> io::Result<()>;
}

impl Stores for File {
    // A file that cannot be stored, as one of a control group, is not a failure (Linux, fdatasync, EINVAL).
    fn store(&self) -> io::Result<()> {
        match self.sync_data() {
            Err(error) if is_no_file_to_store(error.kind()) => Ok(()),
            stored => stored,
        }
    }
}

// Whether this cause shows that a file cannot be stored.
fn is_no_file_to_store(kind: ErrorKind) -> bool {
    matches!(kind, ErrorKind::InvalidInput | ErrorKind::Unsupported)
}
