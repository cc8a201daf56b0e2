// Readers and writers whose calls are made again if they were interrupted, or would have blocked.
ghost use Rattle.std.specs.Prelude.{IsTrue};
ghost use Rattle.std.specs.Io.{ReadsAtMost, WritesAtMost};
ghost use Rattle.std.specs.Io.KnownBytes.{ReadConsumes, WriteAppends};
ghost use Rattle.file_stores.specs.inner.Tries.{MayBeMadeAgain, IsTriedAgain};

use crate::placed::LeavesPart;
use crate::readable::Readable;
use crate::served::Served;
use crate::standard_output::StandardOutput;
use crate::tries::{TryRead, TryWrite};
use crate::writable::Writable;
use collector::NeededEnd;
use std::alloc::Global;
use std::fs::File;
use std::io::{ErrorKind, Read, StdinLock, Write};
use std::rt::Clock;
use std::time::Duration;
use std::{io, thread};
use waiting_inputs::OpensLate;

// A call that is interrupted so often, one time after another, fails.
const MOST_INTERRUPTIONS: u32 = 1_000_000;

/// Waits before a call is made again.
pub trait Pause: Drop {
    /// Waits for a while: longer, the more often the call would have blocked.
    fn pause(&self, blocked: u32);
}

// How many microseconds a nap has at first, and how often the next one is twice as long.
const NAP: u64 = 100;

const DOUBLINGS: u32 = 7;

/// A pause of 100 microseconds, twice as long each time, up to 12.8 milliseconds.
#[derive(Clone, Copy)]
pub struct Nap<R>(pub R);

impl<R: Clock + Drop> Pause for Nap<R> {
    fn pause(&self, blocked: u32) {
        thread::sleep(
            &self.0,
            Duration::from_micros(NAP << blocked.min(DOUBLINGS)),
        );
    }
}

// What the host reads: the system's files, and its standard input. It is in a box, since a lock on it holds 8 KiB.
pub(crate) type HostReadable = Readable<File, Box<StdinLock<'static>>>;

// What the host writes: the system's files, and its standard output.
pub(crate) type HostWritable<R> = Writable<File, StandardOutput<R>>;

/// A reader of the host, which waits for what would block, or a thread that writes to an output of the host.
pub type HostReader<R> = Served<Patient<HostReadable, Nap<R>>, HostWriter<R>>;

/// A writer of the host. It waits for what would block.
pub type HostWriter<R> = Patient<HostWritable<R>, Nap<R>>;

/// A reader or a writer whose calls are made again if a signal interrupted them (POSIX.1-2017 XSH read, write, EINTR), or if they would have
/// blocked (EAGAIN): then after a pause. Contracts see what it reads or writes.
#[derive(Drop)]
pub struct Patient<F, P> {
    file: F,
    pause: P,
}

impl<F, P> Patient<F, P> {
    ghost use Rattle.std.specs.Prelude.{◌≡◌};

    /// This reader or writer, with this pause.
    pub fn new(file: F, pause: P) -> Patient<F, P>
        ensures { result.file ≡ file }
    {
        Patient { file, pause }
    }

    /// The reader or writer itself.
    pub fn inside(&self) -> &F
        ensures { result.now ≡ self.now.file }
    {
        &self.file
    }
}

// How often a call failed that is to be made again.
#[derive(Clone, Copy)]
struct Retries {
    interrupted: u32,
    blocked: u32,
}

impl Retries {
    // No call was made yet.
    fn new() -> Retries {
        Retries {
            interrupted: 0,
            blocked: 0,
        }
    }

    // Whether a call that failed with this error is made again. If it would have blocked, this pauses first.
    fn allow<P: Pause>(&mut self, error: &io::Error, pause: &P) -> bool
        ensures { IsTrue result → MayBeMadeAgain error.now }
    {
        match error.kind() {
            ErrorKind::Interrupted => {
                self.interrupted = self.interrupted.saturating_add(1);
                self.interrupted < MOST_INTERRUPTIONS
            }
            ErrorKind::WouldBlock => {
                pause.pause(self.blocked);
                self.blocked = self.blocked.saturating_add(1);
                true
            }
            _ => false,
        }
    }
}

impl<F: TryRead + Drop, P: Pause> Read for Patient<F, P> {
    ghost remaining = { λ p. F.Read.remaining p.file };

    fn read(&mut self, buf: &mut [u8]) -> io::Result<usize>
        ensures bound { ReadsAtMost result buf.new }
        ensures bytes { ReadConsumes (F.Read.remaining self.old.file)
            (F.Read.remaining self.new.file) result buf.new }
        ensures again { IsTriedAgain (F.failed self.old.file) (F.failed self.new.file) result }
    {
        let mut retries = Retries::new();
        for _ in 0..u64::MAX {
            let error = match self.file.try_read(buf) {
                Ok(count) => return Ok(count),
                Err(error) => error,
            };
            if !retries.allow(&error, &self.pause) {
                return Err(error);
            }
        }
        self.file.try_read(buf)
    }
}

impl<F: LeavesPart + TryRead + Drop, P: Pause> LeavesPart for Patient<F, P> {
    fn leave_front(&mut self, alloc: Global, needed: NeededEnd) {
        self.file.leave_front(alloc, needed);
    }

    fn leave_rest(&mut self, lines: u64) {
        self.file.leave_rest(lines);
    }
}

impl<R, F: OpensLate<R> + TryRead + Drop, P: Pause> OpensLate<R> for Patient<F, P> {
    fn open_late(&mut self, rt: &R) {
        self.file.open_late(rt);
    }
}

impl<F: TryWrite + Drop, P: Pause> Write for Patient<F, P> {
    ghost contents = { λ p. F.Write.contents p.file };

    fn write(&mut self, buf: &[u8]) -> io::Result<usize>
        ensures bound { WritesAtMost result buf.now }
        ensures bytes { WriteAppends (F.Write.contents self.old.file)
            (F.Write.contents self.new.file) result buf.now }
        ensures again { IsTriedAgain (F.failed self.old.file) (F.failed self.new.file) result }
    {
        let mut retries = Retries::new();
        for _ in 0..u64::MAX {
            let error = match self.file.try_write(buf) {
                Ok(count) => return Ok(count),
                Err(error) => error,
            };
            if !retries.allow(&error, &self.pause) {
                return Err(error);
            }
        }
        self.file.try_write(buf)
    }

    fn flush(&mut self) -> io::Result<()> {
        self.file.flush()
    }
}
