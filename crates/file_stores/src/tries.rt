// Readers and writers that are called once at a time.
use std::fs::File;
use std::io::{self, Read, StdinLock, Write};

/// A reader that is read once at a time. Contracts may know the errors of its reads that failed.
pub trait TryRead: Read {
    ghost use Rattle.std.specs.Prelude.{Option, List, None};
    ghost use Rattle.std.specs.Io.{ReadsAtMost};
    ghost use Rattle.std.specs.Io.KnownBytes.{ReadConsumes};
    ghost use Rattle.std.specs.declared.io.Error.{Error};
    ghost use Rattle.file_stores.specs.inner.Tries.{IsTried};

    // The errors of its reads that failed, in their order, if they are known.
    ghost failed: { Self → Option (List Error) } = { λ _. None };

    /// Reads once.
    fn try_read(&mut self, into: &mut [u8]) -> io::Result<usize>
        ensures bound { ReadsAtMost result into.new }
        ensures bytes { ReadConsumes (Self.remaining self.old) (Self.remaining self.new) result into.new }
        ensures tried { IsTried (failed self.old) (failed self.new) result };
}

/// A writer that is written once at a time. Contracts may know the errors of its writes that failed.
pub trait TryWrite: Write {
    ghost use Rattle.std.specs.Prelude.{Option, List, None};
    ghost use Rattle.std.specs.Io.{WritesAtMost};
    ghost use Rattle.std.specs.Io.KnownBytes.{WriteAppends};
    ghost use Rattle.std.specs.declared.io.Error.{Error};
    ghost use Rattle.file_stores.specs.inner.Tries.{IsTried};

    // The errors of its writes that failed, in their order, if they are known.
    ghost failed: { Self → Option (List Error) } = { λ _. None };

    /// Writes once.
    fn try_write(&mut self, from: &[u8]) -> io::Result<usize>
        ensures bound { WritesAtMost result from.now }
        ensures bytes { WriteAppends (Self.contents self.old) (Self.contents self.new) result from.now }
        ensures tried { IsTried (failed self.old) (failed self.new) result };
}

impl TryRead for File {
    fn try_read(&mut self, into: &mut [u8]) -> io::Result<usize> {
        self.read(into)
    }
}

impl TryRead for Box<StdinLock<'static>> {
    fn try_read(&mut self, into: &mut [u8]) -> io::Result<usize> {
        self.read(into)
    }
}

impl TryWrite for File {
    fn try_write(&mut self, from: &[u8]) -> io::Result<usize> {
        self.write(from)
    }
}
