use std::alloc::Global;
use std::io::{self, Write};

/// Lines that are kept until they are flushed, and then written at once.
#[derive(Drop)]
pub(crate) struct Lines<W: Write> {
    to: W,
    kept: Vec<u8>,
}

impl<W: Write> Lines<W> {
    /// No lines yet, to be written there.
    pub(crate) fn new(alloc: Global, to: W) -> Lines<W> {
        Lines {
            to,
            kept: Vec::new(alloc),
        }
    }
}

impl<W: Write> Write for Lines<W> {
    fn write(&mut self, bytes: &[u8]) -> io::Result<usize> {
        self.kept.write(bytes)
    }

    // What a failed write leaves is dropped.
    fn flush(&mut self) -> io::Result<()> {
        let written = self.to.write_all(self.kept.as_slice());
        self.kept.clear();
        written
    }
}
