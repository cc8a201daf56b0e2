use crate::tries::TryWrite;
use std::io::{self, Print, Write, writer};

/// The standard output of a process, by its runtime. Contracts know nothing of what it holds.
#[derive(Drop)]
pub struct StandardOutput<R>(pub(crate) R);

impl<R: Print + Drop> Write for StandardOutput<R> {
    fn write(&mut self, from: &[u8]) -> io::Result<usize> {
        writer(&self.0).write(from)
    }

    fn flush(&mut self) -> io::Result<()> {
        writer(&self.0).flush()
    }
}

impl<R: Print + Drop> TryWrite for StandardOutput<R> {
    fn try_write(&mut self, from: &[u8]) -> io::Result<usize> {
        self.write(from)
    }
}
