use crate::facts::Facts;
use std::alloc::{AllocError, Global};
use std::fs::{File, OpenOptions};
use std::io::{self, ErrorKind};
use std::rt;

// A FIFO of the file system that is not open: its path, and what the system said of it. To open it waits for its other end
// (POSIX.1-2017 XSH open).
#[derive(Drop)]
pub(crate) struct Fifo {
    path: String,
    facts: Facts,
}

// A file that this runtime opens as one end of a FIFO.
pub(crate) trait AtFifo<R>: Sized {
    // Opens the FIFO to read it. This waits for a writer.
    fn to_read(fifo: &Fifo, rt: &R) -> io::Result<Self>;

    // Opens the FIFO to write to it. This waits for a reader. It is neither made nor emptied.
    fn to_write(fifo: &Fifo, rt: &R, append: bool) -> io::Result<Self>;
}

impl<R: rt::Files<File = File>> AtFifo<R> for File {
    fn to_read(fifo: &Fifo, rt: &R) -> io::Result<File> {
        let mut options = OpenOptions::new();
        options.read(true);
        fifo.open(rt, &options)
    }

    fn to_write(fifo: &Fifo, rt: &R, append: bool) -> io::Result<File> {
        let mut options = OpenOptions::new();
        options.write(true).append(append);
        fifo.open(rt, &options)
    }
}

impl Fifo {
    // The FIFO at this path, with these facts.
    pub(crate) fn new(alloc: Global, path: &str, facts: Facts) -> Result<Fifo, AllocError> {
        let path = String::from_str(alloc, path)?;
        Ok(Fifo { path, facts })
    }

    // Opens it. It fails if its path means another file by now.
    fn open<R: rt::Files<File = File>>(&self, rt: &R, options: &OpenOptions) -> io::Result<File> {
        let file = options.open(rt, self.path.as_str())?;
        if Facts::of(&file) == Some(self.facts) {
            Ok(file)
        } else {
            Err(io::Error::from(ErrorKind::NotFound))
        }
    }
}
