// Regular files that threads read and write, since they are long.

// A regular file of which the caller has read, or to which it has written, this many bytes is long.
const LONG: u64 = 1_048_576;

// How many bytes of a file the caller has read or written.
#[derive(Clone, Copy)]
pub(crate) struct Amount {
    bytes: u64,
}

impl Amount {
    // None.
    pub(crate) fn new() -> Amount {
        Amount { bytes: 0 }
    }

    // The amount with this many bytes more.
    pub(crate) fn with(self, count: usize) -> Amount {
        Amount {
            bytes: self.bytes.saturating_add(count as u64),
        }
    }

    // Whether it is that of a long file.
    pub(crate) fn is_long(self) -> bool {
        self.bytes >= LONG
    }
}

// How many long files may still get a thread.
#[derive(Clone, Copy)]
pub(crate) struct Spare {
    threads: usize,
}

impl Spare {
    // So many.
    pub(crate) fn new(threads: usize) -> Spare {
        Spare { threads }
    }

    // One more long file gets a thread. Returns false if none is left for it.
    pub(crate) fn take(&mut self) -> bool {
        match self.threads.checked_sub(1) {
            Some(left) => {
                self.threads = left;
                true
            }
            None => false,
        }
    }
}
