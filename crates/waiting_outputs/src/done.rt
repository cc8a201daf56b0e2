use collector::Batch;
use std::io;

/// A write failed. The system's error itself may refer to a text, which no thread that `main` begins may hand on.
#[derive(Clone, Copy, Debug, PartialEq, Eq)]
pub struct Failed {
    /// The number of its error (POSIX.1-2017 XSH errno), if the system gave one.
    pub number: Option<i32>,
}

impl Failed {
    // A write that failed with this error.
    pub(crate) fn of(error: &io::Error) -> Failed {
        Failed {
            number: error.raw_os_error(),
        }
    }
}

// The answer to bytes that were handed over: the file and the bytes come back, with how many of them the file took.
#[derive(Drop)]
pub(crate) struct Done<F> {
    pub(crate) file: F,
    // What was handed over.
    pub(crate) batch: Batch,
    // How many of its bytes, from the first, were taken.
    pub(crate) count: usize,
    // The failure after them, if not all were taken.
    pub(crate) error: Option<Failed>,
}
