use thiserror::Error;

/// Why a call of a folder failed.
#[derive(Clone, Copy, Debug, PartialEq, Eq, Error)]
pub enum CallFault {
    /// The system refused it, with the number of its error if it gave one (POSIX.1-2017 XSH errno).
    #[error("refused")]
    Refused(Option<i32>),
    /// Memory was refused.
    #[error("NoMemory")]
    NoMemory,
}

/// Why a new file was not written.
#[derive(Clone, Copy, Debug, PartialEq, Eq)]
pub enum WriteFault {
    /// It was not made.
    NotMade(CallFault),
    /// Its bytes were not written. Some of them may have been.
    NotWritten(CallFault),
}

/// A call for one of several outputs failed.
#[derive(Clone, Copy, Debug, PartialEq, Eq)]
pub struct OutputFault {
    /// The number of the output, from 0.
    pub output: usize,
    /// Why its call failed.
    pub why: CallFault,
}

/// The call that kept outputs from their places.
#[derive(Clone, Copy, Debug, PartialEq, Eq)]
pub enum PlaceFault {
    /// The bytes of this new file were not stored.
    NotStored(OutputFault),
    /// This new file was not renamed.
    NotRenamed(OutputFault),
    /// The names were not stored.
    NamesNotStored(CallFault),
}

/// Outputs that are not all in their places.
#[derive(Clone, Copy, Debug, PartialEq, Eq)]
pub struct NotPlaced {
    /// The call that failed first.
    pub fault: PlaceFault,
    /// The last new file that could not be removed then. If there is none, no new file is left.
    pub left: Option<OutputFault>,
}
