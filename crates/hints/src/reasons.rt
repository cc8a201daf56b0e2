// What the system says of files.
use crate::source::part;
use std::alloc::{AllocError, Global};
use std::io;

/// What the system says of a file that was not opened.
#[derive(Clone, Copy)]
pub enum Reason {
    /// The system refuses to open it, for this error.
    Refused(io::Error),
    /// It is a folder, which is no input.
    Folder,
    /// It leads to a standard stream of the process, by a name that does not mean it.
    Leads(Stream),
    /// It leads to a descriptor that the caller did not open.
    NotGiven,
    /// It can be opened: so it is open already in this run, or it changed meanwhile.
    Opens,
}

/// Why an output cannot be held back until a run has finished. Its new file is the one that is to take its place.
#[derive(Clone, Copy)]
pub enum WhyNotHeld {
    /// Another run holds it back.
    Locked,
    /// No new file can be made in its folder.
    NoNewFile,
    /// The name of its new file belongs to something that no run left.
    NameTaken,
    /// Its file system has no locks.
    NoLocks,
    /// No file can be removed from its folder, or renamed there.
    NoRemoval,
    /// It is a mount point.
    MountPoint,
    /// It may only grow, and nothing can be cut off.
    OnlyGrows,
    /// Its folder cannot be read, and so it cannot be stored.
    UnreadFolder,
}

/// A standard stream.
#[derive(Clone, Copy, Debug, PartialEq, Eq)]
pub enum Stream {
    /// The standard input.
    Input,
    /// The standard output.
    Output,
}

/// Whether a file is that of a standard stream.
#[derive(Clone, Copy, Debug, PartialEq, Eq)]
pub enum Sameness {
    /// It is.
    Same,
    /// It is not.
    Apart,
    /// It may be, since nothing is known of the stream.
    Unknown,
}

/// Asks the system about files.
pub trait Reasons {
    /// What it says now of the file of this name, if that is opened for reading or for writing. None if it says nothing.
    fn reason(&self, name: &str, writes: bool) -> Option<Reason>;

    /// Why the output of this name cannot be held back, if it would be, and that is so.
    fn reason_not_held(&self, name: &str, append: bool) -> Option<WhyNotHeld>;

    /// Why the last open, read or write of the run failed, if one did.
    fn last_error(&self) -> Option<io::Error>;

    /// Whether both names mean one file now that may not be opened for both: one of them as an output, or both as inputs.
    fn is_same_file(&self, name: &str, other: &str, writes: bool) -> bool;

    /// Whether a name means the file of a standard stream now, which may not be opened too: one of them as an output, or both as inputs.
    fn is_standard(&self, stream: Stream, name: &str, writes: bool) -> Sameness;

    /// Whether the standard input is a folder.
    fn input_is_folder(&self) -> bool;

    /// Whether the standard input and output are one regular file.
    fn streams_are_one(&self) -> bool;

    /// Whether the reader of the standard output has ended.
    fn reader_is_gone(&self) -> bool;
}

impl WhyNotHeld {
    // What a hint says.
    pub(crate) fn words(self) -> &'static str {
        match self {
            WhyNotHeld::Locked => "another run with --atomic writes it: wait until that has ended",
            WhyNotHeld::NoNewFile => {
                "with --atomic, a new file .NAME.plrun is made in its folder, and that is not allowed"
            }
            WhyNotHeld::NameTaken => {
                "with --atomic, its new file is .NAME.plrun, and something else has that name: move it away"
            }
            WhyNotHeld::NoLocks => "--atomic needs a file system with locks (flock)",
            WhyNotHeld::NoRemoval => {
                "with --atomic, a new file takes its place, and its folder lets none be removed"
            }
            WhyNotHeld::MountPoint => {
                "with --atomic, a new file takes its place, and it is a mount point: mount its folder instead"
            }
            WhyNotHeld::OnlyGrows => {
                "with --atomic, it is cut back if the run fails, and it may only grow (chattr +a)"
            }
            WhyNotHeld::UnreadFolder => {
                "with --atomic=synced, its folder is stored too, and it cannot be read"
            }
        }
    }
}

// What the system says of a folder that is opened as a file.
pub(crate) const FOLDER: &str = "Is a directory";

// Why a descriptor that the caller did not open is no file.
pub(crate) const NOT_GIVEN: &str = "the caller of plrun opened no descriptor of this number";

// The number of the error that a process has too many open files (Linux, EMFILE).
const TOO_MANY_OPEN: i32 = 24;

// Whether no file may be opened since too many are open.
pub(crate) fn is_many(error: io::Error) -> bool {
    error.raw_os_error() == Some(TOO_MANY_OPEN)
}

// Whether there is no file of a name that was not opened, as far as the system says it.
pub(crate) fn is_absent(reason: Option<Reason>) -> bool {
    match reason {
        Some(Reason::Refused(error)) => error.kind() == io::ErrorKind::NotFound,
        _ => false,
    }
}

/// The system's own words for an error, without its number.
pub fn words_of(alloc: Global, error: io::Error) -> Result<String, AllocError> {
    let text = format!(in alloc; "{error}")?;
    let bytes = text.as_str().as_bytes();
    let mut parts = bytes.windows(11);
    let end = parts.position(|found| found == b" (os error ".as_slice());
    let words = part(bytes, 0, end.unwrap_or(bytes.len()));
    String::from_str(alloc, str::from_utf8(words).unwrap_or(text.as_str()))
}
