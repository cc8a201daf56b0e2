// Why an output cannot be held back until a run has finished.
use std::alloc::AllocError;

/// Why an output cannot be held back until a run has finished, though its file could be written.
#[derive(Clone, Copy, Debug, PartialEq, Eq)]
pub enum NotHeld {
    /// Another run holds it back now.
    Locked,
    /// The system makes no new file next to it.
    NoNewFile,
    /// The name of its new file belongs to something that no ended run left.
    NameTaken,
    /// Its file system has no locks.
    NoLocks,
    /// No file can be removed from its folder, or renamed there.
    NoRemoval,
    /// It is a mount point: no new file can take its place.
    MountPoint,
    /// It may only grow, so that what is appended to it cannot be cut off again.
    OnlyGrows,
    /// Its folder cannot be read, and so it cannot be stored.
    UnreadFolder,
}

/// Why no new file was made for an output, or a file was not opened to append to it.
#[derive(Clone, Copy, Debug, PartialEq, Eq)]
pub enum NotMade {
    /// Memory was refused.
    NoMemory,
    /// Its file cannot be written, or is open in this run.
    Refused,
    /// It cannot be held back.
    NotHeld(NotHeld),
}

impl From<AllocError> for NotMade {
    fn from(_error: AllocError) -> NotMade {
        NotMade::NoMemory
    }
}

impl From<NotHeld> for NotMade {
    fn from(why: NotHeld) -> NotMade {
        NotMade::NotHeld(why)
    }
}
