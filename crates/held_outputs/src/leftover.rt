// Files that ended runs left.
use crate::facts::{Facts, Kind};
use crate::not_held::{NotHeld, NotMade};
use std::fs::{self, File, OpenOptions, TryLockError};
use std::io::ErrorKind;
use std::os::unix::fs::MetadataExt;
use std::rt;

/// The new file that an ended run left at this path, locked. It is refused if a run still writes it, if it is one of these files, which are in use,
/// or if no run leaves such a file: it is not regular, has another name, or may not be written. None if nothing is there.
pub fn left_at<R: rt::Files<File = File>>(
    rt: &R,
    path: &str,
    used: &[Facts],
) -> Result<Option<File>, NotMade> {
    let Ok(found) = fs::symlink_metadata(rt, path) else {
        return Ok(None);
    };
    let facts = Facts::in_metadata(&found);
    if facts.kind != Kind::Regular || found.nlink() > 1 || used.contains(&facts) {
        return Err(NotMade::NotHeld(NotHeld::NameTaken));
    }
    let mut options = OpenOptions::new();
    options.write(true);
    match options.open(rt, path) {
        Ok(left) => locked(left),
        Err(error) if error.kind() == ErrorKind::NotFound => Ok(None),
        Err(_) => Err(NotMade::NotHeld(NotHeld::NameTaken)),
    }
}

// A file that was left, once it is locked.
fn locked(left: File) -> Result<Option<File>, NotMade> {
    match left.try_lock() {
        Ok(()) => Ok(Some(left)),
        Err(TryLockError::WouldBlock) => Err(NotMade::NotHeld(NotHeld::Locked)),
        Err(TryLockError::Error(_)) => Err(NotMade::NotHeld(NotHeld::NoLocks)),
    }
}
