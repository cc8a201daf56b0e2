// A file that is appended to, and cut back if the run does not finish.
use crate::facts::{Facts, Kind};
use held_outputs::{NOT_PERMITTED, NotHeld, NotMade, is_at};
use std::alloc::Global;
use std::fs::{self, File, OpenOptions};
use std::io::{self, ErrorKind};
use std::os::unix::fs::MetadataExt;
use std::rt;

// How often an opening is tried, while others make and remove a file of the same name.
const TRIES: usize = 16;

// A file that is appended to in place.
#[derive(Drop)]
pub(crate) struct Appended {
    file: File,
    path: String,
    // Whether this run made it.
    is_made: bool,
    // Whether it has a lock, which all runs that append to it share.
    is_locked: bool,
    // How many bytes it had, and how many were written to it since.
    length: u64,
    written: u64,
}

impl Appended {
    // The file at this path, which is made if it is not there. It is refused if it is no regular file, or if it may only grow.
    pub(crate) fn open<R: rt::Files<File = File>>(
        rt: &R,
        alloc: Global,
        path: &str,
    ) -> Result<Appended, NotMade> {
        let path = String::from_str(alloc, path)?;
        let (file, is_made) = opened(rt, path.as_str())?;
        let length = match file.metadata() {
            Ok(found) if !is_made => found.len(),
            _ => 0,
        };
        Ok(Appended {
            is_locked: file.try_lock_shared().is_ok(),
            file,
            path,
            is_made,
            length,
            written: 0,
        })
    }

    // Another handle of it, to write to. None if the system gives none.
    pub(crate) fn handle(&self) -> Option<File> {
        self.file.try_clone().ok()
    }

    // What the system says of it.
    pub(crate) fn facts(&self) -> Option<Facts> {
        Facts::of(&self.file)
    }

    // Whether this run made it.
    pub(crate) fn is_made(&self) -> bool {
        self.is_made
    }

    // Counts bytes that were written to it.
    pub(crate) fn note_written(&mut self, count: usize) {
        self.written = self.written.saturating_add(count as u64);
    }

    // Stores its bytes, if they are to be stored.
    pub(crate) fn end(&self, stores: bool) -> io::Result<()> {
        if stores { self.file.sync_all() } else { Ok(()) }
    }

    // Whether it still has a name.
    pub(crate) fn is_there(&self) -> bool {
        match self.file.metadata() {
            Ok(found) => found.nlink() > 0,
            Err(_) => false,
        }
    }

    // Keeps what was appended.
    pub(crate) fn keep(&self) {
        let _ = self.file.unlock();
    }

    // Cuts it back to what it had, and removes it if this run made it, unless somebody else appends to it as well: that would be lost.
    pub(crate) fn leave<R: rt::Files<File = File>>(&self, rt: &R) {
        if self.is_alone() && self.cut_back().is_ok() && self.is_made {
            self.remove(rt);
        }
        let _ = self.file.unlock();
    }

    // Whether nobody else has appended to it, and no other run does so now. The lock is changed for one that is not shared.
    fn is_alone(&self) -> bool {
        if self.is_locked && self.file.try_lock().is_err() {
            return false;
        }
        match self.file.metadata() {
            Ok(found) => found.len() == self.length.saturating_add(self.written),
            Err(_) => false,
        }
    }

    // Cuts off what was written.
    fn cut_back(&self) -> io::Result<()> {
        if self.written == 0 {
            return Ok(());
        }
        self.file.set_len(self.length)
    }

    // Removes it, if it is empty and its path still means it.
    fn remove<R: rt::Files<File = File>>(&self, rt: &R) {
        if let Ok(found) = self.file.metadata()
            && found.len() == 0
            && is_at(rt, self.path.as_str(), &self.file)
        {
            let _ = fs::remove_file(rt, self.path.as_str());
        }
    }
}

// The file at this path, to append to it, and whether it was made.
fn opened<R: rt::Files<File = File>>(rt: &R, path: &str) -> Result<(File, bool), NotMade> {
    for _ in 0..TRIES {
        let is_new = Facts::of_link(rt, path).is_none();
        let mut options = OpenOptions::new();
        options.append(true).create_new(is_new);
        match options.open(rt, path) {
            Ok(file) if is_new => return Ok((file, true)),
            Ok(file) => {
                refuse_uncut(rt, path, &file)?;
                return Ok((file, false));
            }
            Err(error) if is_new && error.kind() == ErrorKind::AlreadyExists => {}
            Err(error) if !is_new && error.kind() == ErrorKind::NotFound => {}
            Err(_) => return Err(NotMade::Refused),
        }
    }
    Err(NotMade::Refused)
}

// Refuses a file that is not regular, or that may only grow (Linux, FS_APPEND_FL): it cannot be opened without appending to it.
fn refuse_uncut<R: rt::Files<File = File>>(rt: &R, path: &str, file: &File) -> Result<(), NotMade> {
    match Facts::of(file) {
        Some(facts) if facts.kind == Kind::Regular => {}
        _ => return Err(NotMade::Refused),
    }
    let mut options = OpenOptions::new();
    options.write(true);
    match options.open(rt, path) {
        Err(error) if error.raw_os_error() == Some(NOT_PERMITTED) => {
            Err(NotMade::NotHeld(NotHeld::OnlyGrows))
        }
        _ => Ok(()),
    }
}
