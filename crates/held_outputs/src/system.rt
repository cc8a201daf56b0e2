// The folders of the system. That they are as `Folder` and `Disk` say is trusted.
use crate::disk::Disk;
use crate::error_number::ErrorNumber;
use crate::facts::Facts;
use crate::not_held::NotMade;
use crate::paths::text_of;
use crate::places::{folder_to_store, is_at};
use folders::{Access, CallFault, Folder, Name};
use std::alloc::{AllocError, Global};
use std::fs::{self, File, OpenOptions};
use std::io::{self, ErrorKind, Write};
use std::os::unix::fs::OpenOptionsExt;
use std::rt;

// The mode of a new file that nobody else may open.
const PRIVATE: u32 = 0o600;

// The mode with which a shell makes an output (POSIX.1-2017 XCU 2.7.2). The system takes from it what the umask, or its folder, says.
const ORDINARY: u32 = 0o666;

/// The folders of the system, with a call of the system for each method. Contracts do not know what its names mean.
#[derive(Drop)]
pub struct SystemDisk<R> {
    rt: R,
    alloc: Global,
    // The files that are open, with their names.
    files: Vec<NamedFile>,
    // The folders that are to be stored.
    folders: Vec<File>,
}

// An open file, and its name.
#[derive(Drop)]
struct NamedFile {
    name: Name,
    file: File,
}

impl<R> SystemDisk<R> {
    /// The folders of this runtime. No file is open.
    pub fn new(rt: R, alloc: Global) -> SystemDisk<R> {
        SystemDisk {
            rt,
            alloc,
            files: Vec::new(alloc),
            folders: Vec::new(alloc),
        }
    }

    // The place of an open file in the list.
    fn place_of(&self, name: &Name) -> Option<usize> {
        self.files.iter().position(|it| it.name.is(name.bytes()))
    }

    // Takes an open file out of the list.
    fn taken(&mut self, name: &Name) -> Option<File> {
        let place = self.place_of(name)?;
        if place < self.files.len() {
            let NamedFile { name: _name, file } = self.files.swap_remove(place);
            return Some(file);
        }
        None
    }

    // Notes an open file.
    fn note(&mut self, name: &Name, file: File) -> Result<(), AllocError> {
        let name = name.copied(self.alloc)?;
        self.files.reserve(1)?;
        self.files.push_reserved(NamedFile { name, file });
        Ok(())
    }
}

impl<R: rt::Files<File = File> + Drop> Folder for SystemDisk<R> {
    ghost use Rattle.std.specs.Prelude.{false};
    ghost use Rattle.held_outputs.specs.inner.Disk.{nothing_counts, nothing_known};

    ghost names_known = { false };

    ghost shows = { λ _. nothing_known };

    ghost moments = { λ _ _. nothing_counts };

    fn create(&mut self, name: &Name, access: Access) -> Result<(), CallFault> {
        let mut options = OpenOptions::new();
        options.write(true).create_new(true).mode(mode_of(access));
        match options.open(&self.rt, text_of(name)) {
            Ok(file) => {
                if self.note(name, file).is_err() {
                    let _ = fs::remove_file(&self.rt, text_of(name));
                    return Err(CallFault::NoMemory);
                }
                Ok(())
            }
            Err(error) => Err(refused(error)),
        }
    }

    fn append(&mut self, name: &Name, bytes: &[u8]) -> Result<(), CallFault> {
        match self.place_of(name) {
            Some(place) if place < self.files.len() => {
                self.files[place].file.write_all(bytes).map_err(refused)
            }
            _ => Err(CallFault::Refused(None)),
        }
    }

    fn store(&mut self, name: &Name) -> Result<(), CallFault> {
        match self.file(name) {
            Some(file) => file.sync_all().map_err(refused),
            None => Err(CallFault::Refused(None)),
        }
    }

    fn rename(&mut self, from: &Name, to: &Name) -> Result<(), CallFault> {
        fs::rename(&self.rt, text_of(from), text_of(to)).map_err(refused)
    }

    // A name that means another file by now is not removed.
    fn remove(&mut self, name: &Name) -> Result<(), CallFault> {
        let Some(file) = self.taken(name) else {
            return Ok(());
        };
        let removed = if is_at(&self.rt, text_of(name), &file) {
            fs::remove_file(&self.rt, text_of(name))
        } else {
            Ok(())
        };
        let _ = file.unlock();
        match removed {
            Err(error) if error.kind() != ErrorKind::NotFound => Err(refused(error)),
            _ => Ok(()),
        }
    }

    fn store_names(&mut self) -> Result<(), CallFault> {
        while let Some(folder) = self.folders.pop() {
            folder.sync_all().map_err(refused)?;
        }
        Ok(())
    }
}

impl<R: rt::Files<File = File> + Drop> Disk for SystemDisk<R> {
    fn file(&self, name: &Name) -> Option<&File> {
        let place = self.place_of(name)?;
        Some(&self.files.get(place)?.file)
    }

    fn take_over(&mut self, name: &Name, file: File) -> Result<(), AllocError> {
        self.note(name, file)
    }

    fn let_go(&mut self, name: &Name) {
        if let Some(file) = self.taken(name) {
            let _ = file.unlock();
        }
    }

    fn end_writes(&mut self, _name: &Name) {}

    fn keep_folder(&mut self, place: &Name) -> Result<(), NotMade> {
        let folder = folder_to_store(&self.rt, text_of(place))?;
        let facts = Facts::of(&folder).ok_or(NotMade::Refused)?;
        if !self
            .folders
            .iter()
            .any(|kept| Facts::of(kept) == Some(facts))
        {
            self.folders.reserve(1)?;
            self.folders.push_reserved(folder);
        }
        Ok(())
    }
}

// The mode of a new file that these may open.
fn mode_of(access: Access) -> u32 {
    match access {
        Access::Private => PRIVATE,
        Access::Ordinary => ORDINARY,
    }
}

// Why the system refused a call.
fn refused(error: io::Error) -> CallFault {
    let number: ErrorNumber = error.raw_os_error();
    CallFault::Refused(number)
}
