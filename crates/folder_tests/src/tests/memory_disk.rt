// A disk in memory. Its files are no files of the system, so it has no handle of one.
use folders::{Access, CallFault, Folder, MemoryFolder, Name};
use held_outputs::{Disk, NotMade};
use std::alloc::AllocError;
use std::fs::File;

// A folder in memory, as a disk. So what is asked of a disk can be met.
#[derive(Drop)]
pub(super) struct MemoryDisk {
    pub(super) folder: MemoryFolder,
}

impl Folder for MemoryDisk {
    ghost use Rattle.std.specs.Prelude.{true};

    ghost names_known = { true };

    ghost shows = { λ d. ⟦<MemoryFolder as Folder>⟧.shows d.folder };

    ghost moments = { λ known d. ⟦<MemoryFolder as Folder>⟧.moments known d.folder };

    fn create(&mut self, name: &Name, access: Access) -> Result<(), CallFault> {
        self.folder.create(name, access)
    }

    fn append(&mut self, name: &Name, bytes: &[u8]) -> Result<(), CallFault> {
        self.folder.append(name, bytes)
    }

    fn store(&mut self, name: &Name) -> Result<(), CallFault> {
        self.folder.store(name)
    }

    fn rename(&mut self, from: &Name, to: &Name) -> Result<(), CallFault> {
        self.folder.rename(from, to)
    }

    fn remove(&mut self, name: &Name) -> Result<(), CallFault> {
        self.folder.remove(name)
    }

    fn store_names(&mut self) -> Result<(), CallFault> {
        self.folder.store_names()
    }
}

impl Disk for MemoryDisk {
    fn file(&self, _name: &Name) -> Option<&File> {
        None
    }

    fn take_over(&mut self, _name: &Name, _file: File) -> Result<(), AllocError> {
        Ok(())
    }

    fn let_go(&mut self, _name: &Name) {}

    fn end_writes(&mut self, _name: &Name) {}

    fn keep_folder(&mut self, _place: &Name) -> Result<(), NotMade> {
        Ok(())
    }
}
