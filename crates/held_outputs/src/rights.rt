// Who may do what with a file.
use std::fs::{File, Metadata, Permissions};
use std::io;
use std::os::fd::AsFd;
use std::os::unix::fs::{MetadataExt, PermissionsExt, fchown};

// The bits of a mode that say who may do what (POSIX.1-2017 XBD sys/stat.h).
const RIGHTS: u32 = 0o7777;

// Those with which a program runs as the owner or the group of its file.
const SET_ID: u32 = 0o6000;

// Those of the group, and those of all others.
const GROUP: u32 = 0o070;

const OTHERS: u32 = 0o007;

// The mode, the owner and the group of a file.
#[derive(Clone, Copy)]
pub(crate) struct Rights {
    mode: u32,
    owner: u32,
    group: u32,
}

impl Rights {
    // Those in what the system said of a file.
    pub(crate) fn in_metadata(found: &Metadata) -> Rights {
        Rights {
            mode: found.mode() & RIGHTS,
            owner: found.uid(),
            group: found.gid(),
        }
    }

    // Those of an open file. None if the system says nothing.
    pub(crate) fn of(file: &File) -> Option<Rights> {
        Some(Rights::in_metadata(&file.metadata().ok()?))
    }

    // Gives them to a file, as far as the system allows that. It fails if the mode cannot be given.
    pub(crate) fn give(self, file: &File) -> io::Result<()> {
        let own = Rights::in_metadata(&file.metadata()?);
        let keeps_group = own.group == self.group
            || fchown(file.as_fd(), None, Some(self.group)).is_ok();
        let keeps_owner = own.owner == self.owner
            || fchown(file.as_fd(), Some(self.owner), None).is_ok();
        let mode = self.mode_with(keeps_owner, keeps_group);
        if mode == own.mode {
            return Ok(());
        }
        file.set_permissions(Permissions::from_mode(mode))
    }

    // The mode for a file that has this owner and this group, or not. A stranger's program does not run as the new owner, and another group
    // may do no more than all others.
    fn mode_with(self, keeps_owner: bool, keeps_group: bool) -> u32 {
        let mut mode = self.mode;
        if !keeps_owner || !keeps_group {
            mode &= !SET_ID;
        }
        if !keeps_group {
            mode &= !GROUP | ((mode & OTHERS) << 3);
        }
        mode
    }
}
