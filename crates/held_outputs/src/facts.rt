use std::fs::{self, Metadata, OpenFile};
use std::os::unix::fs::{FileTypeExt, MetadataExt};
use std::rt;

// The number of the null device on Linux: major number 1, minor number 3.
const NULL: u64 = 0x103;

// The major number of the devices of memory on Linux, as /dev/zero and /dev/urandom.
const MEMORY: u64 = 1;

// The numbers of terminals that stand for another one on Linux: /dev/tty, /dev/console and /dev/tty0.
const ALIASES: [u64; 3] = [0x500, 0x501, 0x400];

/// What kind a file is.
#[derive(Clone, Copy, PartialEq, Eq)]
pub enum Kind {
    /// A regular file.
    Regular,
    /// A directory. It can be opened, but not read.
    Directory,
    /// The null device (POSIX.1-2017 XBD 10.1, /dev/null). No read of it waits.
    Null,
    /// A FIFO, or a pipe of the caller. To open it may wait for its other end.
    Fifo,
    /// A block device, or one of memory. No read of it takes bytes from another.
    Device,
    /// A terminal, or another character device.
    Terminal,
    /// A socket.
    Other,
}

/// What the system says of a file (POSIX.1-2017 XBD sys/stat.h). Two names are of one file if its device and inode are equal. A terminal may
/// have several inodes: its device is its own number, and its inode is 0.
#[derive(Clone, Copy, PartialEq, Eq)]
pub struct Facts {
    /// What kind it is.
    pub kind: Kind,
    device: u64,
    inode: u64,
}

impl Facts {
    /// Those of an open file. None if the system says nothing.
    pub fn of<F: OpenFile>(file: &F) -> Option<Facts> {
        Some(facts_in(&file.metadata().ok()?))
    }

    /// Whether its file system has no device of its own: the major number of its device is 0.
    pub fn has_no_device(self) -> bool {
        major(self.device) == 0
    }

    /// Whether it is a stream: what one reader of it gets, no other one does.
    pub fn is_stream(self) -> bool {
        matches!(self.kind, Kind::Fifo | Kind::Terminal | Kind::Other)
    }

    /// Whether both are one stream, or may be.
    pub fn is_stream_of(self, other: Facts) -> bool {
        self.is_stream() && (self == other || self.may_be_terminal(other))
    }

    // Whether both are terminals, and one may be another name of the other.
    fn may_be_terminal(self, other: Facts) -> bool {
        self.kind == Kind::Terminal
            && other.kind == Kind::Terminal
            && (ALIASES.contains(&self.device) || ALIASES.contains(&other.device))
    }

    /// The minor number of its device.
    pub fn minor(self) -> u64 {
        (self.device & 0xff) | ((self.device >> 12) & 0xffff_ff00)
    }

    /// Those in what the system said of a file.
    pub fn in_metadata(found: &Metadata) -> Facts {
        facts_in(found)
    }

    /// Whether both files are on one device.
    pub fn has_device_of(self, other: Facts) -> bool {
        self.device == other.device
    }

    /// Those of what is at this path, a link too. None if the system says nothing.
    pub fn of_link<R: rt::Files>(rt: &R, path: &str) -> Option<Facts> {
        Some(facts_in(&fs::symlink_metadata(rt, path).ok()?))
    }

    /// Those of the file at this path. None if the system says nothing.
    pub fn at<R: rt::Files>(rt: &R, path: &str) -> Option<Facts> {
        Some(facts_in(&fs::metadata(rt, path).ok()?))
    }
}

// The facts in what the system said.
fn facts_in(found: &Metadata) -> Facts {
    match kind_in(found) {
        Kind::Terminal => Facts {
            kind: Kind::Terminal,
            device: found.rdev(),
            inode: 0,
        },
        kind => Facts {
            kind,
            device: found.dev(),
            inode: found.ino(),
        },
    }
}

// The kind in what the system said.
fn kind_in(found: &Metadata) -> Kind {
    if found.is_file() {
        Kind::Regular
    } else if found.is_dir() {
        Kind::Directory
    } else if found.file_type().is_fifo() {
        Kind::Fifo
    } else if found.file_type().is_char_device() {
        kind_of_device(found.rdev())
    } else if found.file_type().is_block_device() {
        Kind::Device
    } else {
        Kind::Other
    }
}

// The kind of the character device of this number.
fn kind_of_device(number: u64) -> Kind {
    if number == NULL {
        Kind::Null
    } else if major(number) == MEMORY {
        Kind::Device
    } else {
        Kind::Terminal
    }
}

// The major number of a device (Linux, makedev).
fn major(device: u64) -> u64 {
    ((device >> 8) & 0xfff) | ((device >> 32) & !0xfff)
}
