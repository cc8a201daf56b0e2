use crate::facts::{Facts, Kind};
use std::alloc::Global;
use std::fs::File;
use std::io::Read;
use std::{rt, str};

// The list of mounts of this process (Linux, proc_pid_mountinfo).
const LIST: &str = "/proc/self/mountinfo";

// The types of file systems that have no device, and whose bytes go to no other machine or process.
const LOCAL_TYPES: [&str; 19] = [
    "aufs",
    "bcachefs",
    "btrfs",
    "devtmpfs",
    "ecryptfs",
    "ext2",
    "ext3",
    "ext4",
    "f2fs",
    "hugetlbfs",
    "overlay",
    "proc",
    "ramfs",
    "rootfs",
    "squashfs",
    "sysfs",
    "tmpfs",
    "xfs",
    "zfs",
];

// What is known of the mounts of this process. They are read once, when they are first asked for.
#[derive(Drop)]
pub(crate) struct Mounts {
    state: MountsState,
}

// Whether the list was read.
#[derive(Drop)]
enum MountsState {
    Unread,
    Read(Vec<u8>),
    Unknown,
}

impl Mounts {
    // Nothing was read.
    pub(crate) fn new() -> Mounts {
        Mounts {
            state: MountsState::Unread,
        }
    }

    // Whether the bytes of this file may be lost after they were written: it is a regular file, on a file system that is not local.
    pub(crate) fn may_lose<R: rt::Files<File = File>>(
        &mut self,
        rt: &R,
        alloc: Global,
        facts: Option<Facts>,
    ) -> bool {
        match facts {
            Some(facts) if facts.kind == Kind::Regular && facts.has_no_device() => {
                !self.holds_local(rt, alloc, facts.minor())
            }
            _ => false,
        }
    }

    // Whether the file system with this number is local. The list is read if it was not.
    fn holds_local<R: rt::Files<File = File>>(
        &mut self,
        rt: &R,
        alloc: Global,
        minor: u64,
    ) -> bool {
        if let MountsState::Unread = &self.state {
            self.state = match read_list(rt, alloc) {
                Some(list) => MountsState::Read(list),
                None => MountsState::Unknown,
            };
        }
        match &self.state {
            MountsState::Read(list) => is_local(list.as_slice(), minor),
            _ => false,
        }
    }
}

// The list of mounts. None if it cannot be read.
fn read_list<R: rt::Files<File = File>>(rt: &R, alloc: Global) -> Option<Vec<u8>> {
    let mut file = File::open(rt, LIST).ok()?;
    let mut list = Vec::new(alloc);
    file.read_to_end(&mut list).ok()?;
    Some(list)
}

// Whether the file system with major number 0 and this minor number is local, as this list says. One that the list does not name is:
// the files of btrfs and overlay have numbers of their own.
fn is_local(list: &[u8], minor: u64) -> bool {
    for line in list.split(|byte| *byte == b'\n') {
        if let Some(name) = type_of(line, minor) {
            return LOCAL_TYPES.contains(&name);
        }
    }
    true
}

// The type in this line of the list, if the line is of the file system with major number 0 and this minor number.
fn type_of(line: &[u8], minor: u64) -> Option<&str> {
    let mut fields = line.split(|byte| *byte == b' ');
    let device = str::from_utf8(fields.nth(2)?).ok()?;
    if device.strip_prefix("0:")?.parse::<u64>().ok()? != minor {
        return None;
    }
    fields.find(|field| *field == b"-".as_slice())?;
    str::from_utf8(fields.next()?).ok()
}
