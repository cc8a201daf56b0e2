// A new file, which is to take the place of another once the run has finished.
ghost use Rattle.std.specs.Prelude.{◌≡◌, ◌≢◌, true, IsTrue, OnOk};
ghost use Rattle.folders.specs.inner.Folder.{IsStored, LeavesAlone};

use crate::disk::Disk;
use crate::error_number::{ErrorNumber, IS_THERE, NO_ENTRY, NOT_PERMITTED};
use crate::facts::{Facts, Kind};
use crate::leftover::left_at;
use crate::names::number_of;
use crate::not_held::{NotHeld, NotMade};
use crate::paths::{folder_and_name, text_of};
use crate::places::is_at;
use crate::rights::Rights;
use folders::{Access, CallFault, Name, Output};
use std::alloc::{AllocError, Global};
use std::fs::{self, File, Metadata, OpenOptions, TryLockError};
use std::io::ErrorKind;
use std::rt;

// How often a new file is tried, while other runs make and remove one of the same name.
const TRIES: usize = 16;

// The longest name that a file can have on Linux, in bytes (NAME_MAX), and what a new file's name has more than that of its place.
const LONGEST: usize = 255;

const ADDED: usize = 7;

// The first value and the factor of the 64-bit FNV-1a hash.
const FNV_BASIS: u64 = 0xcbf2_9ce4_8422_2325;

const FNV_PRIME: u64 = 0x0100_0000_01b3;

// What is known of a new file in the folder of the one that it is to replace.
#[derive(Clone, Copy)]
pub(crate) struct NewFile {
    // The rights that it gets once it is whole.
    pub(crate) rights: Rights,
    // What the system says of their folder, and of the file that is to be replaced, if there is one.
    pub(crate) folder: Facts,
    pub(crate) replaced: Option<Facts>,
    // Whether it is whole, and has its rights.
    pub(crate) is_ended: bool,
}

// Makes a new file for a place. Nobody else may open it until it is whole. It is locked as long as it is open, so no other run takes it. If a file is
// in its place, it has to be one that may be written and removed. It is refused if its name, or the old file, is one of these, which are in use.
pub(crate) fn make<R: rt::Files<File = File>, D: Disk>(
    rt: &R,
    disk: &mut D,
    names: &Output,
    used: &[Facts],
) -> Result<NewFile, NotMade>
    ensures others { IsTrue D.names_known
        → LeavesAlone (λ n. n ≢ names.now.new) (D.shows disk.old) (D.shows disk.new) }
{
    let place = text_of(&names.place);
    let old = old_file(rt, place, used)?;
    let folder = Facts::at(rt, folder_and_name(place).0).ok_or(NotMade::Refused)?;
    let rights = rights_for(rt, disk, &names.new, &old, used)?;
    made(rt, disk, &names.new, used, Access::Private)?;
    let replaced = facts_in(&old);
    fits(disk, &names.new, replaced)?;
    Ok(NewFile {
        rights,
        folder,
        replaced,
        is_ended: false,
    })
}

// The rights of a new file: those of the old one, or of one that the system makes.
fn rights_for<R: rt::Files<File = File>, D: Disk>(
    rt: &R,
    disk: &mut D,
    name: &Name,
    old: &Option<Metadata>,
    used: &[Facts],
) -> Result<Rights, NotMade>
    ensures others { IsTrue D.names_known
        → LeavesAlone (λ n. n ≢ name.now) (D.shows disk.old) (D.shows disk.new) }
{
    match old {
        Some(old) => Ok(Rights::in_metadata(old)),
        None => rights_of_new(rt, disk, name, used),
    }
}

// Removes a new file again if it cannot replace the old one, of which this is known.
fn fits<D: Disk>(disk: &mut D, name: &Name, replaced: Option<Facts>) -> Result<(), NotMade>
    ensures others { IsTrue D.names_known
        → LeavesAlone (λ n. n ≢ name.now) (D.shows disk.old) (D.shows disk.new) }
{
    let Some(old) = replaced else {
        return Ok(());
    };
    match can_replace(facts_of(disk, name), old) {
        Ok(()) => Ok(()),
        Err(why) => {
            let _ = disk.remove(name);
            Err(NotMade::NotHeld(why))
        }
    }
}

// Gives a new file these rights, now that it is whole, and stores its bytes if so. Returns why that failed.
pub(crate) fn end_file<D: Disk>(
    disk: &mut D,
    name: &Name,
    rights: Option<Rights>,
    stores: bool,
) -> Result<(), ErrorNumber>
    ensures others { IsTrue D.names_known
        → LeavesAlone (λ n. n ≢ name.now) (D.shows disk.old) (D.shows disk.new) }
    ensures stored { IsTrue D.names_known → stores ≡ true
        → OnOk result (IsStored name.now (D.shows disk.new)) }
{
    disk.end_writes(name);
    if let Err(error) = give(disk, name, rights) {
        return Err(error);
    }
    if stores {
        if let Err(why) = disk.store(name) {
            return Err(number_of(why));
        }
    }
    Ok(())
}

// Gives the open file of this name rights.
fn give<D: Disk>(disk: &D, name: &Name, rights: Option<Rights>) -> Result<(), ErrorNumber> {
    match (rights, disk.file(name)) {
        (Some(rights), Some(file)) => rights.give(file).map_err(|error| error.raw_os_error()),
        _ => Ok(()),
    }
}

// What the system says of the open file of this name.
fn facts_of<D: Disk>(disk: &D, name: &Name) -> Option<Facts> {
    Facts::of(disk.file(name)?)
}

/// The path of the new file for this place: `.NAME.plrun` in the same folder. If that name would be too long, 16 digits take the place of NAME.
pub fn path_of_new(alloc: Global, place: &str) -> Result<String, AllocError> {
    let (folder, name) = folder_and_name(place);
    let mut path = String::from_str(alloc, folder)?;
    path.push_str("/.")?;
    if name.len() <= LONGEST - ADDED {
        path.push_str(name)?;
    } else {
        let digits = format!(in alloc; "{:016x}", hash_of(name))?;
        path.push_str(digits.as_str())?;
    }
    path.push_str(".plrun")?;
    Ok(path)
}

// A number that is the same for the same name (FNV-1a).
fn hash_of(name: &str) -> u64 {
    let mut hash = FNV_BASIS;
    for byte in name.as_bytes() {
        hash = (hash ^ u64::from(*byte)).wrapping_mul(FNV_PRIME);
    }
    hash
}

/// What the system says of the file at this place, if there is one. It is refused if it may not be written or removed, or is one of these, which are
/// in use.
pub fn old_file<R: rt::Files<File = File>>(
    rt: &R,
    place: &str,
    used: &[Facts],
) -> Result<Option<Metadata>, NotMade> {
    if folder_and_name(place).1.is_empty() {
        return Err(NotMade::Refused);
    }
    let mut options = OpenOptions::new();
    options.write(true);
    let file = match options.open(rt, place) {
        Ok(file) => file,
        Err(error) if error.kind() == ErrorKind::NotFound => return Ok(None),
        Err(_) => return Err(NotMade::Refused),
    };
    let found = file.metadata().map_err(|_| NotMade::Refused)?;
    let facts = Facts::in_metadata(&found);
    if facts.kind != Kind::Regular || used.contains(&facts) {
        return Err(NotMade::Refused);
    }
    refuse_kept(rt, place)?;
    Ok(Some(found))
}

/// The facts in what the system said of a file, if it said something.
pub fn facts_in(found: &Option<Metadata>) -> Option<Facts> {
    match found {
        Some(found) => Some(Facts::in_metadata(found)),
        None => None,
    }
}

// Refuses a regular file that may not be removed, as one in a folder that may only grow (Linux, FS_APPEND_FL), or that of another user in a sticky
// folder. To remove it as a folder fails in any case: if it may be removed, only since it is none (POSIX.1-2017 XSH rmdir, ENOTDIR).
fn refuse_kept<R: rt::Files<File = File>>(rt: &R, path: &str) -> Result<(), NotMade> {
    match fs::remove_dir(rt, path) {
        Err(error) if error.raw_os_error() == Some(NOT_PERMITTED) => {
            Err(NotMade::NotHeld(NotHeld::NoRemoval))
        }
        _ => Ok(()),
    }
}

/// Whether a file can replace another: only one on the same device can.
pub fn can_replace(new: Option<Facts>, old: Facts) -> Result<(), NotHeld> {
    match new {
        Some(new) if new.has_device_of(old) => Ok(()),
        _ => Err(NotHeld::MountPoint),
    }
}

// The rights that the system gives an output that it makes under this name: those of an empty file, which is made and removed again. The umask alone
// does not tell them: the folder may have an access control list for its files.
fn rights_of_new<R: rt::Files<File = File>, D: Disk>(
    rt: &R,
    disk: &mut D,
    name: &Name,
    used: &[Facts],
) -> Result<Rights, NotMade>
    ensures others { IsTrue D.names_known
        → LeavesAlone (λ n. n ≢ name.now) (D.shows disk.old) (D.shows disk.new) }
{
    made(rt, disk, name, used, Access::Ordinary)?;
    let rights = match disk.file(name) {
        Some(file) => Rights::of(file),
        None => None,
    };
    if disk.remove(name).is_err() {
        return Err(NotMade::NotHeld(NotHeld::NoRemoval));
    }
    rights.ok_or(NotMade::Refused)
}

// Makes a new and locked file of this name, for those who may open it. One that an ended run left there is removed first. If the file system has no
// locks, it is removed again.
fn made<R: rt::Files<File = File>, D: Disk>(
    rt: &R,
    disk: &mut D,
    name: &Name,
    used: &[Facts],
    access: Access,
) -> Result<(), NotMade>
    ensures others { IsTrue D.names_known
        → LeavesAlone (λ n. n ≢ name.now) (D.shows disk.old) (D.shows disk.new) }
{
    for _ in 0..TRIES {
        if is_made(rt, disk, name, used, access)? {
            return Ok(());
        }
    }
    Err(NotMade::NotHeld(NotHeld::Locked))
}

// Makes it, unless one is there that an ended run left: that is removed. Returns whether it is made and locked.
fn is_made<R: rt::Files<File = File>, D: Disk>(
    rt: &R,
    disk: &mut D,
    name: &Name,
    used: &[Facts],
    access: Access,
) -> Result<bool, NotMade>
    ensures others { IsTrue D.names_known
        → LeavesAlone (λ n. n ≢ name.now) (D.shows disk.old) (D.shows disk.new) }
{
    match disk.create(name, access) {
        Ok(()) => is_locked(rt, disk, name),
        Err(CallFault::Refused(Some(IS_THERE))) => {
            remove_left(rt, disk, name, used)?;
            Ok(false)
        }
        Err(why) => Err(fault_of_make(why)),
    }
}

// Locks a new file. One that another run has is let go, and one without locks is removed.
fn is_locked<R: rt::Files<File = File>, D: Disk>(
    rt: &R,
    disk: &mut D,
    name: &Name,
) -> Result<bool, NotMade>
    ensures others { IsTrue D.names_known
        → LeavesAlone (λ n. n ≢ name.now) (D.shows disk.old) (D.shows disk.new) }
{
    match lock_of(rt, disk, name) {
        Lock::Own => Ok(true),
        Lock::Lost => {
            disk.let_go(name);
            Ok(false)
        }
        Lock::None => {
            let _ = disk.remove(name);
            Err(NotMade::NotHeld(NotHeld::NoLocks))
        }
    }
}

// What came of a lock.
enum Lock {
    // The file is locked, and still has its name.
    Own,
    // Another run has it, or it has lost its name.
    Lost,
    // The file system has no locks.
    None,
}

// Locks the open file of this name.
fn lock_of<R: rt::Files<File = File>, D: Disk>(rt: &R, disk: &D, name: &Name) -> Lock {
    let Some(file) = disk.file(name) else {
        return Lock::Lost;
    };
    match file.try_lock() {
        Ok(()) if is_at(rt, text_of(name), file) => Lock::Own,
        Ok(()) | Err(TryLockError::WouldBlock) => Lock::Lost,
        Err(TryLockError::Error(_)) => Lock::None,
    }
}

// Why a new file was not made. If its folder is not there, that is said of the output itself.
fn fault_of_make(why: CallFault) -> NotMade {
    match why {
        CallFault::NoMemory => NotMade::NoMemory,
        CallFault::Refused(Some(NO_ENTRY)) => NotMade::Refused,
        CallFault::Refused(_) => NotMade::NotHeld(NotHeld::NoNewFile),
    }
}

// Removes what an ended run left under this name.
fn remove_left<R: rt::Files<File = File>, D: Disk>(
    rt: &R,
    disk: &mut D,
    name: &Name,
    used: &[Facts],
) -> Result<(), NotMade>
    ensures others { IsTrue D.names_known
        → LeavesAlone (λ n. n ≢ name.now) (D.shows disk.old) (D.shows disk.new) }
{
    if let Some(left) = left_at(rt, text_of(name), used)? {
        disk.take_over(name, left)?;
        if disk.remove(name).is_err() {
            return Err(NotMade::NotHeld(NotHeld::NoRemoval));
        }
    }
    Ok(())
}
