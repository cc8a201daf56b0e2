// A disk that keeps what was stored, and of all else the calls that luck names. An append that it lost leaves half of its bytes.
use folders::FolderCall;
use std::alloc::Global;
use std::test::Fail;

// Which calls reached the disk: all before `stored`, and of the later ones those whose bit is set.
#[derive(Clone, Copy)]
struct Reached {
    stored: usize,
    luck: u64,
}

const ALL: Reached = Reached {
    stored: usize::MAX,
    luck: 0,
};

impl Reached {
    fn has(&self, call: usize) -> bool {
        call < self.stored || (call < 64 && (self.luck >> (call as u32)) & 1 == 1)
    }
}

// The number of the call that made the file that a name means.
fn maker(calls: &[FolderCall], name: &[u8]) -> Option<usize> {
    let mut name = name;
    for (at, call) in calls.iter().enumerate().rev() {
        match call {
            FolderCall::Create(made) if made.is(name) => return Some(at),
            FolderCall::Remove(gone) if gone.is(name) => return None,
            FolderCall::Rename(from, to) if to.is(name) => name = from.bytes(),
            FolderCall::Rename(from, _) if from.is(name) => return None,
            _ => {}
        }
    }
    None
}

// The same of the calls that reached the disk. A rename that did took its file along, whether that had a name there or not.
fn maker_left(calls: &[FolderCall], reached: Reached, name: &[u8]) -> Option<usize> {
    for (at, call) in calls.iter().enumerate().rev() {
        if !reached.has(at) {
            continue;
        }
        match call {
            FolderCall::Create(made) if made.is(name) => return Some(at),
            FolderCall::Remove(gone) if gone.is(name) => return None,
            FolderCall::Rename(from, to) if to.is(name) => {
                return maker(calls.get(..at).unwrap_or(calls), from.bytes());
            }
            FolderCall::Rename(from, _) if from.is(name) => return None,
            _ => {}
        }
    }
    None
}

// Before which call the names were stored.
fn names_stored(calls: &[FolderCall]) -> usize {
    let mut stored = 0;
    for (at, call) in calls.iter().enumerate() {
        if matches!(call, FolderCall::StoreNames) {
            stored = at;
        }
    }
    stored
}

// Before which call the bytes of a file were stored.
fn bytes_stored(calls: &[FolderCall], file: usize) -> usize {
    let mut stored = 0;
    for (at, call) in calls.iter().enumerate() {
        if let FolderCall::Store(name) = call {
            if maker(&calls[..at], name.bytes()) == Some(file) {
                stored = at;
            }
        }
    }
    stored
}

// The bytes of a file.
fn bytes(
    alloc: Global,
    calls: &[FolderCall],
    reached: Reached,
    file: usize,
) -> Result<Vec<u8>, Fail> {
    let mut bytes = Vec::new(alloc);
    for (at, call) in calls.iter().enumerate() {
        if let FolderCall::Append(name, content) = call {
            if maker(&calls[..at], name.bytes()) == Some(file) {
                let more = content.bytes();
                let kept = if reached.has(at) {
                    more.len()
                } else {
                    more.len() / 2
                };
                bytes.extend_from_slice(&more[..kept])?;
            }
        }
    }
    Ok(bytes)
}

// What a look finds of a name after these calls.
pub(super) fn seen_of(
    alloc: Global,
    calls: &[FolderCall],
    name: &[u8],
) -> Result<Option<Vec<u8>>, Fail> {
    match maker(calls, name) {
        Some(file) => Ok(Some(bytes(alloc, calls, ALL, file)?)),
        None => Ok(None),
    }
}

// What a power loss leaves of a name after these calls.
pub(super) fn left_of(
    alloc: Global,
    calls: &[FolderCall],
    luck: u64,
    name: &[u8],
) -> Result<Option<Vec<u8>>, Fail> {
    let names = Reached {
        stored: names_stored(calls),
        luck,
    };
    match maker_left(calls, names, name) {
        Some(file) => {
            let held = Reached {
                stored: bytes_stored(calls, file),
                luck,
            };
            Ok(Some(bytes(alloc, calls, held, file)?))
        }
        None => Ok(None),
    }
}
