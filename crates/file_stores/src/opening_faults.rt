// Why a file cannot be opened, as the system says afterwards.
use crate::descriptors::DescriptorFault;
use crate::facts::{Facts, Kind, may_be_one_file, may_be_one_stream};
use crate::streams::{StandardStreams, Stream};
use std::alloc::{AllocError, Global};
use std::fs::{self, File, OpenOptions};
use std::io::{self, ErrorKind};
use std::rt;

/// What the system says of the file of a name.
#[derive(Clone, Copy)]
pub enum OpensNow {
    /// It refuses to open it, for this error.
    Refused(io::Error),
    /// It is a folder, which is no input.
    Folder,
    /// It leads to a descriptor of this process that no name may mean.
    Descriptor(DescriptorFault),
    /// It can be opened, or nothing is known since to open it might wait.
    Opens,
}

/// What the system says now of the file at this path, as an input or as an output. Only regular files and folders are opened, and nothing of
/// them is read, written or emptied. A file that is not there is made for a moment, and removed, if it is an output. No contract says what is
/// found, since the system may change its files at any time.
pub fn opening_now<R: rt::Files<File = File>>(
    rt: &R,
    alloc: Global,
    streams: &StandardStreams,
    path: &str,
    is_output: bool,
) -> Result<OpensNow, AllocError> {
    Ok(match streams.given().fault_of(rt, alloc, path)? {
        Some(fault) => OpensNow::Descriptor(fault),
        None => opening_of_path(rt, path, is_output),
    })
}

// What the system says of the file at this path, if it leads to no descriptor that no name may mean.
fn opening_of_path<R: rt::Files<File = File>>(rt: &R, path: &str, is_output: bool) -> OpensNow {
    match fs::metadata(rt, path) {
        Ok(found) => match Facts::in_metadata(&found).kind {
            Kind::Directory if !is_output => OpensNow::Folder,
            Kind::Directory | Kind::Regular => opening_of_old(rt, path, is_output),
            Kind::Null | Kind::Fifo | Kind::Device | Kind::Terminal | Kind::Other => {
                OpensNow::Opens
            }
        },
        Err(error) if is_output && error.kind() == ErrorKind::NotFound => {
            opening_of_new(rt, path, error)
        }
        Err(error) => OpensNow::Refused(error),
    }
}

// What the system says of a regular file or a folder that is there.
fn opening_of_old<R: rt::Files<File = File>>(rt: &R, path: &str, is_output: bool) -> OpensNow {
    let mut options = OpenOptions::new();
    options.read(!is_output).write(is_output);
    match options.open(rt, path) {
        Ok(_) => OpensNow::Opens,
        Err(error) => OpensNow::Refused(error),
    }
}

// What the system says of an output that is not there. It is made for a moment. If a link leads to it, nothing is made, and this error stays.
fn opening_of_new<R: rt::Files<File = File>>(rt: &R, path: &str, error: io::Error) -> OpensNow {
    if fs::symlink_metadata(rt, path).is_ok() {
        return OpensNow::Refused(error);
    }
    let mut options = OpenOptions::new();
    options.write(true).create_new(true);
    match options.open(rt, path) {
        Ok(_) => {
            let _ = fs::remove_file(rt, path);
            OpensNow::Opens
        }
        Err(error) => OpensNow::Refused(error),
    }
}

/// Whether a file is that of a standard stream.
#[derive(Clone, Copy, Debug, PartialEq, Eq)]
pub enum Sameness {
    /// It is.
    Same,
    /// It is not.
    Apart,
    /// The system says nothing of the stream, so it may be.
    Unknown,
}

/// Whether both paths lead to one file that may not be opened for both, as far as the system says: one of them as an output, or both as inputs.
pub fn is_one_file<R: rt::Files>(rt: &R, path: &str, other: &str, is_output: bool) -> bool {
    match (Facts::at(rt, path), Facts::at(rt, other)) {
        (Some(facts), Some(found)) if is_output => facts == found,
        (Some(facts), Some(found)) => facts.is_stream_of(found),
        _ => false,
    }
}

/// Whether a path leads to the file of a standard stream, and so may not be opened too: one of them as an output, or both as inputs.
pub fn is_standard<R: rt::Files>(
    rt: &R,
    streams: &StandardStreams,
    stream: Stream,
    path: &str,
    is_output: bool,
) -> Sameness {
    let own = streams.facts(stream);
    let facts = Facts::at(rt, path);
    let may_be = facts.is_some()
        && if is_output {
            may_be_one_file(own, facts)
        } else {
            may_be_one_stream(own, facts)
        };
    match own {
        _ if !may_be => Sameness::Apart,
        Some(_) => Sameness::Same,
        None => Sameness::Unknown,
    }
}
