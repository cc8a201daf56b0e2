use crate::facts::Facts;
use crate::links::{descriptor_meant, is_link, joined};
use held_outputs::folder_and_name;
use std::alloc::{AllocError, Global};
use std::io::{self, ErrorKind};
use std::prelude::Alloc;
use std::{fs, rt};

// The folder of the open descriptors of this process (Linux, proc_pid_fd). To open a name in it opens the file of that number.
const FOLDER: &str = "/proc/self/fd";

// The paths of the standard input and output in it.
const INPUT_PATH: &str = "/proc/self/fd/0";

const OUTPUT_PATH: &str = "/proc/self/fd/1";

// The way from that folder to itself, by whichever mount of the file system of processes.
const BACK: &str = "/../../self/fd";

// The way from the folder of the descriptors of a thread to that of all threads (Linux, proc_pid_task), and through the one of this process.
const THREADS: &str = "/../..";

const BACK_TO_THREADS: &str = "/../../../../self/task";

// The numbers of the standard input, of the standard output, and the last one of a standard stream.
const INPUT: usize = 0;

const OUTPUT: usize = 1;

const LAST_STREAM: usize = 2;

// The numbers that are noted are those below this one. Each other one counts as given.
const NOTED: usize = 1024;

/// What keeps a name that leads to an open descriptor of this process from being opened as a file.
#[derive(Clone, Copy, Debug, PartialEq, Eq)]
pub enum DescriptorFault {
    /// It is the standard input, which `-` means.
    StandardInput,
    /// It is the standard output.
    StandardOutput,
    /// The caller did not give it.
    NotGiven,
}

// The numbers of the descriptors that the caller gave to this process. A name of any other one means a file that this process opened for
// itself, and no file of the caller.
#[derive(Clone, Copy)]
pub(crate) struct Descriptors {
    // Whether each number was open at the start. None if that is not known.
    given: Option<[bool; NOTED]>,
}

impl Descriptors {
    // Those that are open now, before any file is opened. This number is the least that is free, so the listing gets it.
    pub(crate) fn noted<R: rt::Files + Alloc + Clone + Drop>(
        rt: &R,
        free: Option<usize>,
    ) -> Result<Descriptors, AllocError> {
        let given = match free {
            Some(free) => open_numbers(rt, free)?,
            None => None,
        };
        Ok(Descriptors { given })
    }

    // What the system says of the standard input. None if it says nothing.
    pub(crate) fn input<R: rt::Files>(&self, rt: &R) -> Option<Facts> {
        self.given.as_ref()?;
        Facts::at(rt, INPUT_PATH)
    }

    // The same of the standard output.
    pub(crate) fn output<R: rt::Files>(&self, rt: &R) -> Option<Facts> {
        self.given.as_ref()?;
        Facts::at(rt, OUTPUT_PATH)
    }

    // What keeps a name from being opened as a file, if it leads to an open descriptor of this process. No name leads to the standard input or output:
    // what one reader of a stream gets, the other one would not.
    pub(crate) fn fault_of<R: rt::Files>(
        &self,
        rt: &R,
        alloc: Global,
        path: &str,
    ) -> Result<Option<DescriptorFault>, AllocError> {
        Ok(match descriptor_meant(rt, alloc, path)? {
            Some(INPUT) => Some(DescriptorFault::StandardInput),
            Some(OUTPUT) => Some(DescriptorFault::StandardOutput),
            Some(number) if self.lack_number(number) => Some(DescriptorFault::NotGiven),
            Some(_) | None => None,
        })
    }

    // Whether the caller did not give this number.
    fn lack_number(&self, number: usize) -> bool {
        match &self.given {
            Some(given) => number > LAST_STREAM && given.get(number) == Some(&false),
            None => false,
        }
    }
}

// The number of the open descriptor of this process whose name this path is. None if it is another name.
pub(crate) fn descriptor_at<R: rt::Files>(
    rt: &R,
    alloc: Global,
    path: &str,
) -> Result<Option<usize>, AllocError> {
    let (folder, name) = folder_and_name(path);
    let Some(number) = number_in(name) else {
        return Ok(None);
    };
    let is_own = is_of_process(rt, alloc, folder)?
        || (is_link(rt, path) && is_of_thread(rt, alloc, folder)?);
    Ok(if is_own { Some(number) } else { None })
}

// The numbers that are open, but for that of the listing. None if they cannot be listed, as without the file system of processes.
fn open_numbers<R: rt::Files + Alloc + Clone + Drop>(
    rt: &R,
    listing: usize,
) -> Result<Option<[bool; NOTED]>, AllocError> {
    match listed_numbers(rt, listing) {
        Ok(open) => Ok(open),
        Err(error) if error.kind() == ErrorKind::OutOfMemory => Err(AllocError),
        Err(_) => Ok(None),
    }
}

// The same. At Err the system does not list them, or memory was refused.
fn listed_numbers<R: rt::Files + Alloc + Clone + Drop>(
    rt: &R,
    listing: usize,
) -> io::Result<Option<[bool; NOTED]>> {
    let mut open = [false; NOTED];
    let mut has_listing = false;
    for entry in fs::read_dir(rt, FOLDER)? {
        let Some(number) = number_in(entry?.file_name()) else {
            return Ok(None);
        };
        has_listing |= number == listing;
        if let Some(place) = open.get_mut(number) {
            *place = number != listing;
        }
    }
    Ok(if has_listing { Some(open) } else { None })
}

// The number that this name is. None if it is not all digits.
fn number_in(name: &str) -> Option<usize> {
    if name.bytes().all(|byte| byte.is_ascii_digit()) {
        name.parse().ok()
    } else {
        None
    }
}

// Whether this is the folder of the open descriptors of this process.
fn is_of_process<R: rt::Files>(rt: &R, alloc: Global, folder: &str) -> Result<bool, AllocError> {
    let Some(facts) = Facts::at(rt, folder) else {
        return Ok(false);
    };
    if Facts::at(rt, FOLDER) == Some(facts) {
        return Ok(true);
    }
    let back = joined(alloc, &[folder, BACK])?;
    Ok(Facts::at(rt, back.as_str()) == Some(facts))
}

// Whether this is a folder of a thread of this process. Of its files only the descriptors are links whose names are numbers.
fn is_of_thread<R: rt::Files>(rt: &R, alloc: Global, folder: &str) -> Result<bool, AllocError> {
    let threads = joined(alloc, &[folder, THREADS])?;
    let Some(facts) = Facts::at(rt, threads.as_str()) else {
        return Ok(false);
    };
    let back = joined(alloc, &[folder, BACK_TO_THREADS])?;
    Ok(Facts::at(rt, back.as_str()) == Some(facts))
}
