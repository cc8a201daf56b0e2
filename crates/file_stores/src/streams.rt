use crate::descriptors::Descriptors;
use crate::facts::{Facts, Kind, may_be_one_file};
use std::alloc::AllocError;
use std::fs::File;
use std::os::fd::{AsRawFd, IntoRawFd};
use std::prelude::Alloc;
use std::rt;

// The number of the standard input, and the last one of a standard stream.
const INPUT: i32 = 0;

const LAST: i32 = 2;

// What takes the number of a closed stream: a directory, open for reading. Reads of it fail, and so do writes to it.
const PLACEHOLDERS: [&str; 2] = ["/", "."];

/// A standard stream.
#[derive(Clone, Copy, Debug, PartialEq, Eq)]
pub enum Stream {
    /// The standard input.
    Input,
    /// The standard output.
    Output,
}

/// Why the numbers of the standard streams cannot be taken.
#[derive(Clone, Copy, Debug, PartialEq, Eq)]
pub enum NotClaimed {
    /// The system opens nothing.
    NothingOpens,
    /// Memory was refused.
    NoMemory,
}

impl From<AllocError> for NotClaimed {
    fn from(_refused: AllocError) -> NotClaimed {
        NotClaimed::NoMemory
    }
}

/// The standard streams of a process. None of their numbers is free, so no file that is opened later gets one.
/// It knows which descriptors the caller gave besides.
#[derive(Clone, Copy)]
pub struct StandardStreams {
    input_is_closed: bool,
    // What the system says of the standard input and output. None if it says nothing, as without the file system of processes.
    input: Option<Facts>,
    output: Option<Facts>,
    given: Descriptors,
}

impl StandardStreams {
    /// Takes the numbers of those that are closed, and notes which descriptors are open. It is called before any other file is opened.
    pub fn claim<R: rt::Files + Alloc + Clone + Drop>(rt: &R) -> Result<StandardStreams, NotClaimed>
    where
        R::File: AsRawFd + IntoRawFd,
    {
        let mut input_is_closed = false;
        for _ in INPUT..=LAST {
            let taken = placeholder(rt)?;
            if taken.as_raw_fd() > LAST {
                break;
            }
            input_is_closed |= taken.into_raw_fd() == INPUT;
        }
        // What is opened next gets the number that is free now.
        let free = usize::try_from(placeholder(rt)?.as_raw_fd()).ok();
        let given = Descriptors::noted(rt, free)?;
        Ok(StandardStreams {
            input_is_closed,
            input: given.input(rt),
            output: given.output(rt),
            given,
        })
    }

    // Whether the system says something of both.
    pub(crate) fn are_known(&self) -> bool {
        self.input.is_some() && self.output.is_some()
    }

    // What the system says of a standard stream, if anything.
    pub(crate) fn facts(&self, stream: Stream) -> Option<Facts> {
        match stream {
            Stream::Input => self.input,
            Stream::Output => self.output,
        }
    }

    /// Whether the standard input is a folder. What takes the place of a closed one is none.
    pub fn input_is_folder(&self) -> bool {
        match self.input {
            Some(facts) => facts.kind == Kind::Directory && !self.input_is_closed,
            None => false,
        }
    }

    /// Whether both are known to be one regular file.
    pub fn are_one_file(&self) -> bool {
        self.are_known() && may_be_one_file(self.input, self.output)
    }

    // The descriptors that the caller gave.
    pub(crate) fn given(&self) -> &Descriptors {
        &self.given
    }
}

// An open directory. It has the least number that is free.
fn placeholder<R: rt::Files>(rt: &R) -> Result<R::File, NotClaimed> {
    for path in PLACEHOLDERS {
        if let Ok(taken) = File::open(rt, path) {
            return Ok(taken);
        }
    }
    Err(NotClaimed::NothingOpens)
}
