// What the files of the host find when a name is to be opened.
ghost use Rattle.std.specs.Prelude.{◌≡◌};

use super::HostFiles;
use super::input::Found;
use super::output::FoundOutput;
use crate::facts::{Facts, Kind};
use crate::fifo::Fifo;
use crate::handle::HostHandle;
use crate::patient::{HostReadable, HostReader, Nap, Patient};
use crate::readable::Readable;
use crate::served::Served;
use crate::standard_output::StandardOutput;
use crate::streams::Stream;
use crate::writable::{Writable, writable_fifo};
use collector::NotOpened;
use command_words::{Word, is_input_path};
use held_outputs::Disk;
use run_types::{InName, OutName, Placing};
use std::fs::{File, OpenOptions};
use std::{rt, str};
use waiting_inputs::Inputs;

impl<R: HostHandle, I: Inputs<HostReader<R>>, D: Disk> HostFiles<R, I, D> {
    // An input that can be opened. At Err it is refused, or memory was.
    pub(super) fn found_input(&self, name: &InName) -> Result<Found<R>, NotOpened> {
        match name {
            InName::Standard => self.standard_input(),
            // A script that is read from there. The plan of a script has no such name.
            InName::File(name) if is_input_path(name.bytes()) => self.standard_input(),
            InName::File(name) => self.named_input(text_of(name)?),
        }
    }

    // The standard input. It is refused if it is a directory, or a stream that is open as an input. What takes the place of a closed one is a
    // directory, whose reads fail.
    fn standard_input(&self) -> Result<Found<R>, NotOpened> {
        let facts = self.streams.facts(Stream::Input);
        if self.streams.input_is_folder() || self.has_stream(facts) {
            return Err(NotOpened::Refused);
        }
        let Ok(reader) = Box::new(self.alloc, self.rt.reader()) else {
            return Err(NotOpened::NoMemory);
        };
        Ok(Found {
            file: Served::reads(self.patient(Readable::standard(reader))),
            facts,
            is_standard: true,
        })
    }

    // The input of this name. A FIFO is not opened yet.
    fn named_input(&self, path: &str) -> Result<Found<R>, NotOpened> {
        self.refuse_descriptor(path)?;
        match fifo_at(&self.rt, path) {
            Some(facts) => {
                let fifo = Readable::fifo(Fifo::new(self.alloc, path, facts)?);
                self.found(fifo, facts)
            }
            None => {
                let file = File::open(&self.rt, path).map_err(|_| NotOpened::Refused)?;
                let facts = Facts::of(&file).ok_or(NotOpened::Refused)?;
                self.found(Readable::file(file), facts)
            }
        }
    }

    // This file as an input. It is refused if it is a directory, or a stream that is open as an input.
    fn found(&self, file: HostReadable, facts: Facts) -> Result<Found<R>, NotOpened> {
        if facts.kind == Kind::Directory || self.has_stream(Some(facts)) {
            return Err(NotOpened::Refused);
        }
        Ok(Found {
            file: Served::reads(self.patient(file)),
            facts: Some(facts),
            is_standard: false,
        })
    }

    // A reader or a writer whose calls are made again, after naps by the clock of this runtime.
    pub(super) fn patient<F>(&self, file: F) -> Patient<F, Nap<R>> {
        Patient::new(file, Nap(self.rt))
    }

    // Refuses a name that leads to the standard input or output, or to a descriptor that the caller did not give.
    fn refuse_descriptor(&self, path: &str) -> Result<(), NotOpened> {
        let given = self.streams.given();
        match given.fault_of(&self.rt, self.alloc, path)? {
            Some(_) => Err(NotOpened::Refused),
            None => Ok(()),
        }
    }

    // An output that can be written to. At Err it is refused, or memory was.
    pub(super) fn found_output(&mut self, name: &OutName) -> Result<FoundOutput<R>, NotOpened>
        ensures { self.new ≡ record self.old { holding = self.new.holding } }
    {
        match name {
            OutName::Standard => self.standard_output(),
            OutName::File { .. } if self.is_old(name) && self.uses_unknown() => {
                Err(NotOpened::Refused)
            }
            OutName::File { name, append } => self.named_output(text_of(name)?, *append),
        }
    }

    // Notes that an output is about to be opened, if it was there before and nothing is known of a standard stream.
    pub(super) fn note_old(&mut self, name: &OutName)
        ensures { self.new ≡ self.old }
    {
        self.has_old_output = self.has_old_output | self.is_old(name);
    }

    // Whether the output of this name is a regular file that is there. It is looked up only if nothing is known of a standard stream.
    fn is_old(&self, name: &OutName) -> bool {
        match name {
            OutName::File { name, .. } if !self.streams.are_known() => match text_of(name) {
                Ok(path) => is_regular(Facts::at(&self.rt, path)),
                Err(_) => false,
            },
            _ => false,
        }
    }

    // The standard output. It is refused if it is a file that is open, or may be.
    fn standard_output(&self) -> Result<FoundOutput<R>, NotOpened> {
        let facts = self.streams.facts(Stream::Output);
        if self.has_open(facts) || (facts.is_none() && self.has_old_file()) {
            return Err(NotOpened::Refused);
        }
        Ok(FoundOutput {
            to: self.patient(Writable::standard(StandardOutput(self.rt))),
            is_standard: true,
            opener: None,
            held: None,
            facts,
        })
    }

    // The output of this name. A FIFO is not opened yet.
    fn named_output(&mut self, path: &str, append: bool) -> Result<FoundOutput<R>, NotOpened>
        ensures { self.new ≡ record self.old { holding = self.new.holding } }
    {
        self.refuse_descriptor(path)?;
        match fifo_at(&self.rt, path) {
            Some(facts) => self.fifo_output(path, append, facts),
            None if self.placing != Placing::AsWritten => self.held_output(path, append),
            None => self.file_output(path, append).ok_or(NotOpened::Refused),
        }
    }

    // The FIFO at this path, which is to be opened.
    fn fifo_output(
        &self,
        path: &str,
        append: bool,
        facts: Facts,
    ) -> Result<FoundOutput<R>, NotOpened> {
        let fifo = Fifo::new(self.alloc, path, facts)?;
        let (to, opener) = writable_fifo(self.alloc, fifo, append)?;
        Ok(FoundOutput {
            to: self.patient(to),
            is_standard: false,
            opener: Some(Served::reads(self.patient(Readable::opener(opener)))),
            held: None,
            facts: Some(facts),
        })
    }

    // The file at this path: kept as it is to append to it, or emptied once it is known to be no file that is open. None if it is refused.
    // A FIFO that took the place of another file just now is refused.
    pub(super) fn file_output(&self, path: &str, append: bool) -> Option<FoundOutput<R>> {
        let mut options = OpenOptions::new();
        options.write(true).append(append).create(true);
        let file = options.open(&self.rt, path).ok()?;
        let facts = Facts::of(&file)?;
        if facts.kind == Kind::Fifo || self.has_open(Some(facts)) {
            return None;
        }
        if !append && facts.kind == Kind::Regular {
            file.set_len(0).ok()?;
        }
        Some(FoundOutput {
            to: self.patient(Writable::file(file)),
            is_standard: false,
            opener: None,
            held: None,
            facts: Some(facts),
        })
    }

    // Whether it is a stream that is open as an input, or may be.
    fn has_stream(&self, facts: Option<Facts>) -> bool {
        self.inputs.iter().any(|input| input.may_share(facts))
    }

    // Whether a regular file that was there before the run is open.
    fn has_old_file(&self) -> bool {
        self.has_old_output || self.inputs.iter().any(|input| input.is_unread_file())
    }

    // Whether the system says nothing of a standard stream that is open.
    fn uses_unknown(&self) -> bool {
        self.inputs.iter().any(|input| input.facts.is_none())
            || self.outputs.iter().any(|output| output.facts.is_none())
    }

    // Whether it is a regular file that is open, as an input or as an output, or that an output is to replace.
    pub(super) fn has_open(&self, facts: Option<Facts>) -> bool {
        let Some(facts) = facts else {
            return false;
        };
        self.inputs.iter().any(|input| is_of(input.facts, facts))
            || self.outputs.iter().any(|output| is_of(output.facts, facts)
                || is_of(output.replaced(&self.holding), facts))
    }
}

// The text of a name. It is refused if it is not UTF-8, since the system's files are opened by texts.
fn text_of(name: &Word) -> Result<&str, NotOpened> {
    str::from_utf8(name.bytes()).map_err(|_| NotOpened::Refused)
}

// What the system says of the FIFO at this path. None if there is none.
fn fifo_at<R: rt::Files>(rt: &R, path: &str) -> Option<Facts> {
    let facts = Facts::at(rt, path)?;
    if facts.kind == Kind::Fifo {
        Some(facts)
    } else {
        None
    }
}

// Whether it is known to be a regular file.
fn is_regular(facts: Option<Facts>) -> bool {
    matches!(
        facts,
        Some(Facts {
            kind: Kind::Regular,
            ..
        })
    )
}

// Whether it is known to be this regular file.
fn is_of(facts: Option<Facts>, file: Facts) -> bool {
    file.kind == Kind::Regular && facts == Some(file)
}
