use crate::facts::{Facts, Kind, may_be_one_file, may_be_one_stream};
use crate::holding_faults::can_be_held;
use crate::streams::{StandardStreams, Stream};
use held_outputs::folder_and_name;
use machine::NoMemory;
use run_types::{InName, OutName, Placing};
use std::alloc::Global;
use std::fs::{self, File, OpenOptions};
use std::io::ErrorKind;
use std::{rt, str};

/// A look at the files that a run would open. It reads no byte, and it makes and empties no file, but for those of outputs that would be
/// held back: each is made for a moment. No contract says what it finds, since the system may change its files at any time.
#[derive(Drop)]
pub struct HostLook<R: rt::Files<File = File>> {
    rt: R,
    alloc: Global,
    streams: StandardStreams,
    // The files that were looked at, as inputs and as outputs. The system says which file each standard stream among them is.
    inputs: Vec<Option<Facts>>,
    outputs: Vec<Option<Facts>>,
}

impl<R: rt::Files<File = File> + Copy + Drop> HostLook<R> {
    /// Nothing was looked at.
    pub fn new(rt: R, alloc: Global, streams: StandardStreams) -> HostLook<R> {
        HostLook {
            rt,
            alloc,
            streams,
            inputs: Vec::new(alloc),
            outputs: Vec::new(alloc),
        }
    }

    /// Whether this input can be opened now, and is no stream that was looked at as one before. A regular file is opened for it, and nothing else.
    pub fn is_input(&mut self, name: &InName) -> Result<bool, NoMemory> {
        match name {
            InName::Standard => self.is_standard_input(),
            InName::File(name) => match str::from_utf8(name.bytes()) {
                Ok(path) => self.is_named_input(path),
                Err(_) => Ok(false),
            },
        }
    }

    // Whether the standard input can be read, and is no stream that was looked at as an input before.
    fn is_standard_input(&mut self) -> Result<bool, NoMemory> {
        match self.streams.facts(Stream::Input) {
            // Also what takes the place of a closed one.
            Some(facts) if facts.kind == Kind::Directory => Ok(false),
            facts => self.is_unseen_input(facts),
        }
    }

    // Whether the input at this path can be opened now.
    fn is_named_input(&mut self, path: &str) -> Result<bool, NoMemory> {
        if self.leads_to_descriptor(path)? {
            return Ok(false);
        }
        match Facts::at(&self.rt, path) {
            Some(facts) if facts.kind == Kind::Directory => Ok(false),
            Some(facts) => {
                let is_unseen = self.is_unseen_input(Some(facts))?;
                Ok(is_unseen && (facts.kind != Kind::Regular || File::open(&self.rt, path).is_ok()))
            }
            None => Ok(false),
        }
    }

    // Whether it is no stream that was looked at as an input before. Now it was.
    fn is_unseen_input(&mut self, facts: Option<Facts>) -> Result<bool, NoMemory> {
        let mut inputs = self.inputs.iter();
        if inputs.any(|seen| may_be_one_stream(*seen, facts)) {
            return Ok(false);
        }
        self.inputs.push(facts)?;
        Ok(true)
    }

    // Whether this path leads to a descriptor of this process that no name may mean.
    fn leads_to_descriptor(&self, path: &str) -> Result<bool, NoMemory> {
        let given = self.streams.given();
        Ok(given.fault_of(&self.rt, self.alloc, path)?.is_some())
    }

    /// Whether this output can be opened now, and is no regular file that was looked at before. If it is not there, its folder has to be. It would
    /// get what is written as `placing` says.
    pub fn is_output(&mut self, name: &OutName, placing: Placing) -> Result<bool, NoMemory> {
        match name {
            OutName::Standard => {
                let facts = self.streams.facts(Stream::Output);
                self.is_unseen_output(facts)
            }
            OutName::File { name, append } => match str::from_utf8(name.bytes()) {
                Ok(path) => Ok(
                    self.can_be_held(path, *append, placing)? && self.is_named_output(path)?,
                ),
                Err(_) => Ok(false),
            },
        }
    }

    // Whether the output at this path can be opened now.
    fn is_named_output(&mut self, path: &str) -> Result<bool, NoMemory> {
        if path.is_empty() || self.leads_to_descriptor(path)? {
            return Ok(false);
        }
        match Facts::at(&self.rt, path) {
            Some(facts) => {
                Ok(self.is_unseen_output(Some(facts))? && self.can_be_written(path, facts.kind))
            }
            None => Ok(self.can_be_made(path)),
        }
    }

    // Whether it is no regular file that was looked at before. Now it was.
    fn is_unseen_output(&mut self, facts: Option<Facts>) -> Result<bool, NoMemory> {
        let mut seen = self.inputs.iter().chain(self.outputs.iter());
        if seen.any(|seen| may_be_one_file(*seen, facts)) {
            return Ok(false);
        }
        self.outputs.push(facts)?;
        Ok(true)
    }

    // Whether the output at this path can be held back, if it would be.
    fn can_be_held(&self, path: &str, append: bool, placing: Placing) -> Result<bool, NoMemory> {
        let used = self.used()?;
        let used = used.as_slice();
        can_be_held(&self.rt, self.alloc, path, append, placing, used)
    }

    // The files that were looked at, as far as they are known.
    fn used(&self) -> Result<Vec<Facts>, NoMemory> {
        let mut used = Vec::new(self.alloc);
        for seen in self.inputs.iter().chain(self.outputs.iter()) {
            if let Some(facts) = seen {
                used.push(*facts)?;
            }
        }
        Ok(used)
    }

    // Whether a file that is there can be written. A pipe or a device is not opened: that may wait for a reader.
    fn can_be_written(&self, path: &str, kind: Kind) -> bool {
        match kind {
            Kind::Regular => {
                let mut options = OpenOptions::new();
                options.write(true);
                options.open(&self.rt, path).is_ok()
            }
            Kind::Directory => false,
            Kind::Null | Kind::Fifo | Kind::Device | Kind::Terminal | Kind::Other => true,
        }
    }

    // Whether a file that is not there can be made, as far as its folder tells.
    fn can_be_made(&self, path: &str) -> bool {
        match fs::metadata(&self.rt, path) {
            Err(error) if error.kind() == ErrorKind::NotFound => {
                matches!(
                    Facts::at(&self.rt, folder_and_name(path).0),
                    Some(Facts {
                        kind: Kind::Directory,
                        ..
                    })
                )
            }
            _ => false,
        }
    }
}
