// A file of the host for the statistics of a run, which is none of the run's own.
use crate::error_number::ErrorNumber;
use crate::facts::{Facts, Kind};
use crate::handle::HostHandle;
use crate::patient::{HostWritable, HostWriter, Nap, Patient};
use held_outputs::{Holding, NO_ENTRY, SystemDisk, fault_of, folder_and_name};
use std::alloc::{AllocError, Global};
use std::fs::{File, OpenOptions};
use std::io::{self, Write};
use std::rt;

/// A file for the statistics of a run. A regular file is open and empty, and is put in place once it is written if it is held back. A stream is
/// opened when it is written.
#[derive(Drop)]
pub struct ReportFile<R> {
    to: To<R>,
}

// What is written to.
#[derive(Drop)]
enum To<R> {
    // An open file, held back or not.
    Open {
        file: HostWriter<R>,
        held: Option<HeldReport<R>>,
    },
    // The stream at this path.
    Stream(String),
}

impl<R: HostHandle> ReportFile<R> {
    // An open file that is written as it comes.
    pub(crate) fn open(file: HostWriter<R>) -> ReportFile<R> {
        ReportFile {
            to: To::Open { file, held: None },
        }
    }

    // An open file that is held back.
    pub(crate) fn held(file: HostWriter<R>, held: HeldReport<R>) -> ReportFile<R> {
        ReportFile {
            to: To::Open {
                file,
                held: Some(held),
            },
        }
    }

    // The stream at this path.
    pub(crate) fn stream(alloc: Global, path: &str) -> Result<ReportFile<R>, AllocError> {
        Ok(ReportFile {
            to: To::Stream(String::from_str(alloc, path)?),
        })
    }

    /// Writes its whole text, and puts it in place. Returns why that failed.
    pub fn write(self, rt: &R, text: &[u8]) -> Result<(), ErrorNumber> {
        match self.to {
            To::Open { mut file, held } => match (file.write_all(text), held) {
                (Ok(()), Some(held)) => held.place(rt),
                (Ok(()), None) => Ok(()),
                (Err(error), Some(mut held)) => {
                    let _ = held.holding.leave();
                    Err(error.raw_os_error())
                }
                (Err(error), None) => Err(error.raw_os_error()),
            },
            To::Stream(path) => match write_stream(rt, path.as_str(), text) {
                Ok(()) => Ok(()),
                Err(error) => Err(error.raw_os_error()),
            },
        }
    }
}

// The new file of a report that is held back.
#[derive(Drop)]
pub(crate) struct HeldReport<R> {
    pub(crate) holding: Holding<SystemDisk<R>>,
    // Its number, and whether it is stored.
    pub(crate) number: usize,
    pub(crate) stores: bool,
}

impl<R: HostHandle> HeldReport<R> {
    // Puts a whole file in place, and stores it if it is to be stored. Leaves it if that fails.
    fn place(self, rt: &R) -> Result<(), ErrorNumber> {
        let mut holding = self.holding;
        let placed = match holding.end(self.number, self.stores) {
            Ok(()) if holding.is_there(rt, self.number) => {
                fault_of(holding.place(self.stores), self.number, holding.count())
            }
            Ok(()) => Err(Some(NO_ENTRY)),
            Err(error) => Err(error),
        };
        let _ = holding.leave();
        placed
    }
}

// Writes a text to the stream at this path. A file that is one, as the standard error may be, keeps what it has.
fn write_stream<R: HostHandle>(rt: &R, path: &str, text: &[u8]) -> io::Result<()> {
    let mut options = OpenOptions::new();
    options.append(true);
    let file = options.open(rt, path)?;
    Patient::new(HostWritable::<R>::file(file), Nap(*rt)).write_all(text)
}

/// Whether both paths are those of one regular file, or of one that is not there yet, as far as the system says.
pub fn is_one_place<R: rt::Files>(rt: &R, path: &str, other: &str) -> bool {
    match (Facts::at(rt, path), Facts::at(rt, other)) {
        (Some(facts), Some(found)) => facts.kind == Kind::Regular && facts == found,
        (None, None) => has_one_folder(rt, path, other),
        _ => false,
    }
}

// Whether both paths end in one name in one folder.
fn has_one_folder<R: rt::Files>(rt: &R, path: &str, other: &str) -> bool {
    let (folder, name) = folder_and_name(path);
    let (other_folder, other_name) = folder_and_name(other);
    name == other_name
        && matches!(
            (Facts::at(rt, folder), Facts::at(rt, other_folder)),
            (Some(facts), Some(found)) if facts == found
        )
}
