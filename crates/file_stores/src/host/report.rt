// The file for the statistics of a run, next to the files of the host.
use super::HostFiles;
use super::holding::add_in_time;
use crate::descriptors::DescriptorFault;
use crate::facts::{Facts, Kind};
use crate::handle::HostHandle;
use crate::links::{Meant, meant_by};
use crate::not_held::not_opened;
use crate::patient::HostReader;
use crate::report::{HeldReport, ReportFile};
use crate::writable::Writable;
use collector::NotOpened;
use held_outputs::{Disk, Holding, SystemDisk, names_for};
use run_types::Placing;
use waiting_inputs::Inputs;

impl<R: HostHandle, I: Inputs<HostReader<R>>, D: Disk> HostFiles<R, I, D> {
    /// Opens the file at this path for the statistics of a run, and empties it. It is refused if it cannot be opened, or if it is a regular file that
    /// is open, under whatever name. A stream, or the standard error, is opened when it is written. If outputs are held back, so is a regular file.
    pub fn open_report(&self, path: &str, placing: Placing) -> Result<ReportFile<R>, NotOpened> {
        let given = self.streams().given().fault_of(&self.rt, self.alloc, path)?;
        if let Some(DescriptorFault::NotGiven | DescriptorFault::StandardInput) = given {
            return Err(NotOpened::Refused);
        }
        match Facts::at(&self.rt, path) {
            Some(facts) if self.is_stream(facts) => Ok(ReportFile::stream(self.alloc, path)?),
            _ if placing == Placing::AsWritten => self.written_report(path),
            _ => self.held_report(path, placing == Placing::AtEndStored),
        }
    }

    // The file at this path, written as it comes.
    fn written_report(&self, path: &str) -> Result<ReportFile<R>, NotOpened> {
        let found = self.as_written(path, false)?;
        Ok(ReportFile::open(found.to))
    }

    // The file at this path, held back if it is a regular file or is not there.
    fn held_report(&self, path: &str, stores: bool) -> Result<ReportFile<R>, NotOpened> {
        let place = match meant_by(&self.rt, self.alloc, path)? {
            Meant::File(place) => place,
            Meant::Descriptor => return self.written_report(path),
            Meant::Nothing => return Err(NotOpened::Refused),
        };
        let names = names_for(self.alloc, place.as_str())?;
        if self.holding.clashes_with(&self.rt, &names) {
            return Err(NotOpened::Refused);
        }
        let used = self.files_in_use()?;
        let mut holding = Holding::new(SystemDisk::new(self.rt, self.alloc), self.alloc);
        let added = add_in_time(
            &self.rt,
            self.alloc,
            &mut holding,
            &names,
            used.as_slice(),
            stores,
        );
        let added = added.map_err(not_opened)?;
        let to = self.patient(Writable::file(added.file));
        Ok(ReportFile::held(
            to,
            HeldReport {
                holding,
                number: added.number,
                stores,
            },
        ))
    }

    // Whether a file is a stream, or the standard error.
    fn is_stream(&self, facts: Facts) -> bool {
        match facts.kind {
            Kind::Null | Kind::Fifo | Kind::Device | Kind::Terminal | Kind::Other => true,
            Kind::Directory => false,
            Kind::Regular => {
                Facts::at(&self.rt, "/dev/stderr") == Some(facts) && !self.has_open(Some(facts))
            }
        }
    }
}
