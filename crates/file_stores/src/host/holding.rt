// The outputs of the host that are held back until the run has finished.
ghost use Rattle.std.specs.Prelude.{◌≡◌};

use super::HostFiles;
use super::input::HostInput;
use super::output::{FoundOutput, HostOutput};
use crate::appended::Appended;
use crate::facts::{Facts, Kind};
use crate::handle::HostHandle;
use crate::held::HeldOutput;
use crate::links::{Meant, meant_by};
use crate::not_held::not_opened;
use crate::patient::{HostReader, Nap, Pause};
use crate::writable::Writable;
use collector::NotOpened;
use folders::Output;
use held_outputs::{Added, Disk, Holding, NotHeld, NotMade, folder_and_name, names_for};
use machine::NoMemory;
use run_types::Placing;
use std::alloc::{AllocError, Global};
use std::fs::File;
use waiting_inputs::Inputs;

// How often a new file is tried, if another run has the lock: a look at the outputs has it for a moment.
const TRIES: u32 = 10;

impl<R: HostHandle, I: Inputs<HostReader<R>>, D: Disk> HostFiles<R, I, D> {
    // The output at this path, held back if it is a regular file or is not there. Anything else is written as it comes.
    pub(super) fn held_output(
        &mut self,
        path: &str,
        append: bool,
    ) -> Result<FoundOutput<R>, NotOpened>
        ensures { self.new ≡ record self.old { holding = self.new.holding } }
    {
        let place = match meant_by(&self.rt, self.alloc, path)? {
            Meant::File(place) => place,
            Meant::Descriptor => return self.as_written(path, append),
            Meant::Nothing => return Err(NotOpened::Refused),
        };
        match Facts::at(&self.rt, place.as_str()) {
            Some(facts) if facts.kind != Kind::Regular => self.as_written(path, append),
            _ if append => self.appended(place.as_str()),
            _ => self.replacing(place.as_str()),
        }
    }

    // The output at this path, written as it comes.
    pub(super) fn as_written(&self, path: &str, append: bool) -> Result<FoundOutput<R>, NotOpened> {
        self.file_output(path, append).ok_or(NotOpened::Refused)
    }

    // A new file that is to get this path. It is refused if it gets in the way of another one.
    fn replacing(&mut self, place: &str) -> Result<FoundOutput<R>, NotOpened>
        ensures { self.new ≡ record self.old { holding = self.new.holding } }
    {
        let used = self.files_in_use()?;
        let names = names_for(self.alloc, place)?;
        let stores = self.stores();
        let added = add_in_time(
            &self.rt,
            self.alloc,
            &mut self.holding,
            &names,
            used.as_slice(),
            stores,
        );
        let Added {
            number,
            file,
            facts,
        } = added.map_err(not_opened)?;
        Ok(self.held(file, facts, HeldOutput::new_file(number, stores)))
    }

    // The file at this path, which is appended to. It is made if it is not there.
    fn appended(&mut self, place: &str) -> Result<FoundOutput<R>, NotOpened>
        ensures { self.new ≡ record self.old { holding = self.new.holding } }
    {
        if self.is_to_be_replaced(place) {
            return Err(NotOpened::Refused);
        }
        let appended = Appended::open(&self.rt, self.alloc, place).map_err(not_opened)?;
        let is_kept = !appended.is_made() || self.keeps_folder(place);
        let facts = appended.facts();
        match appended.handle() {
            Some(file) if is_kept && is_regular(facts) && !self.has_open(facts) => {
                let held = HeldOutput::appended(appended, self.stores());
                Ok(self.held(file, facts, held))
            }
            _ => {
                appended.leave(&self.rt);
                Err(NotOpened::Refused)
            }
        }
    }

    // Whether the folder of this place is kept to be stored, if it is to be stored.
    fn keeps_folder(&mut self, place: &str) -> bool
        ensures { self.new ≡ record self.old { holding = self.new.holding } }
    {
        if !self.stores() {
            return true;
        }
        match names_for(self.alloc, place) {
            Ok(names) => self.holding.keep_folder(&names.place).is_ok(),
            Err(_) => false,
        }
    }

    // This file as an output that is held back.
    pub(super) fn held(
        &self,
        file: File,
        facts: Option<Facts>,
        held: HeldOutput,
    ) -> FoundOutput<R> {
        FoundOutput {
            to: self.patient(Writable::file(file)),
            is_standard: false,
            opener: None,
            held: Some(held),
            facts,
        }
    }

    // Whether outputs are stored before they are put in place.
    fn stores(&self) -> bool {
        self.placing == Placing::AtEndStored
    }

    // Whether another output is to replace what is at this place.
    fn is_to_be_replaced(&self, place: &str) -> bool {
        let (folder, name) = folder_and_name(place);
        match Facts::at(&self.rt, folder) {
            Some(facts) => self.holding.is_for(facts, name),
            None => false,
        }
    }

    // The regular files that are open, or that outputs are to replace.
    pub(super) fn files_in_use(&self) -> Result<Vec<Facts>, NoMemory> {
        let mut used = Vec::new(self.alloc);
        add_inputs(self.inputs.as_slice(), &mut used)?;
        add_outputs(self.outputs.as_slice(), &self.holding, &mut used)?;
        Ok(used)
    }
}

// Adds a new file with these names. If its name is locked, it is tried again after a nap.
pub(super) fn add_in_time<R: HostHandle, D: Disk>(
    rt: &R,
    alloc: Global,
    holding: &mut Holding<D>,
    names: &Output,
    used: &[Facts],
    stores: bool,
) -> Result<Added, NotMade> {
    for nap in 0..TRIES {
        match holding.add(rt, alloc, names, used, stores) {
            Err(NotMade::NotHeld(NotHeld::Locked)) => Nap(*rt).pause(nap),
            tried => return tried,
        }
    }
    Err(NotMade::NotHeld(NotHeld::Locked))
}

// Adds the inputs that are regular files.
fn add_inputs<R: HostHandle>(
    inputs: &[HostInput<R>],
    to: &mut Vec<Facts>,
) -> Result<(), AllocError> {
    for input in inputs {
        add_regular(input.facts, to)?;
    }
    Ok(())
}

// Adds the outputs that are regular files, and the files that outputs are to replace.
fn add_outputs<R: HostHandle, D: Disk>(
    outputs: &[HostOutput<R>],
    holding: &Holding<D>,
    to: &mut Vec<Facts>,
) -> Result<(), AllocError> {
    for output in outputs {
        add_regular(output.facts, to)?;
        add_regular(output.replaced(holding), to)?;
    }
    Ok(())
}

// Adds a file, if it is known to be a regular one.
fn add_regular(facts: Option<Facts>, to: &mut Vec<Facts>) -> Result<(), AllocError> {
    if let Some(facts) = facts
        && facts.kind == Kind::Regular
    {
        to.push(facts)?;
    }
    Ok(())
}

// Whether it is known to be a regular file.
fn is_regular(facts: Option<Facts>) -> bool {
    match facts {
        Some(facts) => facts.kind == Kind::Regular,
        None => false,
    }
}
