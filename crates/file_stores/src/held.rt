// Outputs of the host that are held back until a run has finished.
ghost use Rattle.std.specs.Prelude.{◌≡◌, IsTrue};
ghost use Rattle.folders.specs.inner.Folder.{LeavesAlone};
ghost use Rattle.folders.specs.inner.Outputs.{IsNoNew};

use crate::appended::Appended;
use crate::error_number::ErrorNumber;
use crate::facts::Facts;
use folders::PlaceFault;
use held_outputs::{Disk, Holding, NO_ENTRY, fault_of};
use std::fs::File;
use std::rt;

// An output that is held back.
#[derive(Drop)]
pub(crate) struct HeldOutput {
    kind: Held,
    state: HeldState,
    // Whether it is stored.
    stores: bool,
}

// What is held back.
#[derive(Drop)]
enum Held {
    // The new file of this number, which is to take the place of another.
    New(usize),
    // What is appended to a file.
    Appended(Appended),
    // Nothing: it was left.
    Nothing,
}

// How far it is.
#[derive(Clone, Copy, PartialEq, Eq)]
enum HeldState {
    // It may be written to.
    Open,
    // It is whole, has its rights, and is stored if it is to be.
    Ended,
    // That, and its file was found under its name.
    Ready,
    // It is in place.
    Placed,
}

impl HeldOutput {
    // The new file of this number. It is stored at its end, if so.
    pub(crate) fn new_file(number: usize, stores: bool) -> HeldOutput {
        HeldOutput::open(Held::New(number), stores)
    }

    // A file that is appended to. It is stored in the same way.
    pub(crate) fn appended(file: Appended, stores: bool) -> HeldOutput {
        HeldOutput::open(Held::Appended(file), stores)
    }

    // Nothing was written to it.
    fn open(kind: Held, stores: bool) -> HeldOutput {
        HeldOutput {
            kind,
            state: HeldState::Open,
            stores,
        }
    }

    // Counts bytes that were written to it.
    pub(crate) fn note_written(&mut self, count: usize) {
        if let Held::Appended(appended) = &mut self.kind {
            appended.note_written(count);
        }
    }

    // What the system says of the file that it is to replace, if there is one.
    pub(crate) fn replaced<D: Disk>(&self, holding: &Holding<D>) -> Option<Facts> {
        match &self.kind {
            Held::New(number) => holding.replaced(*number),
            Held::Appended(_) | Held::Nothing => None,
        }
    }

    // Gives it its rights, and stores it if it is to be stored, unless that was done. Returns why that failed.
    pub(crate) fn end<D: Disk>(&mut self, holding: &mut Holding<D>) -> Result<(), ErrorNumber>
        ensures outputs { holding.new.outputs ≡ holding.old.outputs }
        ensures others { IsTrue D.names_known → LeavesAlone (IsNoNew holding.old.outputs)
            (D.shows holding.old.disk) (D.shows holding.new.disk) }
    {
        if self.state != HeldState::Open {
            return Ok(());
        }
        match &self.kind {
            Held::New(number) => holding.end(*number, self.stores)?,
            Held::Appended(appended) => {
                appended
                    .end(self.stores)
                    .map_err(|error| error.raw_os_error())?;
            }
            Held::Nothing => {}
        }
        self.state = HeldState::Ended;
        Ok(())
    }

    // Makes it ready to be put in place, unless it is. It fails if its file lost its name.
    pub(crate) fn make_ready<R: rt::Files<File = File>, D: Disk>(
        &mut self,
        rt: &R,
        holding: &mut Holding<D>,
    ) -> Result<(), ErrorNumber>
        ensures outputs { holding.new.outputs ≡ holding.old.outputs }
        ensures others { IsTrue D.names_known → LeavesAlone (IsNoNew holding.old.outputs)
            (D.shows holding.old.disk) (D.shows holding.new.disk) }
    {
        self.end(holding)?;
        if self.state == HeldState::Ended {
            let is_there = match &self.kind {
                Held::New(number) => holding.is_there(rt, *number),
                Held::Appended(appended) => appended.is_there(),
                Held::Nothing => true,
            };
            if !is_there {
                return Err(Some(NO_ENTRY));
            }
            self.state = HeldState::Ready;
        }
        Ok(())
    }

    // Notes that it is in place, if it was ready and this came of placing this many new files. Returns why it is not.
    pub(crate) fn note_placed(
        &mut self,
        placed: Result<(), PlaceFault>,
        count: usize,
    ) -> Result<(), ErrorNumber> {
        if self.state == HeldState::Ready {
            if let Held::New(number) = &self.kind {
                fault_of(placed, *number, count)?;
            }
            self.state = HeldState::Placed;
        }
        Ok(())
    }

    // Leaves it, if it is appended to and not in place: its file holds what it held.
    pub(crate) fn leave<R: rt::Files<File = File>>(&mut self, rt: &R) {
        match (&self.kind, self.state) {
            (Held::Appended(appended), HeldState::Placed) => appended.keep(),
            (Held::Appended(appended), _) => appended.leave(rt),
            (Held::New(_) | Held::Nothing, _) => {}
        }
        self.kind = Held::Nothing;
    }
}
