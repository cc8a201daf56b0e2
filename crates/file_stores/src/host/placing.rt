// Outputs of the host that are put in place, or left, at the end of a run.
ghost use Rattle.std.specs.Prelude.{◌≡◌, [], false, true, IsTrue, IfErr, OnOk};
ghost use Rattle.folders.specs.inner.Folder.{LeavesAlone, ShowsOnly};
ghost use Rattle.folders.specs.inner.Outputs.{AllLast, AllStored, ArePlaced, IsFront, IsNoNew, IsStoppedBy, LosesNothing};

use super::HostFiles;
use super::output::{leave_all, make_all_ready, note_placed_at};
use crate::error_number::ErrorNumber;
use crate::handle::HostHandle;
use crate::patient::HostReader;
use folders::PlaceFault;
use held_outputs::Disk;
use run_types::Placing;
use waiting_inputs::Inputs;

impl<R: HostHandle, I: Inputs<HostReader<R>>, D: Disk> HostFiles<R, I, D> {
    // Puts the outputs that are held back in place, unless that was done. Returns why this one is not in place.
    pub(super) fn place(&mut self, file: usize) -> Result<(), ErrorNumber>
        ensures { self.new ≡ record self.old { holding = self.new.holding } }
    {
        let placed = match self.placed {
            Some(placed) => placed,
            None => {
                self.make_ready()?;
                let stores = self.placing == Placing::AtEndStored;
                self.place_all(stores)
            }
        };
        self.placed = Some(placed);
        note_placed_at(&mut self.outputs, file, placed, self.holding.count())
    }

    /// Makes the outputs that are held back ready to be put in place: each is whole, has its rights and its name, and is stored if it is to be.
    /// Returns why one is not. No name but those of new files is touched, whatever ends the run.
    pub fn make_ready(&mut self) -> Result<(), ErrorNumber>
        ensures rest { self.new ≡ record self.old { holding = self.new.holding } }
        ensures outputs { self.new.holding.outputs ≡ self.old.holding.outputs }
        ensures others { IsTrue D.names_known → LeavesAlone (IsNoNew self.old.holding.outputs)
            (D.shows self.old.holding.disk) (D.shows self.new.holding.disk) }
    {
        make_all_ready(&self.rt, &mut self.outputs, &mut self.holding)
    }

    /// Puts the outputs that are held back in place, the first one first, and stores their names if so. They are ready, and stored if so.
    pub fn place_all(&mut self, stores: bool) -> Result<(), PlaceFault>
        ensures rest { self.new ≡ record self.old { holding = self.new.holding } }
        ensures outputs { self.new.holding.outputs ≡ self.old.holding.outputs }

        // At Ok each place has its whole new file. At Err the fault says how many are in place.
        ensures placed { IsTrue D.names_known
            → OnOk result (ArePlaced self.old.holding.outputs (D.shows self.old.holding.disk).seen
            (D.shows self.new.holding.disk).seen) }
        ensures stopped { IsTrue D.names_known
            → IfErr result (λ fault. IsStoppedBy fault self.old.holding.outputs
            (D.shows self.old.holding.disk).seen (D.shows self.new.holding.disk).seen) }

        // A kill at any moment finds a front of the outputs in place, and all else as it was.
        ensures looks { IsTrue D.names_known
            → ShowsOnly (IsFront self.old.holding.outputs (D.shows self.old.holding.disk).seen)
            (D.shows self.old.holding.disk) (D.shows self.new.holding.disk) }

        // A power loss at any moment leaves each name as it could be before, or its whole new file: and that alone after Ok, if names are stored.
        ensures loses { IsTrue D.names_known
            → AllStored self.old.holding.outputs (D.shows self.old.holding.disk)
            → LosesNothing self.old.holding.outputs (D.shows self.old.holding.disk)
            (D.shows self.new.holding.disk) }
        ensures stored { IsTrue D.names_known
            → AllStored self.old.holding.outputs (D.shows self.old.holding.disk) → stores ≡ true
            → OnOk result (AllLast self.old.holding.outputs (D.shows self.old.holding.disk).seen
            (D.shows self.new.holding.disk)) }
    {
        self.holding.place(stores)
    }

    /// Removes the new files of outputs that are not in place. No output is held back from now on. No other name is touched, whatever ends the run.
    pub fn leave(&mut self)
        ensures rest { self.new ≡ record self.old { held_back = false; holding = self.new.holding } }
        ensures outputs { self.new.holding.outputs ≡ [] }
        ensures others { IsTrue D.names_known → LeavesAlone (IsNoNew self.old.holding.outputs)
            (D.shows self.old.holding.disk) (D.shows self.new.holding.disk) }
    {
        leave_all(&self.rt, &mut self.outputs);
        let _ = self.holding.leave();
        self.placed = None;
        self.placing = Placing::AsWritten;
    }
}
