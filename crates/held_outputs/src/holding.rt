// Outputs that are held back, each in a new file next to its place.
ghost use Rattle.std.specs.Prelude.{◌≡◌, ◌≢◌, ◌∷◌, [], ◌++◌, Some, length, slice_get, true, IsNone, IsTrue, IfErr, IfOk, OnOk, OnErr};
ghost use Rattle.folders.specs.inner.Causes.{HasLeft, HasPlaceCause};
ghost use Rattle.folders.specs.inner.Folder.{IsStored, LeavesAlone, ShowsOnly};
ghost use Rattle.held_outputs.specs.inner.Disk.{TouchesNothing};
ghost use Rattle.folders.specs.declared.output.Output.{Output};
ghost use Rattle.folders.specs.inner.Outputs.{AllGone, AllLast, AllStored, ArePlaced, IsFront, IsNoNew, IsStoppedBy, LosesNothing};

use crate::disk::Disk;
use crate::error_number::ErrorNumber;
use crate::facts::Facts;
use crate::names::{copied, have_one_name, is_apart, name_in, number_of};
use crate::new_file::{NewFile, end_file, make};
use crate::not_held::NotMade;
use crate::paths::{folder_and_name, text_of};
use crate::places::is_at;
use crate::rights::Rights;
use folders::{Name, Output, OutputFault, PlaceFault, leave_all, place_renamed, place_stored};
use std::alloc::Global;
use std::fs::File;
use std::marker::Model;
use std::rt;

/// Outputs that are held back, in the order in which they were added. Contracts see their folder and their names. No name of one is a name
/// of another.
#[derive(Drop)]
pub struct Holding<D> {
    disk: D,
    outputs: Vec<Output>,
    // What else is known of each.
    files: Vec<NewFile>,
}

impl<D> Model for Holding<D> {
    ghost use Rattle.folders.specs.inner.Outputs.{AreApart};
    ghost use Rattle.held_outputs.specs.inner.Holding.{HoldingShown};

    ghost Value = { HoldingShown D };

    ghost view = { λ h. record { disk = h.disk; outputs = h.outputs.items } };

    ghost invariant = { λ h. AreApart h.outputs.items };
}

/// A new file that was added.
#[derive(Drop)]
pub struct Added {
    /// Its number: how many there were before.
    pub number: usize,
    /// A handle of it, to write to.
    pub file: File,
    /// What the system says of it.
    pub facts: Option<Facts>,
}

impl<D: Disk> Holding<D> {
    /// No output is held back.
    pub fn new(disk: D, alloc: Global) -> Holding<D>
        ensures { result ≡ record { disk = disk; outputs = [] } }
    {
        Holding {
            disk,
            outputs: Vec::new(alloc),
            files: Vec::new(alloc),
        }
    }

    /// Makes a new file for a place. Its folder is stored with its name, if so. It is refused if it gets in the way of another one, or if the
    /// system lets nobody replace the old file. No other name is touched, whatever ends the run.
    pub fn add<R: rt::Files<File = File>>(
        &mut self,
        rt: &R,
        alloc: Global,
        names: &Output,
        used: &[Facts],
        stores: bool,
    ) -> Result<Added, NotMade>
        ensures added { IfOk result
            (λ added. (added.number ≡ length self.old.outputs)
            × (self.new.outputs ≡ self.old.outputs ++ names.now ∷ [])) }
        ensures refused { OnErr result (self.new.outputs ≡ self.old.outputs) }
        ensures others { IsTrue D.names_known
            → LeavesAlone (λ n. n ≢ names.now.new) (D.shows self.old.disk) (D.shows self.new.disk) }
    {
        let entry = copied(alloc, names)?;
        self.outputs.reserve(1)?;
        self.files.reserve(1)?;
        if self.clashes_with(rt, names) || !is_apart(self.outputs.as_slice(), names) {
            return Err(NotMade::Refused);
        }
        let new = make_stored(rt, &mut self.disk, names, used, stores)?;
        let file = handle(&mut self.disk, names)?;
        let facts = Facts::of(&file);
        let number = self.outputs.len();
        self.outputs.push_reserved(entry);
        self.files.push_reserved(new);
        Ok(Added {
            number,
            file,
            facts,
        })
    }

    /// Whether one of these names is a name of an output in the same folder.
    pub fn clashes_with<R: rt::Files<File = File>>(&self, rt: &R, names: &Output) -> bool {
        let folder = Facts::at(rt, folder_and_name(text_of(&names.place)).0);
        for (number, other) in self.outputs.iter().enumerate() {
            if let Some(file) = self.files.get(number)
                && folder == Some(file.folder)
                && have_one_name(names, other)
            {
                return true;
            }
        }
        false
    }

    /// Whether an output is to get this name in this folder.
    pub fn is_for(&self, folder: Facts, name: &str) -> bool {
        for (number, other) in self.outputs.iter().enumerate() {
            if let Some(file) = self.files.get(number)
                && file.folder == folder
                && name_in(&other.place) == name
            {
                return true;
            }
        }
        false
    }

    /// What the system says of the file that this output is to replace, if there is one.
    pub fn replaced(&self, number: usize) -> Option<Facts> {
        self.files.get(number)?.replaced
    }

    /// Whether the new file of this output still has its name.
    pub fn is_there<R: rt::Files<File = File>>(&self, rt: &R, number: usize) -> bool {
        let Some(names) = self.outputs.get(number) else {
            return false;
        };
        match self.disk.file(&names.new) {
            Some(file) => is_at(rt, text_of(&names.new), file),
            None => false,
        }
    }

    /// Gives the new file of an output its rights, now that it is whole, and stores its bytes if so. Returns why that failed. No name but those of
    /// new files is touched, whatever ends the run.
    pub fn end(&mut self, number: usize, stores: bool) -> Result<(), ErrorNumber>
        ensures outputs { self.new.outputs ≡ self.old.outputs }
        ensures others { IsTrue D.names_known → LeavesAlone (IsNoNew self.old.outputs)
            (D.shows self.old.disk) (D.shows self.new.disk) }
        ensures stored { IsTrue D.names_known → stores ≡ true → OnOk result
            ((o : Output) → slice_get self.old.outputs number ≡ Some o
            → IsStored o.new (D.shows self.new.disk)) }
    {
        let rights = rights_of(self.files.as_slice(), number);
        end_at(
            &mut self.disk,
            self.outputs.as_slice(),
            number,
            rights,
            stores,
        )
    }

    /// Puts all outputs in place, the first one first, and stores their names if so. Their new files are whole, and stored if so. Those that are
    /// not in place after a fault stay.
    pub fn place(&mut self, stores: bool) -> Result<(), PlaceFault>
        ensures outputs { self.new.outputs ≡ self.old.outputs }

        // At Ok each place has its whole new file. At Err the fault says how many are in place.
        ensures placed { IsTrue D.names_known → OnOk result
            (ArePlaced self.old.outputs (D.shows self.old.disk).seen (D.shows self.new.disk).seen) }
        ensures stopped { IsTrue D.names_known → IfErr result
            (λ fault. IsStoppedBy fault self.old.outputs (D.shows self.old.disk).seen
            (D.shows self.new.disk).seen) }

        // A kill at any moment finds a front of the outputs in place, and all else as it was.
        ensures looks { IsTrue D.names_known
            → ShowsOnly (IsFront self.old.outputs (D.shows self.old.disk).seen)
            (D.shows self.old.disk) (D.shows self.new.disk) }
        ensures cause { IsTrue D.names_known → HasPlaceCause self.old.outputs result
            (D.shows self.old.disk).failures (D.shows self.new.disk).failures }

        // If the new files are stored, a power loss leaves each name as it could be before, or its whole new file: and that alone, after Ok.
        ensures loses { IsTrue D.names_known → AllStored self.old.outputs (D.shows self.old.disk)
            → LosesNothing self.old.outputs (D.shows self.old.disk) (D.shows self.new.disk) }
        ensures stored { IsTrue D.names_known → AllStored self.old.outputs (D.shows self.old.disk)
            → stores ≡ true → OnOk result
            (AllLast self.old.outputs (D.shows self.old.disk).seen (D.shows self.new.disk)) }
    {
        if stores {
            place_stored(&mut self.disk, self.outputs.as_slice())
        } else {
            place_renamed(&mut self.disk, self.outputs.as_slice())
        }
    }

    /// Keeps the folder of this place, so that it is stored with the names. It is refused if it cannot be read. No name is touched.
    pub fn keep_folder(&mut self, place: &Name) -> Result<(), NotMade>
        ensures outputs { self.new.outputs ≡ self.old.outputs }
        ensures same { IsTrue D.names_known
            → TouchesNothing (D.shows self.old.disk) (D.shows self.new.disk) }
    {
        self.disk.keep_folder(place)
    }

    /// How many there are.
    pub fn count(&self) -> usize
        ensures { result ≡ length self.now.outputs }
    {
        self.outputs.len()
    }

    /// Removes the new files that are left. No output is held back then. Returns the last that could not be removed. No other name is touched,
    /// whatever ends the run.
    pub fn leave(&mut self) -> Option<OutputFault>
        ensures outputs { self.new.outputs ≡ [] }
        ensures gone { IsTrue D.names_known → IsNone result
            → AllGone self.old.outputs (D.shows self.new.disk).seen }
        ensures others { IsTrue D.names_known → LeavesAlone (IsNoNew self.old.outputs)
            (D.shows self.old.disk) (D.shows self.new.disk) }
        ensures cause { IsTrue D.names_known → HasLeft self.old.outputs result
            (D.shows self.old.disk).failures (D.shows self.new.disk).failures }
    {
        let left = leave_all(&mut self.disk, self.outputs.as_slice());
        self.outputs.truncate(0);
        self.files.truncate(0);
        left
    }
}

// The rights that the new file of an output is to get.
fn rights_of(files: &[NewFile], number: usize) -> Option<Rights> {
    Some(files.get(number)?.rights)
}

// Ends the new file of the output of this number, as `end_file` does.
fn end_at<D: Disk>(
    disk: &mut D,
    outputs: &[Output],
    number: usize,
    rights: Option<Rights>,
    stores: bool,
) -> Result<(), ErrorNumber>
    ensures others { IsTrue D.names_known
        → LeavesAlone (IsNoNew outputs.now) (D.shows disk.old) (D.shows disk.new) }
    ensures stored { IsTrue D.names_known → stores ≡ true → OnOk result
        ((o : Output) → slice_get outputs.now number ≡ Some o → IsStored o.new (D.shows disk.new)) }
{
    if number >= outputs.len() {
        return Ok(());
    }
    let names = &outputs[number];
    end_file(disk, &names.new, rights, stores)
}

// Makes a new file, and keeps its folder if that is to be stored.
fn make_stored<R: rt::Files<File = File>, D: Disk>(
    rt: &R,
    disk: &mut D,
    names: &Output,
    used: &[Facts],
    stores: bool,
) -> Result<NewFile, NotMade>
    ensures others { IsTrue D.names_known
        → LeavesAlone (λ n. n ≢ names.now.new) (D.shows disk.old) (D.shows disk.new) }
{
    keep(disk, &names.place, stores)?;
    make(rt, disk, names, used)
}

// Keeps the folder of a place, if it is to be stored.
fn keep<D: Disk>(disk: &mut D, place: &Name, stores: bool) -> Result<(), NotMade>
    ensures { IsTrue D.names_known → TouchesNothing (D.shows disk.old) (D.shows disk.new) }
{
    if stores {
        disk.keep_folder(place)
    } else {
        Ok(())
    }
}

// Another handle of the new file of an output. If the system gives none, the file is removed.
fn handle<D: Disk>(disk: &mut D, names: &Output) -> Result<File, NotMade>
    ensures others { IsTrue D.names_known
        → LeavesAlone (λ n. n ≢ names.now.new) (D.shows disk.old) (D.shows disk.new) }
{
    if let Some(file) = copy_of(disk.file(&names.new)) {
        return Ok(file);
    }
    let _ = disk.remove(&names.new);
    Err(NotMade::Refused)
}

// Another handle of an open file.
fn copy_of(file: Option<&File>) -> Option<File> {
    file?.try_clone().ok()
}

/// Why the output of this number is not in place, of this many, if so: none is that was not renamed, and none after it. If the names could not be
/// stored, that is said of the last one.
pub fn fault_of(
    placed: Result<(), PlaceFault>,
    number: usize,
    count: usize,
) -> Result<(), ErrorNumber> {
    match placed {
        Ok(()) => Ok(()),
        Err(PlaceFault::NotStored(fault)) => Err(number_of(fault.why)),
        Err(PlaceFault::NotRenamed(fault)) if number < fault.output => Ok(()),
        Err(PlaceFault::NotRenamed(fault)) => Err(number_of(fault.why)),
        Err(PlaceFault::NamesNotStored(_)) if number.saturating_add(1) < count => Ok(()),
        Err(PlaceFault::NamesNotStored(why)) => Err(number_of(why)),
    }
}
