ghost use Rattle.std.specs.Prelude.{IsNone, IfErr, IsTrue, OnOk};
ghost use Rattle.folders.specs.inner.Causes.{HasPlaceCause, HasCauseAndLeft, IsOfPlacing, IsOfRename};
ghost use Rattle.folders.specs.inner.Folder.{ShowsOnly};
ghost use Rattle.folders.specs.inner.Outputs.{AllGone, AllLast, AllStored, AreApart, ArePlaced, IsFront, IsStoppedBy, LosesNothing};

use crate::fault::{NotPlaced, PlaceFault};
use crate::folder::Folder;
use crate::output::Output;
use crate::steps::{leave_all, rename_all, store_all};

/// Puts each new file in its place, the first one first, and stores that. At Err the new files that are not in place are removed.
pub fn place_or_leave<F: Folder>(folder: &mut F, outputs: &[Output]) -> Result<(), NotPlaced>
    requires apart { AreApart outputs.now }

    // At Ok each place has its whole new file, and a power loss leaves nothing else there.
    ensures placed { IsTrue F.names_known
        → OnOk result (ArePlaced outputs.now (F.shows folder.old).seen (F.shows folder.new).seen) }
    ensures stored { IsTrue F.names_known
        → OnOk result (AllLast outputs.now (F.shows folder.old).seen (F.shows folder.new)) }

    // At Err the fault says how many are in place. No new file is left, unless one is named.
    ensures stopped { IsTrue F.names_known
        → IfErr result
        (λ e. IsStoppedBy e.fault outputs.now (F.shows folder.old).seen (F.shows folder.new).seen) }
    ensures gone { IsTrue F.names_known
        → IfErr result (λ e. IsNone e.left → AllGone outputs.now (F.shows folder.new).seen) }

    // A kill at any moment finds a front of the outputs in place, and all else as it was.
    ensures looks { IsTrue F.names_known
        → ShowsOnly (IsFront outputs.now (F.shows folder.old).seen) (F.shows folder.old)
        (F.shows folder.new) }

    // A power loss at any moment leaves each name as it could be before, or its whole new file.
    ensures loses { IsTrue F.names_known
        → LosesNothing outputs.now (F.shows folder.old) (F.shows folder.new) }
    ensures cause { IsTrue F.names_known
        → HasCauseAndLeft outputs.now result (F.shows folder.old).failures
        (F.shows folder.new).failures }
{
    match place_all(folder, outputs) {
        Ok(()) => Ok(()),
        Err(fault) => {
            let left = leave_all(folder, outputs);
            Err(NotPlaced { fault, left })
        }
    }
}

/// The same without a store: it promises what a kill leaves, and not what a power loss leaves.
pub fn rename_or_leave<F: Folder>(folder: &mut F, outputs: &[Output]) -> Result<(), NotPlaced>
    requires apart { AreApart outputs.now }
    ensures placed { IsTrue F.names_known
        → OnOk result (ArePlaced outputs.now (F.shows folder.old).seen (F.shows folder.new).seen) }
    ensures stopped { IsTrue F.names_known
        → IfErr result
        (λ e. IsStoppedBy e.fault outputs.now (F.shows folder.old).seen (F.shows folder.new).seen) }
    ensures gone { IsTrue F.names_known
        → IfErr result (λ e. IsNone e.left → AllGone outputs.now (F.shows folder.new).seen) }
    ensures looks { IsTrue F.names_known
        → ShowsOnly (IsFront outputs.now (F.shows folder.old).seen) (F.shows folder.old)
        (F.shows folder.new) }
    ensures cause { IsTrue F.names_known
        → HasCauseAndLeft outputs.now result (F.shows folder.old).failures
        (F.shows folder.new).failures }
    ensures rename { IfErr result (λ e. IsOfRename e.fault) }
{
    match place_renamed(folder, outputs) {
        Ok(()) => Ok(()),
        Err(fault) => {
            let left = leave_all(folder, outputs);
            Err(NotPlaced { left, fault })
        }
    }
}

/// Stores the bytes of each new file, puts each in its place, the first one first, and stores the names once. New files that are not in
/// place stay.
pub fn place_all<F: Folder>(folder: &mut F, outputs: &[Output]) -> Result<(), PlaceFault>
    requires apart { AreApart outputs.now }
    ensures placed { IsTrue F.names_known
        → OnOk result (ArePlaced outputs.now (F.shows folder.old).seen (F.shows folder.new).seen) }
    ensures stored { IsTrue F.names_known
        → OnOk result (AllLast outputs.now (F.shows folder.old).seen (F.shows folder.new)) }
    ensures stopped { IsTrue F.names_known
        → IfErr result
        (λ fault. IsStoppedBy fault outputs.now (F.shows folder.old).seen (F.shows folder.new).seen) }
    ensures looks { IsTrue F.names_known
        → ShowsOnly (IsFront outputs.now (F.shows folder.old).seen) (F.shows folder.old)
        (F.shows folder.new) }
    ensures loses { IsTrue F.names_known
        → LosesNothing outputs.now (F.shows folder.old) (F.shows folder.new) }
    ensures cause { IsTrue F.names_known
        → HasPlaceCause outputs.now result (F.shows folder.old).failures
        (F.shows folder.new).failures }
{
    if let Err(fault) = store_all(folder, outputs) {
        return Err(PlaceFault::NotStored(fault));
    }
    place_stored(folder, outputs)
}

/// Puts each new file in its place, the first one first, and stores nothing. New files that are not in place stay.
pub fn place_renamed<F: Folder>(folder: &mut F, outputs: &[Output]) -> Result<(), PlaceFault>
    requires apart { AreApart outputs.now }
    ensures placed { IsTrue F.names_known
        → OnOk result (ArePlaced outputs.now (F.shows folder.old).seen (F.shows folder.new).seen) }
    ensures stopped { IsTrue F.names_known
        → IfErr result
        (λ fault. IsStoppedBy fault outputs.now (F.shows folder.old).seen (F.shows folder.new).seen) }
    ensures looks { IsTrue F.names_known
        → ShowsOnly (IsFront outputs.now (F.shows folder.old).seen) (F.shows folder.old)
        (F.shows folder.new) }
    ensures cause { IsTrue F.names_known
        → HasPlaceCause outputs.now result (F.shows folder.old).failures
        (F.shows folder.new).failures }
    ensures rename { IfErr result (λ fault. IsOfRename fault) }

    // If the bytes of the new files were stored before, a power loss takes nothing.
    ensures loses { IsTrue F.names_known
        → AllStored outputs.now (F.shows folder.old)
        → LosesNothing outputs.now (F.shows folder.old) (F.shows folder.new) }
{
    match rename_all(folder, outputs) {
        Ok(()) => Ok(()),
        Err(fault) => Err(PlaceFault::NotRenamed(fault)),
    }
}

/// Puts each new file in its place, the first one first, and stores the names once. The bytes of the new files are to be stored before. New
/// files that are not in place stay.
pub fn place_stored<F: Folder>(folder: &mut F, outputs: &[Output]) -> Result<(), PlaceFault>
    requires apart { AreApart outputs.now }
    ensures placed { IsTrue F.names_known
        → OnOk result (ArePlaced outputs.now (F.shows folder.old).seen (F.shows folder.new).seen) }
    ensures stopped { IsTrue F.names_known
        → IfErr result
        (λ fault. IsStoppedBy fault outputs.now (F.shows folder.old).seen (F.shows folder.new).seen) }
    ensures looks { IsTrue F.names_known
        → ShowsOnly (IsFront outputs.now (F.shows folder.old).seen) (F.shows folder.old)
        (F.shows folder.new) }
    ensures cause { IsTrue F.names_known
        → HasPlaceCause outputs.now result (F.shows folder.old).failures
        (F.shows folder.new).failures }
    ensures renames { IfErr result (λ fault. IsOfPlacing fault) }

    // If the bytes of the new files are stored, a power loss takes nothing.
    ensures stored { IsTrue F.names_known
        → AllStored outputs.now (F.shows folder.old)
        → OnOk result (AllLast outputs.now (F.shows folder.old).seen (F.shows folder.new)) }
    ensures loses { IsTrue F.names_known
        → AllStored outputs.now (F.shows folder.old)
        → LosesNothing outputs.now (F.shows folder.old) (F.shows folder.new) }
{
    if let Err(fault) = rename_all(folder, outputs) {
        return Err(PlaceFault::NotRenamed(fault));
    }
    if let Err(why) = folder.store_names() {
        return Err(PlaceFault::NamesNotStored(why));
    }
    Ok(())
}
