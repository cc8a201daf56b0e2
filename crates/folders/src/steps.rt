ghost use Rattle.std.specs.Prelude.{◌≡◌, ◌⊎◌, ℕ, List, IsNone, IfErr, IsTrue, OnOk};
ghost use Rattle.folders.specs.inner.Folder.{Keeps, LeavesAlone, ShowsOnly};
ghost use Rattle.folders.specs.inner.Outputs.{AreApart, IsNoNew, IsNoPlace, IsFront, IsStoppedAt, placed, AllFiles, AllStored, AllKept, AllGone, LosesNothing};
ghost use Rattle.folders.specs.inner.Causes.{HasCause, HasLeft, store_of, rename_of};

use crate::fault::OutputFault;
use crate::folder::Folder;
use crate::output::Output;

/// Stores the bytes of each new file. No other name is touched.
pub fn store_all<F: Folder>(folder: &mut F, outputs: &[Output]) -> Result<(), OutputFault>
    ensures stored { IsTrue F.names_known
        → OnOk result (AllStored outputs.now (F.shows folder.new)) }
    ensures keeps { IsTrue F.names_known
        → OnOk result (Keeps (F.shows folder.old) (F.shows folder.new)) }
    ensures others { IsTrue F.names_known
        → LeavesAlone (IsNoNew outputs.now) (F.shows folder.old) (F.shows folder.new) }
    ensures cause { IsTrue F.names_known
        → HasCause store_of outputs.now result (F.shows folder.old).failures
        (F.shows folder.new).failures }
{
    for (output, names) in outputs.iter().enumerate() {
        if let Err(why) = folder.store(&names.new) {
            return Err(OutputFault { output, why });
        }
    }
    Ok(())
}

/// Renames each new file to its place, the first one first, up to one that fails. What this promises against a kill needs no store.
pub fn rename_all<F: Folder>(folder: &mut F, outputs: &[Output]) -> Result<(), OutputFault>
    requires apart { AreApart outputs.now }
    ensures placed { IsTrue F.names_known
        → OnOk result ((F.shows folder.new).seen ≡ placed outputs.now (F.shows folder.old).seen) }
    ensures files { IsTrue F.names_known
        → OnOk result (AllFiles outputs.now (F.shows folder.old).seen) }
    ensures stopped { IsTrue F.names_known
        → IfErr result (λ fault. IsStoppedAt fault.output outputs.now (F.shows folder.old).seen
        (F.shows folder.new).seen) }
    ensures looks { IsTrue F.names_known
        → ShowsOnly (IsFront outputs.now (F.shows folder.old).seen) (F.shows folder.old)
        (F.shows folder.new) }
    ensures cause { IsTrue F.names_known
        → HasCause rename_of outputs.now result (F.shows folder.old).failures
        (F.shows folder.new).failures }

    // If the bytes of the new files are stored, a power loss takes nothing.
    ensures loses { IsTrue F.names_known
        → AllStored outputs.now (F.shows folder.old)
        → LosesNothing outputs.now (F.shows folder.old) (F.shows folder.new) }
    ensures kept { IsTrue F.names_known
        → AllStored outputs.now (F.shows folder.old)
        → OnOk result (AllKept outputs.now (F.shows folder.old).seen (F.shows folder.new)) }
    ensures bytes { IsTrue F.names_known
        → (n b : List ℕ) → IsNoPlace outputs.now n
        → (F.shows folder.new).bytes_of n b → (F.shows folder.old).bytes_of n b }
{
    for (output, names) in outputs.iter().enumerate() {
        if let Err(why) = folder.rename(&names.new, &names.place) {
            return Err(OutputFault { output, why });
        }
    }
    Ok(())
}

/// Removes each new file, and goes on after one that fails. Returns the last that failed. No other name is touched.
pub fn leave_all<F: Folder>(folder: &mut F, outputs: &[Output]) -> Option<OutputFault>
    ensures gone { IsTrue F.names_known
        → IsNone result → AllGone outputs.now (F.shows folder.new).seen }
    ensures others { IsTrue F.names_known
        → LeavesAlone (IsNoNew outputs.now) (F.shows folder.old) (F.shows folder.new) }
    ensures cause { IsTrue F.names_known
        → HasLeft outputs.now result (F.shows folder.old).failures (F.shows folder.new).failures }
{
    let mut left = None;
    for (output, names) in outputs.iter().enumerate() {
        if let Err(why) = folder.remove(&names.new) {
            left = Some(OutputFault { output, why });
        }
    }
    left
}
