// Opening the files of a plan whose outputs may be held back until the run has finished.
ghost use Rattle.std.specs.Prelude.{◌≡◌, ℕ, true, IfOk, IfErr, OnErr};
ghost use Rattle.collector.specs.Files.{writes_of};
ghost use Rattle.collector.specs.Places.{KeepsFiles};
ghost use Rattle.run_types.specs.Placings.{is_held};
ghost use Rattle.openings.specs.Placings.{OpensPlacing, FailsPlacing};

use crate::fault::OpenFault;
use crate::opened::Opened;
use crate::opening::open_as;
use collector::Files;
use planner::Plan;
use run_types::Placing;
use std::alloc::Global;

/// Opens the files of a plan as `open_as` does. Outputs get what is written to them as `placing` says. If an opening fails and outputs
/// were held back, every file holds what it held.
pub fn open_placing<F: Files>(
    alloc: Global,
    plan: &Plan,
    strict: bool,
    placing: Placing,
    files: &mut F,
) -> Result<Opened, OpenFault>
    ensures opens { IfOk result
        (OpensPlacing F.contents_known strict placing plan.now (F.shows files.old)
        (F.shows files.new)) }
    ensures refused { IfErr result
        (FailsPlacing F.contents_known strict placing plan.now (F.shows files.old)
        (F.shows files.new)) }
    ensures kept { OnErr result
        (is_held placing ≡ true → KeepsFiles (F.shows files.old) (F.shows files.new)) }
    ensures written { (file : ℕ)
        → writes_of (F.shows files.new) file ≡ writes_of (F.shows files.old) file }
{
    files.begin_outputs(placing)?;
    let opened = open_as(alloc, plan, strict, files);
    if opened.is_err() {
        files.leave_outputs();
    }
    opened
}
