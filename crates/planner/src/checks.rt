ghost use Rattle.std.specs.Prelude.{◌≡◌, ℕ, ◌+◌, ◌↔◌, ◌||◌, length, count_by, nat_lt, List, IfOk, IsTrue};
ghost use Rattle.std.specs.List.{list_any};
ghost use Rattle.graphs.specs.Uses.{AreUses};
ghost use Rattle.commands.specs.Operands.{operand_count};
ghost use Rattle.planner.specs.Ends.{in_ends, out_ends, leaves};
ghost use Rattle.planner.specs.Faults.{all_read, all_written, fifo_faults, file_faults, end_faults, later_faults, main_place, operands_max, pipes_max, stages_max, IsFifoPlace, PutsIntoFifo, PutsOutside, EndsInFifo, EndsOutside, MeetsFaults};
ghost use Rattle.planner.specs.Places.{Stage as StageShown};
ghost use Rattle.planner.specs.declared.place.Place.TheVariants.{Standard};

use crate::clashes::{
    has_many_readers, has_many_writers, has_no_reader, has_no_writer, is_made_twice,
    is_read_and_written, is_written_twice,
};
use crate::ends::{operand_place, standard_output};
use crate::fault::PlanFault;
use crate::place::{Channel, End, Place};
use crate::stage::Stage;
use crate::tables::leaves;
use graphs::{Names, Uses};
use machine::NoMemory;
use std::alloc::Global;

// The greatest numbers of stages, of pipes, and of the operands of a command.
const STAGES_MAX: usize = 256;

const PIPES_MAX: usize = 1_024;

const OPERANDS_MAX: usize = 32;

// The first fault of the names of FIFOs.
pub(crate) fn check_fifos(uses: &[Uses]) -> Result<(), PlanFault>
    ensures { (fifos : List (List ℕ)) (stages : List StageShown)
        → AreUses fifos (all_read stages) (all_written stages) uses.now
        → MeetsFaults fifos stages fifo_faults result }
{
    if is_made_twice(uses) {
        Err(PlanFault::FifoTwice)
    } else if has_many_writers(uses) {
        Err(PlanFault::ManyWriters)
    } else if has_many_readers(uses) {
        Err(PlanFault::ManyReaders)
    } else if has_no_reader(uses) {
        Err(PlanFault::NoReader)
    } else if has_no_writer(uses) {
        Err(PlanFault::NoWriter)
    } else {
        Ok(())
    }
}

// The first fault of the names of files.
pub(crate) fn check_files(uses: &[Uses]) -> Result<(), PlanFault>
    ensures { (fifos : List (List ℕ)) (stages : List StageShown)
        → AreUses fifos (all_read stages) (all_written stages) uses.now
        → MeetsFaults fifos stages file_faults result }
{
    if is_written_twice(uses) {
        Err(PlanFault::OutputTwice)
    } else if is_read_and_written(uses) {
        Err(PlanFault::ReadAndWritten)
    } else {
        Ok(())
    }
}

// The main output of a stage.
fn main_place(alloc: Global, fifos: &Names<'_>, stage: &Stage<'_>) -> Result<Place, NoMemory>
    ensures { IfOk result (λ place. place ≡ main_place fifos.now stage.now) }
{
    if stage.filter.writes_standard() {
        return standard_output(alloc, fifos, stage);
    }
    match stage.filter.output_operands() {
        [] => Ok(Place::Standard),
        [name, ..] => operand_place(alloc, fifos, stage, name),
    }
}

// Whether it is a FIFO, and whether it is the standard output of the run.
fn is_fifo(place: &Place) -> bool
    ensures { IsTrue result ↔ IsFifoPlace place.now }
{
    match place {
        Place::Through(Channel::Fifo(_)) => true,
        _ => false,
    }
}

fn is_run_output(place: &Place) -> bool
    ensures { IsTrue result ↔ (place.now ≡ Standard) }
{
    match place {
        Place::Standard => true,
        _ => false,
    }
}

// Whether a stage is a last one in the foreground, and its main output a FIFO.
fn puts_into_fifo(alloc: Global, fifos: &Names<'_>, stage: &Stage<'_>) -> Result<bool, NoMemory>
    ensures { IfOk result (λ yes. IsTrue yes ↔ PutsIntoFifo fifos.now stage.now) }
{
    if stage.background || !stage.is_last {
        return Ok(false);
    }
    Ok(is_fifo(&main_place(alloc, fifos, stage)?))
}

// Whether there is such a stage.
pub(crate) fn ends_in_fifo(
    alloc: Global,
    fifos: &Names<'_>,
    stages: &[Stage<'_>],
) -> Result<bool, NoMemory>
    ensures { IfOk result (λ yes. IsTrue yes ↔ EndsInFifo fifos.now stages.now) }
{
    for stage in stages {
        if puts_into_fifo(alloc, fifos, stage)? {
            return Ok(true);
        }
    }
    Ok(false)
}

// Whether a stage is a last one in the background, and its main output the standard output of the run.
fn puts_outside(alloc: Global, fifos: &Names<'_>, stage: &Stage<'_>) -> Result<bool, NoMemory>
    ensures { IfOk result (λ yes. IsTrue yes ↔ PutsOutside fifos.now stage.now) }
{
    if !stage.background || !stage.is_last {
        return Ok(false);
    }
    Ok(is_run_output(&main_place(alloc, fifos, stage)?))
}

// Whether there is such a stage.
pub(crate) fn ends_outside(
    alloc: Global,
    fifos: &Names<'_>,
    stages: &[Stage<'_>],
) -> Result<bool, NoMemory>
    ensures { IfOk result (λ yes. IsTrue yes ↔ EndsOutside fifos.now stages.now) }
{
    for stage in stages {
        if puts_outside(alloc, fifos, stage)? {
            return Ok(true);
        }
    }
    Ok(false)
}

// The first fault of the last outputs.
fn check_ends(alloc: Global, fifos: &Names<'_>, stages: &[Stage<'_>]) -> Result<(), PlanFault>
    ensures { MeetsFaults fifos.now stages.now end_faults result }
{
    if ends_in_fifo(alloc, fifos, stages)? {
        return Err(PlanFault::LastOutputIsFifo);
    }
    if ends_outside(alloc, fifos, stages)? {
        return Err(PlanFault::AsyncToStdout);
    }
    Ok(())
}

// How many of these branches have a sink.
fn leaving_count(outs: &[End]) -> usize
    ensures { result ≡ count_by leaves outs.now }
{
    outs.iter().filter(|out| leaves(out)).count()
}

// Whether a stage has more operands than a command may have.
fn has_many_operands(stages: &[Stage<'_>]) -> bool
    ensures { result ≡ list_any (λ s. nat_lt operands_max (operand_count s.filter)) stages.now }
{
    stages
        .iter()
        .any(|stage| stage.filter.operand_count() > OPERANDS_MAX)
}

// Whether there are too many stages, pipes or operands.
fn are_too_many(stages: &[Stage<'_>], ins: &[End], outs: &[End]) -> bool
    ensures { result
        ≡ (nat_lt stages_max (length stages.now) ||
        (nat_lt pipes_max (length ins.now + count_by leaves outs.now) || list_any
        (λ s. nat_lt operands_max (operand_count s.filter)) stages.now)) }
{
    let pipes = ins.len() + leaving_count(outs);
    stages.len() > STAGES_MAX || pipes > PIPES_MAX || has_many_operands(stages)
}

// The first fault after the cycle.
pub(crate) fn check_later(
    alloc: Global,
    uses: &[Uses],
    fifos: &Names<'_>,
    stages: &[Stage<'_>],
    ins: &[End],
    outs: &[End],
) -> Result<(), PlanFault>
    requires uses { AreUses fifos.now (all_read stages.now) (all_written stages.now) uses.now }
    requires ins { ins.now ≡ in_ends fifos.now stages.now }
    requires outs { outs.now ≡ out_ends fifos.now stages.now }
    ensures { MeetsFaults fifos.now stages.now later_faults result }
{
    check_files(uses)?;
    check_ends(alloc, fifos, stages)?;
    if are_too_many(stages, ins, outs) {
        return Err(PlanFault::TooMany);
    }
    Ok(())
}
