ghost use Rattle.std.specs.Prelude.{◌≡◌, ℕ, ◌≤◌, [], length, Some, None, OnOk, IfOk, IfErr, IfSome, IsTrue, false, vec_capacity};
ghost use Rattle.std.specs.List.{slice_get};
ghost use Rattle.collector.specs.Files.{writes_of, SameContents, SameHeld, OpensDestination, OpensHeld};
ghost use Rattle.openings.specs.Destinations.{OpensDestinations};
ghost use Rattle.openings.specs.Answers.{missing_places};
ghost use Rattle.openings.specs.Contents.{HoldsInputs, FailsLeaving, LeavesContents};
ghost use Rattle.openings.specs.Fronts.{LeavesFronts};
ghost use Rattle.openings.specs.inner.LeftParts.{AreWhole, HoldsWhole};
ghost use Rattle.openings.specs.inner.Failures.{FailsAhead, FailsBehind};
ghost use Rattle.openings.specs.Openings.{OpensFirst, OpensBehind, Opens, OpensAs, OpensOneInput, OpensOneOutput, NamesMissing, input_names, output_names};

use crate::fault::OpenFault;
use crate::names::Names;
use crate::needs::needs_of;
use crate::opened::Opened;
use crate::parts::leave_out_parts;
use crate::tables::{Tables, first_missing};
use collector::{Files, NotOpened};
use planner::{InOpening, OutOpening, Plan};
use run_types::{InName, OutName};
use std::alloc::Global;

/// Opens the files of a plan: every input, in order, and then every output. A front of an input that no reader needs may be left out.
pub fn open<F: Files>(alloc: Global, plan: &Plan, files: &mut F) -> Result<Opened, OpenFault>
    ensures opens { Opens plan.now (F.shows files.old) (F.shows files.new) result }
    ensures written { (file : ℕ)
        → writes_of (F.shows files.new) file ≡ writes_of (F.shows files.old) file }
    ensures holds { IsTrue F.contents_known
        → IfOk result
        (λ opened. OpensDestinations plan.now.outputs opened.outputs (F.shows files.old)
        (F.shows files.new)) }
    ensures held { IsTrue F.contents_known
        → IfOk result
        (λ opened. HoldsInputs plan.now opened.inputs (F.shows files.old) (F.shows files.new)) }
    ensures fronts { IfOk result
        (λ opened. LeavesFronts plan.now opened.inputs (F.shows files.old) (F.shows files.new)) }
    ensures refused { IsTrue F.contents_known
        → IfErr result (FailsLeaving false plan.now (F.shows files.old) (F.shows files.new)) }
{
    open_as(alloc, plan, false, files)
}

/// Opens the files of a plan, as `open` does. If it is strict, every operand has to be there, or no output is opened, whichever fault
/// is returned. If a redirected input is refused, the fault has its name. Otherwise it has that of the first missing operand, in the
/// order of opening. When all are open, a front of an input that no reader needs may be left out.
pub fn open_as<F: Files>(
    alloc: Global,
    plan: &Plan,
    strict: bool,
    files: &mut F,
) -> Result<Opened, OpenFault>
    ensures opens { OpensAs strict plan.now (F.shows files.old) (F.shows files.new) result }
    ensures written { (file : ℕ)
        → writes_of (F.shows files.new) file ≡ writes_of (F.shows files.old) file }
    ensures holds { IsTrue F.contents_known
        → IfOk result
        (λ opened. OpensDestinations plan.now.outputs opened.outputs (F.shows files.old)
        (F.shows files.new)) }
    ensures held { IsTrue F.contents_known
        → IfOk result
        (λ opened. HoldsInputs plan.now opened.inputs (F.shows files.old) (F.shows files.new)) }
    ensures fronts { IfOk result
        (λ opened. LeavesFronts plan.now opened.inputs (F.shows files.old) (F.shows files.new)) }
    ensures refused { IsTrue F.contents_known
        → IfErr result (LeavesContents strict plan.now (F.shows files.old) (F.shows files.new)) }
{
    let needs = needs_of(alloc, plan)?;
    let mut tables = Tables::new(alloc, plan)?;
    let mut names = Names::of(alloc, plan)?;
    open_inputs(plan, &mut names.inputs, &mut tables.inputs, files)?;
    refuse_missing(plan, &mut names.inputs, strict, tables.inputs.as_slice())?;
    open_outputs(plan, &mut names.outputs, &mut tables.outputs, files)?;
    leave_out_parts(plan, needs.as_slice(), tables.inputs.as_slice(), files);
    Ok(tables.filled(plan))
}

// Refuses the first operand that is missing among the answers to all inputs, which have these names, if that is strict.
fn refuse_missing(
    plan: &Plan,
    names: &mut Vec<InName>,
    strict: bool,
    answers: &[Option<usize>],
) -> Result<(), OpenFault>
    requires count { length answers.now ≡ length plan.now.inputs }
    requires names { names.old.items ≡ input_names plan.now.inputs }
    ensures ok { IsTrue strict → OnOk result (missing_places answers.now ≡ []) }
    ensures err { IfErr result (λ f. IsTrue strict × NamesMissing plan.now answers.now f) }
{
    if !strict {
        return Ok(());
    }
    match first_missing(answers) {
        Some(place) => Err(OpenFault::InputNotOpened(names.swap_remove(place))),
        None => Ok(()),
    }
}

// Opens the inputs of a plan, which have these names. A fault takes its name out of them.
fn open_inputs<F: Files>(
    plan: &Plan,
    names: &mut Vec<InName>,
    answers: &mut Vec<Option<usize>>,
    files: &mut F,
) -> Result<(), OpenFault>
    requires empty { answers.old.items ≡ [] }
    requires room { length plan.now.inputs ≤ vec_capacity answers.old }
    requires names { names.old.items ≡ input_names plan.now.inputs }
    ensures names { OnOk result (names.new.items ≡ input_names plan.now.inputs) }
    ensures count { OnOk result (length answers.new.items ≡ length plan.now.inputs) }
    ensures ok { OnOk result
        (OpensFirst plan.now answers.new.items [] None (F.shows files.old) (F.shows files.new)) }
    ensures contents { SameContents (F.shows files.old) (F.shows files.new) }
    ensures held { IsTrue F.contents_known
        → OnOk result
        (HoldsWhole plan.now answers.new.items (F.shows files.old) (F.shows files.new)) }
    ensures whole { OnOk result
        (AreWhole answers.new.items (F.shows files.old) (F.shows files.new)) }
    ensures err { IfErr result (FailsAhead plan.now (F.shows files.old) (F.shows files.new)) }
{
    for opening in plan.inputs() {
        let place = answers.len();
        answers.push_reserved(open_input(opening, names, place, files)?);
    }
    Ok(())
}

// Opens the outputs of a plan, which have these names. Its inputs were opened.
fn open_outputs<F: Files>(
    plan: &Plan,
    names: &mut Vec<OutName>,
    answers: &mut Vec<usize>,
    files: &mut F,
) -> Result<(), OpenFault>
    requires empty { answers.old.items ≡ [] }
    requires room { length plan.now.outputs ≤ vec_capacity answers.old }
    requires names { names.old.items ≡ output_names plan.now.outputs }
    ensures count { OnOk result (length answers.new.items ≡ length plan.now.outputs) }
    ensures ok { OnOk result
        (OpensBehind plan.now answers.new.items (F.shows files.old) (F.shows files.new)) }
    ensures holds { IsTrue F.contents_known
        → OnOk result
        (OpensDestinations plan.now.outputs answers.new.items (F.shows files.old)
        (F.shows files.new)) }
    ensures held { SameHeld (F.shows files.old) (F.shows files.new) }
    ensures err { IfErr result
        (FailsBehind F.contents_known plan.now (F.shows files.old) (F.shows files.new)) }
{
    for opening in plan.outputs() {
        let place = answers.len();
        answers.push_reserved(open_output(opening, names, place, files)?);
    }
    Ok(())
}

// Opens an input, which has the name at this place. None if it is that of an operand and was refused. A fault takes the name.
fn open_input<F: Files>(
    opening: &InOpening,
    names: &mut Vec<InName>,
    place: usize,
    files: &mut F,
) -> Result<Option<usize>, OpenFault>
    requires name { slice_get names.old.items place ≡ Some opening.now.name }
    ensures names { OnOk result (names.new.items ≡ names.old.items) }
    ensures opens { OpensOneInput opening.now (F.shows files.old) (F.shows files.new) result }
    ensures held { IsTrue F.contents_known
        → IfOk result
        (λ answer. IfSome answer
        (λ file. OpensHeld opening.now.name file (F.shows files.old) (F.shows files.new))) }
{
    match files.open_in(&opening.name) {
        Ok(file) => Ok(Some(file)),
        Err(NotOpened::Refused) if opening.operand => Ok(None),
        Err(NotOpened::Refused) => Err(OpenFault::InputNotOpened(names.swap_remove(place))),
        Err(NotOpened::NoMemory) => Err(OpenFault::NoMemory),
    }
}

// Opens an output, which has the name at this place. A fault takes the name.
fn open_output<F: Files>(
    opening: &OutOpening,
    names: &mut Vec<OutName>,
    place: usize,
    files: &mut F,
) -> Result<usize, OpenFault>
    requires name { slice_get names.old.items place ≡ Some opening.now.name }
    ensures names { OnOk result (names.new.items ≡ names.old.items) }
    ensures opens { OpensOneOutput opening.now (F.shows files.old) (F.shows files.new) result }
    ensures holds { IsTrue F.contents_known
        → IfOk result
        (λ file. OpensDestination opening.now.name file (F.shows files.old)
        (F.shows files.new)) }
{
    match files.open_out(&opening.name) {
        Ok(file) => Ok(file),
        Err(NotOpened::Refused) => Err(OpenFault::OutputNotOpened(names.swap_remove(place))),
        Err(NotOpened::NoMemory) => Err(OpenFault::NoMemory),
    }
}
