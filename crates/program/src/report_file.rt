// The file of the statistics of a run, which is none of the run's own files.
ghost use Rattle.std.specs.Prelude.{◌≡◌, ◌∷◌, ◌++◌, ℕ, Bool, List, [], true, false, IfOk, IfErr, OnErr, OnOk};
ghost use Rattle.std.specs.List.{list_any};
ghost use Rattle.command_line.specs.Words.{bytes_of_text};
ghost use Rattle.program.specs.Reports.{IsApart, IsNotApart, IsNotReported, MayOpenReport, OpensReport, is_input, is_output, is_script_in, is_taken, is_taken_by, opens_name};

use crate::ending::Refusal;
use crate::ran::{Refused, ScriptRead};
use collector::NotOpened;
use command_line::{ScriptFrom, bytes_of_text};
use planner::{InOpening, OutOpening, Plan, PlanFault};
use run_types::{InName, OutName, Placing};
use std::alloc::{AllocError, Global};
use std::io;

/// The file of the statistics of a run. It is none of the run's files, so no log has what is written to it.
pub trait Report: Drop {
    /// The names that it was opened by, oldest first.
    ghost opened: { Self → List (List ℕ) };

    /// Whether the last write of it failed.
    ghost failed: { Self → Bool };

    /// Writes the whole text of the file, and puts it in place if it was held back. Nothing is done if it is not open.
    fn write(&mut self, text: &[u8]) -> io::Result<()>
        ensures same { opened self.new ≡ opened self.old }
        ensures ok { OnOk result (failed self.new ≡ false) }
        ensures failed { OnErr result (failed self.new ≡ true) };
}

/// A file of the statistics that is opened next to files of this type.
pub trait OpensReport<F>: Report {
    /// Opens the file of this name, and empties it. It is refused if it cannot be opened, or if it is one of these files or a file of the plan
    /// under another name. If outputs are held back, so is what is written to it. At Err no file is open for it.
    fn open(
        &mut self,
        name: &[u8],
        placing: Placing,
        plan: Option<&Plan>,
        files: &F,
    ) -> Result<(), NotOpened>
        ensures ok { OnOk result (Self.opened self.new ≡ Self.opened self.old ++ name.now ∷ []) }
        ensures refused { OnErr result (Self.opened self.new ≡ Self.opened self.old) };
}

/// Whether the file that a text names is that of the script, or one of its plan: for an operand, a redirection or an output. Names are compared by
/// their bytes.
pub fn is_taken(
    alloc: Global,
    to: &str,
    script: ScriptFrom<'_>,
    plan: &Plan,
) -> Result<bool, AllocError>
    ensures { IfOk result
        (λ taken. taken ≡ is_taken (bytes_of_text to.now) script.entry plan.now) }
{
    let name = bytes_of_text(alloc, to)?;
    Ok(is_script_in(alloc, name.as_slice(), script)? || opens_name(name.as_slice(), plan))
}

// Whether a script is in the file of this name.
fn is_script_in(alloc: Global, name: &[u8], script: ScriptFrom<'_>) -> Result<bool, AllocError>
    ensures { IfOk result (λ is. is ≡ is_script_in name.now script.entry) }
{
    match script {
        ScriptFrom::Text(_) => Ok(false),
        ScriptFrom::File(file) => {
            let file = bytes_of_text(alloc, file)?;
            Ok(file.as_slice() == name)
        }
    }
}

// Whether a plan opens the file of this name.
fn opens_name(name: &[u8], plan: &Plan) -> bool
    ensures { result ≡ opens_name name.now plan.now }
{
    reads_name(name, plan.inputs()) || writes_name(name, plan.outputs())
}

// Whether one of these inputs is opened by this name.
fn reads_name(name: &[u8], inputs: &[InOpening]) -> bool
    ensures { result ≡ list_any (λ opening. is_input name.now opening.name) inputs.now }
{
    inputs.iter().any(|opening| is_input(name, &opening.name))
}

// Whether one of these outputs is opened by this name.
fn writes_name(name: &[u8], outputs: &[OutOpening]) -> bool
    ensures { result ≡ list_any (λ opening. is_output name.now opening.name) outputs.now }
{
    outputs.iter().any(|opening| is_output(name, &opening.name))
}

// Whether an input is opened by this name.
fn is_input(name: &[u8], input: &InName) -> bool
    ensures { result ≡ is_input name.now input.now }
{
    match input {
        InName::Standard => false,
        InName::File(word) => word.bytes() == name,
    }
}

// Whether an output is opened by this name.
fn is_output(name: &[u8], output: &OutName) -> bool
    ensures { result ≡ is_output name.now output.now }
{
    match output {
        OutName::Standard => false,
        OutName::File { name: word, .. } => word.bytes() == name,
    }
}

// Refuses the file of the statistics, if one is named, if it is that of the script or one of its plan.
pub(crate) fn check_apart<'a>(
    alloc: Global,
    to: Option<&'a str>,
    script: ScriptFrom<'_>,
    plan: &Plan,
) -> Result<(), Refusal<'a>>
    ensures apart { OnOk result (IsApart to.entry script.entry plan.now) }
    ensures cause { IfErr result (IsNotApart to.entry script.entry plan.now) }
{
    let Some(name) = to else {
        return Ok(());
    };
    match is_taken(alloc, name, script, plan) {
        Ok(false) => Ok(()),
        Ok(true) => Err(Refusal::NotApart(name)),
        Err(_) => Err(Refusal::Plan(PlanFault::NoMemory)),
    }
}

// Opens the file of the statistics, if one is named, after the files of this plan. It is refused too if memory is.
pub(crate) fn open_report<'a, F, P: OpensReport<F>>(
    alloc: Global,
    to: Option<&'a str>,
    placing: Placing,
    plan: &Plan,
    files: &F,
    report: &mut P,
) -> Result<(), Refusal<'a>>
    ensures opens { OnOk result
        (OpensReport to.entry (P.opened report.old) (P.opened report.new)) }
    ensures cause { IfErr result
        (IsNotReported to.entry (P.opened report.old) (P.opened report.new)) }
{
    let Some(name) = to else {
        return Ok(());
    };
    let Ok(bytes) = bytes_of_text(alloc, name) else {
        return Err(Refusal::NotReported(name));
    };
    match report.open(bytes.as_slice(), placing, Some(plan), files) {
        Ok(()) => Ok(()),
        Err(_) => Err(Refusal::NotReported(name)),
    }
}

// Opens the file of the statistics of a request that was refused, if it is none of the files that are known.
pub(crate) fn report_refusal<F, P: OpensReport<F>>(
    alloc: Global,
    to: Option<&str>,
    script: ScriptFrom<'_>,
    placing: Placing,
    refused: &Refused<'_>,
    files: &F,
    report: &mut P,
)
    ensures { MayOpenReport to.entry script.entry refused.now.read.plan (P.opened report.old)
        (P.opened report.new) }
{
    let Some(name) = to else {
        return;
    };
    if matches!(refused.why, Refusal::NotReported(_)) {
        return;
    }
    let Ok(bytes) = bytes_of_text(alloc, name) else {
        return;
    };
    let name = bytes.as_slice();
    if let Ok(false) = is_taken_by(alloc, name, script, &refused.read) {
        let _ = report.open(name, placing, refused.read.plan.as_ref(), files);
    }
}

// Whether the file of this name is that of the script, or one of its plan if that was made.
fn is_taken_by(
    alloc: Global,
    name: &[u8],
    script: ScriptFrom<'_>,
    read: &ScriptRead,
) -> Result<bool, AllocError>
    ensures { IfOk result (λ taken. taken ≡ is_taken_by name.now script.entry read.now.plan) }
{
    let is_script = is_script_in(alloc, name, script)?;
    match &read.plan {
        Some(plan) => Ok(is_script || opens_name(name, plan)),
        None => Ok(is_script),
    }
}

/// No file of the statistics: a request that names one is refused.
#[derive(Clone, Copy)]
pub struct NoReport;

impl Report for NoReport {
    ghost use Rattle.std.specs.Prelude.{[], false};

    ghost opened = { λ _. [] };

    ghost failed = { λ _. false };

    fn write(&mut self, _text: &[u8]) -> io::Result<()> {
        Ok(())
    }
}

impl<F> OpensReport<F> for NoReport {
    fn open(
        &mut self,
        _name: &[u8],
        _placing: Placing,
        _plan: Option<&Plan>,
        _files: &F,
    ) -> Result<(), NotOpened> {
        Err(NotOpened::Refused)
    }
}
