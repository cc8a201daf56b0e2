ghost use Rattle.std.specs.Prelude.{IfOk, IfErr, OnErr};
ghost use Rattle.program.specs.ScriptReads.{WritesNothing};
ghost use Rattle.program.specs.Runs.{IsUnprinted, PrintsSome, PrintsText};

use crate::ending::{Ending, Refusal};
use collector::{Files, IoFailed, NotOpened, RunFault, write_all};
use command_line::{Explanation, explanations, write_help};
use openings::OpenFault;
use run_types::OutName;
use std::alloc::Global;
use std::io::{self, Write};

// The version, and the logic that it is proved in, as `rt version` names it.
pub(crate) const VERSION: &str = "plrun 0.1.0, proved with logic dac8208d650f15bf\n";

// Prints a text to the standard output.
pub(crate) fn print_text<'a, F: Files>(text: &[u8], files: &mut F) -> Result<Ending, Refusal<'a>>
    ensures ok { IfOk result
        (PrintsText F.contents_known text.now (F.shows files.old) (F.shows files.new)) }
    ensures cause { IfErr result (IsUnprinted (F.shows files.old) (F.shows files.new)) }
    ensures refused { OnErr result (WritesNothing (F.shows files.old) (F.shows files.new)) }
{
    let file = match files.open_out(&OutName::Standard) {
        Ok(file) => file,
        Err(NotOpened::Refused) => {
            return Err(Refusal::Opening(OpenFault::OutputNotOpened(OutName::Standard)));
        }
        Err(NotOpened::NoMemory) => return Err(Refusal::Opening(OpenFault::NoMemory)),
    };
    match write_all(file, text, files) {
        Ok(()) => Ok(Ending::Done { succeeded: true }),
        Err(IoFailed) => Ok(Ending::Faulted(RunFault::WriteFault(OutName::Standard))),
    }
}

// Prints a help.
pub(crate) fn print_help<'a, F: Files>(
    alloc: Global,
    help: &clap::Error,
    files: &mut F,
) -> Result<Ending, Refusal<'a>>
    ensures ok { IfOk result (PrintsSome F.contents_known (F.shows files.old) (F.shows files.new)) }
    ensures cause { IfErr result (IsUnprinted (F.shows files.old) (F.shows files.new)) }
    ensures refused { OnErr result (WritesNothing (F.shows files.old) (F.shows files.new)) }
{
    let mut text = Vec::new(alloc);
    if write_help(alloc, help, &mut text).is_err() {
        return Err(Refusal::Opening(OpenFault::NoMemory));
    }
    print_text(text.as_slice(), files)
}

// Prints what all faults are: a line for each, with its code, its name, and what it means.
pub(crate) fn print_codes<'a, F: Files>(alloc: Global, files: &mut F) -> Result<Ending, Refusal<'a>>
    ensures ok { IfOk result (PrintsSome F.contents_known (F.shows files.old) (F.shows files.new)) }
    ensures cause { IfErr result (IsUnprinted (F.shows files.old) (F.shows files.new)) }
    ensures refused { OnErr result (WritesNothing (F.shows files.old) (F.shows files.new)) }
{
    let mut text = Vec::new(alloc);
    if write_codes(&mut text).is_err() {
        return Err(Refusal::Opening(OpenFault::NoMemory));
    }
    print_text(text.as_slice(), files)
}

// Writes a line for each fault.
fn write_codes(text: &mut Vec<u8>) -> io::Result<()> {
    for faults in explanations() {
        write_faults(faults, text)?;
    }
    Ok(())
}

// Writes a line for each of these faults.
fn write_faults(faults: &[Explanation], text: &mut Vec<u8>) -> io::Result<()> {
    for explanation in faults {
        let Explanation {
            code,
            name,
            meaning,
            ..
        } = *explanation;
        writeln!(text, "{code} {name}: {meaning}")?;
    }
    Ok(())
}

// Prints what the code of a fault means, and what to do.
pub(crate) fn print_explanation<'a, F: Files>(
    alloc: Global,
    explanation: Explanation,
    files: &mut F,
) -> Result<Ending, Refusal<'a>>
    ensures ok { IfOk result (PrintsSome F.contents_known (F.shows files.old) (F.shows files.new)) }
    ensures cause { IfErr result (IsUnprinted (F.shows files.old) (F.shows files.new)) }
    ensures refused { OnErr result (WritesNothing (F.shows files.old) (F.shows files.new)) }
{
    let Explanation {
        code,
        name,
        meaning,
        example,
        advice,
    } = explanation;
    let mut text = Vec::new(alloc);
    if write!(
        text,
        "{code} {name}\n{meaning}\nExample: {example}\nWhat to do: {advice}\n"
    )
    .is_err()
    {
        return Err(Refusal::Opening(OpenFault::NoMemory));
    }
    print_text(text.as_slice(), files)
}
