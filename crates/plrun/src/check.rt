// A look at the files of a script, for `--check`, and what is said of it.
ghost use Rattle.plrun.specs.Looks.{FindsFiles};
ghost use Rattle.std.specs.Prelude.{Some};

use crate::advice::{Speaker, source_of};
use crate::lines::Lines;
use crate::looks::{AskedCheck, Found, KeptLook, LookedAt, Looks, LooksAtFiles};
use command_line::bytes_of_text;
use hints::{HintForm, Read, Trouble};
use openings::OpenFault;
use planner::InOpening;
use program::Ran;
use run_types::Escaped;
use std::alloc::Global;
use std::io::{self, Write};

// The line of a script whose commands may wait for one another in a circle.
const MAY_STALL: &str =
    "plrun: this script may stall if a full pipe may not grow: plrun --explain stalled says more";

/// Looks whether the inputs of the script are there, and whether its outputs can be written, and the file for its statistics. It writes a line
/// for each file that fails, and then the hints, if those are written here. If the script may stall, a line says so. The script has this name.
pub(crate) fn check<L: LooksAtFiles, E: Write>(
    speaker: Speaker<'_>,
    script: &[u8],
    asked: AskedCheck<'_>,
    ran: &Ran,
    look: &mut L,
    errors: &mut Lines<E>,
) -> Found
    ensures { FindsFiles (Some asked.entry) ran.now.read.plan 0 (L.looks look.old) (L.looks look.new)
        result }
{
    let Some(plan) = &ran.read.plan else {
        return Found::All;
    };
    let Ok(looks) = Looks::through(speaker.alloc, look, asked, plan) else {
        let _ = writeln!(errors, "plrun: {}", OpenFault::NoMemory);
        return Found::NoMemory;
    };
    if !plan.is_forest() {
        let _ = writeln!(errors, "{MAY_STALL}");
    }
    if looks.all_open() {
        return Found::All;
    }
    say_failed(speaker, script, ran, &looks, errors);
    Found::NotAll
}

// Writes the line of each file that fails, and then the hints, if those are written here.
fn say_failed<E: Write>(
    speaker: Speaker<'_>,
    script: &[u8],
    ran: &Ran,
    looks: &Looks<'_>,
    errors: &mut Lines<E>,
) {
    for look in looks.kept.iter() {
        if looks.fails(look) {
            let _ = write_line(speaker.alloc, look.file, errors);
        }
    }
    if let Some(form) = speaker.hint_form() {
        let _ = write_hints(speaker, form, script, ran, looks, errors);
    }
}

// Writes the line of a file that cannot be opened, as a run has it.
fn write_line<E: Write>(alloc: Global, file: LookedAt<'_>, errors: &mut E) -> io::Result<()> {
    match file {
        LookedAt::Input(
            InOpening {
                stage,
                name,
                operand: true,
                ..
            },
        ) => writeln!(errors, "plrun: stage {stage}: cannot open {name}"),
        LookedAt::Input(opening) => writeln!(errors, "plrun: O1 InputNotOpened: {}", opening.name),
        LookedAt::Output(opening, _) => {
            writeln!(errors, "plrun: O2 OutputNotOpened: {}", opening.name)
        }
        LookedAt::Report(name, _) => {
            let name = bytes_of_text(alloc, name)?;
            writeln!(
                errors,
                "plrun: O2 OutputNotOpened: {}",
                Escaped(name.as_slice())
            )
        }
    }
}

// Writes the hint of each file that fails, in this form.
fn write_hints<E: Write>(
    speaker: Speaker<'_>,
    form: HintForm,
    script: &[u8],
    ran: &Ran,
    looks: &Looks<'_>,
    errors: &mut Lines<E>,
) -> io::Result<()> {
    let reasons = speaker.reasons(false);
    let read = Read {
        source: source_of(script, &ran.read),
        script: ran.read.script.as_ref(),
        plan: ran.read.plan.as_ref(),
    };
    let adviser = speaker.adviser(form, script, read, &reasons);
    for look in looks.kept.iter() {
        if looks.fails(look) {
            match look.file {
                LookedAt::Input(opening) => {
                    adviser.write_input(&opening.name, opening.operand, errors)?;
                }
                LookedAt::Output(opening, _) => adviser.write_output(&opening.name, errors)?,
                LookedAt::Report(name, _) if looks.is_taken => {
                    adviser.write(Trouble::NotApart(name), errors)?;
                }
                LookedAt::Report(name, _) => adviser.write(Trouble::NotReported(name), errors)?,
            }
        }
    }
    Ok(())
}
