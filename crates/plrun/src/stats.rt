// The statistics of a run, as they are printed.
ghost use Rattle.std.specs.Prelude.{◌≡◌, true, false, is_some, OnOk};
ghost use Rattle.plrun.specs.Process.{names_file};

use command_line::StatsForm;
use machine::NoMemory;
use plan_texts::{RunStats, refusal_json, stats_json, stats_text};
use planner::Plan;
use program::{Ran, Refused, Report, report};
use run_types::Statistics;
use std::alloc::Global;
use std::io::{self, ErrorKind, Write};
use std::time::Instant;

/// How long a run takes.
#[derive(Clone, Copy)]
pub(crate) struct Timer {
    rt: HostRuntime,
    begun: Option<Instant>,
}

impl Timer {
    /// The run begins now.
    pub(crate) fn begin(rt: HostRuntime) -> Timer {
        Timer {
            rt,
            begun: Instant::now(&rt).ok(),
        }
    }

    /// How many milliseconds it has taken, 0 if there is no clock.
    pub(crate) fn millis(self) -> u64 {
        match (self.begun, Instant::now(&self.rt)) {
            (Some(begun), Ok(now)) => {
                u64::try_from(now.duration_since(begun).as_millis()).unwrap_or(u64::MAX)
            }
            _ => 0,
        }
    }
}

/// The statistics that a request asks for: their form, and the file that they are written to, if it is not the standard error.
#[derive(Clone, Copy)]
pub(crate) struct AskedStats<'a> {
    pub(crate) form: StatsForm,
    pub(crate) to: Option<&'a str>,
}

/// The statistics that are asked for, if they are: in this form, or in lines if only a file is named for them.
pub(crate) fn asked_stats<'a>(
    form: Option<StatsForm>,
    to: Option<&'a str>,
) -> Option<AskedStats<'a>>
    ensures { names_file result ≡ is_some to.entry }
{
    match (form, to) {
        (Some(form), to) => Some(AskedStats { form, to }),
        (None, Some(_)) => Some(AskedStats {
            form: StatsForm::Text,
            to,
        }),
        (None, None) => None,
    }
}

/// How a request ended: its exit status, and after how many milliseconds.
#[derive(Clone, Copy)]
pub(crate) struct Ended {
    pub(crate) status: u8,
    pub(crate) millis: u64,
}

/// Writes what a run moved. A file gets what became of a request that came to no run, too. If memory is refused, nothing is written. It fails if
/// a file that is named does not get it.
pub(crate) fn write_stats<P: Report, E: Write>(
    alloc: Global,
    asked: AskedStats<'_>,
    came_to: &Result<Ran, Refused<'_>>,
    ended: Ended,
    file: &mut P,
    errors: &mut E,
) -> io::Result<()>
    ensures same { P.opened file.new ≡ P.opened file.old }
    ensures written { is_some asked.entry.to ≡ true → OnOk result (P.failed file.new ≡ false) }
{
    let lines = lines_of(alloc, came_to);
    let fault = first_fault(lines.as_slice());
    match (
        asked.to,
        text_of(alloc, asked.form, &*came_to, fault, ended),
    ) {
        (Some(_), Ok(text)) => file.write(text.as_slice()),
        (Some(_), Err(NoMemory)) => Err(io::Error::from(ErrorKind::OutOfMemory)),
        (None, Ok(text)) => {
            if ran_of(came_to).is_some() {
                let _ = errors.write_all(text.as_slice());
            }
            Ok(())
        }
        (None, Err(NoMemory)) => Ok(()),
    }
}

// The plan of a script that was run, and what the run moved.
fn ran_of<'a>(came_to: &'a Result<Ran, Refused<'_>>) -> Option<(&'a Plan, &'a Statistics)> {
    match came_to {
        Ok(ran) => Some((ran.read.plan.as_ref()?, ran.statistics.as_ref()?)),
        Err(_) => None,
    }
}

// What is said of a request in this form. The lines have nothing if there was no run.
fn text_of<'a>(
    alloc: Global,
    form: StatsForm,
    came_to: &'a Result<Ran, Refused<'_>>,
    fault: Option<&'a [u8]>,
    ended: Ended,
) -> Result<Vec<u8>, NoMemory> {
    let Some((plan, statistics)) = ran_of(came_to) else {
        return match form {
            StatsForm::Text => Ok(Vec::new(alloc)),
            StatsForm::Json => refusal_json(alloc, ended.status, fault),
        };
    };
    let stats = RunStats {
        status: ended.status,
        fault,
        millis: ended.millis,
        statistics,
    };
    match form {
        StatsForm::Text => stats_text(alloc, plan, stats),
        StatsForm::Json => stats_json(alloc, plan, stats),
    }
}

// The lines that say what became of a request.
fn lines_of(alloc: Global, came_to: &Result<Ran, Refused<'_>>) -> Vec<u8> {
    let mut lines = Vec::new(alloc);
    report(alloc, came_to, &mut lines);
    lines
}

// The first of these lines, without the name of the program. None if there is none.
fn first_fault(lines: &[u8]) -> Option<&[u8]> {
    let line = lines.split(|byte| *byte == b'\n').next()?;
    line.strip_prefix(b"plrun: ".as_slice())
}
