// What a request asks of the process, and what came of it.
ghost use Rattle.std.specs.Prelude.{◌≡◌, Bool, false, IfOk, OnErr, option_map};
ghost use Rattle.command_line.specs.Words.{bytes_of_text};
ghost use Rattle.plrun.specs.Looks.{FindsFiles, asked_check, check_of, found_status};
ghost use Rattle.plrun.specs.declared.looks.Found.{Found};
ghost use Rattle.plrun.specs.Process.{IsLost, ended_status, told_status, folder_of, is_quiet, is_unwritten, names_file, names_report, reported_status};

use crate::advice::{Speaker, script_name};
use crate::check::check;
use crate::lines::Lines;
use crate::looks::{AskedCheck, Found, LooksAtFiles};
use crate::stats::{AskedStats, Ended, asked_stats, write_stats};
use collector::RunFault;
use command_line::{Progress, Request, ScriptFrom};
use program::{Ending, Ran, Refused, Report};
use run_types::{OutName, Placing, Settings};
use std::io::Write;

// The exit status of a run whose reader has ended, with `--quiet-pipe`: that of a program that the signal SIGPIPE ends (POSIX.1-2017 XCU
// 2.8.2), 128 and 13.
const READER_GONE: u8 = 141;

// The exit status if a file did not take the statistics.
const LOST: u8 = 4;

/// What a request asks of the process, besides what `answer` does.
#[derive(Clone, Copy)]
pub(crate) struct Wishes<'a> {
    script: Option<ScriptFrom<'a>>,
    check: Option<AskedCheck<'a>>,
    pub(crate) fits_workers: bool,
    pub(crate) settings: Option<Settings>,
    pub(crate) progress: Option<Progress>,
    pub(crate) stats: Option<AskedStats<'a>>,
    pub(crate) quiet_pipe: bool,
    pub(crate) placing: Placing,
}

impl<'a> Wishes<'a> {
    /// Those of this request.
    pub(crate) fn of(request: &Request<'a>) -> Wishes<'a>
        ensures quiet { result.quiet_pipe ≡ is_quiet request.now }
        ensures check { result.check ≡ check_of request.now }
        ensures report { names_file result.stats ≡ names_report request.now }
    {
        let none = Wishes {
            script: None,
            check: None,
            fits_workers: false,
            settings: None,
            progress: None,
            stats: None,
            quiet_pipe: false,
            placing: Placing::AsWritten,
        };
        match request {
            Request::Help(_) | Request::Version | Request::Codes | Request::Explain { .. } => none,
            Request::Plan {
                script,
                check,
                placing,
                stats_to,
                ..
            } => Wishes {
                script: Some(*script),
                check: asked_check(*check, *script, *placing, *stats_to),
                placing: *placing,
                ..none
            },
            Request::Run {
                script,
                settings,
                progress,
                stats,
                stats_to,
                quiet_pipe,
                placing,
                ..
            } => Wishes {
                script: Some(*script),
                fits_workers: settings.fits_workers,
                settings: Some(*settings),
                progress: *progress,
                stats: asked_stats(*stats, *stats_to),
                quiet_pipe: *quiet_pipe,
                placing: *placing,
                ..none
            },
        }
    }

    // Writes the lines of what came of the request, unless the process ends quietly, and returns the exit status. The script has this name.
    fn tell<E: Write>(
        self,
        speaker: Speaker<'_>,
        script: &[u8],
        reader_is_gone: bool,
        came_to: &Result<Ran, Refused<'_>>,
        errors: &mut Lines<E>,
    ) -> u8
        ensures ended { IfOk came_to.now
            (λ ran. result ≡ told_status self.entry.quiet_pipe reader_is_gone ran.ending) }
        ensures refused { OnErr came_to.now (result ≡ 2) }
    {
        if self.quiet_pipe && reader_is_gone && is_unwritten(came_to) {
            READER_GONE
        } else {
            speaker.say(script, reader_is_gone, came_to, errors)
        }
    }

    // Writes the statistics, if they are asked for. Returns whether the file that is named for them did not take them. The script has this name.
    fn loses_stats<P: Report, E: Write>(
        self,
        speaker: Speaker<'_>,
        script: &[u8],
        ended: Ended,
        came_to: &Result<Ran, Refused<'_>>,
        file: &mut P,
        errors: &mut Lines<E>,
    ) -> bool
        ensures lost { IsLost (names_file self.entry.stats) (P.failed file.new) result }
        ensures same { P.opened file.new ≡ P.opened file.old }
    {
        let Some(stats) = self.stats else {
            return false;
        };
        let alloc = speaker.alloc;
        match write_stats(alloc, stats, came_to, ended, file, errors) {
            Ok(()) => false,
            Err(error) => {
                speaker.say_lost(script, stats, error, came_to, errors);
                stats.to.is_some()
            }
        }
    }

    /// Says how the request ended, after this many milliseconds, and returns the exit status. `reader_is_gone` says that the reader of
    /// the standard output has gone.
    pub(crate) fn conclude<P: Report, L: LooksAtFiles, E: Write>(
        self,
        speaker: Speaker<'_>,
        millis: u64,
        reader_is_gone: bool,
        came_to: &Result<Ran, Refused<'_>>,
        file: &mut P,
        look: &mut L,
        errors: &mut Lines<E>,
    ) -> u8
        ensures ended { IfOk came_to.now (λ ran. (lost : Bool) × (found : Found)
            × IsLost (names_file self.entry.stats) (P.failed file.new) lost
            × FindsFiles self.entry.check ran.read.plan
            (ended_status self.entry.quiet_pipe reader_is_gone lost ran.ending) (L.looks look.old)
            (L.looks look.new) found
            × (result ≡ found_status found
            (ended_status self.entry.quiet_pipe reader_is_gone lost ran.ending))) }
        ensures refused { OnErr came_to.now (result ≡ 2) }
        ensures unlooked { OnErr came_to.now (L.looks look.new ≡ L.looks look.old) }
        ensures same { P.opened file.new ≡ P.opened file.old }
    {
        let name = script_name(speaker.alloc, self.script);
        let script = name.as_slice();
        let told = self.tell(speaker, script, reader_is_gone, came_to, errors);
        let ended = Ended {
            status: told,
            millis,
        };
        let lost = self.loses_stats(speaker, script, ended, came_to, file, errors);
        let status = reported_status(lost, told);
        match came_to {
            Ok(ran) => {
                let found = self.find(speaker, script, ran, status, look, errors);
                found.status(status)
            }
            Err(_) => status,
        }
    }

    // Looks at the files of the script, if that is asked for, and if the exit status is 0 without it.
    fn find<L: LooksAtFiles, E: Write>(
        self,
        speaker: Speaker<'_>,
        script: &[u8],
        ran: &Ran,
        status: u8,
        look: &mut L,
        errors: &mut Lines<E>,
    ) -> Found
        ensures { FindsFiles self.entry.check ran.now.read.plan status (L.looks look.old)
            (L.looks look.new) result }
    {
        match self.check {
            Some(asked) if status == 0 => check(speaker, script, asked, ran, look, errors),
            _ => Found::All,
        }
    }
}

// The look that is asked for if `--check` is set.
fn asked_check<'a>(
    check: bool,
    script: ScriptFrom<'a>,
    placing: Placing,
    report: Option<&'a str>,
) -> Option<AskedCheck<'a>>
    ensures { result ≡ asked_check check script.entry placing report.entry }
{
    if check {
        Some(AskedCheck {
            script,
            placing,
            report,
        })
    } else {
        None
    }
}

// The exit status once the statistics were written, or were lost.
fn reported_status(lost: bool, told: u8) -> u8
    ensures { result ≡ reported_status lost told }
{
    if lost && told < 2 { LOST } else { told }
}

/// The folder that all names of a request are relative to, if it names one.
pub(crate) fn folder_of<'a>(request: &Request<'a>) -> Option<&'a str>
    ensures { option_map (λ name. bytes_of_text name.now) result ≡ folder_of request.now }
{
    match request {
        Request::Plan { folder, .. } | Request::Run { folder, .. } => *folder,
        Request::Help(_) | Request::Version | Request::Codes | Request::Explain { .. } => None,
    }
}

// Whether a run could not go on, for no other reason than that a write to the standard output failed.
fn is_unwritten(came_to: &Result<Ran, Refused<'_>>) -> bool
    ensures ended { IfOk came_to.now (λ ran. result ≡ is_unwritten ran.ending) }
    ensures refused { OnErr came_to.now (result ≡ false) }
{
    match came_to {
        Ok(ran) => matches!(
            ran.ending,
            Ending::Faulted(RunFault::WriteFault(OutName::Standard))
        ),
        Err(_) => false,
    }
}
