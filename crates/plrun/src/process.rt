// The process: it reads its words, does what they ask for, and says what came of it.
ghost use Rattle.std.specs.Prelude.{◌≡◌};
ghost use Rattle.plrun.specs.Process.{EndsHanded, EndsProcess, EndsWords, IsExitStatus};
ghost use Rattle.plrun.specs.Words.{given_options, given_words};
ghost use Rattle.program.specs.Reports.{OpensNoOther, report_of};

use crate::advice::Speaker;
use crate::folder::{EntersFolder, entered};
use crate::gate::RunGate;
use crate::lines::Lines;
use crate::looks::LooksAtFiles;
use crate::presets::Presets;
use crate::run_files::{RunFiles, TakesWatch};
use crate::stats::Timer;
use crate::wishes::{Wishes, folder_of};
use crate::words::{GivenWords, HandsWords, whole_words};
use crate::{NO_MEMORY, not_read};
use command_line::{Hints, Misuse, NoWords, Progress, Request, presets_of, with_presets};
use file_stores::StandardStreams;
use program::{EXIT_REFUSED, OpensReport, Refusal, Refused, answer};
use progress::{Form, HostWatch, LineThread};
use run_types::{Escaped, Placing};
use std::alloc::Global;
use std::io::{IsTerminal, Write};
use std::marker::Sync;
use std::sync::Wait;
use std::thread::Threads;
use workers::Gate;

/// The process: its runtime, under each of the bounds that its calls ask for, and what it was given.
#[derive(Drop)]
pub(crate) struct Process<'a, R, W> {
    pub(crate) rt: HostRuntime,
    pub(crate) threads: &'a R,
    pub(crate) alloc: Global,
    pub(crate) streams: StandardStreams,
    /// The thread that writes the line of progress, if there can be one.
    pub(crate) writer: Option<W>,
}

impl<'a, R: Threads + Wait + Sync, W: LineThread> Process<'a, R, W> {
    /// Runs the command of the words that are handed over, over these files, and returns the exit status. All names are relative to the folder
    /// that is entered first, if the words name one. The file of the statistics is none of the run's files.
    pub(crate) fn begin<
        H: HandsWords,
        D: EntersFolder,
        F: TakesWatch<HostWatch<HostRuntime, W>>,
        P: OpensReport<F>,
        L: LooksAtFiles,
        E: Write,
    >(
        self,
        from: &H,
        folder: &mut D,
        files: &mut F,
        file: &mut P,
        look: &mut L,
        errors: &mut Lines<E>,
    ) -> u8
        ensures ends { EndsHanded F.contents_known (H.words from.now) (H.options from.now)
            (record {
              files = F.shows files.old;
              folders = D.folders folder.old;
              gone = F.gone files.old;
              failed = P.failed file.old;
              looks = L.looks look.old;
            })
            (record {
              files = F.shows files.new;
              folders = D.folders folder.new;
              gone = F.gone files.new;
              failed = P.failed file.new;
              looks = L.looks look.new;
            }) result }
        ensures status { IsExitStatus result }
    {
        match GivenWords::read(from, self.alloc) {
            Ok(given) => self.command(&given, folder, files, file, look, errors),
            Err(_) => not_read(NO_MEMORY, errors),
        }
    }

    // Runs the command that these words give, and returns the exit status.
    fn command<
        D: EntersFolder,
        F: TakesWatch<HostWatch<HostRuntime, W>>,
        P: OpensReport<F>,
        L: LooksAtFiles,
        E: Write,
    >(
        self,
        given: &GivenWords,
        folder: &mut D,
        files: &mut F,
        file: &mut P,
        look: &mut L,
        errors: &mut Lines<E>,
    ) -> u8
        ensures ends { EndsWords F.contents_known (given_words given.now) (given_options given.now)
            (record {
              files = F.shows files.old;
              folders = D.folders folder.old;
              gone = F.gone files.old;
              failed = P.failed file.old;
              looks = L.looks look.old;
            })
            (record {
              files = F.shows files.new;
              folders = D.folders folder.new;
              gone = F.gone files.new;
              failed = P.failed file.new;
              looks = L.looks look.new;
            }) result }
        ensures status { IsExitStatus result }
    {
        let alloc = self.alloc;
        let whole = match with_presets(alloc, given.words.as_slice(), given.options.as_slice()) {
            Ok(whole) => whole,
            Err(cause) => return write_no_words(cause, errors),
        };
        let Ok(plain) = whole.with_plain_sizes(alloc) else {
            return not_read(NO_MEMORY, errors);
        };
        let Ok(words) = whole_words(alloc, &plain) else {
            return not_read(NO_MEMORY, errors);
        };
        let words = words.as_slice();
        let presets = Presets {
            words: presets_of(words, whole.presets),
            given: whole.presets(),
        };
        let speaker = self.speaker(words);
        match Request::read(alloc, words) {
            Ok(request) => {
                if entered(folder, alloc, folder_of(&request), errors) {
                    self.carry_out(speaker, request, files, file, look, errors)
                } else {
                    EXIT_REFUSED
                }
            }
            Err(misuse) => refuse(speaker, misuse, presets, errors),
        }
    }

    // What reports the result of these words.
    fn speaker<'w>(&self, words: &'w [&'w str]) -> Speaker<'w> {
        Speaker {
            rt: self.rt,
            alloc: self.alloc,
            streams: self.streams,
            words,
            hints: Hints::of_words(words),
            placing: Placing::AsWritten,
            settings: None,
            last_error: None,
        }
    }

    // Does what is requested, says what came of it, and returns the exit status.
    fn carry_out<
        'w,
        F: TakesWatch<HostWatch<HostRuntime, W>>,
        P: OpensReport<F>,
        L: LooksAtFiles,
        E: Write,
    >(
        self,
        speaker: Speaker<'_>,
        request: Request<'w>,
        files: &mut F,
        file: &mut P,
        look: &mut L,
        errors: &mut Lines<E>,
    ) -> u8
        ensures ends { EndsProcess F.contents_known request.entry (F.shows files.old)
            (F.shows files.new) (F.gone files.new) (P.failed file.new) (L.looks look.old)
            (L.looks look.new) result }
        ensures status { IsExitStatus result }
        ensures opens { OpensNoOther (report_of request.entry) (P.opened file.old)
            (P.opened file.new) }
    {
        let Process {
            rt,
            threads,
            writer,
            ..
        } = self;
        let wishes = Wishes::of(&request);
        let timer = Timer::begin(rt);
        files.watch(watch_of(rt, writer, wishes.progress));
        let gate = RunGate::new(rt, wishes.stats.is_some(), wishes.fits_workers);
        serve(
            threads, speaker, request, timer, files, &gate, file, look, errors,
        )
    }
}

// Does what is requested over these files, says what came of it, and returns the exit status.
fn serve<
    'w,
    R: Threads + Wait + Sync,
    F: RunFiles,
    G: Gate,
    P: OpensReport<F>,
    L: LooksAtFiles,
    E: Write,
>(
    threads: &R,
    speaker: Speaker<'_>,
    request: Request<'w>,
    timer: Timer,
    files: &mut F,
    gate: &G,
    file: &mut P,
    look: &mut L,
    errors: &mut Lines<E>,
) -> u8
    ensures ends { EndsProcess F.contents_known request.entry (F.shows files.old)
        (F.shows files.new) (F.gone files.new) (P.failed file.new) (L.looks look.old)
        (L.looks look.new) result }
    ensures status { IsExitStatus result }
    ensures opens { OpensNoOther (report_of request.entry) (P.opened file.old)
        (P.opened file.new) }
{
    let wishes = Wishes::of(&request);
    let came_to = answer(threads, speaker.alloc, request, files, gate, file, errors);
    let reader_is_gone = files.end();
    let speaker = Speaker {
        placing: wishes.placing,
        settings: wishes.settings,
        last_error: files.last_error(),
        ..speaker
    };
    wishes.conclude(
        speaker,
        timer.millis(),
        reader_is_gone,
        &came_to,
        file,
        look,
        errors,
    )
}

// Says why words are refused, and that PLRUN_OPTIONS has a part in it, if it has. Returns the exit status.
fn refuse<E: Write>(
    speaker: Speaker<'_>,
    misuse: Misuse,
    presets: Presets<'_>,
    errors: &mut Lines<E>,
) -> u8
    ensures { result ≡ 2 }
{
    let have_part = presets.have_part_in(speaker.alloc, &misuse);
    let refused = Err(Refused::from(Refusal::from(misuse)));
    let status = speaker.report(&refused, errors);
    if have_part {
        presets.write(speaker.alloc, errors);
    }
    speaker.advise(b"-c", false, &refused, errors);
    status
}

// Says why there are no words, and returns the exit status.
fn write_no_words<E: Write>(cause: NoWords, errors: &mut Lines<E>) -> u8
    ensures { result ≡ 2 }
{
    match cause {
        NoWords::NoMemory => not_read(NO_MEMORY, errors),
        NoWords::NoPreset(word) => {
            let word = Escaped(word.as_slice());
            let _ = writeln!(
                errors,
                "plrun: PLRUN_OPTIONS may not have {word}: it takes options of a run, as --workers=2"
            );
            EXIT_REFUSED
        }
    }
}

// The watch that shows how far a run is, if that is to be shown and the standard error is one on which it is.
fn watch_of<W: LineThread>(
    rt: HostRuntime,
    writer: Option<W>,
    progress: Option<Progress>,
) -> Option<HostWatch<HostRuntime, W>> {
    let form = match (progress?, rt.stderr().is_terminal()) {
        (_, true) => Form::Redrawn,
        (Progress::Always, false) => Form::Plain,
        (Progress::OnTerminal, false) => return None,
    };
    Some(HostWatch::with_writer(rt, form, writer?))
}
