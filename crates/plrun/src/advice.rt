ghost use Rattle.std.specs.Prelude.{◌≡◌, IfOk, OnErr};
ghost use Rattle.program.specs.Statuses.{status_of};

use crate::lines::Lines;
use crate::stats::AskedStats;
use collector::RunFault;
use command_line::{Hints, ScriptFrom, bytes_of_text};
use command_words::Word;
use file_stores::{
    DescriptorFault, NotHeld, OpensNow, StandardStreams, is_one_file, is_standard, opening_now,
    why_not_held,
};
use hints::{
    Adviser, Asked, HintForm, Read, Reason, Reasons, Sameness, Source, Stream, Trouble, WhyNotHeld,
};
use program::{Ending, Ran, Refusal, Refused, ScriptRead, report};
use run_types::{OutName, Placing, Settings};
use std::alloc::Global;
use std::io::{self, IsTerminal, Write};

/// What the system says of files.
#[derive(Clone, Copy)]
pub(crate) struct HostReasons {
    pub(crate) rt: HostRuntime,
    pub(crate) alloc: Global,
    pub(crate) streams: StandardStreams,
    /// When the outputs of the run get what is written to them.
    pub(crate) placing: Placing,
    /// The number of the error of the last read or write of the run that failed, if one did.
    pub(crate) last_error: Option<i32>,
    /// Whether the reader of the standard output has ended.
    pub(crate) reader_is_gone: bool,
}

impl Reasons for HostReasons {
    fn reason(&self, name: &str, writes: bool) -> Option<Reason> {
        let now = opening_now(&self.rt, self.alloc, &self.streams, name, writes).ok()?;
        Some(match now {
            OpensNow::Refused(error) => Reason::Refused(error),
            OpensNow::Folder => Reason::Folder,
            OpensNow::Descriptor(fault) => reason_of(fault),
            OpensNow::Opens => Reason::Opens,
        })
    }

    fn reason_not_held(&self, name: &str, append: bool) -> Option<WhyNotHeld> {
        match why_not_held(&self.rt, self.alloc, name, append, self.placing) {
            Ok(Some(why)) => Some(in_words_of_hints(why)),
            Ok(None) | Err(_) => None,
        }
    }

    fn last_error(&self) -> Option<io::Error> {
        match self.last_error {
            Some(number) => Some(io::Error::from_raw_os_error(number)),
            None => None,
        }
    }

    fn is_same_file(&self, name: &str, other: &str, writes: bool) -> bool {
        is_one_file(&self.rt, name, other, writes)
    }

    fn is_standard(&self, stream: Stream, name: &str, writes: bool) -> Sameness {
        let stream = match stream {
            Stream::Input => file_stores::Stream::Input,
            Stream::Output => file_stores::Stream::Output,
        };
        match is_standard(&self.rt, &self.streams, stream, name, writes) {
            file_stores::Sameness::Same => Sameness::Same,
            file_stores::Sameness::Apart => Sameness::Apart,
            file_stores::Sameness::Unknown => Sameness::Unknown,
        }
    }

    fn input_is_folder(&self) -> bool {
        self.streams.input_is_folder()
    }

    fn streams_are_one(&self) -> bool {
        self.streams.are_one_file()
    }

    fn reader_is_gone(&self) -> bool {
        self.reader_is_gone
    }
}

// The same reason, as hints name it.
fn in_words_of_hints(why: NotHeld) -> WhyNotHeld {
    match why {
        NotHeld::Locked => WhyNotHeld::Locked,
        NotHeld::NoNewFile => WhyNotHeld::NoNewFile,
        NotHeld::NameTaken => WhyNotHeld::NameTaken,
        NotHeld::NoLocks => WhyNotHeld::NoLocks,
        NotHeld::NoRemoval => WhyNotHeld::NoRemoval,
        NotHeld::MountPoint => WhyNotHeld::MountPoint,
        NotHeld::OnlyGrows => WhyNotHeld::OnlyGrows,
        NotHeld::UnreadFolder => WhyNotHeld::UnreadFolder,
    }
}

// The reason for a name that leads to such a descriptor.
fn reason_of(fault: DescriptorFault) -> Reason {
    match fault {
        DescriptorFault::StandardInput => Reason::Leads(Stream::Input),
        DescriptorFault::StandardOutput => Reason::Leads(Stream::Output),
        DescriptorFault::NotGiven => Reason::NotGiven,
    }
}

/// Reports the result of the words of a command line.
#[derive(Clone, Copy)]
pub(crate) struct Speaker<'a> {
    pub(crate) rt: HostRuntime,
    pub(crate) alloc: Global,
    pub(crate) streams: StandardStreams,
    /// The words, each option with its value.
    pub(crate) words: &'a [&'a str],
    /// The place at which they ask for hints.
    pub(crate) hints: Hints,
    /// When the outputs of the run get what is written to them.
    pub(crate) placing: Placing,
    /// The settings of the run, if one is asked for.
    pub(crate) settings: Option<Settings>,
    /// The number of the error of the last read or write of the run that failed, if one did.
    pub(crate) last_error: Option<i32>,
}

impl<'a> Speaker<'a> {
    /// Writes the lines of the result of a request, and the hints after them, if those are written here. Returns the exit status. The
    /// script has this name.
    pub(crate) fn say<E: Write>(
        self,
        script: &[u8],
        reader_is_gone: bool,
        came_to: &Result<Ran, Refused<'_>>,
        errors: &mut Lines<E>,
    ) -> u8
        ensures ended { IfOk came_to.now (λ ran. result ≡ status_of ran.ending) }
        ensures refused { OnErr came_to.now (result ≡ 2) }
    {
        let status = self.report(came_to, errors);
        self.advise(script, reader_is_gone, came_to, errors);
        status
    }

    /// Writes the lines, and returns the exit status.
    pub(crate) fn report<E: Write>(
        self,
        came_to: &Result<Ran, Refused<'_>>,
        errors: &mut Lines<E>,
    ) -> u8
        ensures ended { IfOk came_to.now (λ ran. result ≡ status_of ran.ending) }
        ensures refused { OnErr came_to.now (result ≡ 2) }
    {
        report(self.alloc, came_to, errors)
    }

    /// Writes the hints, if they are written here.
    pub(crate) fn advise<E: Write>(
        self,
        script: &[u8],
        reader_is_gone: bool,
        came_to: &Result<Ran, Refused<'_>>,
        errors: &mut Lines<E>,
    ) {
        let Some(form) = self.hint_form() else {
            return;
        };
        let reasons = self.reasons(reader_is_gone);
        let adviser = self.adviser(form, script, read_of(script, came_to), &reasons);
        if let Ok(ran) = came_to {
            let _ = write_missing(&adviser, ran, errors);
        }
        if let Some(trouble) = trouble_of(came_to, self.settings.as_ref()) {
            let _ = adviser.write(trouble, errors);
        }
    }

    /// Writes that a file did not take the statistics for this error, and the hint, if that is written here. The script has this name.
    pub(crate) fn say_lost<E: Write>(
        self,
        script: &[u8],
        stats: AskedStats<'_>,
        error: io::Error,
        came_to: &Result<Ran, Refused<'_>>,
        errors: &mut Lines<E>,
    ) {
        let Ok(name) = bytes_of_text(self.alloc, stats.to.unwrap_or("")) else {
            return;
        };
        let fault = RunFault::WriteFault(OutName::File {
            name: Word::from_vec(name),
            append: false,
        });
        let _ = writeln!(errors, "plrun: {fault}");
        let Some(form) = self.hint_form() else {
            return;
        };
        let speaker = Speaker {
            last_error: error.raw_os_error(),
            ..self
        };
        let reasons = speaker.reasons(false);
        let adviser = speaker.adviser(form, script, read_of(script, came_to), &reasons);
        let _ = adviser.write(Trouble::Faulted(&fault), errors);
    }

    /// What the system says of files after a request.
    pub(crate) fn reasons(self, reader_is_gone: bool) -> HostReasons {
        HostReasons {
            rt: self.rt,
            alloc: self.alloc,
            streams: self.streams,
            placing: self.placing,
            last_error: self.last_error,
            reader_is_gone,
        }
    }

    /// Writes hints in this form, about the script of this name as far as it was read.
    pub(crate) fn adviser(
        self,
        form: HintForm,
        script: &'a [u8],
        read: Read<'a>,
        reasons: &'a HostReasons,
    ) -> Adviser<'a, HostReasons> {
        Adviser {
            alloc: self.alloc,
            form,
            asked: Asked {
                words: self.words,
                script,
                piped: !self.rt.stdin().is_terminal(),
            },
            read,
            reasons,
        }
    }

    /// The form in which hints are written on the standard error of this process, if they are. A strict run has a line for each fault if that is
    /// no terminal.
    pub(crate) fn hint_form(self) -> Option<HintForm> {
        match self.hints {
            Hints::Never => None,
            Hints::Always => Some(HintForm::Drawn),
            Hints::Line => Some(HintForm::Line),
            Hints::OnTerminal if self.rt.stderr().is_terminal() => Some(HintForm::Drawn),
            Hints::OnTerminal if is_strict(self.words) => Some(HintForm::Line),
            Hints::OnTerminal => None,
        }
    }
}

// Whether these words ask for a strict run, each option with its value. A run whose outputs are held back is strict unless they say otherwise.
fn is_strict(words: &[&str]) -> bool {
    let mut held = false;
    for word in words {
        match *word {
            "--" => return held,
            "--strict=always" => return true,
            "--strict=never" => return false,
            "--atomic=renamed" | "--atomic=synced" => held = true,
            _ => {}
        }
    }
    held
}

/// The script of this name, with no text if that was not read.
pub(crate) fn source_of<'a>(name: &'a [u8], read: &'a ScriptRead) -> Source<'a> {
    let text = match &read.text {
        Some(text) => text.as_slice(),
        None => b"",
    };
    Source { name, text }
}

// The script of this name, as far as it was read.
fn read_of<'a>(name: &'a [u8], came_to: &'a Result<Ran, Refused<'_>>) -> Read<'a> {
    let read = match came_to {
        Ok(ran) => &ran.read,
        Err(refused) => &refused.read,
    };
    Read {
        source: source_of(name, read),
        script: read.script.as_ref(),
        plan: read.plan.as_ref(),
    }
}

// Writes the hint for each operand that could not be opened.
fn write_missing<W: Write>(
    adviser: &Adviser<'_, HostReasons>,
    ran: &Ran,
    to: &mut W,
) -> io::Result<()> {
    let (Some(plan), Some(opened)) = (adviser.read.plan, &ran.opened) else {
        return Ok(());
    };
    for place in opened.missing() {
        if let Some(opening) = plan.inputs().get(*place) {
            adviser.write_input(&opening.name, true, to)?;
        }
    }
    Ok(())
}

// Why a request was refused, or why its run did not finish, if that is so.
fn trouble_of<'a>(
    came_to: &'a Result<Ran, Refused<'_>>,
    settings: Option<&'a Settings>,
) -> Option<Trouble<'a>> {
    match came_to {
        Ok(ran) => match &ran.ending {
            Ending::Done { .. } => None,
            Ending::Stalled { waits, .. } => Some(Trouble::Stalled {
                waits: waits.as_slice(),
                settings,
            }),
            Ending::Faulted(fault) => Some(Trouble::Faulted(fault)),
        },
        Err(refused) => Some(trouble_of_refusal(&refused.why)),
    }
}

// Why a request was refused.
fn trouble_of_refusal<'a>(why: &'a Refusal<'_>) -> Trouble<'a> {
    match why {
        Refusal::Words(misuse) => Trouble::Words(misuse),
        Refusal::NotRead(_) => Trouble::Unread,
        Refusal::Text(fault) => Trouble::Text(fault),
        Refusal::Plan(fault) => Trouble::Plan(fault),
        Refusal::Shards(fault) => Trouble::Shards(fault),
        Refusal::Opening(fault) => Trouble::Opening(fault),
        Refusal::NotApart(name) => Trouble::NotApart(name),
        Refusal::NotReported(name) => Trouble::NotReported(name),
    }
}

/// The name of a script, as a place begins with it. Empty if memory is refused.
pub(crate) fn script_name(alloc: Global, script: Option<ScriptFrom<'_>>) -> Vec<u8> {
    let name = match script {
        Some(ScriptFrom::File(name)) => bytes_of_text(alloc, name),
        _ => bytes_of_text(alloc, "-c"),
    };
    name.unwrap_or(Vec::new(alloc))
}
