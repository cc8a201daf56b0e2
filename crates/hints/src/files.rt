// Hints for files that cannot be opened, read or written.
use crate::advice::Adviser;
use crate::hint::Hint;
use crate::late::late_word;
use crate::names::meant_by;
use crate::reasons::{
    FOLDER, NOT_GIVEN, Reason, Reasons, Sameness, Stream, is_absent, is_many, words_of,
};
use crate::uses::{Use, command_with, uses_of};
use command_line::bytes_of_text;
use command_words::Word;
use run_types::{Escaped, InName, OutName};
use std::alloc::AllocError;
use std::io::{self, Write};

// Why a name that leads to a standard stream is not opened, and what to write in place of it.
const WRITE_DASH: &str = "this is the standard input: write -";

const LEAVE_INPUT: &str = "this is the standard input: leave it out";

const LEAVE_OUTPUT: &str = "this is the standard output: leave it out";

const NO_INPUT: &str = "this is the standard output, and no input";

const NO_OUTPUT: &str = "this is the standard input, and no output";

// Why a file is not opened that may be a standard stream.
const MAY_BE_INPUT: &str = "/proc is not there, so it may be the standard input";

const MAY_BE_OUTPUT: &str = "/proc is not there, so it may be the standard output";

// Why a standard stream is not used.
const MAY_BE_FILE: &str = "/proc is not there, so it may be a file of this script";

const IS_OPEN: &str = "it is a file that is already open in this run";

// Why a file cannot have the statistics.
const OF_THE_SCRIPT: &str = "it is a file of the script: give --stats-to another one";

// What to do about too many open files.
const OPEN_FEWER: &str = "ulimit -n shows how many may be open, and allows more";

// How a file that cannot be opened would be used.
#[derive(Clone, Copy, Debug, PartialEq, Eq)]
enum Role {
    // An operand that is read.
    Operand,
    // An input after `<`.
    Input,
    Output,
}

// A file that cannot be opened: its name, and how it would be used.
#[derive(Clone, Copy)]
struct Unopened<'a> {
    name: &'a Word,
    role: Role,
}

impl<R: Reasons> Adviser<'_, R> {
    /// Writes the hint for an input that cannot be opened: an operand that a run leaves out, or an input without which nothing is run (O1).
    /// At Err a part of it was written.
    pub fn write_input<W: Write>(
        &self,
        name: &InName,
        operand: bool,
        to: &mut W,
    ) -> io::Result<()> {
        let mut hint = self.hint(if operand { "" } else { "O1" });
        match name {
            InName::Standard => self.add_standard(Stream::Input, &mut hint)?,
            InName::File(name) => match late_word(self.read.script, name) {
                Some(late) if is_absent(self.reason(late.first, false)) => {
                    // the hint for the first word speaks of all of them
                    if late.first.place() != name.place() {
                        return Ok(());
                    }
                    late.add_to(&mut hint)?;
                }
                _ => self.add_unopened(
                    Unopened {
                        name,
                        role: self.role_of_input(name, operand),
                    },
                    &mut hint,
                )?,
            },
        }
        hint.more()?;
        hint.write(to)
    }

    // How an input is used. In a strict run an operand that cannot be opened is like an input after `<`.
    fn role_of_input(&self, name: &Word, operand: bool) -> Role {
        match (self.read.script, name.place()) {
            (Some(script), Some(place)) if command_with(script, place).is_some() => Role::Operand,
            _ if operand => Role::Operand,
            _ => Role::Input,
        }
    }

    /// Writes the hint for an output that cannot be opened. At Err a part of it was written.
    pub fn write_output<W: Write>(&self, name: &OutName, to: &mut W) -> io::Result<()> {
        let mut hint = self.hint("O2");
        match name {
            OutName::Standard => self.add_standard(Stream::Output, &mut hint)?,
            OutName::File { name, append } => {
                let unopened = Unopened {
                    name,
                    role: Role::Output,
                };
                match self.not_held(name, *append) {
                    Some(why) => unopened.add(why, &mut hint)?,
                    None => self.add_unopened(unopened, &mut hint)?,
                }
            }
        }
        hint.more()?;
        hint.write(to)
    }

    // Writes the hint for a file of the statistics that is one of the script.
    pub(crate) fn write_not_apart<W: Write>(&self, name: &str, to: &mut W) -> io::Result<()> {
        let bytes = bytes_of_text(self.alloc, name)?;
        let line = format!(in self.alloc; "cannot open {}", Escaped(bytes.as_slice()))?;
        let mut hint = self.hint("O2");
        hint.point(None, "", line.as_str())?;
        hint.repair(OF_THE_SCRIPT)?;
        hint.more()?;
        hint.write(to)
    }

    // Writes the hint for a file of the statistics that cannot be opened.
    pub(crate) fn write_not_reported<W: Write>(&self, name: &str, to: &mut W) -> io::Result<()> {
        let name = Word::from_vec(bytes_of_text(self.alloc, name)?);
        let append = false;
        self.write_output(&OutName::File { name, append }, to)
    }

    // Why this output cannot be held back, if it would be, and that is so.
    fn not_held(&self, name: &Word, append: bool) -> Option<&'static str> {
        let text = str::from_utf8(name.bytes()).ok()?;
        Some(self.reasons.reason_not_held(text, append)?.words())
    }

    // What the system says of the file of this name.
    fn reason(&self, name: &Word, writes: bool) -> Option<Reason> {
        let text = str::from_utf8(name.bytes()).ok()?;
        self.reasons.reason(text, writes)
    }

    // Adds why a file cannot be opened.
    fn add_unopened(&self, unopened: Unopened<'_>, hint: &mut Hint<'_>) -> io::Result<()> {
        let reason = self.reason(unopened.name, unopened.writes());
        let meant = meant_by(unopened.name.bytes());
        match (reason, meant) {
            (Some(Reason::Refused(_)), Some(why)) if is_absent(reason) => unopened.add(why, hint),
            (Some(Reason::Refused(error)), _) => self.add_error(unopened, error, hint),
            (Some(Reason::Folder), _) => unopened.add(FOLDER, hint),
            (Some(Reason::Leads(stream)), _) => unopened.add(unopened.led_to(stream), hint),
            (Some(Reason::NotGiven), _) => unopened.add(NOT_GIVEN, hint),
            (Some(Reason::Opens), _) => self.add_open(unopened, hint),
            (None, _) => self.add_unknown(unopened, hint),
        }
    }

    // Adds the system's words for the error at which a file was not opened.
    fn add_error(
        &self,
        unopened: Unopened<'_>,
        error: io::Error,
        hint: &mut Hint<'_>,
    ) -> io::Result<()> {
        let words = words_of(self.alloc, error)?;
        unopened.add(words.as_str(), hint)?;
        if is_many(error) {
            hint.repair(OPEN_FEWER)?;
        }
        Ok(())
    }

    // Adds what is known of a file if the system says nothing of it now.
    fn add_unknown(&self, unopened: Unopened<'_>, hint: &mut Hint<'_>) -> io::Result<()> {
        match self.reasons.last_error() {
            Some(error) => self.add_error(unopened, error, hint),
            None => unopened.add("", hint),
        }
    }

    // Adds by which other name a file is open, or what else is known of one that can be opened now.
    fn add_open(&self, unopened: Unopened<'_>, hint: &mut Hint<'_>) -> io::Result<()> {
        let Some(script) = self.read.script else {
            return self.add_unknown(unopened, hint);
        };
        let uses = uses_of(self.alloc, script)?;
        let mut others = uses.as_slice().iter();
        match others.find(|other| self.is_other_name(unopened, other)) {
            Some(other) => self.add_alias(unopened, other, hint),
            None => self.add_stream(unopened, hint),
        }
    }

    // Adds which standard stream a file is, or what else is known of one that can be opened now.
    fn add_stream(&self, unopened: Unopened<'_>, hint: &mut Hint<'_>) -> io::Result<()> {
        match self.stream_words(unopened) {
            Some(why) => unopened.add(why, hint),
            None => self.add_unknown(unopened, hint),
        }
    }

    // Which standard stream a file is or may be, if it is one that keeps it from being opened.
    fn stream_words(&self, unopened: Unopened<'_>) -> Option<&'static str> {
        let name = str::from_utf8(unopened.name.bytes()).ok()?;
        let writes = unopened.writes();
        match self.reasons.is_standard(Stream::Input, name, writes) {
            Sameness::Same => return Some("it is already open as the standard input"),
            Sameness::Unknown => return Some(MAY_BE_INPUT),
            Sameness::Apart => {}
        }
        match self.reasons.is_standard(Stream::Output, name, true) {
            Sameness::Same if writes => Some("it is already open as the standard output"),
            Sameness::Unknown if writes => Some(MAY_BE_OUTPUT),
            _ => None,
        }
    }

    // Adds why a standard stream cannot be used.
    fn add_standard(&self, stream: Stream, hint: &mut Hint<'_>) -> io::Result<()> {
        if stream == Stream::Input && self.reasons.input_is_folder() {
            return add_why(stream, FOLDER, hint);
        }
        if let Some(script) = self.read.script {
            let uses = uses_of(self.alloc, script)?;
            for other in uses.as_slice() {
                match self.sameness(stream, other) {
                    Sameness::Same => return self.add_named(stream, other, hint),
                    Sameness::Unknown => return add_why(stream, MAY_BE_FILE, hint),
                    Sameness::Apart => {}
                }
            }
        }
        if stream == Stream::Output && self.reasons.streams_are_one() {
            return add_why(stream, "it is already open as the standard input", hint);
        }
        let why = match stream {
            Stream::Input => "the standard input is closed",
            Stream::Output => IS_OPEN,
        };
        add_why(stream, why, hint)
    }

    // Whether a use is that of a standard stream, which keeps this from being used.
    fn sameness(&self, stream: Stream, other: &Use<'_>) -> Sameness {
        if stream == Stream::Input && other.writes {
            return Sameness::Apart;
        }
        match str::from_utf8(other.name) {
            Ok(name) => self
                .reasons
                .is_standard(stream, name, stream == Stream::Output),
            Err(_) => Sameness::Apart,
        }
    }

    // Adds by which name a standard stream is open.
    fn add_named(&self, stream: Stream, other: &Use<'_>, hint: &mut Hint<'_>) -> io::Result<()> {
        let why = format!(in self.alloc; "it is already open as {}", Escaped(other.name))?;
        let line = format!(in self.alloc;
            "cannot open the {}: {}",
            words_for(stream),
            why.as_str()
        )?;
        hint.point(None, "", line.as_str())?;
        hint.mark_again(other.place, "this is the same file")?;
        hint.advise(why.as_str())
    }

    // Adds by which other name a file is open.
    fn add_alias(
        &self,
        unopened: Unopened<'_>,
        other: &Use<'_>,
        hint: &mut Hint<'_>,
    ) -> io::Result<()> {
        let name = Escaped(unopened.name.bytes());
        let why = format!(in self.alloc; "it is already open as {}", Escaped(other.name))?;
        let line = format!(in self.alloc; "cannot open {name}: {}", why.as_str())?;
        hint.point(unopened.name.place(), "cannot be opened", line.as_str())?;
        hint.mark_again(other.place, "this is the same file")?;
        hint.advise(why.as_str())
    }

    // Whether a use is that of an unopened file by another name, which keeps this one from being opened.
    fn is_other_name(&self, unopened: Unopened<'_>, other: &Use<'_>) -> bool {
        let writes = unopened.writes();
        let same_name = other.name == unopened.name.bytes();
        let same_place = unopened.name.place() == Some(other.place);
        if same_place || (writes && same_name) || (!writes && other.writes) {
            return false;
        }
        let name = str::from_utf8(unopened.name.bytes());
        match (name, str::from_utf8(other.name)) {
            (Ok(name), Ok(other)) => self.reasons.is_same_file(name, other, writes),
            _ => false,
        }
    }

    // Adds that an input could not be read, and why.
    pub(crate) fn add_unread(&self, name: &InName, hint: &mut Hint<'_>) -> io::Result<()> {
        let words = self.last_words()?;
        let place = match name {
            InName::File(name) => name.place(),
            InName::Standard => None,
        };
        let line = match name {
            InName::File(name) => format!(in self.alloc; "cannot read {}", Escaped(name.bytes()))?,
            InName::Standard => String::from_str(self.alloc, "cannot read the standard input")?,
        };
        hint.point(place, "cannot be read", line.as_str())?;
        add_words(words.as_str(), hint)
    }

    // Adds that an output could not be written, and why.
    pub(crate) fn add_unwritten(&self, name: &OutName, hint: &mut Hint<'_>) -> io::Result<()> {
        let words = self.last_words()?;
        match name {
            OutName::File { name, .. } => {
                let line = format!(in self.alloc; "cannot write {}", Escaped(name.bytes()))?;
                hint.point(name.place(), "cannot be written", line.as_str())?;
            }
            OutName::Standard => hint.point(None, "", "cannot write the standard output")?,
        }
        add_words(words.as_str(), hint)?;
        if matches!(name, OutName::Standard) {
            if self.reasons.reader_is_gone() {
                hint.advise(
                    "the reader of the output of plrun has ended, as head does; with --quiet-pipe plrun ends without this line",
                )?;
            }
        }
        Ok(())
    }

    // The system's words for the last error of the run, empty if there was none.
    fn last_words(&self) -> Result<String, AllocError> {
        match self.reasons.last_error() {
            Some(error) => words_of(self.alloc, error),
            None => Ok(String::new(self.alloc)),
        }
    }
}

// A name as it is shown: in quotes if it is empty.
fn shown(name: &Word) -> &[u8] {
    match name.bytes() {
        [] => b"''",
        name => name,
    }
}

// Adds the system's words for an error, if there are any.
fn add_words(words: &str, hint: &mut Hint<'_>) -> io::Result<()> {
    if words.is_empty() {
        return Ok(());
    }
    hint.repair(words)
}

// Adds why a standard stream cannot be used.
fn add_why(stream: Stream, why: &str, hint: &mut Hint<'_>) -> io::Result<()> {
    let line = format!(in hint.alloc; "cannot open the {}: {why}", words_for(stream))?;
    hint.point(None, "", line.as_str())?;
    hint.advise(why)
}

// What a standard stream is called.
fn words_for(stream: Stream) -> &'static str {
    match stream {
        Stream::Input => "standard input",
        Stream::Output => "standard output",
    }
}

impl Unopened<'_> {
    // Whether it would be written.
    fn writes(self) -> bool {
        self.role == Role::Output
    }

    // Why it is not opened, if its name leads to this standard stream.
    fn led_to(self, stream: Stream) -> &'static str {
        match (stream, self.role) {
            (Stream::Input, Role::Operand) => WRITE_DASH,
            (Stream::Input, Role::Input) => LEAVE_INPUT,
            (Stream::Input, Role::Output) => NO_OUTPUT,
            (Stream::Output, Role::Output) => LEAVE_OUTPUT,
            (Stream::Output, Role::Operand | Role::Input) => NO_INPUT,
        }
    }

    // Adds that the file cannot be opened, for this reason.
    fn add(self, why: &str, hint: &mut Hint<'_>) -> io::Result<()> {
        let line = format!(in hint.alloc; "cannot open {}", Escaped(shown(self.name)))?;
        hint.point(self.name.place(), "cannot be opened", line.as_str())?;
        add_words(why, hint)
    }
}
