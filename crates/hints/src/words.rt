// Hints for words of the command line that ask for nothing, and for scripts that cannot be read.
use crate::hint::Hint;
use crate::reasons::{FOLDER, NOT_GIVEN, Reason, Reasons, Stream, words_of};
use command_line::Misuse;
use std::alloc::{AllocError, Global};
use std::io;

// The options whose value is in the same word: each alone, with the value that it has then, and the values that it may have.
const ATTACHED: [(&str, &str, &[&str]); 7] = [
    ("--progress", "--progress=terminal", &["always", "terminal"]),
    (
        "--hints",
        "--hints=always",
        &["always", "never", "terminal"],
    ),
    ("--plan", "--plan=lines", &["lines", "full", "json"]),
    (
        "--shards",
        "--shards=lines",
        &["lines", "map", "combine", "json"],
    ),
    ("--stats", "--stats=text", &["text", "json"]),
    ("--atomic", "--atomic=renamed", &["renamed", "synced"]),
    ("--strict", "--strict=always", &["always", "never"]),
];

// How a script is read from the standard input.
const ON_STANDARD_INPUT: &str = "a script on the standard input is read by: plrun /dev/stdin";

// The first option of these words whose value is in a word of its own, and that value.
fn detached<'a>(words: &[&'a str]) -> Option<(&'static str, &'a str)> {
    for pair in words.windows(2) {
        let [option, value] = *pair else {
            return None;
        };
        for (name, alone, values) in ATTACHED {
            if option == alone && values.contains(&value) {
                return Some((name, value));
            }
        }
    }
    None
}

/// The words that were given to the program, and what else is known of them.
#[derive(Clone, Copy)]
pub struct Asked<'a> {
    /// The words, each option with its value.
    pub words: &'a [&'a str],
    /// The name of the file that holds the script, or `-c`.
    pub script: &'a [u8],
    /// Whether the standard input is no terminal.
    pub piped: bool,
}

impl Asked<'_> {
    // Adds the hint for words that ask for nothing.
    pub(crate) fn add_misuse(self, misuse: &Misuse, hint: &mut Hint<'_>) -> io::Result<()> {
        if let Some((option, value)) = detached(self.words) {
            return add_attached(option, value, hint);
        }
        match misuse {
            Misuse::NotOneScript => self.add_scripts(hint),
            Misuse::NoSuchCode => {
                hint.advise(
                    "a name will do as well, as UnclosedQuote or stalled; plrun(1) lists them",
                )
            }
            Misuse::Words(error) => {
                let text = format!(in hint.alloc; "{error}")?;
                match unexpected(text.as_str()) {
                    Some(word) => add_unexpected(word, hint),
                    None => Ok(()),
                }
            }
            _ => Ok(()),
        }
    }

    // Adds how one script is given.
    fn add_scripts(self, hint: &mut Hint<'_>) -> io::Result<()> {
        if self.words.iter().any(|word| word.starts_with("-c")) {
            return hint.advise(
                "there are two scripts: quote the one after -c as a whole, as -c 'cut -f 1 in'",
            );
        }
        hint.advise("write plrun FILE, or plrun -c 'tr a-z A-Z < in > out'")?;
        if self.piped {
            hint.advise(ON_STANDARD_INPUT)?;
        }
        Ok(())
    }

    // Adds why a script cannot be read.
    pub(crate) fn add_unread<R: Reasons>(self, host: &R, hint: &mut Hint<'_>) -> io::Result<()> {
        if let Some((option, value)) = detached(self.words) {
            return add_attached(option, value, hint);
        }
        match self.script {
            b"-" => hint.repair(ON_STANDARD_INPUT),
            name if name.contains(&b' ') => hint.repair(
                "this is taken for the name of a file: a script is given by -c 'SCRIPT'",
            ),
            name => {
                let words = unread_words(hint.alloc, name, host)?;
                if words.is_empty() {
                    return Ok(());
                }
                hint.repair(words.as_str())
            }
        }
    }
}

// Adds that an option has its value in the same word.
fn add_attached(option: &str, value: &str, hint: &mut Hint<'_>) -> io::Result<()> {
    let text = format!(in hint.alloc; "write {option}={value}, in one word")?;
    hint.advise(text.as_str())
}

// The system's words for why a script of this name cannot be read, empty if they are not known.
fn unread_words<R: Reasons>(alloc: Global, name: &[u8], host: &R) -> Result<String, AllocError> {
    let reason = match str::from_utf8(name) {
        Ok(text) => host.reason(text, false),
        Err(_) => None,
    };
    match (reason, host.last_error()) {
        (Some(Reason::Refused(error)), _) => words_of(alloc, error),
        (Some(Reason::Folder), _) => String::from_str(alloc, FOLDER),
        (Some(Reason::Leads(Stream::Input)), _) => String::from_str(alloc, ON_STANDARD_INPUT),
        (Some(Reason::NotGiven), _) => String::from_str(alloc, NOT_GIVEN),
        (_, Some(error)) => words_of(alloc, error),
        _ => Ok(String::new(alloc)),
    }
}

// What the text of an error begins with that is about a word which was not expected.
const UNEXPECTED: &str = "error: unexpected argument '";

// The word that was not expected, by the text of the error.
fn unexpected(text: &str) -> Option<&str> {
    text.strip_prefix(UNEXPECTED)?.split('\'').next()
}

// Adds what is meant by a word that was not expected, if that is known.
fn add_unexpected(word: &str, hint: &mut Hint<'_>) -> io::Result<()> {
    match word {
        "-n" | "--dry-run" | "--noexec" | "--syntax-check" => hint.advise(
            "to look at a script and run nothing, write --check, or --plan to print its plan",
        ),
        "-v" => hint.advise("the version is printed with -V"),
        "--quiet" | "--silent" | "-q" => {
            hint.advise("leave it out: plrun writes nothing of its own if a run has no fault")
        }
        "-x" | "--verbose" => {
            hint.advise("--plan prints the plan; --stats prints the amounts of a run")
        }
        "-e" => hint.advise("leave it out, since a fault ends plrun in any case"),
        "-o" | "--output" => hint.advise("an output is named in the script, after >"),
        word if !word.starts_with("-") => {
            hint.advise("a script takes no arguments: write the names of its files into it")
        }
        _ => Ok(()),
    }
}
