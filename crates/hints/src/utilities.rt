// The utilities, as a hint names them (POSIX.1-2017 XCU, SYNOPSIS of each).

use commands::letters_of;

// A utility: its name, and how it is written.
#[derive(Clone, Copy, Debug, PartialEq, Eq)]
pub(crate) struct Utility {
    pub(crate) name: &'static str,
    pub(crate) usage: &'static str,
}

// How each utility is written, which begins with its name.
const USAGES: [&str; 10] = [
    "cat [-u] [file...]",
    "cut -b list [-n] [file...], cut -c list [file...] or cut -f list [-d delim] [-s] [file...]",
    "fold [-bs] [-w width] [file...]",
    "head [-n number] [file...]",
    "paste [-s] [-d list] file...",
    "tail [-c number | -n number] [file]",
    "tee [-ai] [file...]",
    "tr [-c | -C] [-s] string1 string2, or with -d or -s and one string",
    "uniq [-c | -d | -u] [-f fields] [-s chars] [input [output]]",
    "wc [-c | -m] [-lw] [file...]",
];

// Programs that are missed here, and those of checksums.
const OTHERS: [&str; 79] = [
    "awk", "base64", "basename", "bc", "bunzip2", "bzip2", "cmp", "column", "comm", "cp", "csplit",
    "curl", "date", "dd", "df", "diff", "dirname", "du", "echo", "ed", "egrep", "env", "expand",
    "expr", "false", "fgrep", "file", "find", "fmt", "gawk", "git", "grep", "gunzip", "gzip",
    "iconv", "jq", "join", "less", "ls", "make", "mawk", "more", "mkdir", "mv", "nl", "od", "perl",
    "pr", "printf", "ps", "python", "python3", "rev", "rm", "sed", "seq", "sh", "shuf", "sleep",
    "sort", "split", "ssh", "strings", "tac", "tar", "test", "time", "timeout", "touch", "true",
    "tsort", "unexpand", "uname", "wget", "xargs", "xxd", "xz", "yes", "zcat",
];

const CHECKSUMS: [&str; 3] = ["md5sum", "sha256sum", "sum"];

// Commands that change the shell that runs them.
const OF_SHELL: [&str; 17] = [
    "alias", "cd", "exec", "exit", "export", "eval", "let", "local", "read", "return", "set",
    "shift", "source", "trap", "umask", "unset", "wait",
];

// The utility that is written so.
fn written_as(usage: &'static str) -> Utility {
    let name = usage.split(' ').next().unwrap_or(usage);
    Utility { name, usage }
}

// The utility of this name, if there is one.
pub(crate) fn utility_named(name: &[u8]) -> Option<Utility> {
    let mut utilities = USAGES.into_iter().map(written_as);
    utilities.find(|utility| utility.name.as_bytes() == name)
}

// A utility whose name is nearly this one, if there is one.
pub(crate) fn near(name: &[u8]) -> Option<Utility> {
    let mut utilities = USAGES.into_iter().map(written_as);
    utilities.find(|utility| is_near(name, utility.name.as_bytes()))
}

// Whether this is the name of a program that is missed here.
pub(crate) fn is_program(name: &[u8]) -> bool {
    is_among(name, &OTHERS) || is_among(name, &CHECKSUMS)
}

// Programs that run another one.
const RUNNERS: [&str; 8] = [
    "env", "ionice", "nice", "nohup", "sudo", "time", "timeout", "unshare",
];

// Whether this is the name of a program that runs another one.
pub(crate) fn is_runner(name: &[u8]) -> bool {
    is_among(name, &RUNNERS)
}

// Whether this is the name of a command that changes the shell that runs it.
pub(crate) fn is_of_shell(name: &[u8]) -> bool {
    is_among(name, &OF_SHELL)
}

// Whether a name is one of these.
fn is_among(name: &[u8], names: &[&str]) -> bool {
    names.iter().any(|other| other.as_bytes() == name)
}

// Whether two names differ by a letter or two more, or by the order of their letters.
fn is_near(one: &[u8], other: &[u8]) -> bool {
    match (one.len().min(other.len()), one.len().abs_diff(other.len())) {
        (0 | 1, _) => false,
        (_, 0) => one
            .iter()
            .all(|letter| count(one, *letter) == count(other, *letter)),
        (_, 1 | 2) => is_within(one, other) || is_within(other, one),
        _ => false,
    }
}

// Whether the letters of a name are in another one, in their order.
fn is_within(short: &[u8], long: &[u8]) -> bool {
    let mut rest = short;
    for letter in long {
        if let [first, after @ ..] = rest {
            if first == letter {
                rest = after;
            }
        }
    }
    rest.is_empty()
}

// How often a letter is in a name.
fn count(name: &[u8], letter: u8) -> usize {
    name.iter().filter(|byte| **byte == letter).count()
}

impl Utility {
    // The letters of its options, as for getopt.
    pub(crate) fn letters(&self) -> &'static [u8] {
        letters_of(self.name.as_bytes()).unwrap_or(b"")
    }

    // Whether it has an option of this letter.
    pub(crate) fn has_option(&self, letter: u8) -> bool {
        letter != b':' && self.letters().contains(&letter)
    }
    // Whether its option of this letter takes an argument.
    pub(crate) fn takes_argument(&self, letter: u8) -> bool {
        let mut pairs = self.letters().windows(2);
        pairs.any(|pair| matches!(pair, [first, b':'] if *first == letter))
    }
}
