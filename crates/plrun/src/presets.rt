// The words of PLRUN_OPTIONS among the words of a command line.
use crate::lines::Lines;
use command_line::{Misuse, Request, bytes_of_text, is_option};
use run_types::Escaped;
use std::alloc::{AllocError, Global};
use std::io::{self, Write};

// The variable whose words come before those of the command line.
pub(crate) const OPTIONS: &str = "PLRUN_OPTIONS";

// Two options whose values have to fit each other.
type Pair = (&'static [u8], &'static [u8]);

// The options of PLRUN_OPTIONS that a command line has, in its order. Each character of a text means a byte.
#[derive(Clone, Copy)]
pub(crate) struct Presets<'a> {
    // Each with its value.
    pub(crate) words: &'a [&'a str],
    // The same, as they are in the variable.
    pub(crate) given: &'a [String],
}

impl<'a> Presets<'a> {
    /// Whether one of these options is why words were refused. That is so if one is of two whose values do not fit each other, or if these
    /// options alone would be refused for the same cause. If memory is refused, none is.
    pub(crate) fn have_part_in(self, alloc: Global, misuse: &Misuse) -> bool {
        match pair_of(misuse) {
            Some(pair) => self.have_one_of(pair),
            None => self.are_refused(alloc, misuse) == Ok(true),
        }
    }

    // Whether a command line of these options and a script is refused for this cause.
    fn are_refused(self, alloc: Global, misuse: &Misuse) -> Result<bool, AllocError> {
        let words = self.command_line(alloc)?;
        match Request::read(alloc, words.as_slice()) {
            Ok(_) => Ok(false),
            Err(own) => Ok(own.has_cause_of(misuse)),
        }
    }

    // A command line of these options and a script.
    fn command_line(self, alloc: Global) -> Result<Vec<&'a str>, AllocError> {
        let mut words = Vec::new(alloc);
        words.push("plrun")?;
        for word in self.words {
            words.push(*word)?;
        }
        words.push("-ccat")?;
        Ok(words)
    }

    // Whether one of these options is of this pair.
    fn have_one_of(self, pair: Pair) -> bool {
        let (one, other) = pair;
        self.given.iter().any(|word| {
            let word = word.as_str().as_bytes();
            is_option(word, one) || is_option(word, other)
        })
    }

    /// Writes that these options are in the variable. If memory is refused, a first part of that is written.
    pub(crate) fn write<E: Write>(self, alloc: Global, errors: &mut Lines<E>) {
        let _ = self.write_line(alloc, errors);
    }

    // Writes the line.
    fn write_line<E: Write>(self, alloc: Global, errors: &mut Lines<E>) -> io::Result<()> {
        write!(errors, "plrun: {OPTIONS} has")?;
        for word in self.given {
            let word = bytes_of_text(alloc, word.as_str())?;
            write!(errors, " {}", Escaped(word.as_slice()))?;
        }
        writeln!(errors)
    }
}

// The options that words are refused for, if these are two whose values do not fit each other.
fn pair_of(misuse: &Misuse) -> Option<Pair> {
    match misuse {
        Misuse::MaxCapacityBelowCapacity => Some((b"--capacity", b"--max-capacity")),
        Misuse::BytesBelowBlock => Some((b"--bytes", b"--block")),
        _ => None,
    }
}
