// What is said of one fault, in the form that is asked for. Nothing else knows how a hint is written.
use crate::source::{Source, write_columns};
use command_words::Span;
use run_types::Escaped;
use std::alloc::Global;
use std::io::{self, Write};

/// How hints are written.
#[derive(Clone, Copy, Debug, PartialEq, Eq)]
pub enum HintForm {
    /// The line of the script with marks under it, and lines that say what to do.
    Drawn,
    /// One line for each fault, as compilers write it: the place, the code and what is wrong.
    Line,
}

// How many bytes a text has at most that a line goes on with.
const SHORT: usize = 100;

// What is said of one fault.
#[derive(Drop)]
pub(crate) struct Hint<'a> {
    pub(crate) alloc: Global,
    pub(crate) source: Source<'a>,
    form: HintForm,
    // The code of the fault, empty if it has none.
    code: &'a str,
    // The name that the line is about, if it is about one.
    name: Vec<u8>,
    text: Vec<u8>,
}

impl<'a> Hint<'a> {
    // Nothing yet of a fault with this code.
    pub(crate) fn new(
        alloc: Global,
        source: Source<'a>,
        form: HintForm,
        code: &'a str,
    ) -> Hint<'a> {
        Hint {
            alloc,
            source,
            form,
            code,
            name: Vec::new(alloc),
            text: Vec::new(alloc),
        }
    }

    // Marks a part of the script with a note, if it is known.
    pub(crate) fn mark(&mut self, at: Option<Span>, note: &str) -> io::Result<()> {
        self.point(at, note, note)
    }

    // The same with a note for the drawing, and another text for the line. The line has the first text that it is given.
    pub(crate) fn point(&mut self, at: Option<Span>, note: &str, line: &str) -> io::Result<()> {
        match self.form {
            HintForm::Drawn => self.draw(at, note),
            HintForm::Line if self.text.is_empty() => {
                self.begin(at)?;
                write!(self.text, "{line}")
            }
            HintForm::Line => Ok(()),
        }
    }

    // Marks two parts with a note, together if they are in one short line.
    pub(crate) fn mark_both(&mut self, at: [Span; 2], note: &str) -> io::Result<()> {
        let [first, second] = at;
        match self.form {
            HintForm::Line => self.mark(Some(first), note),
            HintForm::Drawn if self.source.shares_line(first, second) => {
                self.source.draw(&at, note, &mut self.text)
            }
            HintForm::Drawn => {
                self.draw(Some(first), note)?;
                self.draw(Some(second), note)
            }
        }
    }

    // Marks a place at which a name is read, written or made, by this verb.
    pub(crate) fn mark_use(&mut self, at: Option<Span>, name: &[u8], verb: &str) -> io::Result<()> {
        match (self.form, at) {
            (HintForm::Drawn, _) => {
                let note = format!(in self.alloc; "{verb} here")?;
                self.draw(at, note.as_str())
            }
            (HintForm::Line, _) if self.text.is_empty() => {
                self.begin(at)?;
                self.name.extend_from_slice(name)?;
                write!(self.text, "{} is {verb} here", Escaped(name))
            }
            (HintForm::Line, Some(place)) => {
                let (line, column) = self.source.position(place.start);
                write!(self.text, ", and ")?;
                if self.name.as_slice() != name {
                    self.name.clear();
                    self.name.extend_from_slice(name)?;
                    write!(self.text, "{} is ", Escaped(name))?;
                }
                write!(self.text, "{verb} at {line}:{column}")
            }
            (HintForm::Line, None) => Ok(()),
        }
    }

    // Marks one more part with a note. A line has its place.
    pub(crate) fn mark_again(&mut self, at: Span, note: &str) -> io::Result<()> {
        match self.form {
            HintForm::Drawn => self.draw(Some(at), note),
            HintForm::Line => {
                let (line, column) = self.source.position(at.start);
                write!(self.text, ", at {line}:{column}")
            }
        }
    }

    // Says what to do, or more of what is wrong. A line leaves it out.
    pub(crate) fn advise(&mut self, text: &str) -> io::Result<()> {
        match self.form {
            HintForm::Drawn => writeln!(self.text, "      = {text}"),
            HintForm::Line => Ok(()),
        }
    }

    // Says what to do, in few words.
    pub(crate) fn repair(&mut self, text: &str) -> io::Result<()> {
        match self.form {
            HintForm::Drawn => writeln!(self.text, "      = {text}"),
            HintForm::Line => self.go_on(text),
        }
    }

    // Says what to write: this text, and then these bytes of a script.
    pub(crate) fn repair_with(&mut self, text: &str, bytes: &[u8]) -> io::Result<()> {
        let mut shown = Vec::new(self.alloc);
        write!(shown, "{text}")?;
        write_columns(bytes, &mut shown)?;
        self.repair(str::from_utf8(shown.as_slice()).unwrap_or(text))
    }

    // Says how a utility is written. A line leaves it out.
    pub(crate) fn usage(&mut self, usage: &str) -> io::Result<()> {
        match self.form {
            HintForm::Drawn => writeln!(self.text, "      = write {usage}"),
            HintForm::Line => Ok(()),
        }
    }

    // Says how to learn more about a fault with this code.
    pub(crate) fn more(&mut self) -> io::Result<()> {
        match (self.form, self.code) {
            (HintForm::Line, _) | (_, "") => Ok(()),
            (HintForm::Drawn, code) => {
                writeln!(self.text, "      = plrun --explain {code} says more")
            }
        }
    }

    // Writes what is said.
    pub(crate) fn write<W: Write>(&self, to: &mut W) -> io::Result<()> {
        to.write_all(self.text.as_slice())?;
        match self.form {
            HintForm::Line if !self.text.is_empty() => writeln!(to),
            _ => Ok(()),
        }
    }

    // Draws a part of the script with a note, if it is known.
    fn draw(&mut self, at: Option<Span>, note: &str) -> io::Result<()> {
        match at {
            Some(part) => self.source.draw(&[part], note, &mut self.text),
            None => Ok(()),
        }
    }

    // Begins the line, with the place if it is known.
    fn begin(&mut self, at: Option<Span>) -> io::Result<()> {
        write!(self.text, "{}:", Escaped(self.source.name))?;
        if let Some(place) = at {
            let (line, column) = self.source.position(place.start);
            write!(self.text, "{line}:{column}:")?;
        }
        match self.code {
            "" => write!(self.text, " "),
            code => write!(self.text, " {code}: "),
        }
    }

    // Goes on with the line, which begins here if nothing is in it. A long text is left out if the line has begun.
    fn go_on(&mut self, text: &str) -> io::Result<()> {
        if self.text.is_empty() {
            self.begin(None)?;
        } else if text.len() > SHORT {
            return Ok(());
        } else {
            write!(self.text, ": ")?;
        }
        write!(self.text, "{text}")
    }
}
