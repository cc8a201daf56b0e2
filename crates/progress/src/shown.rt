use crate::line::Line;
use std::fmt;

/// How the figures of a run are shown.
#[derive(Clone, Copy, Debug, PartialEq, Eq)]
pub enum Form {
    /// One line of a terminal, which is written anew and erased at the end.
    Redrawn,
    /// Lines of plain text, which stay.
    Plain,
}

// What is written to the standard error.
#[derive(Clone, Copy, Debug)]
pub(crate) enum Shown {
    // These figures, in this form.
    Line(Line, Form),
    // What ends this form.
    End(Form),
}

// A redrawn line takes the place of the one before: a carriage return, the line, and what erases the rest of the terminal's line. The terminal
// does not wrap meanwhile (DECAWM, mode 7 of DEC's terminals), so that a line that is wider than the terminal is cut.
impl fmt::Display for Shown {
    fn fmt<W: fmt::Write>(&self, f: &mut fmt::Formatter<W>) -> fmt::Result {
        match self {
            Shown::Line(line, Form::Redrawn) => write!(f, "\r\x1b[?7l{line}\x1b[K\x1b[?7h"),
            Shown::Line(line, Form::Plain) => writeln!(f, "{line}"),
            Shown::End(Form::Redrawn) => f.write_str("\r\x1b[K"),
            Shown::End(Form::Plain) => Ok(()),
        }
    }
}
