use crate::quoting::Quoted;
use run_types::{InName, OutName};
use std::fmt;

// What a source reads. A name with a blank is in quotes, so no name looks like what has none.
#[derive(Clone, Copy)]
pub(crate) struct Input<'a>(pub(crate) &'a Option<InName>);

impl fmt::Display for Input<'_> {
    fn fmt<W: fmt::Write>(&self, f: &mut fmt::Formatter<W>) -> fmt::Result {
        match self.0 {
            None => f.write_str("empty input"),
            Some(InName::Standard) => f.write_str("standard input"),
            Some(InName::File(name)) => write!(f, "{}", Quoted(name.bytes())),
        }
    }
}

// What a sink writes.
#[derive(Clone, Copy)]
pub(crate) struct Output<'a>(pub(crate) &'a OutName);

impl fmt::Display for Output<'_> {
    fn fmt<W: fmt::Write>(&self, f: &mut fmt::Formatter<W>) -> fmt::Result {
        match self.0 {
            OutName::Standard => f.write_str("standard output"),
            OutName::File { name, .. } => write!(f, "{}", Quoted(name.bytes())),
        }
    }
}
