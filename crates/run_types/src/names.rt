ghost use Rattle.std.specs.Prelude.{◌≡◌, IfOk};

use crate::escaping::Escaped;
use command_words::Word;
use machine::NoMemory;
use std::alloc::Global;
use std::fmt;

/// What an input is opened by.
#[derive(Drop)]
pub enum InName {
    /// The standard input of the run.
    Standard,
    /// The file of this name.
    File(Word),
}

/// What an output is opened by.
#[derive(Drop)]
pub enum OutName {
    /// The standard output of the run.
    Standard,
    /// The file of this name: emptied when it is opened, or kept, with what is written added at its
    /// end.
    File { name: Word, append: bool },
}

impl InName {
    /// An equal name.
    pub fn copied(&self, alloc: Global) -> Result<InName, NoMemory>
        ensures { IfOk result (λ name. name ≡ self.now) }
    {
        match self {
            InName::Standard => Ok(InName::Standard),
            InName::File(name) => Ok(InName::File(name.copied(alloc)?)),
        }
    }
}

impl OutName {
    /// An equal name.
    pub fn copied(&self, alloc: Global) -> Result<OutName, NoMemory>
        ensures { IfOk result (λ name. name ≡ self.now) }
    {
        match self {
            OutName::Standard => Ok(OutName::Standard),
            OutName::File { name, append } => Ok(OutName::File {
                name: name.copied(alloc)?,
                append: *append,
            }),
        }
    }
}

impl fmt::Display for InName {
    fn fmt<W: fmt::Write>(&self, f: &mut fmt::Formatter<W>) -> fmt::Result {
        match self {
            InName::Standard => write!(f, "standard input"),
            InName::File(name) => write_name(name, f),
        }
    }
}

impl fmt::Display for OutName {
    fn fmt<W: fmt::Write>(&self, f: &mut fmt::Formatter<W>) -> fmt::Result {
        match self {
            OutName::Standard => write!(f, "standard output"),
            OutName::File { name, append: _ } => write_name(name, f),
        }
    }
}

// Writes the name of a file, in quotes if it is empty.
fn write_name<W: fmt::Write>(name: &Word, f: &mut fmt::Formatter<W>) -> fmt::Result {
    match name.bytes() {
        [] => f.write_str("''"),
        bytes => write!(f, "{}", Escaped(bytes)),
    }
}

impl fmt::Debug for InName {
    fn fmt<W: fmt::Write>(&self, f: &mut fmt::Formatter<W>) -> fmt::Result {
        write!(f, "{self}")
    }
}

impl fmt::Debug for OutName {
    fn fmt<W: fmt::Write>(&self, f: &mut fmt::Formatter<W>) -> fmt::Result {
        write!(f, "{self}")
    }
}
