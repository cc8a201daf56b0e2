use crate::span::Span;
use machine::NoMemory;
use std::alloc::{AllocError, AllocFailed};
use std::marker::Model;
use thiserror::Error;

/// Why a command's words are no command of its utility.
#[derive(Clone, Copy, Debug, PartialEq, Eq, Error)]
pub enum ArgFault {
    /// There is no such utility.
    #[error("A1 UnknownUtility")]
    UnknownUtility,
    /// The utility has no such option.
    #[error("A2 UnknownOption")]
    UnknownOption,
    /// An option's argument is missing.
    #[error("A3 MissingArgument")]
    MissingArgument,
    /// An argument is no number, or one that is refused.
    #[error("A4 BadNumber")]
    BadNumber,
    /// A list of places, or of delimiters, is refused.
    #[error("A5 BadList")]
    BadList,
    /// A string of `tr` is refused.
    #[error("A6 BadSet")]
    BadSet,
    /// Two options exclude one another.
    #[error("A7 ExclusiveOptions")]
    ExclusiveOptions,
    /// There are too few or too many operands, or one that is refused.
    #[error("A8 BadOperands")]
    BadOperands,
    /// Memory was refused.
    #[error("A9 NoMemory")]
    NoMemory,
}

impl From<NoMemory> for ArgFault {
    ghost use Rattle.std.specs.Prelude.{◌≡◌};
    ghost use Rattle.command_words.specs.declared.fault.ArgFault.TheVariants as fault;

    ghost from_gives = { λ _ given. given ≡ fault.NoMemory };

    fn from(_error: NoMemory) -> ArgFault {
        ArgFault::NoMemory
    }
}

/// Why a command's words are no command of its utility, and the part of the script's text that is at fault. Contracts see the
/// fault alone.
#[derive(Debug, Drop, Error)]
#[error("{fault}")]
pub struct BadWords {
    fault: ArgFault,
    // The places are no part of the view: no clause speaks of them.
    place: Option<Span>,
    other: Option<Span>,
}

impl Model for BadWords {
    ghost use Rattle.command_words.specs.declared.fault.ArgFault as faults;

    ghost Value = { faults.ArgFault };

    ghost view = { λ bad. bad.fault };
}

impl BadWords {
    ghost use Rattle.std.specs.Prelude.{◌≡◌};

    /// This fault of the whole command.
    pub fn new(fault: ArgFault) -> BadWords
        ensures { result ≡ fault }
    {
        BadWords {
            fault,
            place: None,
            other: None,
        }
    }

    /// This fault at a place, if that is known.
    pub fn at(fault: ArgFault, place: Option<Span>) -> BadWords
        ensures { result ≡ fault }
    {
        BadWords {
            fault,
            place,
            other: None,
        }
    }

    /// This fault of two places.
    pub fn of_both(fault: ArgFault, one: Span, other: Span) -> BadWords
        ensures { result ≡ fault }
    {
        let (first, second) = if one.start <= other.start {
            (one, other)
        } else {
            (other, one)
        };
        BadWords {
            fault,
            place: Some(first),
            other: Some(second),
        }
    }

    /// The fault.
    pub fn fault(&self) -> ArgFault
        ensures { result ≡ self.now }
    {
        self.fault
    }

    /// The part of the text that is at fault, if it is known.
    pub fn place(&self) -> Option<Span> {
        self.place
    }

    /// The second one, if two options exclude one another.
    pub fn other(&self) -> Option<Span> {
        self.other
    }
}

impl From<NoMemory> for BadWords {
    ghost use Rattle.std.specs.Prelude.{◌≡◌};
    ghost use Rattle.command_words.specs.declared.fault.ArgFault.TheVariants as fault;

    ghost from_gives = { λ _ given. given ≡ fault.NoMemory };

    fn from(_error: NoMemory) -> BadWords {
        BadWords {
            fault: ArgFault::NoMemory,
            place: None,
            other: None,
        }
    }
}
