use machine::NoMemory;
use std::alloc::{AllocError, AllocFailed};
use thiserror::Error;

/// Why a text is no script.
#[derive(Clone, Copy, Debug, PartialEq, Eq, Error)]
pub enum TextFaultKind {
    /// A quote without its end, or a backslash as the last byte.
    #[error("X1 UnclosedQuote")]
    UnclosedQuote,
    /// `$`, a backquote, or a `~` that begins a word.
    #[error("X2 Expansion")]
    Expansion,
    /// An operator, a reserved word or a descriptor's number that is not supported here.
    #[error("X3 UnsupportedOperator")]
    UnsupportedOperator,
    /// A redirection that no word follows.
    #[error("X4 RedirectWithoutWord")]
    RedirectWithoutWord,
    /// No command at a place that needs one, or one without its first word.
    #[error("X5 EmptyCommand")]
    EmptyCommand,
    /// `NAME=` as a command's first word.
    #[error("X6 Assignment")]
    Assignment,
    /// No pipeline in the foreground.
    #[error("X7 NoForeground")]
    NoForeground,
    /// Something after the pipeline in the foreground.
    #[error("X8 OneAfterAnother")]
    OneAfterAnother,
    /// A NUL byte.
    #[error("X9 NulByte")]
    NulByte,
    /// More than 65,536 bytes.
    #[error("X10 TooLong")]
    TooLong,
    /// A second input or a second output of one command.
    #[error("X11 RedirectedTwice")]
    RedirectedTwice,
    /// Memory was refused.
    #[error("X12 NoMemory")]
    NoMemory,
}

/// Why a text is no script, and at which byte.
#[derive(Clone, Copy, Debug, PartialEq, Eq, Error)]
#[error("{kind} at {offset}")]
pub struct TextFault {
    pub kind: TextFaultKind,
    pub offset: usize,
}

impl TextFault {
    ghost use Rattle.std.specs.Prelude.{◌≡◌, ◌≤◌, ◌⊎◌};
    ghost use Rattle.pipeline_text.specs.declared.fault.TextFaultKind.TheVariants as kinds;

    // This fault, or the other one if that comes first: at a lower offset, or with the lower
    // number. If memory was refused, that is the fault.
    pub(crate) fn or_earlier(self, other: TextFault) -> TextFault
        ensures { (result ≡ self)
            ⊎ ((self.kind ≡ kinds.NoMemory → ⊥) × (other.offset ≤ self.offset) × (result ≡ other)) }
    {
        let is_first = other.offset < self.offset
            || other.offset == self.offset && (other.kind as u8) < (self.kind as u8);
        if self.kind != TextFaultKind::NoMemory && is_first {
            other
        } else {
            self
        }
    }
}

impl From<NoMemory> for TextFault {
    ghost use Rattle.std.specs.Prelude.{◌≡◌};
    ghost use Rattle.pipeline_text.specs.declared.fault.TextFaultKind.TheVariants as kind;

    ghost from_gives = { λ _ given. given ≡ record { kind = kind.NoMemory; offset = 0 } };

    fn from(_error: NoMemory) -> TextFault {
        TextFault {
            kind: TextFaultKind::NoMemory,
            offset: 0,
        }
    }
}
