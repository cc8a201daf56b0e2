ghost use Rattle.std.specs.Prelude.{◌≡◌, ◌&&◌, []};
ghost use Rattle.pipeline_text.specs.ShellBytes.{begins_name, continues_name};
ghost use Rattle.pipeline_text.specs.inner.Peeks.{named, named_plain, shaped, no_shape, assigns};
ghost use Rattle.pipeline_text.specs.Tokens.{look_of};

use crate::mark::{Mark, is_digit, is_plain};
use crate::token::Look;

// Whether a word is an assignment, as far as it was read.
#[derive(Clone, Copy, PartialEq, Eq)]
pub(crate) enum Naming {
    // Nothing was read.
    Begins,
    // A name was read.
    Continues,
    // A name and `=` were read.
    Assigns,
    // It is none.
    Fails,
}

// What is known of a word that was read so far.
#[derive(Clone, Copy)]
pub(crate) struct Shape {
    // Nothing in it is quoted.
    pub plain: bool,
    // It has nothing but unquoted digits.
    pub digits: bool,
    pub naming: Naming,
}

fn begins_name(byte: u8) -> bool
    ensures { result ≡ begins_name byte }
{
    matches!(byte, b'A'..=b'Z' | b'a'..=b'z' | b'_')
}

fn continues_name(byte: u8) -> bool
    ensures { result ≡ continues_name byte }
{
    begins_name(byte) || matches!(byte, b'0'..=b'9')
}

// The naming with one more unquoted byte.
fn named_plain(naming: Naming, byte: u8) -> Naming
    ensures { result ≡ named_plain naming byte }
{
    match naming {
        Naming::Begins if begins_name(byte) => Naming::Continues,
        Naming::Continues if byte == b'=' => Naming::Assigns,
        Naming::Continues if continues_name(byte) => Naming::Continues,
        Naming::Assigns => Naming::Assigns,
        _ => Naming::Fails,
    }
}

// The naming with one more mark.
fn named(naming: Naming, mark: Mark) -> Naming
    ensures { result ≡ named naming mark }
{
    match mark {
        Mark::Plain(byte) => named_plain(naming, byte),
        _ if naming == Naming::Assigns => Naming::Assigns,
        _ => Naming::Fails,
    }
}

impl Shape {
    // What is known of a word before its first mark.
    pub(crate) fn new() -> Shape
        ensures { result ≡ no_shape }
    {
        Shape {
            plain: true,
            digits: true,
            naming: Naming::Begins,
        }
    }

    // The same with one more mark.
    pub(crate) fn with(self, mark: Mark) -> Shape
        ensures { result ≡ shaped self mark }
    {
        Shape {
            plain: self.plain && is_plain(mark),
            digits: self.digits && is_digit(mark),
            naming: named(self.naming, mark),
        }
    }

    // What the word looks like, if it is whole. One that is broken off is no reserved word.
    pub(crate) fn look(self, whole: bool) -> Look
        ensures { result ≡ look_of (assigns self.naming []) (self.plain && whole) }
    {
        if self.naming == Naming::Assigns {
            Look::Assignment
        } else if self.plain && whole {
            Look::Unquoted
        } else {
            Look::PartlyQuoted
        }
    }
}
