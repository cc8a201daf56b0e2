ghost use Rattle.std.specs.Prelude.{◌≡◌};

use crate::span::Span;
use crate::word::Word;
use std::marker::Model;

/// The letter of an option that is given. Contracts see its byte.
#[derive(Drop)]
pub struct Letter {
    byte: u8,
    // Its place in the script's text. It is no part of the view: no clause speaks of it.
    place: Option<Span>,
}

impl Model for Letter {
    ghost use Rattle.std.specs.Prelude.{ℕ};

    ghost Value = { ℕ };

    ghost view = { λ letter. letter.byte };
}

impl Letter {
    // The letter with this byte in a word, in which this many bytes follow it.
    pub(crate) fn of_word(byte: u8, word: &Word, after: usize) -> Letter
        ensures { result ≡ byte }
    {
        let end = word.bytes().len().saturating_sub(after);
        // the first letter has the dash with it
        let start = if end == 2 { 0 } else { end.saturating_sub(1) };
        Letter {
            byte,
            place: word.part(start, end),
        }
    }

    /// Its byte.
    pub fn byte(&self) -> u8
        ensures { result ≡ self.now }
    {
        self.byte
    }

    /// Its place in the script's text, with the dash if it is the first one after that. It is the whole word if quotes or
    /// backslashes are inside.
    pub fn place(&self) -> Option<Span> {
        self.place
    }
}
