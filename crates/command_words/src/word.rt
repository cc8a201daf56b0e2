ghost use Rattle.std.specs.Prelude.{◌≡◌, OnOk, IfOk};

use crate::span::Span;
use machine::NoMemory;
use std::alloc::Global;
use std::marker::Model;

// The part of a script's text that a word is written in.
#[derive(Clone, Copy)]
struct Place {
    // The whole word, with its quotes.
    whole: Span,
    // The offset of the word's first byte, if its bytes follow one another in the text.
    first: Option<usize>,
}

/// A word after quote removal. Contracts see the list of its bytes.
#[derive(Drop)]
pub struct Word {
    bytes: Vec<u8>,
    // Its place in the script's text, if it was read from one. It is no part of the view: no clause speaks of it.
    place: Option<Place>,
}

impl Model for Word {
    ghost use Rattle.std.specs.Prelude.{List, ℕ};

    ghost Value = { List ℕ };

    ghost view = { λ word. word.bytes.items };
}

impl Word {
    /// The word of these bytes, which has no place in a script's text.
    pub fn from_vec(bytes: Vec<u8>) -> Word
        ensures { result ≡ bytes.items }
    {
        Word { bytes, place: None }
    }

    /// The word of these bytes that is written at this place, with its quotes and backslashes if it has any.
    pub fn at(bytes: Vec<u8>, place: Span) -> Word
        ensures { result ≡ bytes.items }
    {
        let is_plain = place.end.saturating_sub(place.start) == bytes.len();
        let first = if is_plain { Some(place.start) } else { None };
        Word {
            bytes,
            place: Some(Place {
                whole: place,
                first,
            }),
        }
    }

    /// The word of these bytes that is written at this place, between two quotes that are its first and its last byte there.
    pub fn in_quotes(bytes: Vec<u8>, place: Span) -> Word
        ensures { result ≡ bytes.items }
    {
        let first = place.start.checked_add(1);
        Word {
            bytes,
            place: Some(Place {
                whole: place,
                first,
            }),
        }
    }

    /// Its bytes, with no memory taken.
    pub fn into_vec(self) -> Vec<u8>
        ensures { result.items ≡ self }
    {
        self.bytes
    }

    /// Its bytes.
    pub fn bytes(&self) -> &[u8]
        ensures { result.now ≡ self.now }
    {
        self.bytes.as_slice()
    }

    /// An equal word, at the same place.
    pub fn copied(&self, alloc: Global) -> Result<Word, NoMemory>
        ensures { IfOk result (λ word. word ≡ self.now) }
    {
        Ok(Word {
            bytes: Vec::from_slice(alloc, self.bytes())?,
            place: self.place,
        })
    }

    /// The part of the script's text that it is written in, with its quotes, if it was read from one.
    pub fn place(&self) -> Option<Span> {
        match self.place {
            Some(place) => Some(place.whole),
            None => None,
        }
    }

    /// The part of the text in which its bytes from `start` to before `end` are written. It is the whole word if these are all
    /// bytes, or if quotes or backslashes are inside the word.
    pub fn part(&self, start: usize, end: usize) -> Option<Span> {
        let place = self.place?;
        match place.first {
            Some(first) if start > 0 || end < self.bytes.len() => Some(Span {
                start: first.saturating_add(start),
                end: first.saturating_add(end),
            }),
            _ => Some(place.whole),
        }
    }

    // The word of its last bytes, which are these.
    pub(crate) fn last_bytes(&self, alloc: Global, bytes: &[u8]) -> Result<Word, NoMemory>
        ensures { IfOk result (λ word. word ≡ bytes.now) }
    {
        Ok(Word {
            bytes: Vec::from_slice(alloc, bytes)?,
            place: self.place_from(self.bytes.len().saturating_sub(bytes.len())),
        })
    }

    // The place of its bytes from `start` on.
    fn place_from(&self, start: usize) -> Option<Place> {
        let place = self.place?;
        Some(Place {
            whole: self.part(start, self.bytes.len())?,
            first: place.first?.checked_add(start),
        })
    }
}
