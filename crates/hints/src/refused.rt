// The words of a command that are refused, as they are without quotes.
use crate::source::part;
use crate::utilities::Utility;
use command_words::{BadWords, Options, Sequence, Span, Word, is_given, split_options};
use commands::FilterSpec;
use std::alloc::{AllocError, Global};

// Whether a place is that of a word or a part of it.
fn has_place(word: &Word, place: Span) -> bool {
    word.place().is_some_and(|whole| whole.start <= place.start && place.end <= whole.end)
}

// No part of a text.
const NOTHING: Span = Span { start: 0, end: 0 };

// A command whose words are refused. They are read once more as if they were written without quotes in a text of their own, so that each
// part of them has a place there.
#[derive(Drop)]
pub(crate) struct RefusedWords<'a> {
    pub(crate) alloc: Global,
    pub(crate) utility: Utility,
    pub(crate) bad: &'a BadWords,
    // The words as the script has them.
    pub(crate) words: &'a [Word],
    // That text, and the words with their places there.
    text: Vec<u8>,
    plain: Vec<Word>,
    // The part of the text that is at fault, and the second one of two options. Nothing of the name if there are none.
    place: Span,
    other: Span,
    // The options and operands, if each option is known and has its argument.
    options: Options,
}

impl<'a> RefusedWords<'a> {
    // The words of a command of this utility, which are refused for this fault.
    pub(crate) fn read(
        alloc: Global,
        utility: Utility,
        words: &'a [Word],
        bad: &'a BadWords,
    ) -> Result<RefusedWords<'a>, AllocError> {
        let mut refused = RefusedWords {
            alloc,
            utility,
            bad,
            words,
            text: Vec::new(alloc),
            plain: Vec::new(alloc),
            place: NOTHING,
            other: NOTHING,
            options: Options {
                given: Sequence::new(alloc),
                operands: Sequence::new(alloc),
            },
        };
        for word in words {
            refused.add(word)?;
        }
        refused.read_plain();
        Ok(refused)
    }

    // Adds a word, and a blank after it.
    fn add(&mut self, word: &Word) -> Result<(), AllocError> {
        let start = self.text.len();
        self.text.extend_from_slice(word.bytes())?;
        let end = self.text.len();
        self.text.push(b' ')?;
        let bytes = Vec::from_slice(self.alloc, word.bytes())?;
        self.plain.push(Word::at(bytes, Span { start, end }))?;
        Ok(())
    }

    // Reads the words without quotes.
    fn read_plain(&mut self) {
        let plain = self.plain.as_slice();
        if let Err(bad) = FilterSpec::read(self.alloc, plain) {
            self.place = bad.place().unwrap_or(NOTHING);
            self.other = bad.other().unwrap_or(NOTHING);
        }
        if let [_, given @ ..] = plain {
            if let Ok(options) = split_options(self.alloc, given, self.utility.letters()) {
                self.options = options;
            }
        }
    }

    // The bytes that are at fault.
    pub(crate) fn bytes(&self) -> &[u8] {
        part(self.text.as_slice(), self.place.start, self.place.end)
    }

    // The bytes of the second one of two options that exclude one another.
    pub(crate) fn other(&self) -> &[u8] {
        part(self.text.as_slice(), self.other.start, self.other.end)
    }

    // The option whose argument has the part that is at fault: its letter, and the argument.
    pub(crate) fn argument(&self) -> Option<(u8, &Word)> {
        for (letter, argument) in self.options.given.as_slice() {
            match argument {
                Some(argument) if has_place(argument, self.place) => {
                    return Some((letter.byte(), argument));
                }
                _ => {}
            }
        }
        None
    }

    // Whether the part that is at fault is at the beginning of this word.
    pub(crate) fn begins(&self, word: &Word) -> bool {
        word.place()
            .is_some_and(|whole| whole.start == self.place.start)
    }

    // Whether an option with this letter is given.
    pub(crate) fn has(&self, letter: u8) -> bool {
        is_given(self.options.given.as_slice(), letter)
    }

    // The operands.
    pub(crate) fn operands(&self) -> &[Word] {
        self.options.operands.as_slice()
    }

    // The number of the operand that has the part that is at fault, from 0.
    pub(crate) fn operand(&self) -> Option<usize> {
        let mut operands = self.operands().iter();
        operands.position(|operand| has_place(operand, self.place))
    }

    // The place in the script of the operand with this number, from 0.
    pub(crate) fn operand_place(&self, number: usize) -> Option<Span> {
        self.word_at(self.operands().get(number)?.place()?)?.place()
    }

    // The word of the script that is at fault: the name if no other one is.
    pub(crate) fn word(&self) -> Option<&'a Word> {
        self.word_at(self.place)
    }

    // The word of the script that has this place in the text.
    fn word_at(&self, place: Span) -> Option<&'a Word> {
        let mut plain = self.plain.iter();
        self.words
            .get(plain.position(|word| has_place(word, place))?)
    }
}
