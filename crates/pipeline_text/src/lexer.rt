ghost use Rattle.std.specs.Prelude.{◌≡◌, ◌≤◌, length};
ghost use Rattle.pipeline_text.specs.inner.Scans.{IsAhead};

use crate::fault::{TextFault, TextFaultKind};
use crate::mark::{Mark, byte_in, goes_on, push_mark};
use crate::moves::{Ahead, blank_is_next, is_fault, plain_ahead, word_mark};
use crate::scanner::Scanner;
use crate::shape::Shape;
use crate::token::{Operator, Token, recognized, redirects};
use command_words::{Span, Word};
use std::alloc::Global;

// Reads a text's tokens.
#[derive(Drop)]
pub(crate) struct Lexer<'a> {
    scanner: Scanner<'a>,
    ahead: Ahead,
    // The offset of the last token; after the last one, the text's length.
    start: usize,
    // The offset of the end of the last mark that was read. No clause speaks of it.
    end: usize,
    ghost flaw: { IsAhead scanner.text.now ahead },
    ghost start_within: { start ≤ length scanner.text.now },
}

impl<'a> Lexer<'a> {
    ghost use Rattle.std.specs.Prelude.{◌<◌, ◌+◌, false, OnOk};
    ghost use Rattle.pipeline_text.specs.Tokens.{byte_of, with_token};
    ghost use Rattle.pipeline_text.specs.inner.Scans.{left, marked, size};
    ghost use Rattle.pipeline_text.specs.inner.Peeks.{blank_is_next, shaped, no_shape};
    ghost use Rattle.pipeline_text.specs.inner.Lexemes.{text_of, marks_in, tokens_left, extent, tokens_of, operator_left};
    ghost use Rattle.pipeline_text.specs.inner.Lexemes.{word_left, token_before, part_before, Reads, GoesOn, Shrinks, StaysAtEnd};

    pub(crate) fn new(text: &'a [u8]) -> Lexer<'a>
        ensures tokens { tokens_left result ≡ tokens_of text.now }
        ensures text { text_of result ≡ text.now }
    {
        let mut scanner = Scanner::new(text);
        let ahead = scanner.scan();
        Lexer {
            scanner,
            ahead,
            start: 0,
            end: 0,
        }
    }

    // The offset of the last token; after the last one, the text's length.
    pub(crate) fn start(&self) -> usize
        ensures { result ≤ length (text_of self.now) }
    {
        self.start
    }

    // The unquoted byte after the last token, if one is.
    pub(crate) fn next_byte(&self) -> Option<u8> {
        plain_ahead(self.ahead)
    }

    // Whether what is refused comes directly after the last token.
    pub(crate) fn is_at_fault(&self) -> bool {
        is_fault(self.ahead)
    }

    // Goes on to the next mark, and returns the one before it.
    fn advance(&mut self) -> Ahead
        ensures was { result ≡ self.old.ahead }
        ensures marks { marks_in self.old ≡ left result (marks_in self.new) }
        ensures text { text_of self.new ≡ text_of self.old }
        ensures shorter { size result + extent self.new ≤ extent self.old }
    {
        let was = self.ahead;
        self.end = self.scanner.position;
        self.ahead = self.scanner.scan();
        was
    }

    fn skip_blanks(&mut self)
        ensures tokens { tokens_left self.new ≡ tokens_left self.old }
        ensures none { blank_is_next self.new.ahead ≡ false }
        ensures on { GoesOn self.old self.new }
    {
        'blanks: while blank_is_next(self.ahead) {
            let _blank = self.advance();
        }
        self.start = self.scanner.begin;
    }

    // The rest of an operator whose first byte was read.
    fn operator_rest(&mut self, byte: u8) -> Result<Operator, TextFault>
        ensures reads { Reads (text_of self.old) result
            (operator_left byte self.old)
            part_before
            (marks_in self.new) }
        ensures on { GoesOn self.old self.new }
    {
        let Some((operator, both)) = recognized(byte, plain_ahead(self.ahead)) else {
            return Err(TextFault {
                kind: TextFaultKind::UnsupportedOperator,
                offset: self.start,
            });
        };
        if both {
            let _second = self.advance();
        }
        Ok(operator)
    }

    // The rest of a word whose first mark was read.
    fn word(&mut self, alloc: Global, first: Mark) -> Result<Token, TextFault>
        ensures reads { Reads (text_of self.old) result
            (word_left (byte_of first) (shaped no_shape first) self.old)
            part_before
            (marks_in self.new) }
        ensures on { GoesOn self.old self.new }
    {
        let mut bytes = Vec::new(alloc);
        push_mark(&mut bytes, first)?;
        let mut shape = Shape::new().with(first);
        'marks: while let Some(mark) = word_mark(self.ahead) {
            let _was = self.advance();
            push_mark(&mut bytes, mark)?;
            shape = shape.with(mark);
        }
        let word = self.placed(bytes);
        if shape.digits && redirects(plain_ahead(self.ahead)) {
            Ok(Token::Number(word))
        } else {
            Ok(Token::Word(word, shape.look(!is_fault(self.ahead))))
        }
    }

    // The word of these bytes, whose last mark was read.
    fn placed(&self, bytes: Vec<u8>) -> Word
        ensures { result ≡ bytes.items }
    {
        let place = Span {
            start: self.start,
            end: self.end,
        };
        if is_in_quotes(
            self.scanner.text.get(self.start..self.end),
            bytes.as_slice(),
        ) {
            return Word::in_quotes(bytes, place);
        }
        Word::at(bytes, place)
    }

    // The token at the beginning, if its first mark is no blank.
    fn token(&mut self, alloc: Global, mark: Mark) -> Result<Token, TextFault>
        requires next { self.old.ahead ≡ Ahead.Mark mark }
        requires no_blank { blank_is_next self.old.ahead ≡ false }
        ensures reads { Reads (text_of self.old) result
            (tokens_left self.old)
            with_token
            (tokens_left self.new) }
        ensures text { text_of self.new ≡ text_of self.old }
        ensures shorter { extent self.new < extent self.old }
    {
        let _first = self.advance();
        if goes_on(mark) {
            return self.word(alloc, mark);
        }
        let operator = self.operator_rest(byte_in(mark))?;
        Ok(Token::Operator(operator))
    }

    // The next token, and none at the text's end.
    pub(crate) fn next_token(&mut self, alloc: Global) -> Result<Option<Token>, TextFault>
        ensures reads { Reads (text_of self.old) result
            (tokens_left self.old)
            token_before
            (tokens_left self.new) }
        ensures on { GoesOn self.old self.new }
        ensures shorter { Shrinks result (extent self.old) (extent self.new) }
        ensures end { StaysAtEnd result (tokens_left self.new) }
    {
        self.skip_blanks();
        match self.ahead {
            Ahead::End => Ok(None),
            Ahead::Fault(fault) => Err(fault),
            Ahead::Mark(mark) => {
                let token = self.token(alloc, mark)?;
                Ok(Some(token))
            }
        }
    }
}

// Whether a part of a text is these bytes between two quotes.
fn is_in_quotes(part: Option<&[u8]>, bytes: &[u8]) -> bool {
    match part {
        Some([b'\'', inner @ .., b'\''] | [b'"', inner @ .., b'"']) => inner == bytes,
        _ => false,
    }
}
