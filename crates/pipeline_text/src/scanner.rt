ghost use Rattle.std.specs.Prelude.{◌≡◌, ◌≤◌, ◌+◌, length};
ghost use Rattle.pipeline_text.specs.inner.Scans.{IsFlaw, IsAhead, size, left, marks_from};

use crate::fault::{TextFault, TextFaultKind};
use crate::moves::{Ahead, Move, Place, byte_at, closes, is_open, moves};

// Reads a text's marks.
#[derive(Drop)]
pub(crate) struct Scanner<'a> {
    pub text: &'a [u8],
    pub position: usize,
    place: Place,
    // The offset at which the open quotes begin.
    quote: usize,
    // The offset of the last mark, or of the end or the fault that was met.
    pub begin: usize,
    ghost within: { position ≤ length text.now },
    ghost quote_within: { quote ≤ length text.now },
    ghost begin_within: { begin ≤ length text.now },
}

impl<'a> Scanner<'a> {
    ghost use Rattle.std.specs.Prelude.{◌<◌, slice_get, Some};
    ghost use Rattle.pipeline_text.specs.inner.Left.{marks_left, bytes_left};
    ghost use Rattle.pipeline_text.specs.declared.fault.TextFaultKind.TheVariants as kinds;

    pub(crate) fn new(text: &'a [u8]) -> Scanner<'a>
        ensures marks { marks_left result ≡ marks_from Place.Between text.now 0 }
        ensures text { result.text.now ≡ text.now }
    {
        Scanner {
            text,
            position: 0,
            place: Place::Between,
            quote: 0,
            begin: 0,
        }
    }

    // Goes on by some bytes, to another place.
    fn go(&mut self, count: usize, place: Place)
        requires { self.old.position + count ≤ length self.old.text.now }
        ensures position { self.new.position ≡ self.old.position + count }
        ensures place { self.new.place ≡ place }
        ensures text { self.new.text.now ≡ self.old.text.now }
    {
        if is_open(place) && !is_open(self.place) {
            self.quote = self.position;
        }
        self.position += count;
        self.place = place;
    }

    // The fault at the byte in front, or that the byte is in quotes with no end, whichever comes
    // first.
    fn fault(&self, kind: TextFaultKind) -> TextFault
        requires at_nul { kind ≡ kinds.NulByte
            → slice_get self.now.text.now self.now.position ≡ Some 0 }
        requires not_long { kind ≡ kinds.TooLong → ⊥ }
        ensures { IsFlaw self.now.text.now result }
    {
        if is_open(self.place) && !closes(self.place, &self.text[self.position..]) {
            return TextFault {
                kind: TextFaultKind::UnclosedQuote,
                offset: self.quote,
            };
        }
        TextFault {
            kind,
            offset: self.position,
        }
    }

    // The next mark, the end, or why there is none.
    pub(crate) fn scan(&mut self) -> Ahead
        ensures marks { marks_left self.old ≡ left result (marks_left self.new) }
        ensures flaw { IsAhead self.old.text.now result }
        ensures shorter { size result + bytes_left self.new ≤ bytes_left self.old }
        ensures text { self.new.text.now ≡ self.old.text.now }
    {
        'bytes: while let Some(byte) = byte_at(self.text, self.position) {
            self.begin = self.position;
            if byte == 0 {
                return Ahead::Fault(self.fault(TextFaultKind::NulByte));
            }
            match moves(self.place, byte, byte_at(self.text, self.position + 1)) {
                Move::Gives(mark, place) => {
                    self.go(1, place);
                    return Ahead::Mark(mark);
                }
                Move::Escapes(mark, place) => {
                    self.go(2, place);
                    return Ahead::Mark(mark);
                }
                Move::Skips(place) => self.go(1, place),
                Move::Joins(place) => self.go(2, place),
                Move::Expands => return Ahead::Fault(self.fault(TextFaultKind::Expansion)),
                Move::Breaks => return Ahead::Fault(self.fault(TextFaultKind::UnclosedQuote)),
            }
        }
        self.begin = self.position;
        if is_open(self.place) {
            return Ahead::Fault(self.fault(TextFaultKind::UnclosedQuote));
        }
        Ahead::End
    }
}
