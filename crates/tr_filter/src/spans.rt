ghost use Rattle.std.specs.Prelude.{◌≡◌, ℕ, true, take, IsTrue};
ghost use Rattle.tr_filter.specs.Covers.{in_all, Cover, Exact};
ghost use Rattle.tr_words.specs.Tr.{in_set};

use lanes::{Span, is_in_spans};

// A set of bytes, as few spans.
#[derive(Clone, Copy)]
pub(crate) struct Spans {
    pub spans: [Span; 4],
    pub count: usize,
}

impl Spans {
    // The spans.
    #[inline(always)]
    pub(crate) fn all(&self) -> &[Span]
        ensures { result.now ≡ take self.now.count self.now.spans }
    {
        if self.count < 4 {
            &self.spans[..self.count]
        } else {
            &self.spans
        }
    }

    // Whether a byte is in one of them.
    #[inline(always)]
    fn contains(&self, byte: u8) -> bool
        ensures { result ≡ in_all self.now byte }
    {
        is_in_spans(self.all(), byte)
    }
}

// Whether a byte is in a set.
fn is_member(set: &Option<[bool; 256]>, byte: u8) -> bool
    ensures { result ≡ in_set set.now byte }
{
    match set {
        None => false,
        Some(set) => set[byte as usize],
    }
}

// Spans that cover a set. If there are more than four runs of bytes in it, the last span goes on to the last byte of all.
fn runs_of(set: &Option<[bool; 256]>) -> Spans {
    let mut spans = [Span { by: 0, width: 0 }; 4];
    let mut count = 0;
    let mut goes_on = false;
    for index in 0..256usize {
        let byte = index as u8;
        if !is_member(set, byte) {
            goes_on = false;
            continue;
        }
        if (goes_on || 4 <= count) && 1 <= count {
            let span = spans[count - 1];
            spans[count - 1] = Span {
                by: span.by,
                width: byte.wrapping_add(span.by),
            };
        } else if count < 4 {
            spans[count] = Span {
                by: 0u8.wrapping_sub(byte),
                width: 0,
            };
            count += 1;
        }
        goes_on = true;
    }
    Spans { spans, count }
}

// Whether each byte of a set is in these spans.
fn are_cover(set: &Option<[bool; 256]>, spans: &Spans) -> bool
    ensures { IsTrue result → Cover set.now spans.now }
{
    for index in 0..256usize {
        let byte = index as u8;
        if is_member(set, byte) && !spans.contains(byte) {
            return false;
        }
    }
    true
}

// Whether a set has just the bytes of these spans.
pub(crate) fn are_exact(set: &Option<[bool; 256]>, spans: &Spans) -> bool
    ensures { IsTrue result → Exact set.now spans.now }
{
    for index in 0..256usize {
        let byte = index as u8;
        if is_member(set, byte) != spans.contains(byte) {
            return false;
        }
    }
    true
}

// The span of all bytes.
fn everything() -> Spans
    ensures { (x : ℕ) → in_all result x ≡ true }
{
    Spans {
        spans: [Span { by: 0, width: 255 }; 4],
        count: 1,
    }
}

// A few spans that cover a set.
pub(crate) fn spans_of(set: &Option<[bool; 256]>) -> Spans
    ensures { Cover set.now result }
{
    let spans = runs_of(set);
    if are_cover(set, &spans) {
        spans
    } else {
        everything()
    }
}
