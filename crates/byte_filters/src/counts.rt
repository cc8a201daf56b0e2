ghost use Rattle.std.specs.Prelude.{◌≡◌, ◌+◌, ◌^◌, ◌≤◌, ◌==◌, count_by, length, true, not, ◌&&◌, if◌then◌else◌, MatchResult};
ghost use Rattle.machine.specs.Lines.{newline};
ghost use Rattle.machine.specs.declared.protocol.StageFault.TheVariants as fault;
ghost use Rattle.commands.specs.Wc.{is_word, words_after, counted_after, nothing, has_total};
ghost use Rattle.byte_filters.specs.WcSteps.{more_if, added, plus, Agree, ends_in_word, IsTooMany, sums_after};

use crate::starts::{CHUNK, line_ends, starts};
use commands::{Counts, WcSpec};
use machine::{StageFault, add_count, newlines, prefix, skip};

// Nothing was counted.
pub(crate) fn nothing() -> Counts
    ensures { result ≡ nothing }
{
    Counts {
        lines: 0,
        words: 0,
        bytes: 0,
    }
}

// Whether a byte belongs to a word.
fn is_word(byte: u8) -> bool
    ensures { result ≡ is_word byte }
{
    !(9 <= byte && byte <= 13 || byte == b' ')
}

// 1 if a word begins, by whether the byte before and this one belong to a word, otherwise 0.
fn begins(before: bool, word: bool) -> u8
    ensures { result ≡ (if not before && word then 1 else 0) }
{
    u8::from(!before & word)
}

// How many words begin among at most 240 bytes, if `before` says whether a byte of a word comes
// before.
fn few_words(before: bool, bytes: &[u8]) -> u8
    requires { length bytes.now ≤ 240 }
    ensures { result ≡ words_after before bytes.now }
{
    let mut words = 0;
    let mut last = before;
    for byte in bytes {
        let word = is_word(*byte);
        words += begins(last, word);
        last = word;
    }
    words
}

// Whether the last byte belongs to a word, or what `before` says if there is none.
fn ends_in_word(before: bool, bytes: &[u8]) -> bool
    ensures { result ≡ ends_in_word before bytes.now }
{
    if bytes.is_empty() {
        return before;
    }
    is_word(bytes[bytes.len() - 1])
}

// How many words begin, if `before` says whether a byte of a word comes before them.
fn words_after(before: bool, bytes: &[u8]) -> usize
    ensures { result ≡ words_after before bytes.now }
{
    let mut words = 0;
    let mut last = before;
    let mut at = 0;
    while at < bytes.len() {
        if bytes.len() - at >= CHUNK {
            words += starts(last, bytes, at);
            last = is_word(bytes[at + 63]);
            at += CHUNK;
        } else {
            let some = prefix(skip(bytes, at), CHUNK);
            words += few_words(last, some) as usize;
            last = ends_in_word(last, some);
            at += some.len();
        }
    }
    words
}

// How many newlines there are, and how many words begin. `before` says whether a byte of a word comes before them.
fn lines_and_words(before: bool, bytes: &[u8]) -> (usize, usize)
    ensures lines { result.0 ≡ count_by (λ x. x == newline) bytes.now }
    ensures words { result.1 ≡ words_after before bytes.now }
{
    let mut lines = 0;
    let mut words = 0;
    let mut last = before;
    let mut at = 0;
    while bytes.len() - at >= CHUNK {
        lines += line_ends(bytes, at);
        let begun = starts(last, bytes, at);
        words += begun;
        last = is_word(bytes[at + 63]);
        at += CHUNK;
    }
    let rest = skip(bytes, at);
    (lines + newlines(rest), words + words_after(last, rest))
}

// The same, as far as they are asked for.
fn asked_for(spec: &WcSpec, before: bool, bytes: &[u8]) -> (usize, usize)
    ensures lines { spec.now.lines ≡ true → result.0 ≡ count_by (λ x. x == newline) bytes.now }
    ensures words { spec.now.words ≡ true → result.1 ≡ words_after before bytes.now }
{
    if spec.lines && spec.words {
        return lines_and_words(before, bytes);
    }
    if spec.words {
        return (0, words_after(before, bytes));
    }
    if spec.lines {
        return (newlines(bytes), 0);
    }
    (0, 0)
}

// What is asked for of these bytes, if `before` says whether a byte of a word comes before them;
// and whether the last one belongs to a word, if that is asked for.
pub(crate) fn counted(spec: &WcSpec, before: bool, bytes: &[u8]) -> (Counts, bool)
    ensures counts { Agree spec.now result.0 (counted_after nothing before bytes.now) }
    ensures last { spec.now.words ≡ true → result.1 ≡ ends_in_word before bytes.now }
{
    let (lines, words) = asked_for(spec, before, bytes);
    (
        Counts {
            lines: lines as u64,
            words: words as u64,
            bytes: bytes.len() as u64,
        },
        ends_in_word(before, bytes),
    )
}

// A number more, if it is asked for.
fn more_if(asked: bool, a: u64, b: u64) -> Result<u64, StageFault>
    ensures { MatchResult result (λ n. n ≡ more_if asked a b)
        (λ given. (given ≡ fault.CountTooLarge) × (asked ≡ true) × (2 ^ 63 ≤ a + b)) }
{
    if asked { add_count(a, b) } else { Ok(a) }
}

// Two counts, added if they are asked for.
pub(crate) fn added(spec: &WcSpec, a: Counts, b: Counts) -> Result<Counts, StageFault>
    ensures { MatchResult result (λ sum. sum ≡ added spec.now a b)
        (λ given. (given ≡ fault.CountTooLarge) × IsTooMany spec.now (plus a b)) }
{
    Ok(Counts {
        lines: more_if(spec.lines, a.lines, b.lines)?,
        words: more_if(spec.words, a.words, b.words)?,
        bytes: more_if(spec.bytes, a.bytes, b.bytes)?,
    })
}

// Whether a line with the sums is written.
pub(crate) fn has_total(spec: &WcSpec) -> bool
    ensures { result ≡ has_total spec.now }
{
    2 <= spec.operands.as_slice().len()
}

// The sums once an input is over, by whether it is present.
pub(crate) fn sums_after(
    spec: &WcSpec,
    here: bool,
    sums: Counts,
    counts: Counts,
) -> Result<Counts, StageFault>
    ensures { MatchResult result (λ s. s ≡ sums_after spec.now here sums counts)
        (λ given. (given ≡ fault.CountTooLarge) × (here ≡ true) × (has_total spec.now ≡ true)
        × IsTooMany spec.now (plus sums counts)) }
{
    if here && has_total(spec) {
        added(spec, sums, counts)
    } else {
        Ok(sums)
    }
}
