ghost use Rattle.std.specs.Prelude.{◌≡◌, Some};
ghost use Rattle.machine.specs.Lines.{newline};
ghost use Rattle.tr_words.specs.Tr.{in_set};
ghost use Rattle.part_laws.specs.Utilities.{deletes_newline, gather_together, keeps_newlines, makes_line_of_line, manner_of, newline_becomes, once_more, one_becomes_newline, tail_manner, tr_makes_line_of_line, tr_manner, uniq_manner, wc_manner};

use crate::manner::{Addition, Manner, WholeCause};
use commands::{Counted, FilterSpec, Origin, Parts, RunsShown, WcSpec};
use machine::newlines;
use tr_words::TrSpec;

// The byte that ends a line.
const NEWLINE: u8 = b'\n';

/// The manner in which a filter goes (POSIX.1-2017 XCU, the pages of the utilities).
pub fn manner_of(filter: &FilterSpec) -> Manner
    ensures { result ≡ manner_of filter.now }
{
    match filter {
        FilterSpec::Cat(_) | FilterSpec::Tee(_) => Manner::ByBytes,
        FilterSpec::Cut(_) | FilterSpec::Fold(_) => Manner::ByLines,
        FilterSpec::Head(spec) if spec.inputs.as_slice().len() >= 2 => {
            Manner::Whole(WholeCause::Headers)
        }
        FilterSpec::Head(_) => Manner::Gathers,
        FilterSpec::Paste(_) => Manner::Whole(WholeCause::JoinsLines),
        FilterSpec::Tail(spec) => tail_manner(spec.origin, spec.counted),
        FilterSpec::Tr(spec) => tr_manner(spec.spec()),
        FilterSpec::Uniq(spec) => uniq_manner(spec.shown),
        FilterSpec::Wc(spec) => wc_manner(spec),
    }
}

/// Whether the newlines of a filter's input stay (POSIX.1-2017 XCU tr).
pub fn keeps_newlines(filter: &FilterSpec) -> bool
    ensures { result ≡ keeps_newlines filter.now }
{
    match filter {
        FilterSpec::Tr(spec) => {
            !deletes_newline(spec.spec()) && newline_becomes(spec.spec()) == NEWLINE
        }
        _ => true,
    }
}

/// Whether a filter makes a line of each line, so that it may run before the first lines are left out as well as after that (POSIX.1-2017 XCU
/// cat, cut, tee, tr).
pub fn makes_line_of_line(filter: &FilterSpec) -> bool
    ensures { result ≡ makes_line_of_line filter.now }
{
    match filter {
        FilterSpec::Cat(_) | FilterSpec::Tee(_) => true,
        FilterSpec::Cut(spec) => match spec.parts {
            Parts::Bytes => true,
            Parts::Fields { only_delimited, .. } => !only_delimited,
        },
        FilterSpec::Tr(spec) => tr_makes_line_of_line(spec.spec()),
        _ => false,
    }
}

/// Whether two filters, the second of which reads the output of the first, gather together (POSIX.1-2017 XCU uniq, head).
pub fn gather_together(filter: &FilterSpec, next: &FilterSpec) -> bool
    ensures { result ≡ gather_together filter.now next.now }
{
    match (filter, next) {
        (FilterSpec::Uniq(spec), FilterSpec::Head(next)) => {
            spec.shown == RunsShown::Every && next.inputs.as_slice().len() < 2
        }
        _ => false,
    }
}

// The manner of a tail that counts these from here.
fn tail_manner(origin: Origin, counted: Counted) -> Manner
    ensures { result ≡ tail_manner origin counted }
{
    match (origin, counted) {
        (Origin::End, _) => Manner::Gathers,
        (Origin::Beginning, Counted::Lines) => Manner::Skips,
        (Origin::Beginning, Counted::Bytes) => Manner::Whole(WholeCause::FromStart),
    }
}

// The manner of a wc.
fn wc_manner(spec: &WcSpec) -> Manner
    ensures { result ≡ wc_manner spec.now }
{
    if !spec.operands.is_empty() {
        Manner::Whole(WholeCause::NamesInput)
    } else if spec.bytes {
        Manner::Whole(WholeCause::Counts)
    } else if spec.words {
        Manner::Counts(Addition::MarkWords)
    } else {
        Manner::Counts(Addition::KeepNewlines)
    }
}

// The manner of a uniq that shows these runs.
fn uniq_manner(shown: RunsShown) -> Manner
    ensures { result ≡ uniq_manner shown }
{
    match shown {
        RunsShown::Every => Manner::Gathers,
        RunsShown::Counted | RunsShown::Repeated | RunsShown::Single => {
            Manner::Whole(WholeCause::RunLengths)
        }
    }
}

// The manner of a tr.
fn tr_manner(spec: &TrSpec) -> Manner
    ensures { result ≡ tr_manner spec.now }
{
    match &spec.squeezed {
        None => Manner::ByBytes,
        Some(_) if deletes_newline(spec) => Manner::Whole(WholeCause::Squeezes),
        Some(set) if is_in(set, newline_becomes(spec)) => {
            once_more(&spec.table, newline_becomes(spec))
        }
        Some(_) => Manner::ByLines,
    }
}

// Runs of this byte are squeezed once more. A table makes bytes alone.
fn once_more(table: &[u8], byte: u8) -> Manner
    ensures { result ≡ once_more table.now byte }
{
    Manner::Squeezes(byte)
}

// Whether a tr makes a line of each line.
fn tr_makes_line_of_line(spec: &TrSpec) -> bool
    ensures { result ≡ tr_makes_line_of_line spec.now }
{
    !deletes_newline(spec)
        && newline_becomes(spec) == NEWLINE
        && one_becomes_newline(spec)
        && !squeezes_newlines(spec)
}

// Whether one byte alone becomes a newline.
fn one_becomes_newline(spec: &TrSpec) -> bool
    ensures { result ≡ one_becomes_newline spec.now }
{
    newlines(&spec.table) == 1
}

// Whether a tr squeezes newlines.
fn squeezes_newlines(spec: &TrSpec) -> bool
    ensures { result ≡ in_set spec.now.squeezed newline }
{
    match &spec.squeezed {
        Some(set) => is_in(set, NEWLINE),
        None => false,
    }
}

// What a tr makes of a newline.
fn newline_becomes(spec: &TrSpec) -> u8
    ensures { result ≡ newline_becomes spec.now }
{
    spec.table[usize::from(NEWLINE)]
}

// Whether a tr deletes newlines.
fn deletes_newline(spec: &TrSpec) -> bool
    ensures { result ≡ deletes_newline spec.now }
{
    match &spec.deleted {
        Some(set) => is_in(set, NEWLINE),
        None => false,
    }
}

// Whether a byte is in a set.
fn is_in(set: &[bool; 256], byte: u8) -> bool
    ensures { result ≡ in_set (Some set.now) byte }
{
    set[usize::from(byte)]
}
