ghost use Rattle.std.specs.Prelude.{◌≡◌, ◌<◌, ℕ, List, [], ◌∷◌, length, IfSome, IsTrue};
ghost use Rattle.part_laws.specs.Divisions.{made_by};
ghost use Rattle.part_laws.specs.Manners.{made_of};
ghost use Rattle.shards.specs.Chains.{filters_of};
ghost use Rattle.shards.specs.inner.Written.{filters_in};

use command_words::Word;
use commands::{
    CutSpec, FilterSpec, FoldForm, HeadSpec, PasteSpec, Range, TailSpec, UniqSpec, WcSpec,
};
use planner::Node;
use run_types::OutName;
use tr_words::TrSpec;

/// Half of a pipeline, as three rows of stages, one row after another.
#[derive(Clone, Copy)]
pub(crate) struct Half<'a> {
    pub(crate) first: &'a [Node],
    pub(crate) second: &'a [Node],
    pub(crate) third: &'a [Node],
}

/// Whether these stages, one after another, surely write what those of a half write of every input. A cat after all others makes no difference.
pub(crate) fn surely_make_the_same(stages: &[Node], half: Half<'_>) -> bool
    ensures { IsTrue result → (x : List ℕ)
        → made_by (filters_of stages.now) x ≡ made_by (filters_in half.entry.first.now half.entry.second.now half.entry.third.now) x }
{
    let Some(later) = after_alike(stages, half.first) else {
        return false;
    };
    let Some(last) = after_alike(later, half.second) else {
        return false;
    };
    match after_alike(last, half.third) {
        Some(rest) => are_copying(rest),
        None => false,
    }
}

// The stages after as many that surely write the same as others, if the first ones do.
fn after_alike<'a>(stages: &'a [Node], others: &[Node]) -> Option<&'a [Node]>
    ensures { IfSome result (λ rest. (x : List ℕ)
        → made_by (filters_of stages.now) x ≡ made_by (filters_of rest.now) (made_by (filters_of others.now) x)) }
{
    let [other, others @ ..] = others else {
        return Some(stages);
    };
    match stages {
        [stage, stages @ ..] if are_alike(stage, other) => after_alike(stages, others),
        _ => None,
    }
}

// Whether these stages surely write their input as it is.
fn are_copying(stages: &[Node]) -> bool
    ensures { IsTrue result → (x : List ℕ) → made_by (filters_of stages.now) x ≡ x }
{
    match stages {
        [] => true,
        [stage, stages @ ..] => is_copying(stage) && are_copying(stages),
    }
}

/// Whether these are the same output.
pub(crate) fn same_output(output: &OutName, other: &OutName) -> bool
    ensures { IsTrue result → output.now ≡ other.now }
{
    match (output, other) {
        (OutName::Standard, OutName::Standard) => true,
        (
            OutName::File { name, append },
            OutName::File {
                name: other,
                append: appends,
            },
        ) => append == appends && same_text(name.bytes(), other.bytes()),
        _ => false,
    }
}

// Whether this stage surely writes its input as it is.
fn is_copying(stage: &Node) -> bool
    ensures { IsTrue result → (x : List ℕ) → made_by (filters_of (stage.now ∷ [])) x ≡ x }
{
    match stage {
        Node::Stage { spec, .. } => matches!(spec, FilterSpec::Cat(_) | FilterSpec::Tee(_)),
        _ => true,
    }
}

// Whether these are stages that surely write the same of every input.
fn are_alike(stage: &Node, other: &Node) -> bool
    ensures { IsTrue result → (x : List ℕ)
        → made_by (filters_of (stage.now ∷ [])) x ≡ made_by (filters_of (other.now ∷ [])) x }
{
    match (stage, other) {
        (Node::Stage { spec, .. }, Node::Stage { spec: other, .. }) => same_filter(spec, other),
        _ => false,
    }
}

// Whether these filters surely write the same of every input.
fn same_filter(filter: &FilterSpec, other: &FilterSpec) -> bool
    ensures { IsTrue result → (x : List ℕ) → made_of filter.now x ≡ made_of other.now x }
{
    match (filter, other) {
        (FilterSpec::Cat(_), FilterSpec::Cat(_)) => true,
        (FilterSpec::Tee(_), FilterSpec::Tee(_)) => true,
        (FilterSpec::Cut(spec), FilterSpec::Cut(other)) => same_cut(spec, other),
        (FilterSpec::Fold(spec), FilterSpec::Fold(other)) => same_form(&spec.form, &other.form),
        (FilterSpec::Head(spec), FilterSpec::Head(other)) => same_head(spec, other),
        (FilterSpec::Paste(spec), FilterSpec::Paste(other)) => same_paste(spec, other),
        (FilterSpec::Tail(spec), FilterSpec::Tail(other)) => same_tail(spec, other),
        (FilterSpec::Tr(spec), FilterSpec::Tr(other)) => same_tr(spec.spec(), other.spec()),
        (FilterSpec::Uniq(spec), FilterSpec::Uniq(other)) => same_uniq(spec, other),
        (FilterSpec::Wc(spec), FilterSpec::Wc(other)) => same_wc(spec, other),
        _ => false,
    }
}

// Whether these write the same of each line.
fn same_cut(spec: &CutSpec, other: &CutSpec) -> bool
    ensures { IsTrue result → (spec.now.ranges ≡ other.now.ranges) × (spec.now.parts ≡ other.now.parts) }
{
    spec.parts == other.parts && same_ranges(spec.ranges.as_slice(), other.ranges.as_slice())
}

// Whether these cut lines alike.
fn same_form(form: &FoldForm, other: &FoldForm) -> bool
    ensures { IsTrue result → form.now ≡ other.now }
{
    form.bytes == other.bytes && form.spaces == other.spaces && form.width == other.width
}

// Whether these write as many lines, without headers.
fn same_head(spec: &HeadSpec, other: &HeadSpec) -> bool
    ensures { IsTrue result → (spec.now.count ≡ other.now.count) × (length spec.now.inputs < 2)
        × (length other.now.inputs < 2) }
{
    spec.count == other.count
        && spec.inputs.as_slice().len() < 2
        && other.inputs.as_slice().len() < 2
}

// Whether these join lines alike.
fn same_paste(spec: &PasteSpec, other: &PasteSpec) -> bool
    ensures { IsTrue result → (spec.now.delimiters ≡ other.now.delimiters)
        × (spec.now.is_serial ≡ other.now.is_serial) × (spec.now.columns ≡ other.now.columns) }
{
    spec.is_serial == other.is_serial
        && same_delimiters(spec.delimiters.as_slice(), other.delimiters.as_slice())
        && same_numbers(spec.columns.as_slice(), other.columns.as_slice())
}

// Whether these write the same lines or bytes.
fn same_tail(spec: &TailSpec, other: &TailSpec) -> bool
    ensures { IsTrue result → (spec.now.counted ≡ other.now.counted) × (spec.now.origin ≡ other.now.origin)
        × (spec.now.count ≡ other.now.count) }
{
    spec.counted == other.counted && spec.origin == other.origin && spec.count == other.count
}

// Whether these do the same to every byte.
fn same_tr(spec: &TrSpec, other: &TrSpec) -> bool
    ensures { IsTrue result → spec.now ≡ other.now }
{
    same_text(&spec.table, &other.table)
        && same_set(&spec.deleted, &other.deleted)
        && same_set(&spec.squeezed, &other.squeezed)
}

// Whether these show the same runs.
fn same_uniq(spec: &UniqSpec, other: &UniqSpec) -> bool
    ensures { IsTrue result → (spec.now.skipped_fields ≡ other.now.skipped_fields)
        × (spec.now.skipped_bytes ≡ other.now.skipped_bytes) × (spec.now.shown ≡ other.now.shown) }
{
    spec.shown == other.shown
        && spec.skipped_fields == other.skipped_fields
        && spec.skipped_bytes == other.skipped_bytes
}

// Whether these count the same of inputs with the same names.
fn same_wc(spec: &WcSpec, other: &WcSpec) -> bool
    ensures { IsTrue result → spec.now ≡ other.now }
{
    spec.lines == other.lines
        && spec.words == other.words
        && spec.bytes == other.bytes
        && same_words(spec.operands.as_slice(), other.operands.as_slice())
}

// Whether these are the same words.
fn same_words(words: &[Word], others: &[Word]) -> bool
    ensures { IsTrue result → words.now ≡ others.now }
{
    match (words, others) {
        ([], []) => true,
        ([word, words @ ..], [other, others @ ..]) => {
            same_text(word.bytes(), other.bytes()) && same_words(words, others)
        }
        _ => false,
    }
}

// Whether these are the same bytes.
fn same_text(text: &[u8], other: &[u8]) -> bool
    ensures { IsTrue result → text.now ≡ other.now }
{
    text == other
}

// Whether these are the same numbers.
fn same_numbers(numbers: &[usize], others: &[usize]) -> bool
    ensures { IsTrue result → numbers.now ≡ others.now }
{
    numbers == others
}

// Whether these are the same ranges.
fn same_ranges(ranges: &[Range], others: &[Range]) -> bool
    ensures { IsTrue result → ranges.now ≡ others.now }
{
    match (ranges, others) {
        ([], []) => true,
        ([range, ranges @ ..], [other, others @ ..]) => {
            range.first == other.first && range.last == other.last && same_ranges(ranges, others)
        }
        _ => false,
    }
}

// Whether these are the same delimiters.
fn same_delimiters(delimiters: &[Option<u8>], others: &[Option<u8>]) -> bool
    ensures { IsTrue result → delimiters.now ≡ others.now }
{
    match (delimiters, others) {
        ([], []) => true,
        ([delimiter, delimiters @ ..], [other, others @ ..]) => {
            delimiter == other && same_delimiters(delimiters, others)
        }
        _ => false,
    }
}

// Whether these are the same sets of bytes.
fn same_set(set: &Option<[bool; 256]>, other: &Option<[bool; 256]>) -> bool
    ensures { IsTrue result → set.now ≡ other.now }
{
    match (set, other) {
        (None, None) => true,
        (Some(set), Some(other)) => same_flags(set, other),
        _ => false,
    }
}

// Whether these are the same, one after another.
fn same_flags(flags: &[bool], others: &[bool]) -> bool
    ensures { IsTrue result → flags.now ≡ others.now }
{
    match (flags, others) {
        ([], []) => true,
        ([flag, flags @ ..], [other, others @ ..]) => flag == other && same_flags(flags, others),
        _ => false,
    }
}
