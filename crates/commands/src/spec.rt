ghost use Rattle.std.specs.Prelude.{◌≡◌};
ghost use Rattle.command_words.specs.inner.Refusals.{MeetsWords};
ghost use Rattle.tr_words.specs.TrWords.{tr_means};
ghost use Rattle.commands.specs.Filters.{filter_means, filter_by_name, utility_name, input_count};

use crate::boxed::BoxedTr;
use crate::cat_words::CatSpec;
use crate::cut_words::CutSpec;
use crate::fold_words::FoldSpec;
use crate::head_words::HeadSpec;
use crate::paste_words::PasteSpec;
use crate::tail_words::TailSpec;
use crate::tee_words::TeeSpec;
use crate::uniq_words::UniqSpec;
use crate::wc_words::WcSpec;
use command_words::{ArgFault, BadWords, Span, Word};
use std::alloc::Global;
use tr_words::TrSpec;

/// What a command means, by its utility.
#[derive(Drop)]
pub enum FilterSpec {
    Cat(CatSpec),
    Cut(CutSpec),
    Fold(FoldSpec),
    Head(HeadSpec),
    Paste(PasteSpec),
    Tail(TailSpec),
    Tee(TeeSpec),
    Tr(BoxedTr),
    Uniq(UniqSpec),
    Wc(WcSpec),
}

impl FilterSpec {
    /// What a command with these words means; the first of them names its utility.
    pub fn read(alloc: Global, words: &[Word]) -> Result<FilterSpec, BadWords>
        ensures { MeetsWords result (filter_means words.now) }
    {
        let [name, words @ ..] = words else {
            return Err(BadWords::new(ArgFault::UnknownUtility));
        };
        read_by_name(alloc, name.bytes(), name.place(), words)
    }

    /// How many inputs it has.
    pub fn input_count(&self) -> usize
        ensures { result ≡ input_count self.now }
    {
        match self {
            FilterSpec::Cat(spec) => spec.inputs.as_slice().len(),
            FilterSpec::Cut(spec) => spec.inputs.as_slice().len(),
            FilterSpec::Fold(spec) => spec.inputs.as_slice().len(),
            FilterSpec::Head(spec) => spec.inputs.as_slice().len(),
            FilterSpec::Paste(spec) => spec.inputs.as_slice().len(),
            FilterSpec::Wc(spec) => spec.operands.as_slice().len().max(1),
            FilterSpec::Tail(_) | FilterSpec::Tee(_) | FilterSpec::Tr(_) | FilterSpec::Uniq(_) => 1,
        }
    }

    /// The name of its utility.
    pub fn name(&self) -> &'static str
        ensures { result.now ≡ utility_name self.now }
    {
        match self {
            FilterSpec::Cat(_) => "cat",
            FilterSpec::Cut(_) => "cut",
            FilterSpec::Fold(_) => "fold",
            FilterSpec::Head(_) => "head",
            FilterSpec::Paste(_) => "paste",
            FilterSpec::Tail(_) => "tail",
            FilterSpec::Tee(_) => "tee",
            FilterSpec::Tr(_) => "tr",
            FilterSpec::Uniq(_) => "uniq",
            FilterSpec::Wc(_) => "wc",
        }
    }
}

// What the words after this name mean, which is at this place.
fn read_by_name(
    alloc: Global,
    name: &[u8],
    place: Option<Span>,
    words: &[Word],
) -> Result<FilterSpec, BadWords>
    ensures { MeetsWords result (filter_by_name name.now words.now) }
{
    if name == b"cat".as_slice() {
        return CatSpec::read(alloc, words).map(FilterSpec::Cat);
    }
    if name == b"cut".as_slice() {
        return CutSpec::read(alloc, words).map(FilterSpec::Cut);
    }
    if name == b"fold".as_slice() {
        return FoldSpec::read(alloc, words).map(FilterSpec::Fold);
    }
    if name == b"head".as_slice() {
        return HeadSpec::read(alloc, words).map(FilterSpec::Head);
    }
    if name == b"paste".as_slice() {
        return PasteSpec::read(alloc, words).map(FilterSpec::Paste);
    }
    if name == b"tail".as_slice() {
        return TailSpec::read(alloc, words).map(FilterSpec::Tail);
    }
    if name == b"tee".as_slice() {
        return TeeSpec::read(alloc, words).map(FilterSpec::Tee);
    }
    if name == b"tr".as_slice() {
        return read_tr(alloc, words).map(FilterSpec::Tr);
    }
    if name == b"uniq".as_slice() {
        return UniqSpec::read(alloc, words).map(FilterSpec::Uniq);
    }
    if name == b"wc".as_slice() {
        return WcSpec::read(alloc, words).map(FilterSpec::Wc);
    }
    Err(BadWords::at(ArgFault::UnknownUtility, place))
}

// What these words of tr mean.
fn read_tr(alloc: Global, words: &[Word]) -> Result<BoxedTr, BadWords>
    ensures { MeetsWords result (tr_means words.now) }
{
    Ok(BoxedTr::new(alloc, TrSpec::read(alloc, words)?)?)
}
