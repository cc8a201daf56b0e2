ghost use Rattle.std.specs.Prelude.{◌≡◌, length, IfOk};
ghost use Rattle.machine.specs.Law.{IsNew};
ghost use Rattle.commands.specs.Filters.{input_count, filter_whole};

use byte_filters::{Fold, Wc};
use commands::FilterSpec;
use line_filters::{Cut, Head, Tail};
use machine::{Machine, NoMemory, Piece, Pieces, Presence, StageFault, Want};
use pair_filters::{Paste, Uniq};
use splice_tee::Cat;
use std::alloc::Global;
use tr_filter::Tr;

/// A filter as a machine.
#[derive(Drop)]
pub enum Filter {
    /// cat, and tee.
    Cat(Cat),
    Cut(Cut),
    Fold(Fold),
    Head(Head),
    Paste(Paste),
    Tail(Tail),
    Tr(Tr),
    Uniq(Uniq),
    Wc(Wc),
}

impl Filter {
    ghost use Rattle.filters.specs.FilterShows.{filter_shows};

    /// A new machine of what a command means, with these inputs.
    pub fn new(alloc: Global, spec: &FilterSpec, inputs: &[Presence]) -> Result<Filter, NoMemory>
        requires { length inputs.now ≡ input_count spec.now }
        ensures { IfOk result
            (λ machine. IsNew (filter_shows machine) (filter_whole spec.now) inputs.now) }
    {
        match spec {
            FilterSpec::Cat(_) | FilterSpec::Tee(_) => Ok(Filter::Cat(Cat::new(alloc, inputs)?)),
            FilterSpec::Cut(spec) => Ok(Filter::Cut(Cut::new(alloc, spec, inputs)?)),
            FilterSpec::Fold(spec) => Ok(Filter::Fold(Fold::new(alloc, spec, inputs)?)),
            FilterSpec::Head(spec) => Ok(Filter::Head(Head::new(alloc, spec, inputs)?)),
            FilterSpec::Paste(spec) => Ok(Filter::Paste(Paste::new(alloc, spec, inputs)?)),
            FilterSpec::Tail(spec) => Ok(Filter::Tail(Tail::new(alloc, spec, inputs)?)),
            FilterSpec::Tr(spec) => Ok(Filter::Tr(Tr::new(spec.spec(), inputs))),
            FilterSpec::Uniq(spec) => Ok(Filter::Uniq(Uniq::new(alloc, spec, inputs)?)),
            FilterSpec::Wc(spec) => Ok(Filter::Wc(Wc::new(alloc, spec, inputs)?)),
        }
    }
}

impl Machine for Filter {
    ghost use Rattle.filters.specs.FilterShows.{filter_shows, filter_lawful};

    ghost shows = { filter_shows };

    ghost lawful = { filter_lawful };

    fn want(&self) -> Want {
        match self {
            Filter::Cat(machine) => machine.want(),
            Filter::Cut(machine) => machine.want(),
            Filter::Fold(machine) => machine.want(),
            Filter::Head(machine) => machine.want(),
            Filter::Paste(machine) => machine.want(),
            Filter::Tail(machine) => machine.want(),
            Filter::Tr(machine) => machine.want(),
            Filter::Uniq(machine) => machine.want(),
            Filter::Wc(machine) => machine.want(),
        }
    }

    fn feed(&mut self, input: usize, piece: Piece, out: &mut Pieces) -> Result<(), StageFault> {
        match self {
            Filter::Cat(machine) => machine.feed(input, piece, out),
            Filter::Cut(machine) => machine.feed(input, piece, out),
            Filter::Fold(machine) => machine.feed(input, piece, out),
            Filter::Head(machine) => machine.feed(input, piece, out),
            Filter::Paste(machine) => machine.feed(input, piece, out),
            Filter::Tail(machine) => machine.feed(input, piece, out),
            Filter::Tr(machine) => machine.feed(input, piece, out),
            Filter::Uniq(machine) => machine.feed(input, piece, out),
            Filter::Wc(machine) => machine.feed(input, piece, out),
        }
    }

    fn close(&mut self, input: usize, out: &mut Pieces) -> Result<(), StageFault> {
        match self {
            Filter::Cat(machine) => machine.close(input, out),
            Filter::Cut(machine) => machine.close(input, out),
            Filter::Fold(machine) => machine.close(input, out),
            Filter::Head(machine) => machine.close(input, out),
            Filter::Paste(machine) => machine.close(input, out),
            Filter::Tail(machine) => machine.close(input, out),
            Filter::Tr(machine) => machine.close(input, out),
            Filter::Uniq(machine) => machine.close(input, out),
            Filter::Wc(machine) => machine.close(input, out),
        }
    }
}
