ghost use Rattle.std.specs.Prelude.{◌≡◌, ◌<◌, length, IfSome, IsNone, Some, slice_get, true, false};
ghost use Rattle.std.specs.List.{AllByRecursion, AllZip, HoldsAt, list_all};
ghost use Rattle.bounded_pipe.specs.Events.{HangsUp};
ghost use Rattle.stages.specs.inner.Moves.{TakesOne, AreTogether, HangsAllUp};
ghost use Rattle.stages.specs.inner.Steps.{TakesNothing};
ghost use Rattle.stages.specs.Inlets.{SameTaking, AllHungUp, IsDrained, IsNewReading, IsNewInlet, reads};

use bounded_pipe::PipeIn;
use machine::Item;
use std::marker::Model;

/// The inputs of a stage, at least one. A stage hangs them up all together.
#[derive(Drop)]
pub struct Inlet {
    pipes: Vec<usize>,
    pub(crate) ends: Vec<PipeIn>,
    hung_up: bool,
}

impl Model for Inlet {
    ghost use Rattle.std.specs.Prelude.{◌≡◌, ◌<◌, length};
    ghost use Rattle.stages.specs.Inlets.{Taking};

    ghost Value = { Taking };

    ghost view = { λ i. record {
      pipes = i.pipes.items;
      ends = i.ends.items;
      hung_up = i.hung_up;
    } };

    ghost invariant = { λ i. (0 < length i.ends.items)
        × (length i.pipes.items ≡ length i.ends.items) };
}

// Hangs up each of these.
fn hang_up_each(ends: &mut Vec<PipeIn>)
    ensures { AllZip HangsUp ends.old.items ends.new.items }
{
    for end in ends.iter_mut() {
        end.hang_up();
    }
}

// Whether each of these is hung up.
fn each_hung_up(ends: &[PipeIn]) -> bool
    ensures { result ≡ list_all (λ r. r.hung_up) ends.now }
{
    ends.iter().all(|end| end.has_hung_up())
}

impl Inlet {
    ghost use Rattle.std.specs.Borrow.{sem};
    ghost use Rattle.stages.specs.inner.LentEnds.{LendsEnd};

    /// Inputs from which nothing was taken, with the numbers of their pipes.
    pub fn new(pipes: Vec<usize>, ends: Vec<PipeIn>) -> Inlet
        requires some { 0 < length ends.items }
        requires numbered { length pipes.items ≡ length ends.items }
        requires fresh { AllByRecursion IsNewReading ends.items }
        ensures ends { (result.pipes ≡ pipes.items) × (result.ends ≡ ends.items) }
        ensures fresh { IsNewInlet result }
    {
        Inlet {
            pipes,
            ends,
            hung_up: false,
        }
    }

    // Takes an item of one input.
    pub(crate) fn take(&mut self, k: usize) -> Option<Item>
        requires { k < length self.old.ends }
        ensures some { IfSome result (λ item. TakesOne k item self.old self.new) }
        ensures none { IsNone result
            → SameTaking self.old self.new × HoldsAt IsDrained self.old.ends k }
        ensures count { length self.new.ends ≡ length self.old.ends }
    {
        self.ends[k].take()
    }

    // Hangs up all of them.
    pub(crate) fn hang_up(&mut self)
        ensures hung_up { HangsAllUp self.old self.new }
        ensures event { AreTogether self.old → self.old.hung_up ≡ false → reads self.old.ends < reads self.new.ends }
        ensures all { AllHungUp self.new }
        ensures takes { TakesNothing self.old self.new }
    {
        self.hung_up = true;
        hang_up_each(&mut self.ends);
    }

    // Lends the end of one input, for writing.
    pub(crate) fn end(&mut self, k: usize) -> &mut PipeIn
        requires { k < length self.old.ends }
        ensures* lends { sem 𝓛 (LendsEnd self.entry k result) }
        ensures value { slice_get self.old.ends k ≡ Some result.now }
    {
        &mut self.ends[k]
    }

    // Whether they are hung up.
    pub(crate) fn is_hung_up(&self) -> bool
        ensures { result ≡ self.now.hung_up }
    {
        self.hung_up
    }

    // Whether they are hung up, and each of their ends is.
    #[tactic(auto, using(crate::proofs::lemmas::Inputs::each_hung))]
    pub(crate) fn are_hung_up(&self) -> bool
        ensures all { result ≡ true → AllHungUp self.now }
        ensures not_yet { result ≡ false → AreTogether self.now → self.now.hung_up ≡ false }
    {
        self.hung_up && each_hung_up(&self.ends)
    }

    // The number of the pipe of one input.
    pub(crate) fn pipe(&self, k: usize) -> usize
        requires { k < length self.now.ends }
        ensures { slice_get self.now.pipes k ≡ Some result }
    {
        self.pipes[k]
    }
}
