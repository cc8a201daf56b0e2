ghost use Rattle.std.specs.Prelude.{◌≡◌, ◌≤◌, length};
ghost use Rattle.stages.specs.inner.Steps.{StageActs};
ghost use Rattle.lending.specs.inner.Loans.{GroupGoesOn, StepsEach, Turned};

use crate::apart::is_over;
use machine::Machine;
use run_types::Step;
use stages::{Stage, StepClock};
use std::marker::Model;

/// Stages that are out of their network, with their pipe ends.
#[derive(Drop)]
pub struct Group<M: Machine> {
    pub(crate) places: Vec<usize>,
    pub(crate) stages: Vec<Stage<M>>,
    // How many steps of them have moved something.
    pub(crate) moved: usize,
}

impl<M: Machine> Model for Group<M> {
    ghost use Rattle.std.specs.Prelude.{◌≡◌, length};
    ghost use Rattle.lending.specs.inner.Loans.{Grouped};

    ghost Value = { Grouped M };

    ghost view = { λ g. record { places = g.places.items; stages = g.stages.items } };

    ghost invariant = { λ g. length g.stages.items ≡ length g.places.items };
}

impl<M: Machine> Group<M> {
    /// Steps each of its stages once, in order, and measures their time by this clock. How many moved something.
    pub fn turn<C: StepClock>(&mut self, clock: &C) -> usize
        ensures goes_on { GroupGoesOn M.shows self.old self.new }
        ensures moved { result ≤ length self.new.stages }
        ensures turned { Turned M.shows self.old self.new result }
    {
        let moved = step_all(&mut self.stages, clock);
        self.moved = self.moved.wrapping_add(moved);
        moved
    }

    /// How many steps of its stages have moved something since they were lent.
    pub fn moved(&self) -> usize {
        self.moved
    }

    /// Whether the node with this number is one of its stages.
    pub fn has(&self, node: usize) -> bool {
        for place in self.places.as_slice() {
            if *place == node {
                return true;
            }
        }
        false
    }

    /// How many of its stages have ended or broken.
    pub fn halted(&self) -> usize {
        let mut halted = 0usize;
        for stage in self.stages.as_slice() {
            halted = halted.saturating_add(usize::from(is_over(stage.state())));
        }
        halted
    }
}

// Steps each of these stages once, in order. How many moved something.
fn step_all<M: Machine, C: StepClock>(stages: &mut [Stage<M>], clock: &C) -> usize
    ensures { StepsEach M.shows stages.old stages.new result }
{
    let mut moved = 0;
    for k in 0..stages.len() {
        moved += usize::from(step_one(&mut stages[k], clock).has_moved());
    }
    moved
}

// Steps a stage.
fn step_one<M: Machine, C: StepClock>(stage: &mut Stage<M>, clock: &C) -> Step
    ensures { StageActs M.shows stage.old stage.new result }
{
    stage.step_timed(clock)
}
