ghost use Rattle.std.specs.Prelude.{◌≡◌, ◌≤◌, ◌⊎◌, OnOk, IsErr, IsErrOf, List, [], None, length, IsSome, true, false};
ghost use Rattle.std.specs.List.{All};
ghost use Rattle.machine.specs.Pieces.{IsPieceLong, queued};
ghost use Rattle.machine.specs.Law.{IsNew};
ghost use Rattle.machine.specs.Whole.{inputs_of, WholeAnswer, StreamAnswer};
ghost use Rattle.machine.specs.declared.protocol.Presence.{Presence};
ghost use Rattle.machine.specs.declared.protocol.Want.{Want};
ghost use Rattle.splice_tee.specs.BranchStates.{NoneOpen, SomeOpen, IsFirstLacking};
ghost use Rattle.stages.specs.Inlets.{ReadsGoOn, AllHungUp, IsNewInlet};
ghost use Rattle.stages.specs.Outlets.{Spent, WritesGoOn, IsNewOutlet};
ghost use Rattle.stages.specs.inner.Steps.{InCase, StepSays, BreaksOff, EndsInputs, TakesNothing, TakesAtMostOne, TakesInTurn, SeesReaders, StageActs, stage};
ghost use Rattle.stages.specs.inner.Moves.{AreTogether, Hands, IsTooLargeWith, GoesOn, node_fault};
ghost use Rattle.run_types.specs.declared.node_state.NodeFault.{NodeFault};
ghost use Rattle.run_types.specs.declared.node_state.NodeState.TheVariants as state;
ghost use Rattle.run_types.specs.declared.step.Step.TheVariants as step;

use crate::clock::StepClock;
use crate::inlet::Inlet;
use crate::outlet::Outlet;
use machine::{Item, Machine, NoMemory, StageFault, Want};
use run_types::{NodeFault, NodeState, Step};
use std::marker::Model;

/// A stage of a network: a machine between the pipes that it reads and those that it writes.
#[derive(Drop)]
pub struct Stage<M: Machine> {
    pub(crate) machine: M,
    pub(crate) inlet: Inlet,
    pub(crate) outlet: Outlet,
    state: NodeState,
    // How many nanoseconds its steps took, as far as they were measured. It is no part of the view: no clause speaks of it.
    time: u64,
}

impl<M: Machine> Model for Stage<M> {
    ghost use Rattle.std.specs.Prelude.{◌≡◌, length};
    ghost use Rattle.stages.specs.inner.Staged.{Staged};

    ghost Value = { Staged M };

    ghost view = { λ s. record {
      machine = s.machine;
      inlet = s.inlet;
      outlet = s.outlet;
      state = s.state;
    } };

    ghost invariant = { λ s. (M.shows s.machine).inputs ≡ length s.inlet.ends };
}

impl<M: Machine> Stage<M> {
    /// A stage that has taken nothing and put nothing.
    pub fn new(machine: M, inlet: Inlet, outlet: Outlet) -> Stage<M>
        requires { (M.shows machine).inputs ≡ length inlet.ends }
        ensures parts { result ≡ stage machine inlet outlet state.Running }
        ensures case { (whole : WholeAnswer) (presence : List Presence)
            → IsNew (M.shows machine) whole presence → IsNewInlet inlet → IsNewOutlet outlet
            → InCase M.shows (λ ys. whole (inputs_of presence ys)) result }
    {
        Stage {
            machine,
            inlet,
            outlet,
            state: NodeState::Running,
            time: 0,
        }
    }

    /// Its state.
    pub fn state(&self) -> NodeState
        ensures { result ≡ self.now.state }
    {
        self.state
    }

    /// Performs one step. It keeps the case of the stage, whatever is the answer to all that comes
    /// on its inputs, and each end goes on. It takes at most one item, and none while it owes one.
    /// Once its machine has finished, its next step hangs up its inputs. If no branch is open, the
    /// step breaks it off. If nothing is owed, it notices a branch whose reader has hung up, and takes nothing then. A stage that does not run changes nothing, and
    /// returns its state.
    #[tactic(auto, using(crate::proofs::lemmas::GoingOn::reads_go_on, crate::proofs::lemmas::GoingOn::writes_go_on))]
    pub fn step(&mut self) -> Step
        ensures { StageActs M.shows self.old self.new result }
    {
        match self.state {
            NodeState::Running => self.go_on(),
            NodeState::Ended => Step::Ended,
            NodeState::Broken => Step::Broken,
            NodeState::Failed(_) => Step::Failed,
        }
    }

    /// Performs one step, as `step` does. What it takes by this clock is added to the time of the stage.
    pub fn step_timed<C: StepClock>(&mut self, clock: &C) -> Step
        ensures { StageActs M.shows self.old self.new result }
    {
        let begun = clock.nanos();
        let step = self.step();
        self.add_time(begun, clock.nanos());
        step
    }

    // Adds the time from one reading of a clock to another.
    fn add_time(&mut self, begun: Option<u64>, ended: Option<u64>)
        ensures { self.new ≡ self.old }
    {
        if let (Some(begun), Some(ended)) = (begun, ended) {
            self.time = self.time.saturating_add(ended.saturating_sub(begun));
        }
    }

    /// How many nanoseconds its timed steps took, up to 2^64 - 1.
    pub fn time(&self) -> u64 {
        self.time
    }
}

// Hands the machine what came on an input: a piece, or its end. What the machine puts out is owed. After a fault no
// more pieces are owed than before.
fn hand<M: Machine>(
    machine: &mut M,
    input: usize,
    item: Item,
    outlet: &mut Outlet,
) -> Result<(), StageFault>
    requires { (M.shows machine.old).wanted ≡ Want.Take input }
    ensures same { outlet.new ≡ record outlet.old { owed = outlet.new.owed } }
    ensures inputs { (M.shows machine.new).inputs ≡ (M.shows machine.old).inputs }
    ensures ok { OnOk result
        (Hands input item (M.shows machine.old) (M.shows machine.new)
        (queued outlet.old.block outlet.old.owed) (queued outlet.old.block outlet.new.owed)) }
    ensures long { All (IsPieceLong outlet.old.block) outlet.new.owed }
    ensures few { IsErr result → length outlet.new.owed ≤ length outlet.old.owed }
    ensures too_large { IsErrOf result StageFault.CountTooLarge
        → IsTooLargeWith input item (M.shows machine.old) }
{
    let owed = &mut outlet.owed;
    let mark = owed.len();
    let handed = match item {
        Item::Bytes(piece) => machine.feed(input, piece, owed),
        Item::Close => machine.close(input, owed),
    };
    if handed.is_err() {
        owed.truncate(mark);
    }
    // a look at the queue tells that no piece of it is longer than its block
    let _ = owed.is_empty();
    handed
}

// The private steps: each is of a stage that runs, and sets its state.
impl<M: Machine> Stage<M> {
    // It cannot go on.
    fn fail(&mut self, fault: StageFault) -> Step
        ensures state { self.new ≡ record self.old { state = state.Failed (node_fault fault) } }
        ensures says { result ≡ step.Failed }
    {
        self.state = match fault {
            StageFault::CountTooLarge => NodeState::Failed(NodeFault::CountTooLarge),
            StageFault::NoMemory => NodeState::Failed(NodeFault::NoMemory),
        };
        Step::Failed
    }

    // Takes an item of the input that the machine wants.
    #[tactic(auto, using(crate::proofs::lemmas::GoingOn::same_goes_on, crate::proofs::lemmas::GoingOn::writes_go_on, crate::proofs::lemmas::GoingOn::owed_goes_on, crate::proofs::lemmas::FeedLaws::input_within))]
    fn take(&mut self, input: usize) -> Step
        requires running { self.old.state ≡ state.Running }
        requires want { (M.shows self.old.machine).wanted ≡ Want.Take input }
        ensures case { (answer : StreamAnswer) → InCase M.shows answer self.old
            → InCase M.shows answer self.new }
        ensures goes_on { GoesOn self.old self.new result }
        ensures says { Spent false self.old.outlet → SomeOpen self.old.outlet.served
            → StepSays M.shows self.old self.new result }
        ensures takes { TakesAtMostOne input self.old.inlet self.new.inlet }
        ensures outlet { self.new.outlet ≡ record self.old.outlet { owed = self.new.outlet.owed } }
    {
        let Some(item) = self.inlet.take(input) else {
            return Step::Waits(self.inlet.pipe(input));
        };
        match hand(&mut self.machine, input, item, &mut self.outlet) {
            Ok(()) => Step::Moved,
            Err(fault) => self.fail(fault),
        }
    }

    // Closes a branch whose reader has hung up, or takes an item of the input that the machine wants. So a stage that owes nothing notices
    // that nobody reads it.
    fn close_or_take(&mut self, input: usize) -> Step
        requires running { self.old.state ≡ state.Running }
        requires want { (M.shows self.old.machine).wanted ≡ Want.Take input }
        ensures case { (answer : StreamAnswer) → InCase M.shows answer self.old
            → InCase M.shows answer self.new }
        ensures goes_on { GoesOn self.old self.new result }
        ensures says { (answer : StreamAnswer) → InCase M.shows answer self.old
            → Spent false self.old.outlet → SomeOpen self.old.outlet.served
            → StepSays M.shows self.old self.new result }
        ensures takes { TakesNothing self.old.inlet self.new.inlet
            ⊎ (SeesReaders self.new.outlet × TakesAtMostOne input self.old.inlet self.new.inlet) }
    {
        if self.outlet.close_gone() {
            return Step::Moved;
        }
        self.take(input)
    }

    // Offers the front item, which the branch `first` is the first to lack.
    fn serve(&mut self, first: usize) -> Step
        requires running { self.old.state ≡ state.Running }
        requires front { IsSome self.old.outlet.front }
        requires first { IsFirstLacking self.old.outlet.served first }
        requires hung_up { (M.shows self.old.machine).wanted ≡ Want.Finished
            → self.old.inlet.hung_up ≡ true }
        ensures case { (answer : StreamAnswer) → InCase M.shows answer self.old
            → InCase M.shows answer self.new }
        ensures inlet { self.new.inlet ≡ self.old.inlet }
        ensures goes_on { GoesOn self.old self.new result }
        ensures says { (answer : StreamAnswer) → InCase M.shows answer self.old
            → StepSays M.shows self.old self.new result }
    {
        match self.outlet.serve() {
            Ok(true) if self.outlet.is_closed() => {
                self.state = NodeState::Ended;
                Step::Ended
            }
            Ok(true) => Step::Moved,
            Ok(false) => Step::Waits(self.outlet.pipe(first)),
            Err(NoMemory) => self.fail(StageFault::NoMemory),
        }
    }

    // Drops what is owed and hangs up the inputs: no branch is open.
    #[tactic(auto, using(crate::proofs::lemmas::GoingOn::hung_goes_on))]
    fn break_off(&mut self) -> Step
        requires running { self.old.state ≡ state.Running }
        requires none { NoneOpen self.old.outlet.served }
        ensures case { (answer : StreamAnswer) → InCase M.shows answer self.old
            → InCase M.shows answer self.new }
        ensures goes_on { GoesOn self.old self.new result }
        ensures breaks { BreaksOff self.old self.new result }
        ensures takes { TakesNothing self.old.inlet self.new.inlet }
    {
        self.outlet.clear();
        self.inlet.hang_up();
        self.state = NodeState::Broken;
        Step::Broken
    }

    // Hangs up the inputs: the machine has finished.
    #[tactic(auto, using(crate::proofs::lemmas::GoingOn::hung_goes_on))]
    fn hang_up(&mut self) -> Step
        requires running { self.old.state ≡ state.Running }
        requires finished { (M.shows self.old.machine).wanted ≡ Want.Finished }
        requires not_yet { AreTogether self.old.inlet → self.old.inlet.hung_up ≡ false }
        ensures case { (answer : StreamAnswer) → InCase M.shows answer self.old
            → InCase M.shows answer self.new }
        ensures only { self.new ≡ record self.old { inlet = self.new.inlet } }
        ensures goes_on { GoesOn self.old self.new result }
        ensures says { AreTogether self.old.inlet → StepSays M.shows self.old self.new result }
        ensures inputs { EndsInputs self.old.inlet self.new.inlet }
    {
        self.inlet.hang_up();
        Step::Moved
    }

    // Puts the front item. If nothing is owed, it closes a branch or takes an item.
    #[tactic(auto, using(crate::proofs::lemmas::GoingOn::reads_go_on, crate::proofs::lemmas::GoingOn::advanced_goes_on, crate::proofs::lemmas::GoingOn::writes_go_on_on))]
    fn put_or_take(&mut self, input: usize) -> Step
        requires running { self.old.state ≡ state.Running }
        requires want { (M.shows self.old.machine).wanted ≡ Want.Take input }
        requires opens { SomeOpen self.old.outlet.served }
        ensures case { (answer : StreamAnswer) → InCase M.shows answer self.old
            → InCase M.shows answer self.new }
        ensures goes_on { GoesOn self.old self.new result }
        ensures says { (answer : StreamAnswer) → InCase M.shows answer self.old
            → StepSays M.shows self.old self.new result }
        ensures takes { (answer : StreamAnswer) → InCase M.shows answer self.old
            → TakesInTurn (M.shows self.old.machine) self.old.inlet self.old.outlet self.new.inlet
            self.new.outlet }
    {
        match self.outlet.advance(false) {
            Some(first) => self.serve(first),
            None => self.close_or_take(input),
        }
    }

    // Puts what is left, and then Close.
    #[tactic(auto, using(crate::proofs::lemmas::GoingOn::advanced_goes_on, crate::proofs::lemmas::GoingOn::writes_go_on_on))]
    fn put_rest(&mut self) -> Step
        requires running { self.old.state ≡ state.Running }
        requires finished { (M.shows self.old.machine).wanted ≡ Want.Finished }
        requires hung_up { self.old.inlet.hung_up ≡ true }
        requires opens { SomeOpen self.old.outlet.served }
        ensures case { (answer : StreamAnswer) → InCase M.shows answer self.old
            → InCase M.shows answer self.new }
        ensures inlet { self.new.inlet ≡ self.old.inlet }
        ensures goes_on { GoesOn self.old self.new result }
        ensures says { (answer : StreamAnswer) → InCase M.shows answer self.old
            → StepSays M.shows self.old self.new result }
    {
        match self.outlet.advance(true) {
            Some(first) => self.serve(first),
            None => {
                self.state = NodeState::Ended;
                Step::Ended
            }
        }
    }

    // One step.
    #[tactic(auto, using(crate::proofs::lemmas::GoingOn::reads_go_on, crate::proofs::lemmas::GoingOn::writes_go_on, crate::proofs::lemmas::GoingOn::cleared_goes_on, crate::proofs::lemmas::SpentLaws::some_open))]
    fn go_on(&mut self) -> Step
        requires running { self.old.state ≡ state.Running }
        ensures case { (answer : StreamAnswer) → InCase M.shows answer self.old
            → InCase M.shows answer self.new }
        ensures goes_on { GoesOn self.old self.new result }
        ensures says { (answer : StreamAnswer) → InCase M.shows answer self.old
            → StepSays M.shows self.old self.new result }
        ensures hangs_up { (M.shows self.old.machine).wanted ≡ Want.Finished
            → AllHungUp self.new.inlet }
        ensures breaks { NoneOpen self.old.outlet.served → BreaksOff self.old self.new result }
        ensures takes { (answer : StreamAnswer) → InCase M.shows answer self.old
            → TakesInTurn (M.shows self.old.machine) self.old.inlet self.old.outlet self.new.inlet
            self.new.outlet }
    {
        if self.outlet.open_count() == 0 {
            return self.break_off();
        }
        match self.machine.want() {
            Want::Take(input) => self.put_or_take(input),
            Want::Finished if self.inlet.are_hung_up() => self.put_rest(),
            Want::Finished => self.hang_up(),
        }
    }
}
