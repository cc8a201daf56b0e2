ghost use Rattle.std.specs.Prelude.{◌≡◌, ◌≢◌, ℕ, ◌<◌, ◌↔◌, length, None, IsSome, IsTrue};
ghost use Rattle.run_types.specs.declared.step.Step.TheVariants as answer;
ghost use Rattle.network_laws.specs.State.{node_state_of};
ghost use Rattle.run_types.specs.declared.node_state.NodeState.TheVariants as state;
ghost use Rattle.network_nodes.specs.inner.Actors.{actor_at};
ghost use Rattle.networks.specs.Networks.{IsHere, HasFile, HasOpened, IsHalted, part_of};
ghost use Rattle.networks.specs.Turns.{HasFailed, AnyFailed};
ghost use Rattle.lending.specs.inner.Loans.{RunsFiles, RunsHere, StepsApart, StepsHere};
ghost use Rattle.lending.specs.declared.apart.Flow.TheVariants as flow;

use crate::lent::LentNetwork;
use crate::reads::{is_ahead, next_read, next_write};
use collector::{Files, Readiness};
use machine::Machine;
use networks::{Actor, Link, act};
use run_types::{NodeState, Step};
use stages::StepClock;

/// What rounds of the nodes that are here came to.
#[derive(Clone, Copy, Debug, PartialEq, Eq)]
pub enum Flow {
    /// In the last round nothing moved, and no node came to its end.
    Quiet,
    /// In the last round something did.
    Moving,
    /// A node has failed.
    Failed,
}

// In a round a stage or a sink steps at most this many times in a row.
const IN_A_ROW: usize = 64;

// The steps of one round: how many moved something, and how many nodes have ended or broken.
#[derive(Clone, Copy)]
struct Round {
    moved: usize,
    halted: usize,
}

impl<M: Machine> LentNetwork<M> {
    /// How many steps of its nodes have moved something since it was made.
    pub fn moved(&self) -> usize {
        self.moved
    }

    /// Whether the next read of a source that is here would wait, or the next write of a sink.
    pub fn has_waiting<F: Readiness>(&self, files: &mut F) -> bool
        ensures { F.shows files.new ≡ F.shows files.old }
    {
        has_waiting(&self.parts.nodes, &self.parts.pipes, files)
    }

    /// One step of a node that is here, while stages may be out. It looks at no pipe. So if it returns Waits, that says no more than the
    /// node's own end knew. The time of a stage is measured by this clock.
    pub fn step<F: Files, C: StepClock>(&mut self, node: usize, files: &mut F, clock: &C) -> Step
        requires here { IsHere (actor_at self.old.nodes node) }
        requires opened { HasOpened self.old (F.shows files.old) }
        ensures runs { RunsFiles M.shows (F.shows files.old) (F.shows files.new) self.old
            self.new }
        ensures acts { StepsHere M.shows node self.old.nodes self.new.nodes
            (F.shows files.old) (F.shows files.new) result }
        ensures halted { IsHalted M.shows node self.old (F.shows files.old)
            → files.new ≡ files.old }
        ensures sound { result ≢ answer.Failed
            → (F.shows files.new).failures ≡ (F.shows files.old).failures }
        ensures failed { result ≡ answer.Failed → AnyFailed self.new }
    {
        step_here(&mut self.parts.nodes, node, files, clock)
    }

    /// At most this many rounds, while stages may be out. In each one every source that is here steps once, and every stage and sink until
    /// it waits, except a source or a sink whose read or write would wait. So a pipe seldom holds more than one piece of its source. It
    /// stops after a round in which nothing moved and no node came to its end, and if a node has failed. The time of stages is
    /// measured by this clock.
    pub fn run_here<F: Readiness, C: StepClock>(
        &mut self,
        files: &mut F,
        rounds: usize,
        clock: &C,
    ) -> Flow
        requires opened { HasOpened self.old (F.shows files.old) }
        ensures { RunsHere M.shows (F.shows files.old) (F.shows files.new) self.old self.new
            result }
    {
        step_rounds(
            &mut self.parts.nodes,
            &self.parts.pipes,
            &mut self.moved,
            &mut self.passed,
            files,
            rounds,
            clock,
        )
    }

    /// Such rounds if the next read or write of a node that is here would wait. If none would, it steps nothing and returns Quiet.
    pub fn run_ready<F: Readiness, C: StepClock>(
        &mut self,
        files: &mut F,
        rounds: usize,
        clock: &C,
    ) -> Flow
        requires opened { HasOpened self.old (F.shows files.old) }
        ensures { RunsHere M.shows (F.shows files.old) (F.shows files.new) self.old self.new
            result }
    {
        if self.has_waiting(files) {
            self.run_here(files, rounds, clock)
        } else {
            Flow::Quiet
        }
    }
}

// Whether one of these is a source or a sink whose next read or write would wait.
fn has_waiting<M: Machine, F: Readiness>(nodes: &[Actor<M>], pipes: &[Link], files: &mut F) -> bool
    ensures { F.shows files.new ≡ F.shows files.old }
{
    for node in 0..nodes.len() {
        if would_wait(nodes, pipes, node, files) {
            return true;
        }
    }
    false
}

// Whether the node is a source whose next read would wait, or a sink whose next write would.
fn would_wait<M: Machine, F: Readiness>(
    nodes: &[Actor<M>],
    pipes: &[Link],
    node: usize,
    files: &mut F,
) -> bool
    ensures { F.shows files.new ≡ F.shows files.old }
{
    if let Some(file) = next_write(nodes, node) {
        return files.output_would_wait(file);
    }
    match next_read(nodes, pipes, node) {
        Some(file) => files.would_wait(file),
        None => false,
    }
}

// How many of the nodes have ended or broken, of those that are here.
fn count_halted<M: Machine>(nodes: &[Actor<M>]) -> usize {
    let mut halted = 0usize;
    for node in nodes {
        halted = halted.saturating_add(usize::from(has_halted(node)));
    }
    halted
}

// Whether it is here, and has ended or broken.
pub(crate) fn has_halted<M: Machine>(actor: &Actor<M>) -> bool {
    let state = match actor {
        Actor::Source(source) => source.state(),
        Actor::Stage(stage) => stage.state(),
        Actor::Sink(sink) => sink.state(),
        Actor::Lent => return false,
    };
    is_over(state)
}

// Whether a node of this state has ended or broken.
pub(crate) fn is_over(state: NodeState) -> bool {
    matches!(state, NodeState::Ended | NodeState::Broken)
}

// Rounds of the nodes that are here, except those whose reads or writes would wait, until nothing goes on or one has failed. Their
// steps that move something are added to these. It counts the sinks that the last round passes over.
fn step_rounds<M: Machine, F: Readiness, C: StepClock>(
    nodes: &mut [Actor<M>],
    pipes: &[Link],
    moved: &mut usize,
    passed: &mut usize,
    files: &mut F,
    rounds: usize,
    clock: &C,
) -> Flow
    requires opened { (k : ℕ) → HasFile (F.shows files.old) (actor_at nodes.old k) }
    ensures steps { StepsApart M.shows (F.shows files.old)
        (F.shows files.new) nodes.old nodes.new }
    ensures sound { result ≢ flow.Failed
        → (F.shows files.new).failures ≡ (F.shows files.old).failures }
    ensures failed { result ≡ flow.Failed → HasFailed nodes.new }
{
    let mut halted = count_halted(nodes);
    for round in 0..rounds {
        *passed = 0;
        let Some(done) = step_round(nodes, pipes, passed, files, clock) else {
            return Flow::Failed;
        };
        *moved = moved.wrapping_add(done.moved);
        if done.is_quiet(halted) {
            return Flow::Quiet;
        }
        halted = done.halted;
    }
    Flow::Moving
}

// Steps of each node that is here, except those whose reads or writes would wait, in the order of their numbers. It counts the sinks that it
// passes over. None if a node has failed.
fn step_round<M: Machine, F: Readiness, C: StepClock>(
    nodes: &mut [Actor<M>],
    pipes: &[Link],
    passed: &mut usize,
    files: &mut F,
    clock: &C,
) -> Option<Round>
    requires opened { (k : ℕ) → HasFile (F.shows files.old) (actor_at nodes.old k) }
    ensures steps { StepsApart M.shows (F.shows files.old)
        (F.shows files.new) nodes.old nodes.new }
    ensures sound { IsSome result → (F.shows files.new).failures ≡ (F.shows files.old).failures }
    ensures failed { result ≡ None → HasFailed nodes.new }
{
    let mut round = Round {
        moved: 0,
        halted: 0,
    };
    for node in 0..nodes.len() {
        round = step_on(nodes, pipes, node, passed, files, clock, round)?;
    }
    Some(round)
}

// Steps of the node, if it is here and its reads or writes would not wait: one of a source, those of a stage or a sink until it
// waits. Returns the round with these steps, or None if the node has failed.
fn step_on<M: Machine, F: Readiness, C: StepClock>(
    nodes: &mut [Actor<M>],
    pipes: &[Link],
    node: usize,
    passed: &mut usize,
    files: &mut F,
    clock: &C,
    before: Round,
) -> Option<Round>
    requires within { node < length nodes.old }
    requires opened { (k : ℕ) → HasFile (F.shows files.old) (actor_at nodes.old k) }
    ensures steps { StepsApart M.shows (F.shows files.old)
        (F.shows files.new) nodes.old nodes.new }
    ensures sound { IsSome result → (F.shows files.new).failures ≡ (F.shows files.old).failures }
    ensures failed { result ≡ None → HasFailed nodes.new }
{
    let mut round = before;
    for again in 0..steps_in_a_row(&nodes[node]) {
        let step = step_ready(nodes, pipes, node, passed, files, clock);
        if is_failed(step) {
            return None;
        }
        round = round.with(step);
        if !matches!(step, Step::Moved) {
            return Some(round);
        }
    }
    Some(round)
}

// How many times this node steps in a round at most.
fn steps_in_a_row<M: Machine>(actor: &Actor<M>) -> usize {
    match actor {
        Actor::Source(_) => 1,
        _ => IN_A_ROW,
    }
}

impl Round {
    // Whether nothing moved, and no more nodes have ended or broken than these, which had before it.
    fn is_quiet(self, halted: usize) -> bool {
        self.moved == 0 && self.halted == halted
    }

    // The round after one step more.
    fn with(self, step: Step) -> Round {
        match step {
            Step::Moved => Round {
                moved: self.moved.saturating_add(1),
                halted: self.halted,
            },
            Step::Ended | Step::Broken => Round {
                moved: self.moved,
                halted: self.halted.saturating_add(1),
            },
            _ => self,
        }
    }
}

// A step of the node, if it is here and its read or write would not wait. Otherwise it waits, for no pipe of its own, and counts if it is a sink.
fn step_ready<M: Machine, F: Readiness, C: StepClock>(
    nodes: &mut [Actor<M>],
    pipes: &[Link],
    node: usize,
    passed: &mut usize,
    files: &mut F,
    clock: &C,
) -> Step
    requires within { node < length nodes.old }
    requires opened { (k : ℕ) → HasFile (F.shows files.old) (actor_at nodes.old k) }
    ensures steps { StepsApart M.shows (F.shows files.old)
        (F.shows files.new) nodes.old nodes.new }
    ensures sound { result ≢ answer.Failed
        → (F.shows files.new).failures ≡ (F.shows files.old).failures }
    ensures failed { result ≡ answer.Failed → HasFailed nodes.new }
{
    if is_ready(nodes, pipes, node, files) {
        step_here(nodes, node, files, clock)
    } else {
        *passed = passed.saturating_add(usize::from(is_sink(&nodes[node])));
        Step::Waits(node)
    }
}

// Whether it is a sink.
fn is_sink<M: Machine>(actor: &Actor<M>) -> bool {
    matches!(actor, Actor::Sink(_))
}

// Whether it is here, and its read or write would not wait.
fn is_ready<M: Machine, F: Readiness>(
    nodes: &[Actor<M>],
    pipes: &[Link],
    node: usize,
    files: &mut F,
) -> bool
    requires within { node < length nodes.now }
    ensures here { IsTrue result → IsHere (actor_at nodes.now node) }
    ensures same { F.shows files.new ≡ F.shows files.old }
{
    match &nodes[node] {
        Actor::Source(_) => {
            !is_ahead(nodes, pipes, node) && !would_wait(nodes, pipes, node, files)
        }
        Actor::Stage(_) => true,
        Actor::Sink(_) => !would_wait(nodes, pipes, node, files),
        Actor::Lent => false,
    }
}

// A step of a node that is here, by itself.
fn step_here<M: Machine, F: Files, C: StepClock>(
    nodes: &mut [Actor<M>],
    node: usize,
    files: &mut F,
    clock: &C,
) -> Step
    requires here { IsHere (actor_at nodes.old node) }
    requires opened { (k : ℕ) → HasFile (F.shows files.old) (actor_at nodes.old k) }
    ensures steps { StepsApart M.shows (F.shows files.old)
        (F.shows files.new) nodes.old nodes.new }
    ensures acts { StepsHere M.shows node nodes.old nodes.new (F.shows files.old)
        (F.shows files.new) result }
    ensures halted { node_state_of (part_of M.shows (F.shows files.old) (actor_at nodes.old node))
        ≢ state.Running
        → files.new ≡ files.old }
    ensures sound { result ≢ answer.Failed
        → (F.shows files.new).failures ≡ (F.shows files.old).failures }
    ensures failed { result ≡ answer.Failed → HasFailed nodes.new }
{
    act(&mut nodes[node], files, clock)
}

// Whether the node has failed.
fn is_failed(step: Step) -> bool
    ensures { IsTrue result ↔ (step ≡ answer.Failed) }
{
    matches!(step, Step::Failed)
}
