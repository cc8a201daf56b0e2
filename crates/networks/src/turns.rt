ghost use Rattle.std.specs.Prelude.{◌≡◌, ℕ, ◌+◌, ◌≤◌, ◌<◌, List, ◌∷◌, [], ◌++◌, length, map, Option, Some, None, Ok, IsTrue, IsFalse, IfOk, IfErr, IsErr, OnOk, IfSome, true, false, ◌⊎◌};
ghost use Rattle.collector.specs.Files.{FilesShown};
ghost use Rattle.graphs.specs.Graph.{Graph, writer};
ghost use Rattle.network_laws.specs.State.{Setup, State, IsFailed, node_state_of};
ghost use Rattle.network_laws.specs.Outcome.{FaultByNode};
ghost use Rattle.network_laws.specs.Steps.{progress, done_below, is_done};
ghost use Rattle.run_types.specs.declared.step.Step.TheVariants as step;
ghost use Rattle.collector.specs.Nodes.{is_failed};
ghost use Rattle.network_nodes.specs.inner.Actors.{actor_at, node_state_at};
ghost use Rattle.networks.specs.Networks.{HasOpened, IsRight, network_state, state_by, joins, rooms};
ghost use Rattle.networks.specs.Turns.{AreSteps, OutcomeIs, EndsIn, MakesRounds, HasFaulted, IsSound, IsStallOf, NamesWaits, IsNotOver, IfOver, IfFurther, IfQuiet, GrowsNext, WasQuiet, Reaches, NoneFailed, AnyFailed, IsFaultOf, AreFaultsOf, IsUntold, IsTrueSince, NoneMoved, HasMoved, run_of, input_names, output_names, waits_from};
ghost use Rattle.networks.specs.Bounds.{EndsInTime};
ghost use Rattle.networks.specs.inner.KeptNetworks.{IfRight, KeepsGrown, MakesRound, SpendsAll, EndsRounds, EndsRun};

use crate::faults::FileFaults;
use crate::network::Network;
use collector::{Files, RunFault};
use machine::{Machine, NoMemory};
use network_laws::{Outcome, RoundsSpent, Waiting};
use network_nodes::{Actor, Link};
use run_types::{NodeState, Step};
use stages::StepClock;
use std::alloc::Global;

// What a round came to: an event or the end of a node; nothing; or the end of the run.
#[derive(Debug, Drop)]
pub enum Round {
    Further,
    Quiet,
    Over(Outcome),
}

impl<M: Machine> Network<M> {
    /// Runs until the run is at its end, in at most this many rounds. In each round every node steps once. After a round in
    /// which nothing came further, a full pipe grows if one may. On a forest none ever does. If a node has failed before,
    /// nothing is stepped.
    /// After `RoundsSpent` the network can be run on. In each round there was an event, a node ended, or a pipe grew.
    /// If the call has more rounds than `most_rounds` for the contents of the sources, the run ends.
    /// The time of stages is measured by this clock.
    /// Memory for the names in faults is asked for first. If it is refused, the fault of a node that had failed before is not reported.
    pub fn run_in_turn<F: Files, C: StepClock>(
        &mut self,
        alloc: Global,
        rounds: u64,
        files: &mut F,
        clock: &C,
    ) -> Result<Outcome, RoundsSpent>
        requires opened { HasOpened self.old (F.shows files.old) }
        ensures opened { HasOpened self.new (F.shows files.new) }
        ensures keeps { KeepsGrown M.shows self.old (F.shows files.old) self.new
            (F.shows files.new) }
        ensures turns { IfRight M.shows self.old (F.shows files.old)
            (λ s. MakesRounds M.shows s rounds self.old (F.shows files.old) self.new
            (F.shows files.new)) }
        ensures outcome { IfOk result
            (EndsRun M.shows self.old (F.shows files.old) self.new (F.shows files.new)) }
        ensures ends { IfRight M.shows self.old (F.shows files.old)
            (λ s. IfOk result (λ o. IsUntold self.old o
            ⊎ EndsIn M.shows s self.new (F.shows files.new) o)) }
        ensures spent { IfErr result
            (λ _. SpendsAll M.shows rounds self.old (F.shows files.old) self.new
            (F.shows files.new)) }
        ensures total { IfRight M.shows self.old (F.shows files.old)
            (λ s. EndsInTime M.shows s rounds self.old (F.shows files.old) self.new
            (F.shows files.new) result) }
        ensures failed { AnyFailed self.old
            → HasFaulted result × (self.new ≡ self.old) × (files.new ≡ files.old) }
        ensures truly { IsTrueSince M.shows self.old (F.shows files.old) self.new
            (F.shows files.new) result }
    {
        let Ok(mut faults) = self.file_faults(alloc) else {
            return Ok(Outcome::OUT_OF_MEMORY);
        };
        self.run_in_turn_with(alloc, rounds, &mut faults, files, clock)
    }

    /// Runs as `run_in_turn` does. A fault that it returns is taken out of this list, and no memory is asked for. If the rounds are spent,
    /// the list is as it was.
    pub fn run_in_turn_with<F: Files, C: StepClock>(
        &mut self,
        alloc: Global,
        rounds: u64,
        faults: &mut FileFaults,
        files: &mut F,
        clock: &C,
    ) -> Result<Outcome, RoundsSpent>
        requires opened { HasOpened self.old (F.shows files.old) }
        requires faults { AreFaultsOf self.old.nodes faults.old }
        ensures opened { HasOpened self.new (F.shows files.new) }
        ensures keeps { KeepsGrown M.shows self.old (F.shows files.old) self.new
            (F.shows files.new) }
        ensures turns { IfRight M.shows self.old (F.shows files.old)
            (λ s. MakesRounds M.shows s rounds self.old (F.shows files.old) self.new
            (F.shows files.new)) }
        ensures outcome { IfOk result
            (EndsRun M.shows self.old (F.shows files.old) self.new (F.shows files.new)) }
        ensures ends { IfRight M.shows self.old (F.shows files.old)
            (λ s. IfOk result (EndsIn M.shows s self.new (F.shows files.new))) }
        ensures spent { IfErr result
            (λ _. SpendsAll M.shows rounds self.old (F.shows files.old) self.new
            (F.shows files.new)) }
        ensures total { IfRight M.shows self.old (F.shows files.old)
            (λ s. EndsInTime M.shows s rounds self.old (F.shows files.old) self.new
            (F.shows files.new) result) }
        ensures failed { AnyFailed self.old
            → HasFaulted result × (self.new ≡ self.old) × (files.new ≡ files.old) }
        ensures truly { IsTrueSince M.shows self.old (F.shows files.old) self.new
            (F.shows files.new) result }
        ensures kept { IsErr result → faults.new ≡ faults.old }
    {
        if let Some(fault) = self.fault(faults) {
            return Ok(Outcome::Faulted { fault });
        }
        let Ok(mut answers) = vec![in alloc; Step::Ended; self.parts.nodes.len()] else {
            return Ok(Outcome::OUT_OF_MEMORY);
        };
        self.run_rounds(alloc, rounds, answers.as_mut_slice(), faults, files, clock)
    }

    // Runs in rounds. The results of each are written to `answers`.
    fn run_rounds<F: Files, C: StepClock>(
        &mut self,
        alloc: Global,
        rounds: u64,
        answers: &mut [Step],
        faults: &mut FileFaults,
        files: &mut F,
        clock: &C,
    ) -> Result<Outcome, RoundsSpent>
        requires opened { HasOpened self.old (F.shows files.old) }
        requires answers { length answers.old ≡ length self.old.nodes }
        requires faults { AreFaultsOf self.old.nodes faults.old }
        requires unfailed { NoneFailed self.old }
        ensures opened { HasOpened self.new (F.shows files.new) }
        ensures keeps { KeepsGrown M.shows self.old (F.shows files.old) self.new
            (F.shows files.new) }
        ensures turns { IfRight M.shows self.old (F.shows files.old)
            (λ s. MakesRounds M.shows s rounds self.old (F.shows files.old) self.new
            (F.shows files.new)) }
        ensures outcome { IfOk result
            (EndsRounds M.shows self.old (F.shows files.old) self.new (F.shows files.new)) }
        ensures spent { IfErr result
            (λ _. SpendsAll M.shows rounds self.old (F.shows files.old) self.new
            (F.shows files.new)) }
        ensures kept { IsErr result → faults.new ≡ faults.old }
    {
        let mut spent = 0;
        while spent < rounds {
            if let Some(outcome) = self.round(alloc, answers, faults, files, clock) {
                return Ok(outcome);
            }
            spent += 1;
        }
        Err(RoundsSpent)
    }

    // One round: every node steps once, and a full pipe may grow. The result is the run's outcome, if it is at its end.
    fn round<F: Files, C: StepClock>(
        &mut self,
        alloc: Global,
        answers: &mut [Step],
        faults: &mut FileFaults,
        files: &mut F,
        clock: &C,
    ) -> Option<Outcome>
        requires opened { HasOpened self.old (F.shows files.old) }
        requires answers { length answers.old ≡ length self.old.nodes }
        requires faults { AreFaultsOf self.old.nodes faults.old }
        requires unfailed { NoneFailed self.old }
        ensures opened { HasOpened self.new (F.shows files.new) }
        ensures answers { length answers.new ≡ length self.new.nodes }
        ensures round { MakesRound M.shows self.old (F.shows files.old) self.new
            (F.shows files.new) }
        ensures outcome { IfSome result
            (EndsRounds M.shows self.old (F.shows files.old) self.new (F.shows files.new)) }
        ensures further { result ≡ None
            → SpendsAll M.shows 1 self.old (F.shows files.old) self.new
            (F.shows files.new) }
        ensures kept { result ≡ None → faults.new ≡ faults.old }
    {
        let done = self.done();
        self.step_each(answers, files, clock);
        match self.decide(faults, done, answers) {
            Round::Quiet => self.grow_or_stall(alloc, answers, files),
            Round::Further => None,
            Round::Over(outcome) => Some(outcome),
        }
    }

    // The result of a round with these results of steps. Before it, `done` nodes had ended or
    // broken.
    fn decide(&self, faults: &mut FileFaults, done: usize, answers: &[Step]) -> Round
        requires answers { length answers.now ≡ length self.now.nodes }
        requires faults { AreFaultsOf self.now.nodes faults.old }
        ensures unfailed { IsNotOver result → NoneFailed self.now }
        ensures sound { IfOver result (λ outcome. IsSound outcome → NoneFailed self.now) }
        ensures further { (s : Setup) (files : FilesShown) (old : State) (failed : ℕ)
            → IsRight M.shows s self.now files
            → AreSteps s 0 old
            (network_state M.shows self.now files) failed files.failures answers.now
            → done ≡ done_below (length self.now.nodes) old
            → IfFurther result
            (progress s.graph old < progress s.graph (network_state M.shows self.now files)) }
        ensures quiet { (files : FilesShown) (old : State)
            → done ≡ done_below (length self.now.nodes) old
            → IfQuiet result
            (WasQuiet (length self.now.nodes) old (network_state M.shows self.now files) answers.now) }
        ensures outcome { (s : Setup) (files : FilesShown) (old : State) (failed before : ℕ)
            (began : List FaultByNode)
            → IsRight M.shows s self.now files
            → AreSteps s 0 old
            (network_state M.shows self.now files) failed files.failures answers.now
            → done ≡ done_below (length self.now.nodes) old
            → ((k : ℕ) → k < length self.now.nodes → IsFailed (node_state_of (old.part k)) → ⊥)
            → Reaches before failed
            → IfOver result
            (OutcomeIs s (rooms self.now) (run_of self.now files before began)
            (input_names self.now) (output_names self.now)) }
        ensures ends { (s : Setup) (files : FilesShown)
            → IfOver result (EndsIn M.shows s self.now files) }
        ensures kept { IsNotOver result → faults.new ≡ faults.old }
    {
        if let Some(fault) = self.fault(faults) {
            return Round::Over(Outcome::Faulted { fault });
        }
        let done_now = self.done();
        if done_now == self.parts.nodes.len() {
            return Round::Over(Outcome::Finished {
                status: self.parts.status,
            });
        }
        if comes_further(done, done_now, answers) {
            Round::Further
        } else {
            Round::Quiet
        }
    }

    // The next full pipe grows, if one may. It is counted, and the files are notified. If none may, the run has stalled.
    // The answers are those of the last round, in which nothing moved.
    fn grow_or_stall<F: Files>(
        &mut self,
        alloc: Global,
        answers: &[Step],
        files: &mut F,
    ) -> Option<Outcome>
        requires quiet { NoneMoved answers.now }
        ensures files { F.shows files.new ≡ F.shows files.old }
        ensures kept { IfSome result (λ _. self.new ≡ self.old) }
        ensures grew { result ≡ None → GrowsNext M.shows self.old self.new }
        ensures stalled { (s : Setup) (files : FilesShown) → IsRight M.shows s self.old files
            → IfSome result (IsStallOf s (network_state M.shows self.old files) answers.now) }
        ensures right { (s : Setup) (files : FilesShown)
            → IsRight M.shows s self.old files → IsRight M.shows s self.new files }
        ensures opened { (files : FilesShown)
            → HasOpened self.old files → HasOpened self.new files }
    {
        match self.grow(alloc) {
            Ok(Some(pipe)) => {
                files.note_growth(pipe, self.capacity(pipe));
                self.count_growth();
                None
            }
            Ok(None) => Some(stalled(alloc, &self.parts.pipes, answers)),
            Err(NoMemory) => Some(Outcome::OUT_OF_MEMORY),
        }
    }

    // How many nodes have ended or broken.
    pub(crate) fn done(&self) -> usize
        ensures { (files : FilesShown)
            → result ≡ done_below (length self.now.nodes) (network_state M.shows self.now files) }
    {
        done_of(&self.parts.nodes)
    }

    // Why a node has failed, if one has.
    fn fault(&self, faults: &mut FileFaults) -> Option<RunFault>
        requires { AreFaultsOf self.now.nodes faults.old }
        ensures none { result ≡ None → NoneFailed self.now }
        ensures some { IfSome result (IsFaultOf self.now.nodes) }
        ensures kept { result ≡ None → faults.new ≡ faults.old }
    {
        fault_of(&self.parts.nodes, faults)
    }
}

// How many of these nodes have ended or broken.
fn done_of<M: Machine>(nodes: &[Actor<M>]) -> usize
    ensures { (pipes : List Link) (files : FilesShown)
        → result ≡ done_below (length nodes.now) (state_by M.shows nodes.now pipes files) }
{
    let mut done = 0;
    for node in 0..nodes.len() {
        done += usize::from(is_done(nodes[node].state()));
    }
    done
}

// Why one of these nodes has failed, if one has.
fn fault_of<M: Machine>(nodes: &[Actor<M>], faults: &mut FileFaults) -> Option<RunFault>
    requires { AreFaultsOf nodes.now faults.old }
    ensures none { result ≡ None → (k : ℕ) → k < length nodes.now
        → IsFailed (node_state_at (actor_at nodes.now k)) → ⊥ }
    ensures some { IfSome result (IsFaultOf nodes.now) }
    ensures kept { result ≡ None → faults.new ≡ faults.old }
{
    for node in 0..nodes.len() {
        let actor = &nodes[node];
        if is_failed(actor.state()) {
            return Some(faults.take(actor, node));
        }
    }
    None
}

// Whether a node of this state has ended or broken.
fn is_done(state: NodeState) -> bool
    ensures { result ≡ is_done state }
{
    matches!(state, NodeState::Ended | NodeState::Broken)
}

// Whether a node of this state has failed.
fn is_failed(state: NodeState) -> bool
    ensures { result ≡ is_failed state }
{
    matches!(state, NodeState::Failed(_))
}

// Whether a round came further: more nodes have ended or broken after it, or a step of it moved something.
fn comes_further(done: usize, done_now: usize, answers: &[Step]) -> bool
    ensures further { IsTrue result → (done < done_now) ⊎ HasMoved answers.now }
    ensures quiet { IsFalse result → (done_now ≤ done) × NoneMoved answers.now }
{
    done < done_now || is_any_moved(answers)
}

// Whether one of these steps moved something.
fn is_any_moved(answers: &[Step]) -> bool
    ensures moved { IsTrue result → HasMoved answers.now }
    ensures quiet { IsFalse result → NoneMoved answers.now }
{
    for answer in answers {
        if answer.has_moved() {
            return true;
        }
    }
    false
}

// The outcome of a run that has stalled, after a round with these results.
fn stalled(alloc: Global, pipes: &[Link], answers: &[Step]) -> Outcome
    ensures { (g : Graph) → map joins pipes.now ≡ g.pipes → NamesWaits g answers.now result }
{
    match waits_of(alloc, pipes, answers) {
        Ok(waits) => Outcome::Stalled { waits },
        Err(NoMemory) => Outcome::OUT_OF_MEMORY,
    }
}

// The waits that the steps of the nodes returned.
fn waits_of(alloc: Global, pipes: &[Link], answers: &[Step]) -> Result<Vec<Waiting>, NoMemory>
    ensures { (g : Graph) → map joins pipes.now ≡ g.pipes
        → IfOk result (λ waits. waits.items ≡ waits_from g 0 answers.now) }
{
    let mut waits = Vec::new(alloc);
    let mut node = 0;
    for answer in answers {
        note(&mut waits, pipes, node, answer)?;
        node += 1;
    }
    Ok(waits)
}

// Adds the wait that a step of this node returned, if it returned one.
fn note(
    waits: &mut Vec<Waiting>,
    pipes: &[Link],
    node: usize,
    answer: &Step,
) -> Result<(), NoMemory>
    ensures { (g : Graph) → map joins pipes.now ≡ g.pipes
        → OnOk result (waits.new.items ≡ waits.old.items ++ waits_from g node (answer.now ∷ [])) }
{
    if let Step::Waits(pipe) = *answer {
        waits.push(Waiting {
            node,
            pipe,
            full: writer_of(pipes, pipe) == node,
        })?;
    }
    Ok(())
}

// The node that writes a pipe, by the pipe's number.
fn writer_of(pipes: &[Link], pipe: usize) -> usize
    ensures { (g : Graph) → map joins pipes.now ≡ g.pipes → result ≡ writer g pipe }
{
    match pipes.get(pipe) {
        Some(link) => link.writer,
        None => 0,
    }
}
