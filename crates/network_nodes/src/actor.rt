ghost use Rattle.std.specs.Prelude.{◌≡◌, ◌<◌, ◌≤◌, true, length, IfOk, OnOk, IsErr};
ghost use Rattle.bounded_pipe.specs.Ends.{AreEnds, Beside};
ghost use Rattle.collector.specs.Nodes.{is_failed};
ghost use Rattle.network_nodes.specs.inner.Actors.{outs_of, ins_of, out_end, in_end, HasEnds, LooksAt, GrowsAt, out_at, file_fault, IsFaultAt, node_state_at, ChangesOut, ChangesIn};
ghost use Rattle.bounded_pipe.specs.Events.{SameWriting, StillWriting, SameReading, StillReading};
ghost use Rattle.collector.specs.declared.fault.RunFault.TheVariants as RunFault;

use bounded_pipe::{Amounts, PipeIn, PipeOut, beside, regrow};
use collector::{RunFault, Sink, Source};
use machine::{Machine, NoMemory};
use run_types::{NodeFault, NodeState};
use stages::Stage;
use std::alloc::Global;

/// A node with its own pipe ends, or the free place of a stage that is lent.
#[derive(Drop)]
pub enum Actor<M: Machine> {
    Source(Source),
    Stage(Stage<M>),
    Sink(Sink),
    Lent,
}

/// The two ends of a pipe: the node that writes it, and its branch; the node that reads it, and its
/// input.
#[derive(Clone, Copy, Debug, PartialEq, Eq)]
pub struct Link {
    pub writer: usize,
    pub branch: usize,
    pub reader: usize,
    pub input: usize,
}

impl<M: Machine> Actor<M> {
    ghost use Rattle.std.specs.Borrow.{sem};
    ghost use Rattle.network_nodes.specs.inner.LentEnds.{LendsOut, LendsIn};

    /// How it is doing.
    pub fn state(&self) -> NodeState
        ensures { result ≡ node_state_at self.now }
    {
        match self {
            Actor::Source(source) => source.state(),
            Actor::Stage(stage) => stage.state(),
            Actor::Sink(sink) => sink.state(),
            Actor::Lent => NodeState::Running,
        }
    }

    /// The fault that it may have for its file, if it has one with a name.
    pub fn file_fault(&self, alloc: Global) -> Result<Option<RunFault>, NoMemory>
        ensures { IfOk result (λ fault. fault ≡ file_fault self.now) }
    {
        match self {
            Actor::Source(source) => match source.name() {
                Some(name) => Ok(Some(RunFault::ReadFault(name.copied(alloc)?))),
                None => Ok(None),
            },
            Actor::Sink(sink) => Ok(Some(RunFault::WriteFault(sink.name().copied(alloc)?))),
            _ => Ok(None),
        }
    }

    /// Why it has failed. It has this number, and `file` is the fault of its file. This asks for no memory.
    pub fn fault(&self, node: usize, file: Option<RunFault>) -> RunFault
        requires failed { is_failed (node_state_at self.now) ≡ true }
        requires file { file ≡ file_fault self.now }
        ensures { IsFaultAt node self.now result }
    {
        match self {
            Actor::Source(source) => match (source.fault(), file) {
                (Some(RunFault::ReadFault(_)), Some(fault)) => fault,
                _ => RunFault::NoMemory,
            },
            Actor::Stage(stage) => match stage.state() {
                NodeState::Failed(NodeFault::CountTooLarge) => RunFault::CountTooLarge(node),
                _ => RunFault::NoMemory,
            },
            Actor::Sink(sink) => match (sink.fault(), file) {
                (Some(_), Some(fault)) => fault,
                _ => unreachable!(),
            },
            Actor::Lent => unreachable!(),
        }
    }

    /// How much it has put on the pipe of one branch: a source has one alone, and a sink none.
    pub fn amounts(&self, branch: usize) -> Amounts {
        match self {
            Actor::Source(source) => source.amounts(),
            Actor::Stage(stage) => stage.amounts(branch),
            Actor::Sink(_) => Amounts::NONE,
            Actor::Lent => Amounts::NONE,
        }
    }

    /// How many nanoseconds its steps took, as far as they were measured: those of a stage alone are.
    pub fn time(&self) -> u64 {
        match self {
            Actor::Stage(stage) => stage.time(),
            _ => 0,
        }
    }

    // Lends the end of one branch, for writing.
    fn writing(&mut self, branch: usize) -> &mut PipeOut
        requires { branch < length (outs_of self.old) }
        ensures* lends { sem 𝓛 (LendsOut M.row M.Machine self.entry branch result) }
        ensures value { result.now ≡ out_end self.old branch }
    {
        match self {
            Actor::Source(source) => source.pipe_end(),
            Actor::Stage(stage) => stage.pipe_out(branch),
            Actor::Sink(_) => unreachable!(),
            Actor::Lent => unreachable!(),
        }
    }

    // Lends the end of one input, for writing.
    fn reading(&mut self, input: usize) -> &mut PipeIn
        requires { input < length (ins_of self.old) }
        ensures* lends { sem 𝓛 (LendsIn M.row M.Machine self.entry input result) }
        ensures value { result.now ≡ in_end self.old input }
    {
        match self {
            Actor::Source(_) => unreachable!(),
            Actor::Stage(stage) => stage.pipe_in(input),
            Actor::Sink(sink) => sink.pipe_end(),
            Actor::Lent => unreachable!(),
        }
    }
}

// Looks at a branch of one node that is an input of the other from both sides.
fn look_between<M: Machine>(
    writer: &mut Actor<M>,
    branch: usize,
    reader: &mut Actor<M>,
    input: usize,
)
    requires branch { branch < length (outs_of writer.old) }
    requires input { input < length (ins_of reader.old) }
    requires ends { AreEnds (out_end writer.old branch) (in_end reader.old input) }
    ensures writer { ChangesOut SameWriting branch writer.old writer.new }
    ensures reader { ChangesIn SameReading input reader.old reader.new }
    ensures beside { Beside (out_end writer.new branch) (in_end reader.new input) }
{
    let between = beside(writer.writing(branch), reader.reading(input));
    if let Actor::Source(source) = writer {
        source.note_between(between);
    }
}

/// Looks at a pipe from both sides.
pub fn look_at<M: Machine>(nodes: &mut [Actor<M>], link: Link)
    requires { HasEnds link nodes.old }
    ensures { LooksAt link nodes.old nodes.new }
{
    let (before, after) = nodes.split_at_mut(link.reader);
    look_between(
        &mut before[link.writer],
        link.branch,
        &mut after[0],
        link.input,
    );
}

// Gives room for `capacity` items to a branch of one node that is an input of the other. A refusal changes nothing.
fn regrow_between<M: Machine>(
    alloc: Global,
    writer: &mut Actor<M>,
    branch: usize,
    reader: &mut Actor<M>,
    input: usize,
    capacity: usize,
) -> Result<(), NoMemory>
    requires within { (branch < length (outs_of writer.old)) × (input < length (ins_of reader.old)) }
    requires ends { AreEnds (out_end writer.old branch) (in_end reader.old input) }
    requires room { ((out_end writer.old branch).capacity ≤ capacity) × (capacity ≤ 4096) }
    ensures writer { OnOk result (ChangesOut StillWriting branch writer.old writer.new) }
    ensures reader { OnOk result (ChangesIn StillReading input reader.old reader.new) }
    ensures room { OnOk result ((out_end writer.new branch).capacity ≡ capacity) }
    ensures beside { OnOk result (Beside (out_end writer.new branch) (in_end reader.new input)) }
    ensures refused { IsErr result → (writer.new ≡ writer.old) × (reader.new ≡ reader.old) }
{
    regrow(
        alloc,
        writer.writing(branch),
        reader.reading(input),
        capacity,
    )
}

/// Gives a pipe room for `capacity` items, no fewer than it had. A refusal changes nothing.
pub fn regrow_at<M: Machine>(
    alloc: Global,
    nodes: &mut [Actor<M>],
    link: Link,
    capacity: usize,
) -> Result<(), NoMemory>
    requires ends { HasEnds link nodes.old }
    requires room { ((out_at nodes.old link).capacity ≤ capacity) × (capacity ≤ 4096) }
    ensures grows { OnOk result (GrowsAt capacity link nodes.old nodes.new) }
    ensures refused { IsErr result → nodes.new ≡ nodes.old }
{
    let (before, after) = nodes.split_at_mut(link.reader);
    regrow_between(
        alloc,
        &mut before[link.writer],
        link.branch,
        &mut after[0],
        link.input,
        capacity,
    )
}
