// Which full pipe a node waits for, as a look at the network tells.
ghost use Rattle.std.specs.Prelude.{◌≡◌, ◌<◌, ◌↔◌, ℕ, length, IsTrue, IfSome, Some, is_none};
ghost use Rattle.machine.specs.Whole.{StreamAnswer};
ghost use Rattle.collector.specs.Files.{FilesShown};
ghost use Rattle.collector.specs.Nodes.{SourceFits, source_part, read_by};
ghost use Rattle.run_types.specs.declared.node_state.NodeState.TheVariants as state;
ghost use Rattle.stages.specs.Owed.{owed_size};
ghost use Rattle.stages.specs.inner.Steps.{InCase, part};
ghost use Rattle.network_laws.specs.State.{Setup};
ghost use Rattle.network_laws.specs.Waits.{owed_to, StageWaitsFull};
ghost use Rattle.network_nodes.specs.inner.Actors.{actor_at};
ghost use Rattle.network_nodes.specs.declared.actor.Actor.TheVariants as an;
ghost use Rattle.networks.specs.Networks.{Networked, AreWired, AreBeside, IsRight, state_by};
ghost use Rattle.networks.specs.NodeWaits.{IsFirstOfFull, IsSourceWait, WaitsFull};

use collector::Source;
use machine::Machine;
use network_nodes::{Actor, Link, is_full_at};
use run_types::NodeState;
use stages::Stage;

// Whether a node in this state runs.
fn runs(now: NodeState) -> bool
    ensures { IsTrue result ↔ (now ≡ state.Running) }
{
    matches!(now, NodeState::Running)
}

// The pipe of a source, the node with this number, if it owes an item to it and it is full.
fn source_wait<M: Machine>(
    nodes: &[Actor<M>],
    pipes: &[Link],
    node: usize,
    source: &Source,
) -> Option<usize>
    requires within { node < length nodes.now }
    requires here { actor_at nodes.now node ≡ an.Source source.now }
    requires wired { AreWired nodes.now pipes.now }
    requires beside { AreBeside nodes.now pipes.now }
    ensures within { IfSome result (λ p. p < length pipes.now) }
    ensures full { (files : FilesShown) (p : ℕ)
        → SourceFits (read_by files source.now.file) source.now
        → source.now.state ≡ state.Running
        → (result ≡ Some p) ↔ IsSourceWait (state_by M.shows nodes.now pipes.now files)
        (is_none source.now.file) (source_part (read_by files source.now.file).bytes source.now)
        source.now.pipe p }
{
    let size = source.owed()?;
    let pipe = source.pipe();
    if is_full_at(nodes, pipes[pipe], size) {
        Some(pipe)
    } else {
        None
    }
}

// The first of the pipes to which a stage, the node with this number, owes an item, if each of them is full.
pub(crate) fn stage_wait<M: Machine>(
    nodes: &[Actor<M>],
    pipes: &[Link],
    node: usize,
    stage: &Stage<M>,
) -> Option<usize>
    requires within { node < length nodes.now }
    requires here { actor_at nodes.now node ≡ an.Stage stage.now }
    requires wired { AreWired nodes.now pipes.now }
    requires beside { AreBeside nodes.now pipes.now }
    ensures within { IfSome result (λ p. p < length pipes.now) }
    ensures full { (files : FilesShown) (answer : StreamAnswer) → InCase M.shows answer stage.now
        → stage.now.state ≡ state.Running
        → (let st = state_by M.shows nodes.now pipes.now files in let x = part M.shows stage.now
        in IsFirstOfFull st (owed_size x)
        (owed_to st x stage.now.outlet.pipes stage.now.outlet.served) result) }
{
    let size = stage.owed_size();
    let mut first = None;
    for branch in 0..stage.branch_count() {
        if stage.owes(branch) {
            let pipe = stage.branch_pipe(branch);
            if !is_full_at(nodes, pipes[pipe], size) {
                return None;
            }
            first = first.or(Some(pipe));
        }
    }
    first
}

// The same, unless the stage has yet to hang up its inputs.
fn ready_wait<M: Machine>(
    nodes: &[Actor<M>],
    pipes: &[Link],
    node: usize,
    stage: &Stage<M>,
) -> Option<usize>
    requires within { node < length nodes.now }
    requires here { actor_at nodes.now node ≡ an.Stage stage.now }
    requires wired { AreWired nodes.now pipes.now }
    requires beside { AreBeside nodes.now pipes.now }
    ensures within { IfSome result (λ p. p < length pipes.now) }
    ensures full { (files : FilesShown) (answer : StreamAnswer) (p : ℕ)
        → InCase M.shows answer stage.now → stage.now.state ≡ state.Running
        → (result ≡ Some p) ↔ StageWaitsFull (state_by M.shows nodes.now pipes.now files)
        (part M.shows stage.now) stage.now.outlet.pipes p }
{
    if !stage.may_wait() {
        return None;
    }
    stage_wait(nodes, pipes, node, stage)
}

// The full pipe that the node with this number waits for, if it waits for one.
pub(crate) fn node_wait<M: Machine>(
    nodes: &[Actor<M>],
    pipes: &[Link],
    node: usize,
) -> Option<usize>
    requires within { node < length nodes.now }
    requires wired { AreWired nodes.now pipes.now }
    requires beside { AreBeside nodes.now pipes.now }
    ensures within { IfSome result (λ p. p < length pipes.now) }
    ensures full { (s : Setup) (files : FilesShown) (n : Networked M) (p : ℕ)
        → n.nodes ≡ nodes.now → n.pipes ≡ pipes.now → IsRight M.shows s n files
        → (result ≡ Some p) ↔ WaitsFull s (state_by M.shows nodes.now pipes.now files) node p }
{
    let actor = &nodes[node];
    if !runs(actor.state()) {
        return None;
    }
    match actor {
        Actor::Source(source) => source_wait(nodes, pipes, node, source),
        Actor::Stage(stage) => ready_wait(nodes, pipes, node, stage),
        Actor::Sink(_) => None,
        Actor::Lent => None,
    }
}
