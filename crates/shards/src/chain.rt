ghost use Rattle.std.specs.Prelude.{◌≡◌, ℕ, suc, ◌+◌, ◌<◌, ◌^◌, ◌↔◌, IsTrue, IfSome, IfNone, length, List};
ghost use Rattle.commands.specs.declared.spec.FilterSpec.{FilterSpec as FilterShown};
ghost use Rattle.run_types.specs.declared.names.InName.{InName as InShown};
ghost use Rattle.run_types.specs.declared.names.OutName.{OutName as OutShown};
ghost use Rattle.planner.specs.declared.plan.Node.{Node as NodeShown};
ghost use Rattle.shards.specs.Chains.{IsChain, chained, filters_of, joints};
ghost use Rattle.shards.specs.inner.Links.{HasEnds, IsChained, IsLink};

use planner::{Node, Plan};
use run_types::{InName, OutName};

/// A plan that is a chain: its input, its stages in order, and its output.
#[derive(Clone, Copy)]
pub struct Chain<'a> {
    pub from: &'a InName,
    /// The nodes of the stages.
    pub stages: &'a [Node],
    pub to: &'a OutName,
}

/// The chain that a plan is, if it is one: one input, stages of which each reads what the one before it writes, and one output, without `!`.
pub fn chain_of<'a>(plan: &'a Plan) -> Option<Chain<'a>>
    ensures chain { IfSome result
        (λ c. IsChain plan.now c.from.now (filters_of c.stages.now) c.to.now) }
    ensures stages { IfSome result (λ c. c.stages.now ≡ chained 0 (filters_of c.stages.now)) }
    ensures none { IfNone result ((from : InShown) (filters : List FilterShown) (to : OutShown)
        → IsChain plan.now from filters to → ⊥) }
{
    let chain = ends_of(plan.order())?;
    if is_chained(plan, chain.stages) {
        Some(chain)
    } else {
        None
    }
}

// The source, the sink and the nodes between them, if these are the nodes of a plan.
fn ends_of<'a>(nodes: &'a [Node]) -> Option<Chain<'a>>
    ensures ends { IfSome result (λ c. HasEnds nodes.now c.from.now c.stages.now c.to.now) }
    ensures none { IfNone result ((from : InShown) (stages : List NodeShown) (to : OutShown)
        → HasEnds nodes.now from stages to → ⊥) }
{
    let [Node::Source(Some(from)), nodes @ ..] = nodes else {
        return None;
    };
    match nodes {
        [stages @ .., Node::Sink(to)] => Some(Chain { from, stages, to }),
        _ => None,
    }
}

// Whether the nodes between the source and the sink of a plan are a chain of stages, and it opens no other file.
fn is_chained(plan: &Plan, stages: &[Node]) -> bool
    ensures { IsTrue result ↔ IsChained plan.now stages.now }
{
    if !are_chained(stages, 0) {
        return false;
    }
    if !has_joints(plan.pipes(), stages.len()) {
        return false;
    }
    if plan.inputs().len() != 1 {
        return false;
    }
    if plan.outputs().len() != 1 {
        return false;
    }
    plan.result() == (stages.len(), false)
}

// Whether the pipes are those of a chain of this many stages.
fn has_joints(pipes: &[(usize, usize)], stages: usize) -> bool
    ensures { IsTrue result ↔ (pipes.now ≡ joints 0 (suc stages)) }
{
    let count = pipes.len();
    if count <= stages {
        return false;
    }
    if count - stages != 1 {
        return false;
    }
    are_joints(pipes, 0)
}

// Whether these are stages after this many others, each of which reads the pipe of the node before it and writes one pipe to the next.
fn are_chained(nodes: &[Node], before: usize) -> bool
    requires { before + length nodes.now < 2 ^ 63 }
    ensures { IsTrue result ↔ (nodes.now ≡ chained before (filters_of nodes.now)) }
{
    match nodes {
        [] => true,
        [node, nodes @ ..] => is_link(node, before) && are_chained(nodes, before + 1),
    }
}

// Whether this is the stage after this many others, which reads the pipe of the node before it and writes one to the next.
fn is_link(node: &Node, before: usize) -> bool
    requires { before < 2 ^ 63 }
    ensures { IsTrue result ↔ IsLink before node.now }
{
    let Node::Stage {
        number,
        inputs,
        branches,
        ..
    } = node
    else {
        return false;
    };
    let reads = matches!(inputs.as_slice(), [pipe] if *pipe == before);
    let writes = matches!(branches.as_slice(), [Some(pipe)] if *pipe == before + 1);
    *number == before + 1 && reads && writes
}

// Whether each of these pipes leads from a node to the next, the first one from this node.
fn are_joints(pipes: &[(usize, usize)], node: usize) -> bool
    requires { node + length pipes.now < 2 ^ 63 }
    ensures { IsTrue result ↔ (pipes.now ≡ joints node (length pipes.now)) }
{
    match pipes {
        [] => true,
        [(writer, reader), pipes @ ..] => {
            *writer == node && *reader == node + 1 && are_joints(pipes, node + 1)
        }
    }
}
