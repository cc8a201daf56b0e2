ghost use Rattle.std.specs.Prelude.{◌≡◌, ℕ, IfOk, is_none};
ghost use Rattle.graphs.specs.Graph.{node_at, writer};
ghost use Rattle.planner.specs.Planned.{graph_of};
ghost use Rattle.network_laws.specs.Sequential.{is_missing, negated};
ghost use Rattle.network_laws.specs.State.{presence_of};
ghost use Rattle.networks.specs.Networks.{setup_status, told_status};
ghost use Rattle.openings.specs.Answers.{own_file};
ghost use Rattle.step_scheduler.specs.inner.Nodes.{presences_of};
ghost use Rattle.step_scheduler.specs.Setups.{setup_of};

use machine::{NoMemory, Presence, status};
use openings::Opened;
use planner::{Node, Plan};
use std::alloc::Global;

// For each of these inputs of a stage, whether it is there. The stage's machine is made with this.
pub(crate) fn presences_of(
    alloc: Global,
    plan: &Plan,
    opened: &Opened,
    inputs: &[usize],
) -> Result<Vec<Presence>, NoMemory>
    ensures { IfOk result
        (λ presences. presences.items ≡ presences_of plan.now opened.now inputs.now) }
{
    let mut presences = Vec::new(alloc);
    for pipe in inputs {
        presences.push(presence(plan, opened, *pipe))?;
    }
    Ok(presences)
}

// Whether the input that reads this pipe is there: its source is not missing.
fn presence(plan: &Plan, opened: &Opened, pipe: usize) -> Presence
    ensures { result
        ≡ presence_of
        (is_missing (graph_of plan.now)
        (λ k. is_none (own_file opened.now k)) (writer (graph_of plan.now) pipe)) }
{
    let writer = writer_of(plan, pipe);
    match plan.order().get(writer) {
        Some(Node::Source(Some(_))) if opened.file(writer).is_none() => Presence::Missing,
        _ => Presence::Present,
    }
}

// The node that writes a pipe.
fn writer_of(plan: &Plan, pipe: usize) -> usize
    ensures { result ≡ writer (graph_of plan.now) pipe }
{
    match plan.pipes().get(pipe) {
        Some(ends) => ends.0,
        None => 0,
    }
}

// The exit status of a run of the plan that finishes.
pub(crate) fn exit_status(alloc: Global, plan: &Plan, opened: &Opened) -> Result<u8, NoMemory>
    ensures { (most limit block : ℕ)
        → IfOk result
        (λ status. status ≡ setup_status (setup_of plan.now opened.now most limit block)) }
{
    let (node, negate) = plan.result();
    let status = node_status(alloc, plan, opened, node)?;
    Ok(negated(negate, status))
}

// The exit status of the node with this number.
fn node_status(alloc: Global, plan: &Plan, opened: &Opened, node: usize) -> Result<u8, NoMemory>
    ensures { (most limit block : ℕ)
        → IfOk result
        (λ status. status
        ≡ told_status (setup_of plan.now opened.now most limit block)
        (node_at (graph_of plan.now) node)) }
{
    match plan.order().get(node) {
        Some(Node::Stage { inputs, .. }) => {
            let presences = presences_of(alloc, plan, opened, inputs.as_slice())?;
            Ok(status(presences.as_slice()))
        }
        _ => Ok(0),
    }
}

// A status under `!`, or without it.
fn negated(negate: bool, status: u8) -> u8
    ensures { result ≡ negated negate status }
{
    match (negate, status) {
        (false, _) => status,
        (true, 0) => 1,
        (true, _) => 0,
    }
}
