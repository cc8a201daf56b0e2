// The end of a run that failed: what its sinks have handed over is waited for.
ghost use Rattle.std.specs.Prelude.{◌≡◌, []};
ghost use Rattle.networks.specs.Turns.{IsSound, out_by};
ghost use Rattle.step_scheduler.specs.Setups.{output_file};
ghost use Rattle.plan_runs.specs.Runs.{IsSettled, SettlesPlan};
ghost use Rattle.plan_runs.specs.inner.Settled.{SettlesFile};

use collector::{Files, IoFailed};
use network_laws::Outcome;
use openings::Opened;
use planner::{Node, Plan};

// If the run has met a fault, waits until all that the sinks of its plan have handed over is written, or a write of it failed. Otherwise nothing
// is out.
pub(crate) fn settle_failed<F: Files>(
    plan: &Plan,
    opened: &Opened,
    outcome: &Outcome,
    files: &mut F,
)
    ensures settles { SettlesPlan plan.now opened.now (F.shows files.old) (F.shows files.new) }
    ensures sound { IsSound outcome.now → files.new ≡ files.old }
    ensures settled { IsSound outcome.now → IsSettled plan.now opened.now (F.shows files.old)
        → IsSettled plan.now opened.now (F.shows files.new) }
    ensures failed { (IsSound outcome.now → ⊥) → IsSettled plan.now opened.now (F.shows files.new) }
{
    if let Outcome::Faulted { fault: _ } = outcome {
        settle_outputs(plan, opened, files);
    }
}

// Waits until all that the sinks of a plan have handed over is written, or a write of it failed.
fn settle_outputs<F: Files>(plan: &Plan, opened: &Opened, files: &mut F)
    ensures settles { SettlesPlan plan.now opened.now (F.shows files.old) (F.shows files.new) }
    ensures settled { IsSettled plan.now opened.now (F.shows files.new) }
{
    for node in 0..plan.order().len() {
        settle_node(plan, opened, node, files);
    }
}

// Waits until all that this node has handed over is written, or a write of it failed, if it is a sink.
fn settle_node<F: Files>(plan: &Plan, opened: &Opened, node: usize, files: &mut F)
    ensures settles { SettlesPlan plan.now opened.now (F.shows files.old) (F.shows files.new) }
    ensures settled { out_by (F.shows files.new) (output_file plan.now opened.now node) ≡ [] }
{
    let Some(file) = output_of(plan, opened, node) else {
        return;
    };
    settle_file(file, files);
}

// The file of the node with this number, if it is a sink.
fn output_of(plan: &Plan, opened: &Opened, node: usize) -> Option<usize>
    ensures { result ≡ output_file plan.now opened.now node }
{
    match plan.order().get(node) {
        Some(Node::Sink(_)) => opened.file(node),
        _ => None,
    }
}

// Waits until all that was handed over to an output is written, or a write of it failed.
fn settle_file<F: Files>(file: usize, files: &mut F)
    ensures { SettlesFile file (F.shows files.old) (F.shows files.new) }
{
    match files.settle(file) {
        Ok(_) | Err(IoFailed) => {}
    }
}
