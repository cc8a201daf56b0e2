ghost use Rattle.std.specs.Prelude.{◌≡◌, ◌<◌, ◌^◌, [], length, IfOk};
ghost use Rattle.graphs.specs.Graph.{IsForest};
ghost use Rattle.graphs.specs.NamesByPlace.{texts};
ghost use Rattle.graphs.specs.Orders.{IsPlannedOrder};
ghost use Rattle.graphs.specs.Uses.{AreUses};
ghost use Rattle.planner.specs.Ends.{in_ends as ends_of_inputs, out_ends as ends_of_branches};
ghost use Rattle.planner.specs.Faults.{all_read, all_written};
ghost use Rattle.planner.specs.Laws.{AreInTurn};
ghost use Rattle.planner.specs.Stages.{is_negated};
ghost use Rattle.planner.specs.Planned.{graph_of, joined, plan_of, MeetsPlan, PlansStages, PlansOrdered};

use crate::checks::{check_fifos, check_later};
use crate::ends::{in_ends, out_ends};
use crate::fault::PlanFault;
use crate::naming::{names_of, read_names, written_names};
use crate::nodes::nodes;
use crate::openings::{inputs, outputs};
use crate::order::stage_order;
use crate::place::End;
use crate::plan::{NodeName, Plan};
use crate::stage::{Stage, read_stages};
use crate::tables::{ends_of_pipes, node_names, number_of, pipes};
use graphs::{Names, Uses, count_uses};
use machine::NoMemory;
use pipeline_text::{Pipeline, Script};
use std::alloc::Global;

/// The plan of a script; otherwise the lowest stage whose words mean nothing, or the first fault.
/// The plan of a script that makes no FIFO is a forest.
pub fn make_plan(alloc: Global, script: &Script) -> Result<Plan, PlanFault>
    ensures meets { MeetsPlan script.now result }
    ensures forest { script.now.fifos ≡ [] → IfOk result (λ plan. IsForest (graph_of plan)) }
{
    let stages = read_stages(alloc, script)?;
    let fifos = names_of(alloc, script.fifos.as_slice())?;
    let negated = is_negated(script.pipelines.as_slice());
    plan_stages(alloc, fifos.as_slice(), stages, negated)
}

// Whether `!` comes before the last pipeline.
fn is_negated(pipelines: &[Pipeline]) -> bool
    ensures { result ≡ is_negated pipelines.now }
{
    match pipelines {
        [] => false,
        [.., last] => last.negated,
    }
}

// How often each name is made, read and written.
fn name_uses(alloc: Global, fifos: &[&[u8]], stages: &[Stage<'_>]) -> Result<Vec<Uses>, NoMemory>
    ensures { IfOk result
        (λ uses. AreUses (texts fifos.now) (all_read stages.now)
        (all_written stages.now) uses.items) }
{
    let read = read_names(alloc, stages)?;
    let written = written_names(alloc, stages)?;
    count_uses(alloc, fifos, read.as_slice(), written.as_slice())
}

// The plan of stages, with FIFOs of these names; or the first fault.
fn plan_stages(
    alloc: Global,
    fifos: &[&[u8]],
    stages: Vec<Stage<'_>>,
    negated: bool,
) -> Result<Plan, PlanFault>
    requires turn { AreInTurn 0 stages.items }
    requires few { (length fifos.now < 2 ^ 62) × (length stages.items < 2 ^ 62) }
    ensures { PlansStages (texts fifos.now) stages.entry.items negated result }
{
    let uses = name_uses(alloc, fifos, stages.as_slice())?;
    check_fifos(uses.as_slice())?;
    let names = Names::new(alloc, fifos)?;
    plan_named(alloc, uses.as_slice(), &names, stages, negated)
}

// The same, if the names of the FIFOs are used as they have to be.
fn plan_named(
    alloc: Global,
    uses: &[Uses],
    fifos: &Names<'_>,
    stages: Vec<Stage<'_>>,
    negated: bool,
) -> Result<Plan, PlanFault>
    requires turn { AreInTurn 0 stages.items }
    requires few { (length fifos.now < 2 ^ 62) × (length stages.items < 2 ^ 62) }
    requires uses { AreUses fifos.now (all_read stages.items) (all_written stages.items) uses.now }
    ensures { PlansOrdered fifos.now stages.entry.items negated result }
{
    let lent = stages.as_slice();
    let ins = in_ends(alloc, fifos, lent)?;
    let outs = out_ends(alloc, fifos, lent)?;
    let (inputs, branches) = (ins.as_slice(), outs.as_slice());
    let Some(order) = stage_order(alloc, fifos.count(), lent.len(), inputs, branches)? else {
        return Err(PlanFault::Cycle);
    };
    check_later(alloc, uses, fifos, lent, inputs, branches)?;
    let plan = plan_in_order(alloc, fifos, stages, ins, outs, order.as_slice(), negated)?;
    Ok(plan)
}

// The plan of stages in their planned order.
fn plan_in_order(
    alloc: Global,
    fifos: &Names<'_>,
    stages: Vec<Stage<'_>>,
    ins: Vec<End>,
    outs: Vec<End>,
    order: &[usize],
    negated: bool,
) -> Result<Plan, NoMemory>
    requires turn { AreInTurn 0 stages.items }
    requires ins { ins.items ≡ ends_of_inputs fifos.now stages.items }
    requires outs { outs.items ≡ ends_of_branches fifos.now stages.items }
    requires planned { IsPlannedOrder
        (length stages.items) (joined fifos.now stages.items) order.now }
    ensures { IfOk result
        (λ plan. plan ≡ plan_of fifos.now stages.entry.items negated order.now) }
{
    let (lent, reading, writing) = (stages.as_slice(), ins.as_slice(), outs.as_slice());
    let names = node_names(alloc, reading, writing, order)?;
    let pipes = pipes(alloc, reading, writing, order)?;
    let (names, pipes) = (names.as_slice(), pipes.as_slice());
    let ends = ends_of_pipes(alloc, names, pipes)?;
    let inputs = inputs(alloc, fifos, lent, names)?;
    let outputs = outputs(alloc, fifos, lent, names)?;
    let last = NodeName::StageAt(lent.len().saturating_sub(1));
    let result = (number_of(names, last), negated);
    let nodes = nodes(alloc, stages, ins, outs, order, pipes)?;
    Plan::new(alloc, nodes, ends, inputs, outputs, result)
}
