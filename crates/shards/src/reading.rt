ghost use Rattle.std.specs.Prelude.{IfOk, IfErr, OnOk};
ghost use Rattle.shards.specs.Shards.{HasPlan};
ghost use Rattle.shards.specs.inner.Written.{filters_in, IsUnwritten, Writes};

use crate::chain::chain_of;
use crate::fault::ShardsFault;
use crate::same::{Half, same_output, surely_make_the_same};
use pipeline_text::{TextFaultKind, read_script};
use planner::{Plan, PlanFault, make_plan};
use run_types::{InName, OutName};
use std::alloc::Global;

/// Checks that a text is a script from the standard input to this output whose commands surely write what those of a half write.
pub(crate) fn check_written(
    alloc: Global,
    text: &[u8],
    half: Half<'_>,
    to: &OutName,
) -> Result<(), ShardsFault>
    ensures written { OnOk result (Writes text.now (filters_in half.entry.first.now half.entry.second.now half.entry.third.now) to.now) }
    ensures cause { IfErr result IsUnwritten }
{
    let plan = plan_of(alloc, text)?;
    let Some(chain) = chain_of(&plan) else {
        return Err(ShardsFault::NotWritten);
    };
    let is_from_standard = matches!(chain.from, InName::Standard);
    if is_from_standard && same_output(chain.to, to) && surely_make_the_same(chain.stages, half) {
        Ok(())
    } else {
        Err(ShardsFault::NotWritten)
    }
}

// The plan of the script of a text.
fn plan_of(alloc: Global, text: &[u8]) -> Result<Plan, ShardsFault>
    ensures plan { IfOk result (HasPlan text.now) }
    ensures cause { IfErr result IsUnwritten }
{
    let script = match read_script(alloc, text) {
        Ok(script) => script,
        Err(fault) if fault.kind == TextFaultKind::NoMemory => return Err(ShardsFault::NoMemory),
        Err(_) => return Err(ShardsFault::NotWritten),
    };
    match make_plan(alloc, &script) {
        Ok(plan) => Ok(plan),
        Err(PlanFault::NoMemory) => Err(ShardsFault::NoMemory),
        Err(_) => Err(ShardsFault::NotWritten),
    }
}
