// The plan of a script: `groups WORKERS` returns the nodes of each group of stages. What else a
// plan has is printed, and tests/plans tests it.
ghost use Rattle.std.specs.Prelude.{IfOk};
ghost use Rattle.step_scheduler.specs.Setups.{IsOfScript};

use super::*;
use pipeline_text::read_script;
use planner::laws::texts_have_bodies;
use planner::{Plan, make_plan};

// The plan of a script.
pub(super) fn plan_of(alloc: Global, script: &str) -> Result<Plan, Fail>
    ensures { IfOk result IsOfScript }
{
    texts_have_bodies();
    let script = read_script(alloc, script.as_bytes())?;
    Ok(make_plan(alloc, &script)?)
}

// The groups of a plan's stages, for this many workers.
fn groups(alloc: Global, plan: &Plan, workers: &str) -> Result<Vec<u8>, Fail> {
    let workers: usize = workers.parse()?;
    debugged(alloc, &plan.groups(alloc, workers.max(1))?)
}

// What is asked of a plan.
#[derive(Drop)]
struct Planned(Plan);

impl Bench for Planned {
    fn act(&mut self, alloc: Global, action: &str, with: &str) -> Result<Vec<u8>, Fail> {
        match action {
            "groups" => groups(alloc, &self.0, with),
            _ => unknown(),
        }
    }
}

// The second stage writes the FIFO that the first one reads, so it comes before it.
#[test]
fn stages_in_groups(rt: HostRuntime) -> Result<(), Fail> {
    let text = "mkfifo f; cat f > o & cat a > f & cat b";
    let mut plan = Planned(plan_of(rt.alloc(), text)?);
    play(
        rt.alloc(),
        &mut plan,
        4,
        r"groups 1 -> [[2, 3, 4]]
groups 2 -> [[3, 4], [2]]
groups 3 -> [[3], [2], [4]]
groups 16 -> [[3], [2], [4]]",
    )
}
