// Parts of inputs that nobody needs.
ghost use Rattle.std.specs.Prelude.{◌≡◌, length, IfSome, Some};
ghost use Rattle.collector.specs.Files.{nothing_read};
ghost use Rattle.openings.specs.inner.LeftParts.{AreUnread, LeavesParts, LeavesPartFor};
ghost use Rattle.openings.specs.inner.Needs.{AreNeeds, IsNeedFor};

use crate::needs::Need;
use collector::Files;
use planner::Plan;

// Leaves out the bytes that nobody needs of the inputs of a plan. Nothing of them has been read.
pub(crate) fn leave_out_parts<F: Files>(
    plan: &Plan,
    needs: &[Need],
    answers: &[Option<usize>],
    files: &mut F,
)
    requires needs { AreNeeds plan.now needs.now }
    requires count { length answers.now ≡ length plan.now.inputs }
    requires unread { AreUnread answers.now (F.shows files.old) }
    ensures { LeavesParts plan.now answers.now (length answers.now) (F.shows files.old)
        (F.shows files.new) }
{
    for place in 0..answers.len() {
        leave_out(
            plan,
            needs,
            plan.inputs()[place].node,
            answers[place],
            files,
        );
    }
}

// Leaves out what nobody needs of the input of this node, if it was opened.
fn leave_out<F: Files>(
    plan: &Plan,
    needs: &[Need],
    node: Option<usize>,
    answer: Option<usize>,
    files: &mut F,
)
    requires needs { AreNeeds plan.now needs.now }
    requires unread { IfSome answer (λ file. (F.shows files.old).inputs file ≡ Some nothing_read) }
    ensures { LeavesPartFor plan.now node answer (F.shows files.old) (F.shows files.new) }
{
    if let Some(file) = answer
        && let Some(node) = node
    {
        leave_part(plan, needs, node, file, files);
    }
}

// What is needed of what a node puts on its pipes.
fn need_for(_plan: &Plan, needs: &[Need], node: usize) -> Need
    requires { AreNeeds _plan.now needs.now }
    ensures { IsNeedFor _plan.now node result }
{
    match needs.get(node) {
        Some(need) => *need,
        None => Need::Everything,
    }
}

// Leaves out what nobody needs of the input of this node, which has this number.
fn leave_part<F: Files>(plan: &Plan, needs: &[Need], node: usize, file: usize, files: &mut F)
    requires needs { AreNeeds plan.now needs.now }
    requires unread { (F.shows files.old).inputs file ≡ Some nothing_read }
    ensures { LeavesPartFor plan.now (Some node) (Some file) (F.shows files.old)
        (F.shows files.new) }
{
    match need_for(plan, needs, node) {
        Need::Only(needed) => files.leave_out_front(file, needed),
        Need::First(lines) => files.leave_rest(file, lines),
        Need::Nothing | Need::Everything => {}
    }
}
