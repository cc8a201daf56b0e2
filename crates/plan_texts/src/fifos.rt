use crate::script_words::command;
use pipeline_text::Script;
use planner::{Node, Plan};

// The name of the FIFO that the pipe of this number is, if it is one: what its writer writes it by is the name of a FIFO.
pub(crate) fn fifo_of<'a>(script: &'a Script, plan: &'a Plan, pipe: usize) -> Option<&'a [u8]> {
    let (writer, _) = plan.pipes().get(pipe)?;
    let name = name_written(script, plan.order().get(*writer)?, pipe)?;
    let is_fifo = script
        .fifos
        .as_slice()
        .iter()
        .any(|fifo| fifo.bytes() == name);
    if is_fifo { Some(name) } else { None }
}

// The name by which a node writes this pipe: that of a redirection, or an operand. The standard output is the first branch, if it is
// written, and then the operands follow.
fn name_written<'a>(script: &'a Script, node: &'a Node, pipe: usize) -> Option<&'a [u8]> {
    let Node::Stage {
        number,
        spec,
        branches,
        ..
    } = node
    else {
        return None;
    };
    let branch = branch_of(branches.as_slice(), pipe)?;
    let operand = if spec.writes_standard() {
        match branch.checked_sub(1) {
            Some(operand) => operand,
            None => return target_name(script, *number),
        }
    } else {
        branch
    };
    Some(spec.output_operands().get(operand)?.bytes())
}

// The branch that is this pipe.
fn branch_of(branches: &[Option<usize>], pipe: usize) -> Option<usize> {
    branches.iter().position(|branch| *branch == Some(pipe))
}

// The name that the standard output of the command of this number is redirected to.
fn target_name(script: &Script, number: usize) -> Option<&[u8]> {
    let target = command(script, number)?.target.as_ref()?;
    Some(target.name.bytes())
}
