use crate::opened::{Input, Output};
use planner::{Node, Plan};
use std::fmt;

// A node as an end of a pipe: a command with its number, or what it opens.
#[derive(Clone, Copy)]
pub(crate) struct End<'a>(Option<&'a Node>);

impl<'a> End<'a> {
    // The node of this number.
    pub(crate) fn of(plan: &'a Plan, node: usize) -> End<'a> {
        End(plan.order().get(node))
    }
}

impl fmt::Display for End<'_> {
    fn fmt<W: fmt::Write>(&self, f: &mut fmt::Formatter<W>) -> fmt::Result {
        match self.0 {
            Some(Node::Source(name)) => write!(f, "{}", Input(name)),
            Some(Node::Stage { number, spec, .. }) => {
                write!(f, "command {number} {}", spec.name())
            }
            Some(Node::Sink(name)) => write!(f, "{}", Output(name)),
            None => Ok(()),
        }
    }
}
