// The checked graph of a script.
#![tactic(auto)]

pub use fault::PlanFault;
pub use make::make_plan;
pub use plan::{InOpening, Node, OutOpening, Plan};

mod checks;
mod clashes;
mod ends;
mod fault;
mod groups;
pub mod laws;
mod make;
mod naming;
mod nodes;
mod openings;
mod order;
mod place;
mod plan;
mod stage;
mod tables;
