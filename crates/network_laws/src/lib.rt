// The network's definitions: the plan and its sequential answer, the cases of the nodes, waits and outcomes; and their laws.
#![tactic(auto)]

pub use outcome::{Outcome, RoundsSpent, Waiting};

pub mod laws;
mod outcome;
