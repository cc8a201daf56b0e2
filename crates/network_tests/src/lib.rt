// The tests of the sequential answer and of networks: scripts of actions with their results. A plain, slow program computes
// the sequential answer of a small plan.
#![tactic(auto)]

pub use plan::{SmallNode, SmallPlan};
pub use sequential::{Computed, WholeFilter, sequential_answer};

mod plan;
mod sequential;
#[cfg(test)]
mod tests;
