// The types of a run: the names of its files, its limits, how a node is doing, when outputs get their content, what a step of it came to, and what the run moved.
#![tactic(auto)]

pub use escaping::Escaped;
pub use names::{InName, OutName};
pub use node_state::{NodeFault, NodeState};
pub use placing::Placing;
pub use settings::Settings;
pub use statistics::{Amount, Statistics};
pub use step::Step;

mod escaping;
mod fitting;
mod names;
mod node_state;
mod placing;
mod settings;
mod statistics;
mod step;
