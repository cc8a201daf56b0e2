// Stages lent out of their network: they step elsewhere, in groups, while its sources and sinks step here, and come back.
#![tactic(auto)]

pub use apart::Flow;
pub use group::Group;
pub use lent::LentNetwork;

mod apart;
mod group;
mod lent;
mod pipes;
mod reads;
