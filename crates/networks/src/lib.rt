// The network of any plan: its nodes, its steps, and its run in rounds.
#![tactic(auto)]

pub use faults::FileFaults;
pub use network::{Network, act};
pub use network_nodes::{Actor, Link, NodeSpec, look_at};
pub use parts::NetworkParts;
pub use schedule::Report;
pub use stages::{NoClock, StepClock};

mod awaiting;
mod choosing;
mod faults;
mod growing;
pub mod laws;
mod making;
mod network;
mod parts;
mod schedule;
mod statistics;
mod turns;
