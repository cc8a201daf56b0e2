// The network of a plan whose files were opened, and the circle of waits of one that stalled.
#![tactic(auto)]

pub use circles::circle;
pub use making::make_network;

mod circles;
mod making;
mod presence;
