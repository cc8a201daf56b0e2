// Stages: a machine between the pipes that it reads and those that it writes.
#![tactic(auto)]

pub use clock::{NoClock, StepClock};
pub use inlet::Inlet;
pub use outlet::Outlet;
pub use stage::Stage;

mod clock;
mod ends;
mod inlet;
pub mod laws;
mod outlet;
mod owing;
mod stage;
