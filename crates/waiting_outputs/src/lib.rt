// Writes that may wait, each made by another thread than the caller's.
#![tactic(auto)]

pub use done::Failed;
pub use output::Output;
pub use passed::Passed;
pub use thread::{Giver, Taker, tasks};

mod done;
mod line;
mod output;
mod passed;
mod thread;
