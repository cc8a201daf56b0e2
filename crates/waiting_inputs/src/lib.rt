// Inputs whose reads may wait, each read by a thread of its own.
#![tactic(auto)]

pub use inputs::{Begins, ByCall, Inputs, ThreadInputs};
pub use late::OpensLate;
pub use thread::{Errand, begin_thread, errands};

mod chunk;
mod input;
mod inputs;
mod late;
mod line;
mod reading;
mod table;
mod thread;
