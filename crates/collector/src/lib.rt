// The files of a run, and the nodes that touch them: sources and sinks.
#![tactic(auto)]

pub use batch::{Batch, FewPieces};
pub use fault::RunFault;
pub use names::Opening;
pub use needed::{LeftOut, NeededEnd};
pub use opening::{Files, IoFailed, NotOpened};
pub use readiness::Readiness;
pub use sink::Sink;
pub use source::Source;
pub use writing::write_all;

mod batch;
mod fault;
mod joining;
pub mod laws;
mod names;
mod needed;
mod opening;
mod readiness;
mod reading;
mod sink;
mod source;
mod writing;
