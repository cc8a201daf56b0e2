// Opening the files of a plan: every input, and then every output.
#![tactic(auto)]

pub use fault::OpenFault;
pub use opened::Opened;
pub use opening::{open, open_as};
pub use placing::open_placing;

mod fault;
pub mod laws;
mod names;
mod needs;
mod opened;
mod opening;
mod parts;
mod placing;
mod tables;
