// How far a run is: what is read and written of its files, and the line on the standard error that shows it.
#![tactic(auto)]

pub use amounts::{Bytes, Seconds};
pub use host::HostWatch;
pub use line::Line;
pub use shown::Form;
pub use tally::Tally;
pub use writer::{Errand, LineDesk, LineThread, LineWriter, NoThread};

mod amounts;
mod host;
mod line;
mod shown;
mod tally;
mod writer;
