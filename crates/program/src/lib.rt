// The program, over any files: what the words of its command line ask for, and how it ended.
#![tactic(auto)]

pub use answering::{answer, command};
pub use ending::{Ending, Refusal};
pub use ran::{EXIT_REFUSED, Ran, Refused, ScriptRead, report};
pub use report_file::{NoReport, OpensReport, Report, is_taken};

mod answering;
mod circles;
mod ending;
mod printing;
mod ran;
mod report_file;
mod script;
