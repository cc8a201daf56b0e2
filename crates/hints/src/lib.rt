// What a person sees after a fault: its place in the script, what is meant, and what to do.
#![tactic(auto)]

pub use advice::{Adviser, Read, Trouble};
pub use hint::HintForm;
pub use reasons::{Reason, Reasons, Sameness, Stream, WhyNotHeld, words_of};
pub use source::Source;
pub use words::Asked;

mod advice;
mod circles;
mod command_faults;
mod expansions;
mod files;
mod hint;
mod instead;
mod late;
mod long_options;
mod names;
mod numbers;
mod options;
mod plan_faults;
mod reasons;
mod refused;
mod scripts;
mod shard_faults;
mod shell;
mod source;
mod stalls;
mod strings;
mod uses;
mod utilities;
mod words;
mod wrong;
