// The stages of a network on several scoped threads, its sources and sinks on the caller's.
#![tactic(auto)]

pub use activity::PhaseActivity;
pub use gate::{Gate, Open, Timed};
pub use pace::Tally;
pub use phase::{Phase, run_phase};
pub use run::{EndedRun, run_network};
pub use threads::{CallerTask, run_beside, work};

mod activity;
mod begun;
mod gate;
mod member;
mod pace;
mod phase;
mod run;
mod seat;
mod threads;
