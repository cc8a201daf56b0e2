// The run of a plan whose files were opened: its network on workers or on one thread, to its outcome.
#![tactic(auto)]

pub use in_turn::run_plan_in_turn;
pub use rounds::enough_rounds;
pub use run::{RanPlan, run_plan};

mod fitting;
mod in_turn;
mod placing;
mod rounds;
mod run;
mod settling;
