// All filters, each as what its command means and as a machine.
#![tactic(auto)]

pub use commands::{BoxedTr, FilterSpec};
pub use filter::Filter;

mod filter;
