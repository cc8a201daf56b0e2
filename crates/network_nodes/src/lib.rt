// The nodes of a network with their own pipe ends, and how they are made.
#![tactic(auto)]

pub use actor::{Actor, Link, look_at, regrow_at};
pub use fullness::{capacity_at, holds_capacity_at, is_full_at};
pub use making::{NodeSpec, make_nodes};
pub use tables::{open_pipes, wires_of};

mod actor;
mod fullness;
mod making;
mod tables;
