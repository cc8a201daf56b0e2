//! Orders of numbered things that pipes join, and names by number.
#![tactic(auto)]

pub use circles::circle;
pub use forest::is_forest;
pub use laws::{
    planned_orders_are_one, planned_orders_are_orders, planned_orders_go_by_what_is_joined,
    single_branches_are_forests,
};
pub use names::Names;
pub use order::planned_order;
pub use pairs::meeting_pairs;
pub use uses::{Uses, count_uses};

mod circles;
mod forest;
mod laws;
mod names;
mod order;
mod pairs;
mod stripping;
mod table;
mod uses;
