// A script as two scripts: one that runs on each part of its input, and one that runs on the joined outputs of the first.
#![tactic(auto)]

pub use chain::{Chain, chain_of};
pub use fault::ShardsFault;
pub use shards::{Shards, shards_of};

mod additions;
mod chain;
mod division;
mod fault;
mod reading;
mod same;
mod shards;
mod writing;
