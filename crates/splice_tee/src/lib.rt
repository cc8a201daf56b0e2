// cat, tee, the ways of an item from pipe to pipe, and which branches of a tee have the front item.
#![tactic(auto)]

pub use branches::{Branches, Served};
pub use cat::Cat;
pub use moving::{Moved, duplicate, splice};

mod branches;
mod cat;
mod moving;
