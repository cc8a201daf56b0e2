// tr, as a machine.
#![tactic(auto)]

pub use tr::Tr;
pub use tr_words::TrSpec;

mod change;
mod chunks;
mod deleting;
mod few;
mod keeping;
mod moves;
mod nibbles;
mod places;
mod plain;
mod ranges;
mod shift;
mod spans;
mod squeezing;
mod tr;
