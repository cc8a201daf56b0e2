// Searches and copies of bytes, 64 at a time. Contracts speak of lists and places, not of bits.
#![tactic(auto)]

pub use double::has_no_double;
pub use gather::{put_few, single_chunk};
pub use near::find_near;
pub use parts::{Part, Parts};
pub use prefix::Prefix;
pub use runs::run_above;
pub use same::are_same;
pub use span::{Span, has_no_pair, has_none, is_in_span, is_in_spans, move_chunk};
pub use walk::Walk;
pub use written::Written;

mod bits;
mod chunk;
mod double;
mod gather;
mod near;
mod nth;
mod parts;
mod prefix;
mod runs;
mod same;
mod span;
mod walk;
mod written;
