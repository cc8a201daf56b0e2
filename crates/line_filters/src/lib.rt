// The filters that go line by line, as machines.
#![tactic(auto)]

pub use commands::{Counted, CutSpec, HeadSpec, Origin, Parts, Range, TailSpec};
pub use cut::Cut;
pub use head::Head;
pub use laws::{
    cuts_keep_only_a_number, heads_want_what_is_to_come, tails_keep_the_last,
    tails_need_only_an_end,
};
pub use tail::Tail;

mod bytes;
mod cut;
mod cut_content;
mod cut_lines;
mod fields;
mod head;
mod held;
mod kept;
mod laws;
mod leaving;
mod long_lines;
mod longest;
mod near_lines;
mod progress;
mod ranges;
mod short_lines;
mod skipping;
mod steps;
mod stretches;
mod tail;
