// How filters run over the parts of an input: which of them go on from one part to the next, and how a pipeline of them is divided.
#![tactic(auto)]

pub use laws::{
    each_goes_in_its_manner, filters_divide, lines_are_made_of_lines, newlines_keep_lines,
    runs_are_gathered_before_heads,
};
pub use manner::{Addition, Manner, WholeCause};
pub use utilities::{gather_together, keeps_newlines, makes_line_of_line, manner_of};

mod laws;
mod manner;
mod utilities;
