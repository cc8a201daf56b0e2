// fold and wc, which go byte by byte, as machines.
#![tactic(auto)]

pub use commands::{FoldForm, FoldSpec, WcSpec};
pub use fold::Fold;
pub use laws::{
    folds_keep_one_line, folds_keep_two_segments, lines_are_cut, wc_of_bytes_needs_only_a_length,
    words_are_counted,
};
pub use wc::Wc;

mod ahead;
mod counts;
mod fold;
mod fold_text;
mod lane;
mod laws;
mod segment;
mod starts;
mod wc;
mod wc_lines;
