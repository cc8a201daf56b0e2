// What the words of a tr command mean: its strings, what they mean, and the tables made of them.
#![tactic(auto)]

pub use laws::{last_pairs_hold, repeats_are_capped, strings_are_cut};
pub use tr_words::{LETTERS, TrSpec};

mod class;
mod element;
mod expansion;
mod laws;
mod lists;
mod table;
mod tr_words;
