// What a command means: its options and operands, and what it makes of whole inputs.
#![tactic(auto)]

pub use boxed::BoxedTr;
pub use cat_words::CatSpec;
pub use cut_words::{CutSpec, Parts};
pub use fold_words::{FoldForm, FoldSpec};
pub use head_words::HeadSpec;
pub use laws::{inputs_are_counted, standard_input_is_named_once};
pub use letters::letters_of;
pub use paste_words::PasteSpec;
pub use range::Range;
pub use spec::FilterSpec;
pub use tail_words::{Counted, Origin, TailSpec};
pub use tee_words::TeeSpec;
pub use uniq_words::{RunsShown, UniqSpec};
pub use wc_counts::Counts;
pub use wc_words::WcSpec;

mod boxed;
mod cat_words;
mod cut_words;
mod fold_words;
mod head_words;
mod laws;
mod letters;
mod lists;
mod operands;
mod paste_words;
mod range;
mod spec;
mod tail_words;
mod tee_words;
mod uniq_words;
mod wc_counts;
mod wc_words;
