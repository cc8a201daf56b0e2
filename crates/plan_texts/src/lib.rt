// How plans are printed: by lines, for people and for programs, as a picture, and as shards; and what a run of a plan moved.
#![tactic(auto)]

pub use dot::plan_dot;
pub use full::plan_full;
pub use json::plan_json;
pub use shard_texts::{shards_json, shards_part, shards_text};
pub use stats::{RunStats, refusal_json, stats_json, stats_text};
pub use text::plan_text;

mod dot;
mod ends;
mod fifos;
mod full;
mod json;
mod json_string;
mod opened;
mod quoting;
mod script_words;
mod shard_texts;
mod stats;
mod text;
