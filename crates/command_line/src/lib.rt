// The options and operands of the program, and what the words of its command line ask for.
#![tactic(auto)]

pub use faults::{Explanation, explanations};
pub use misuse::Misuse;
pub use placings::placing_named;
pub use plain_words::{write_help, write_words_error};
pub use presets::{NoWords, ProcessWords, is_option, presets_of, with_presets};
pub use request::{Request, ScriptFrom};
pub use showing::{Hints, PlanForm, Progress, ShardsForm, StatsForm};
pub use sizes::with_plain_sizes;
pub use spelling::with_default_values;
pub use words::{bytes_of_text, text_of_bytes};

mod faults;
mod misuse;
mod options;
mod placings;
mod plain_words;
mod presets;
mod request;
mod showing;
mod sizes;
mod spelling;
mod words;
