// The filters that compare lines or join them, as machines.
#![tactic(auto)]

pub use commands::{PasteSpec, RunsShown, UniqSpec};
pub use paste::Paste;
pub use paste_laws::pastes_want_open_cells;
pub use run_laws::lines_have_one_list_of_runs;
pub use uniq::Uniq;

mod begun;
mod circle;
mod delimiters;
mod intake;
mod joined;
mod keys;
mod made;
mod paste;
mod paste_laws;
mod run_laws;
mod runs;
mod serial;
mod short_runs;
mod silent;
mod table;
mod uniq;
