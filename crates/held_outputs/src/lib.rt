// Outputs that are held back until a run has finished: new files next to their places, in any folder.
#![tactic(auto)]

pub use disk::Disk;
pub use error_number::{ErrorNumber, NO_ENTRY, NOT_PERMITTED};
pub use facts::{Facts, Kind};
pub use holding::{Added, Holding, fault_of};
pub use leftover::left_at;
pub use names::names_for;
pub use new_file::{can_replace, facts_in, old_file, path_of_new};
pub use not_held::{NotHeld, NotMade};
pub use paths::folder_and_name;
pub use places::{folder_to_store, is_at};
pub use system::SystemDisk;

mod disk;
mod error_number;
mod facts;
mod holding;
mod leftover;
mod names;
mod new_file;
mod not_held;
mod paths;
mod places;
mod rights;
mod system;
