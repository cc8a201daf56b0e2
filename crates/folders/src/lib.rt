// Outputs that take the places of files all at once, or not at all, whatever ends the run: over any folder.
#![tactic(auto)]

pub use access::Access;
pub use call::{FolderCall, is_file};
pub use content::Content;
pub use fault::{CallFault, NotPlaced, OutputFault, PlaceFault, WriteFault};
pub use folder::Folder;
pub use fronts::each_front_is_old_or_whole;
pub use memory::{MemoryFolder, looks_may_be_left};
pub use name::Name;
pub use output::Output;
pub use placing::{place_all, place_or_leave, place_renamed, place_stored, rename_or_leave};
pub use steps::{leave_all, rename_all, store_all};
pub use writing::write_new;

mod access;
mod call;
mod content;
mod fault;
mod folder;
mod fronts;
mod memory;
mod name;
mod output;
mod placing;
mod steps;
mod writing;
