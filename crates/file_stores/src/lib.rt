// The stores of files: in memory, and in the system; and files whose reads and writes a watch is
// notified of. Also what a look at the system's files finds.
#![tactic(auto)]

pub use descriptors::DescriptorFault;
pub use error_number::ErrorNumber;
pub use handle::HostHandle;
pub use held_outputs::{Disk, NotHeld, SystemDisk};
pub use holding_faults::why_not_held;
pub use host::HostFiles;
pub use look::HostLook;
pub use memory::MemoryFiles;
pub use opening_faults::{OpensNow, Sameness, is_one_file, is_standard, opening_now};
pub use patient::{HostReader, Nap, Patient, Pause};
pub use placed::LeavesPart;
pub use readable::Readable;
pub use report::{ReportFile, is_one_place};
pub use served::Served;
pub use streams::{NotClaimed, StandardStreams, Stream};
pub use tries::{TryRead, TryWrite};
pub use watched::{Watch, Watched};

mod appended;
mod calls;
mod contents;
mod descriptors;
mod ends;
mod error_number;
mod facts;
mod fifo;
mod first_lines;
mod former;
mod handle;
mod held;
mod holding_faults;
mod host;
mod links;
mod logged;
mod look;
mod memory;
mod mounts;
mod not_held;
mod opened;
mod opening_faults;
mod patient;
mod placed;
mod readable;
mod report;
mod served;
mod standard;
mod standard_output;
mod streams;
mod tries;
mod watched;
mod writable;
