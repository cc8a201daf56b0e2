use run_types::{InName, OutName};
use thiserror::Error;

/// Why a run cannot go on.
#[derive(Debug, Drop, Error)]
pub enum RunFault {
    /// A read of this file failed.
    #[error("F1 ReadFault: {0}")]
    ReadFault(InName),
    /// A write to this file failed.
    #[error("F2 WriteFault: {0}")]
    WriteFault(OutName),
    /// A number that the node of this number is to write is above 2^63 - 1.
    #[error("F3 CountTooLarge in node {0}")]
    CountTooLarge(usize),
    /// Memory was refused.
    #[error("F4 NoMemory")]
    NoMemory,
}
