use command_words::BadWords;
use machine::NoMemory;
use std::alloc::AllocFailed;
use thiserror::Error;

/// Why a script has no plan.
#[derive(Debug, Drop, Error)]
pub enum PlanFault {
    /// The words of the stage of this number, from 1, mean nothing. The fault knows its place in the text.
    #[error("{fault} in stage {stage}")]
    Arg { stage: usize, fault: BadWords },
    /// One FIFO is made twice.
    #[error("P1 FifoTwice")]
    FifoTwice,
    /// A FIFO is named by several writing places.
    #[error("P2 ManyWriters")]
    ManyWriters,
    /// A FIFO is named by several reading places.
    #[error("P3 ManyReaders")]
    ManyReaders,
    /// A FIFO is named by no reading place.
    #[error("P4 NoReader")]
    NoReader,
    /// A FIFO is named by no writing place.
    #[error("P5 NoWriter")]
    NoWriter,
    /// No order of the stages puts the writer of each pipe before its reader.
    #[error("P6 Cycle")]
    Cycle,
    /// A file is named by two writing places.
    #[error("P7 OutputTwice")]
    OutputTwice,
    /// A file is named by a reading and a writing place.
    #[error("P8 ReadAndWritten")]
    ReadAndWritten,
    /// The main output of the foreground pipeline's last command is a FIFO.
    #[error("P9 LastOutputIsFifo")]
    LastOutputIsFifo,
    /// The main output of a background pipeline's last command is the standard output of the run.
    #[error("P10 AsyncToStdout")]
    AsyncToStdout,
    /// More than 256 stages, 1,024 pipes, or 32 operands in a command.
    #[error("P11 TooMany")]
    TooMany,
    /// Memory was refused.
    #[error("P12 NoMemory")]
    NoMemory,
}

impl From<NoMemory> for PlanFault {
    ghost use Rattle.std.specs.Prelude.{◌≡◌};
    ghost use Rattle.planner.specs.declared.fault.PlanFault.TheVariants as fault;

    ghost from_gives = { λ _ given. given ≡ fault.NoMemory };

    fn from(_error: NoMemory) -> PlanFault {
        PlanFault::NoMemory
    }
}

impl<T: Drop> From<AllocFailed<T>> for PlanFault {
    ghost use Rattle.std.specs.Prelude.{◌≡◌};
    ghost use Rattle.planner.specs.declared.fault.PlanFault.TheVariants as fault;

    ghost from_gives = { λ _ given. given ≡ fault.NoMemory };

    fn from(_error: AllocFailed<T>) -> PlanFault {
        PlanFault::NoMemory
    }
}
