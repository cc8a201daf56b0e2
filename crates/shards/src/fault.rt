use machine::NoMemory;
use part_laws::WholeCause;
use std::alloc::AllocError;
use thiserror::Error;

/// Why a script does not run in parts.
#[derive(Clone, Copy, Debug, PartialEq, Eq, Error)]
pub enum ShardsFault {
    /// It is not one pipeline from one input to one output, each command of which reads what the one before it writes.
    #[error("D1 NotOnePipeline")]
    NotOnePipeline,
    /// Its first command needs the whole input.
    #[error("D2 NeedsWholeInput in stage 1")]
    NeedsWholeInput(WholeCause),
    /// Its commands cannot be written as scripts again.
    #[error("D3 NotWritten")]
    NotWritten,
    /// Memory was refused.
    #[error("D4 NoMemory")]
    NoMemory,
}

impl From<NoMemory> for ShardsFault {
    ghost use Rattle.std.specs.Prelude.{◌≡◌};
    ghost use Rattle.shards.specs.declared.fault.ShardsFault.TheVariants as fault;

    ghost from_gives = { λ _ given. given ≡ fault.NoMemory };

    fn from(_error: NoMemory) -> ShardsFault {
        ShardsFault::NoMemory
    }
}

impl From<AllocError> for ShardsFault {
    ghost use Rattle.std.specs.Prelude.{◌≡◌};
    ghost use Rattle.shards.specs.declared.fault.ShardsFault.TheVariants as fault;

    ghost from_gives = { λ _ given. given ≡ fault.NoMemory };

    fn from(_error: AllocError) -> ShardsFault {
        ShardsFault::NoMemory
    }
}
