use machine::NoMemory;
use run_types::{InName, OutName};
use thiserror::Error;

/// Why the files of a plan were not opened.
#[derive(Debug, Drop, Error)]
pub enum OpenFault {
    /// This input cannot be opened. No output was opened.
    #[error("O1 InputNotOpened: {0}")]
    InputNotOpened(InName),
    /// This output cannot be opened. Nothing was written.
    #[error("O2 OutputNotOpened: {0}")]
    OutputNotOpened(OutName),
    /// Memory was refused.
    #[error("O3 NoMemory")]
    NoMemory,
}

impl From<NoMemory> for OpenFault {
    ghost use Rattle.std.specs.Prelude.{◌≡◌};
    ghost use Rattle.openings.specs.declared.fault.OpenFault.TheVariants as fault;

    ghost from_gives = { λ _ given. given ≡ fault.NoMemory };

    fn from(_error: NoMemory) -> OpenFault {
        OpenFault::NoMemory
    }
}
