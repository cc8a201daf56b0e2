ghost use Rattle.std.specs.Prelude.{◌≡◌, ℕ, List, OnOk, IsErrOf};
ghost use Rattle.machine.specs.Law.{Shown, IsLawful, Feeds, Closes, IsTooLarge, before, with_closed};
ghost use Rattle.machine.specs.Whole.{inputs_of, status_of};
ghost use Rattle.machine.specs.declared.protocol.Want.{Want};

use crate::memory::NoMemory;
use crate::piece::Piece;
use crate::queue::Pieces;
use thiserror::Error;

/// What a machine does next.
#[derive(Clone, Copy, Debug, PartialEq, Eq)]
pub enum Want {
    /// Take a piece, or the end, of the input with this number.
    Take(usize),
    /// Nothing: all is put out.
    Finished,
}

/// Whether an input could be opened.
#[derive(Clone, Copy, Debug, PartialEq, Eq)]
pub enum Presence {
    Present,
    Missing,
}

/// Why a machine cannot go on.
#[derive(Clone, Copy, Debug, PartialEq, Eq, Error)]
pub enum StageFault {
    /// A number to be written is above 2^63 - 1.
    #[error("CountTooLarge")]
    CountTooLarge,
    /// Memory was refused.
    #[error("NoMemory")]
    NoMemory,
}

impl From<NoMemory> for StageFault {
    ghost use Rattle.std.specs.Prelude.{◌≡◌};
    ghost use Rattle.machine.specs.declared.protocol.StageFault.TheVariants as fault;

    ghost from_gives = { λ _ given. given ≡ fault.NoMemory };

    fn from(_error: NoMemory) -> StageFault {
        StageFault::NoMemory
    }
}

/// The exit status of a filter with these inputs: 1 if one is missing, otherwise 0, whatever comes
/// on them.
pub fn status(inputs: &[Presence]) -> u8
    ensures { (ys : ℕ → List ℕ) → result ≡ status_of (inputs_of inputs.now ys) }
{
    u8::from(inputs.contains(&Presence::Missing))
}

/// A filter that takes pieces in and puts pieces out. After a fault it is not used again.
pub trait Machine: Drop {
    /// What it shows of itself: its inputs, what it wants, which of them are closed, what it would still put out.
    ghost shows: { Self → Shown };

    /// The input that it wants next, or Finished.
    fn want(&self) -> Want
        ensures { result ≡ (shows self.now).wanted };

    /// Takes a piece of the input that it wants, and adds its output to `out`.
    fn feed(&mut self, input: usize, piece: Piece, out: &mut Pieces) -> Result<(), StageFault>
        requires { (shows self.old).wanted ≡ Want.Take input }
        ensures ok { OnOk result
            (Feeds input piece (shows self.old) (shows self.new) out.old out.new) }
        ensures too_large { IsErrOf result StageFault.CountTooLarge
            → IsTooLarge (shows self.old) (shows self.old).closed (before input piece) }
        ensures same { ((shows self.new).inputs ≡ (shows self.old).inputs)
            × (out.new.block ≡ out.old.block) };

    /// Learns that the input that it wants has ended, and adds its output to `out`.
    fn close(&mut self, input: usize, out: &mut Pieces) -> Result<(), StageFault>
        requires { (shows self.old).wanted ≡ Want.Take input }
        ensures ok { OnOk result (Closes input (shows self.old) (shows self.new) out.old out.new) }
        ensures too_large { IsErrOf result StageFault.CountTooLarge
            → IsTooLarge (shows self.old) (with_closed input (shows self.old).closed) (λ ys. ys) }
        ensures same { ((shows self.new).inputs ≡ (shows self.old).inputs)
            × (out.new.block ≡ out.old.block) };

    /// It wants an open input of its own, and puts out nothing more once it has finished.
    ghost lawful: { (machine : Self) → IsLawful (shows machine) };
}
