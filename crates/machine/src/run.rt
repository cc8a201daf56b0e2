ghost use Rattle.std.specs.Prelude.{◌≡◌, ◌≤◌, ◌^◌, List, ℕ, [], ◌∷◌, Option, Some, IfOk, IsErrOf};
ghost use Rattle.machine.specs.Law.{IsNew};
ghost use Rattle.machine.specs.Pieces.{contents, IsBlock};
ghost use Rattle.machine.specs.Whole.{WholeAnswer};
ghost use Rattle.machine.specs.declared.protocol.Presence.TheVariants.{Present};

use crate::protocol::{Machine, StageFault, Want};
use crate::queue::Pieces;
use std::alloc::Global;

/// Feeds these pieces in order to a new machine of one input, as long as it wants them, and closes
/// it. Returns what it put out: however the pieces are cut, the filter's whole answer to their
/// joined bytes.
pub fn run_whole<M: Machine>(
    alloc: Global,
    mut machine: M,
    mut pieces: Pieces,
    block: usize,
) -> Result<Pieces, StageFault>
    requires { IsBlock block }
    ensures out { (whole : WholeAnswer)
        → IsNew (M.shows machine) whole (Present ∷ [])
        → IfOk result (λ out. contents out ≡ (whole (Some (contents pieces) ∷ [])).out) }
    ensures too_large { (whole : WholeAnswer)
        → IsNew (M.shows machine) whole (Present ∷ []) → IsErrOf result StageFault.CountTooLarge
        → 2 ^ 63 ≤ (whole (Some (contents pieces) ∷ [])).count }
{
    let mut out = Pieces::new(alloc, block);
    while let Some(piece) = pieces.pop_front() {
        match machine.want() {
            Want::Take(input) => machine.feed(input, piece, &mut out)?,
            Want::Finished => return Ok(out),
        }
    }
    match machine.want() {
        Want::Take(input) => {
            machine.close(input, &mut out)?;
            Ok(out)
        }
        Want::Finished => Ok(out),
    }
}
