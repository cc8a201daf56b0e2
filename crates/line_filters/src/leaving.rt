ghost use Rattle.std.specs.Prelude.{◌≡◌, [], ◌∷◌, ◌++◌, ◌≤◌, ◌==◌, ◌&&◌, false, not, length, take, IfOk, OnOk, if◌then◌else◌};
ghost use Rattle.machine.specs.Pieces.{contents};

use crate::bytes::put_piece;
use crate::progress::Progress;
use machine::{NoMemory, Piece, Pieces};
use std::alloc::Global;

// Leaves an input, which was closed or not.
pub(crate) fn leave(
    progress: &mut Progress,
    closed: &mut Vec<bool>,
    ended: bool,
) -> Result<(), NoMemory>
    ensures closed { OnOk result (closed.new.items ≡ closed.old.items ++ ended ∷ []) }
    ensures progress { progress.new ≡ record progress.old { begun = false } }
    ensures longer { length closed.old.items ≤ length closed.new.items }
{
    progress.begun = false;
    closed.push(ended)?;
    Ok(())
}

// The inputs that are left at once; none is closed. It is the only one, if no line of it is
// written.
pub(crate) fn left_at_once(alloc: Global, titled: bool, count: u64) -> Result<Vec<bool>, NoMemory>
    ensures { IfOk result
        (λ closed. closed.items ≡ (if not titled && (count == 0) then false ∷ [] else [])) }
{
    let mut closed = Vec::new(alloc);
    if titled || count > 0 {
        return Ok(closed);
    }
    closed.push(false)?;
    Ok(closed)
}

// Adds the first bytes of a piece. It is passed on as it is if they are all, and shared if they are
// not.
pub(crate) fn put_front(piece: Piece, end: usize, out: &mut Pieces) -> Result<(), NoMemory>
    requires { end ≤ length piece }
    ensures ok { OnOk result (contents out.new ≡ contents out.old ++ take end piece) }
    ensures block { out.new.block ≡ out.old.block }
{
    if end == 0 {
        return Ok(());
    }
    if end == piece.len() {
        return put_piece(piece, out);
    }
    put_piece(piece.front(end)?, out)
}
