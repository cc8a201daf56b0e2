ghost use Rattle.std.specs.Prelude.{◌≡◌, ◌≤◌, ◌++◌, length, drop, OnOk, IfOk};
ghost use Rattle.machine.specs.Pieces.{contents};
ghost use Rattle.line_filters.specs.Skips.{SkipsTo, PutsBehind};

use crate::bytes::{put, put_piece};
use commands::Counted;
use machine::{NoMemory, Piece, Pieces, front_lines};

// The end of the first n lines or bytes in these bytes, and how many of them end or begin later.
pub(crate) fn skip_to(counted: Counted, bytes: &[u8], n: u64) -> (usize, u64)
    ensures { SkipsTo counted bytes.now n result.0 result.1 }
{
    match counted {
        Counted::Lines => front_lines(bytes, n),
        Counted::Bytes => {
            let length = bytes.len() as u64;
            if n < length {
                (n as usize, 0)
            } else {
                (bytes.len(), n - length)
            }
        }
    }
}

// Puts out what follows the first n lines or bytes in a piece, and returns how many of them end or
// begin later.
pub(crate) fn put_behind(
    counted: Counted,
    piece: Piece,
    n: u64,
    out: &mut Pieces,
) -> Result<u64, NoMemory>
    ensures ok { IfOk result (λ left. PutsBehind counted piece n left out.old out.new) }
    ensures block { out.new.block ≡ out.old.block }
{
    let (end, left) = skip_to(counted, piece.bytes(), n);
    if end == 0 {
        put_piece(piece, out)?;
        return Ok(left);
    }
    put(&piece.bytes()[end..], out)?;
    Ok(left)
}
