ghost use Rattle.std.specs.Prelude.{◌≡◌, ◌++◌, OnOk};
ghost use Rattle.machine.specs.Pieces.{contents};

use machine::{NoMemory, Piece, Pieces};

// Adds bytes to what is put out.
pub(crate) fn put(bytes: &[u8], out: &mut Pieces) -> Result<(), NoMemory>
    ensures ok { OnOk result (contents out.new ≡ contents out.old ++ bytes.now) }
    ensures block { out.new.block ≡ out.old.block }
{
    out.push_bytes(bytes)?;
    Ok(())
}

// Adds bytes to what is put out, and copies none of them if they are no longer than a block.
pub(crate) fn put_vec(bytes: Vec<u8>, out: &mut Pieces) -> Result<(), NoMemory>
    ensures ok { OnOk result (contents out.new ≡ contents out.old ++ bytes.items) }
    ensures block { out.new.block ≡ out.old.block }
{
    out.push_vec(bytes)?;
    Ok(())
}

// Adds a piece to what is put out.
pub(crate) fn put_piece(piece: Piece, out: &mut Pieces) -> Result<(), NoMemory>
    ensures ok { OnOk result (contents out.new ≡ contents out.old ++ piece) }
    ensures block { out.new.block ≡ out.old.block }
{
    out.push_piece(piece)?;
    Ok(())
}
