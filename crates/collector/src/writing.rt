ghost use Rattle.std.specs.Prelude.{◌≡◌, ◌≤◌, ◌++◌, ℕ, List, IsSome, IsTrue, OnOk, OnErr};
ghost use mathlib.Core.List.{IsPrefix};
ghost use Rattle.std.specs.List.{concat};
ghost use Rattle.collector.specs.Files.{batch_bytes, out_of, writes_of, WritesOnly, one_more};

use crate::batch::Batch;
use crate::opening::{Files, IoFailed};
use machine::{Piece, split_first};

/// Writes all of the bytes, each short write followed by the rest. After a failed write the first of them are written.
pub fn write_all<F: Files>(file: usize, bytes: &[u8], files: &mut F) -> Result<(), IoFailed>
    requires opened { IsSome ((F.shows files.old).outputs file) }
    ensures ok { OnOk result
        (writes_of (F.shows files.new) file ≡ writes_of (F.shows files.old) file ++ bytes.now) }
    ensures err { OnErr result
        ((front : List ℕ) × IsPrefix front bytes.now
        × (writes_of (F.shows files.new) file ≡ writes_of (F.shows files.old) file ++ front)) }
    ensures out { out_of (F.shows files.new) file ≡ out_of (F.shows files.old) file }
    ensures only { WritesOnly file (F.shows files.old) (F.shows files.new) }
    ensures failed { OnErr result
        ((F.shows files.new).failures ≡ one_more (F.shows files.old).failures) }
    ensures failures { OnOk result ((F.shows files.new).failures ≡ (F.shows files.old).failures) }
{
    let mut at = 0;
    while at < bytes.len() {
        at += files.write(file, &bytes[at..])?;
    }
    Ok(())
}

// Writes all of a batch. After a failed write the first of its bytes are written.
pub(crate) fn write_batch<F: Files>(
    file: usize,
    batch: &Batch,
    files: &mut F,
) -> Result<(), IoFailed>
    requires opened { IsSome ((F.shows files.old).outputs file) }
    ensures ok { OnOk result
        (writes_of (F.shows files.new) file ≡ writes_of (F.shows files.old) file ++ batch_bytes batch.now) }
    ensures err { OnErr result
        ((front : List ℕ) × IsPrefix front (batch_bytes batch.now)
        × (writes_of (F.shows files.new) file ≡ writes_of (F.shows files.old) file ++ front)) }
    ensures out { out_of (F.shows files.new) file ≡ out_of (F.shows files.old) file }
    ensures only { WritesOnly file (F.shows files.old) (F.shows files.new) }
    ensures failed { OnErr result
        ((F.shows files.new).failures ≡ one_more (F.shows files.old).failures) }
    ensures failures { OnOk result ((F.shows files.new).failures ≡ (F.shows files.old).failures) }
{
    match batch {
        Batch::Joined(bytes) => write_all(file, bytes.as_slice(), files),
        Batch::Single(piece) => write_all(file, piece.bytes(), files),
        Batch::Several(pieces) => write_pieces(file, pieces.as_slice(), files),
    }
}

// Writes all of these pieces, one after the other. After a failed write the first of their bytes are written.
fn write_pieces<F: Files>(file: usize, pieces: &[Piece], files: &mut F) -> Result<(), IoFailed>
    requires opened { IsSome ((F.shows files.old).outputs file) }
    ensures ok { OnOk result
        (writes_of (F.shows files.new) file ≡ writes_of (F.shows files.old) file ++ concat pieces.now) }
    ensures err { OnErr result
        ((front : List ℕ) × IsPrefix front (concat pieces.now)
        × (writes_of (F.shows files.new) file ≡ writes_of (F.shows files.old) file ++ front)) }
    ensures out { out_of (F.shows files.new) file ≡ out_of (F.shows files.old) file }
    ensures only { WritesOnly file (F.shows files.old) (F.shows files.new) }
    ensures failed { OnErr result
        ((F.shows files.new).failures ≡ one_more (F.shows files.old).failures) }
    ensures failures { OnOk result ((F.shows files.new).failures ≡ (F.shows files.old).failures) }
{
    let mut left = pieces;
    while let Some((first, after)) = split_first(left) {
        write_all(file, first.bytes(), files)?;
        left = after;
    }
    Ok(())
}
