// The bytes that went through an open file. Only proofs read this list; it takes no memory.
ghost use Rattle.std.specs.Prelude.{◌≡◌, ℕ, List, [], ◌++◌, take};
ghost use Rattle.std.specs.Borrow.{ftrue};
ghost use Rattle.std.specs.List.{concat};
ghost use Rattle.collector.specs.Files.{batch_bytes};

use collector::Batch;
use machine::{Piece, prefix, split_first};
use std::marker::Model;

/// The bytes that went through an open file, in their order. It takes no memory: contracts alone know them.
#[derive(Drop)]
pub struct Passed {
    /// These bytes.
    pub ghost bytes: { List ℕ },
}

impl Model for Passed {
    ghost also_owns = { λ _. ftrue };
}

impl Passed {
    /// Nothing went through.
    pub fn new() -> Passed
        ensures { result.bytes ≡ [] }
    {
        Passed {}
    }

    /// Notes that these bytes went through after the others.
    pub fn note(&mut self, _bytes: &[u8])
        ensures { self.new.bytes ≡ self.old.bytes ++ _bytes.now }
    {}
}

// Notes that the first bytes of this batch, this many, went through after the others.
pub(crate) fn note_batch(passed: &mut Passed, batch: &Batch, count: usize)
    ensures { passed.new.bytes ≡ passed.old.bytes ++ take count (batch_bytes batch.now) }
{
    match batch {
        Batch::Joined(bytes) => passed.note(prefix(bytes.as_slice(), count)),
        Batch::Single(piece) => passed.note(prefix(piece.bytes(), count)),
        Batch::Several(pieces) => note_pieces(passed, pieces.as_slice(), count),
    }
}

// Notes that the first bytes of these pieces, this many, went through after the others.
fn note_pieces(passed: &mut Passed, pieces: &[Piece], count: usize)
    ensures { passed.new.bytes ≡ passed.old.bytes ++ take count (concat pieces.now) }
{
    let mut left = pieces;
    let mut count = count;
    while let Some((first, after)) = split_first(left) {
        passed.note(prefix(first.bytes(), count));
        count = count.saturating_sub(first.len());
        left = after;
    }
}
