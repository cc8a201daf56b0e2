ghost use Rattle.std.specs.Prelude.{◌≡◌, length, max};

use machine::Piece;

// How many bytes the longest piece that came has, or 0. Only `note` changes it.
#[derive(Drop)]
pub(crate) struct LongestPiece {
    bytes: usize,
}

impl LongestPiece {
    // No piece came.
    pub(crate) fn new() -> LongestPiece
        ensures { result.bytes ≡ 0 }
    {
        LongestPiece { bytes: 0 }
    }

    // One more came.
    pub(crate) fn note(&mut self, piece: &Piece)
        ensures { self.new.bytes ≡ max self.old.bytes (length piece.now) }
    {
        self.bytes = self.bytes.max(piece.len());
    }
}
