/// How much went into a pipe, each number up to 2^64 - 1. No clause speaks of it.
#[derive(Clone, Copy, Debug, PartialEq, Eq)]
pub struct Amounts {
    /// How many pieces were put.
    pub pieces: u64,
    /// How many bytes they have together.
    pub bytes: u64,
}

impl Amounts {
    /// Nothing was put.
    pub const NONE: Amounts = Amounts {
        pieces: 0,
        bytes: 0,
    };

    // Adds an item of this size. A piece has at least one byte, and Close has none.
    pub(crate) fn add(&mut self, size: u64) {
        self.pieces = self.pieces.saturating_add(u64::from(size > 0));
        self.bytes = self.bytes.saturating_add(size);
    }
}
