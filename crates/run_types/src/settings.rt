ghost use Rattle.std.specs.Prelude.{◌≤◌};

/// The limits that a run keeps.
#[derive(Clone, Copy, Debug, PartialEq, Eq)]
pub struct Settings {
    /// How many threads run the stages at most, 1 to 16.
    pub workers: usize,
    /// Whether no more threads run them than pay: than stages that compute, and processors that are left.
    pub fits_workers: bool,
    /// How many items a pipe holds, 1 to 4,096.
    pub capacity: usize,
    /// How many items a pipe may grow to hold, from the capacity to 4,096.
    pub max_capacity: usize,
    /// How many bytes a pipe holds, from the block to 268,435,456.
    pub bytes: usize,
    /// How many bytes a piece or a read has at most, 1 to 65,536.
    pub block: usize,
    /// How many bytes the first read of an input asks for, 1 to the block. Later ones may ask for more.
    pub first_read: usize,
    /// How many turns a worker takes in a phase at most, 1 to 1,000,000.
    pub turns: usize,
    ghost few_workers: { (1 ≤ workers) × (workers ≤ 16) },
    ghost small_pipes: { (1 ≤ capacity) × (capacity ≤ 4096) },
    ghost growing_pipes: { (1 ≤ max_capacity) × (max_capacity ≤ 4096) },
    ghost ordered_capacities: { capacity ≤ max_capacity },
    ghost light_pipes: { (1 ≤ bytes) × (bytes ≤ 268435456) },
    ghost short_pieces: { (1 ≤ block) × (block ≤ 65536) },
    ghost roomy_pipes: { block ≤ bytes },
    ghost short_first_read: { (1 ≤ first_read) × (first_read ≤ block) },
    ghost some_turns: { (1 ≤ turns) × (turns ≤ 1000000) },
}
