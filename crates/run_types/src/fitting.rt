// The limits of a run with many pipes.
ghost use Rattle.std.specs.Prelude.{ℕ, ◌≤◌, ◌-◌, ◌+◌, ◌*◌};
ghost use Rattle.run_types.specs.Limits.{FitIn, FitsPipes};

use crate::settings::Settings;

// How many bytes the pieces of a run may have together beyond those of pieces that are as long as a first read: 16 MiB.
const ROOM: usize = 16_777_216;

// For how many pieces there is memory next to a pipe, besides those that it holds: three that are to be put, one that was taken, one that is
// joined for a write, and two whose memory is used again.
const OUTSIDE: usize = 7;

impl Settings {
    /// The same settings for a run with this many pipes. Its pieces are only as much shorter as they must be, so that all of them together
    /// have at most 16 MiB more than pieces that are as long as a first read.
    pub fn for_pipes(self, pipes: usize) -> Settings
        ensures { FitsPipes pipes self result }
    {
        Settings {
            workers: self.workers,
            fits_workers: self.fits_workers,
            capacity: self.capacity,
            max_capacity: self.max_capacity,
            bytes: self.bytes,
            block: self.fitting_block(pipes),
            first_read: self.first_read,
            turns: self.turns,
        }
    }

    // The greatest length with which the pieces of such a run fit in, in bytes.
    fn fitting_block(self, pipes: usize) -> usize
        ensures within { (self.first_read ≤ result) × (result ≤ self.block) }
        ensures few { FitIn pipes self result }
        ensures most { (longer : ℕ) → longer ≤ self.block → FitIn pipes self longer
            → longer ≤ result }
    {
        match pipes.checked_mul(self.capacity + OUTSIDE) {
            Some(0) => self.block,
            Some(pieces) => self.block.min(self.first_read + ROOM / pieces),
            None => self.first_read,
        }
    }
}
