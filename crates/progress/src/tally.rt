ghost use Rattle.std.specs.Prelude.{◌≡◌, ◌+◌, ◌^◌, ◌-◌, min};
ghost use Rattle.progress.specs.inner.Tallies.{more, with_input};

/// How many bytes were read and written, how many the inputs have, and how often a pipe grew: each up to 2^64 - 1.
#[derive(Clone, Copy, Debug, PartialEq, Eq)]
pub struct Tally {
    /// How many were read.
    pub read: u64,
    /// How many were written.
    pub written: u64,
    /// How many the inputs have together. None if that is not known of each.
    pub whole: Option<u64>,
    /// How often a pipe grew.
    pub growths: u64,
}

impl Tally {
    /// Nothing was opened, read or written.
    pub fn new() -> Tally
        ensures { result ≡ record { read = 0; written = 0; whole = Some 0; growths = 0 } }
    {
        Tally {
            read: 0,
            written: 0,
            whole: Some(0),
            growths: 0,
        }
    }

    /// Counts an input of this size, if it is known. A size of 0 is none: files that the system
    /// makes as they are read say so.
    pub fn add_input(&mut self, size: Option<u64>)
        ensures { self.new ≡ record self.old { whole = with_input self.old.whole size } }
    {
        self.whole = match (self.whole, size) {
            (Some(whole), Some(size)) if size > 0 => Some(whole.saturating_add(size)),
            _ => None,
        };
    }

    /// Counts bytes that were read.
    pub fn add_read(&mut self, count: usize)
        ensures { self.new ≡ record self.old { read = more self.old.read count } }
    {
        self.read = self.read.saturating_add(count as u64);
    }

    /// Counts bytes that were written.
    pub fn add_written(&mut self, count: usize)
        ensures { self.new ≡ record self.old { written = more self.old.written count } }
    {
        self.written = self.written.saturating_add(count as u64);
    }

    /// Counts a growth of a pipe.
    pub fn add_growth(&mut self)
        ensures { self.new ≡ record self.old { growths = more self.old.growths 1 } }
    {
        self.growths = self.growths.saturating_add(1);
    }
}
