// The reads, or the writes, of files in memory.
#[derive(Clone, Copy, Debug)]
pub(crate) struct Calls {
    // How many there were, up to 2^64 - 1.
    pub(crate) made: u64,
    // Which of them fails, counted from 1.
    pub(crate) failing: Option<u64>,
    // The most bytes that one of them gives or takes.
    pub(crate) most: usize,
}

impl Calls {
    ghost use Rattle.std.specs.Prelude.{◌≡◌, ◌-◌, ◌^◌, None};
    ghost use Rattle.file_stores.specs.inner.Counts.{one_call, is_failing};

    pub(crate) fn new() -> Calls
        ensures { result ≡ record { made = 0; failing = None; most = 2 ^ 64 - 1 } }
    {
        Calls {
            made: 0,
            failing: None,
            most: usize::MAX,
        }
    }

    // Counts one more. Returns whether it is to fail.
    pub(crate) fn begin(&mut self) -> bool
        ensures after { self.new ≡ one_call self.old }
        ensures fails { result ≡ is_failing self.old }
    {
        self.made = self.made.saturating_add(1);
        self.failing == Some(self.made)
    }
}
