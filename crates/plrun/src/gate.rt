use std::marker::Sync;
use std::rt::Clock;
use workers::{Gate, Timed};

/// The gate of a run: it lets everyone pass, has the clock of a runtime, and measures the time of each command if that is to be shown.
#[derive(Clone, Copy)]
pub(crate) struct RunGate<R: Clock + Sync> {
    clock: Timed<R>,
    times: bool,
    // Whether the run goes on without a thread that is refused.
    fits: bool,
}

impl<R: Clock + Sync> RunGate<R> {
    /// A gate with this clock.
    pub(crate) fn new(rt: R, times: bool, fits: bool) -> RunGate<R> {
        RunGate {
            clock: Timed(rt),
            times,
            fits,
        }
    }
}

impl<R: Clock + Sync> Gate for RunGate<R> {
    fn pass(&self, _worker: usize, _turn: usize) {}

    fn may_begin(&self, _worker: usize) -> bool {
        true
    }

    fn goes_on_without(&self) -> bool {
        self.fits
    }

    fn nanos(&self) -> Option<u64> {
        self.clock.nanos()
    }

    fn step_nanos(&self) -> Option<u64> {
        if self.times { self.clock.nanos() } else { None }
    }
}
