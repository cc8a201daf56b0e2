use stages::StepClock;
use std::marker::Sync;
use std::rt::Clock;

/// What the workers of a run have to pass, and the clock of the run. A test can hold a worker here, or refuse it a thread.
pub trait Gate: Sync {
    /// Returns when this worker may begin its turn with this number. Workers and turns count from 0, turns anew in each phase.
    fn pass(&self, worker: usize, turn: usize);

    /// Whether this worker may have a thread. If it may not, the phase ends as it does if the
    /// system gives none.
    fn may_begin(&self, worker: usize) -> bool;

    /// Whether a run goes on if a worker gets no thread. If it does not, that is a want of memory.
    fn goes_on_without(&self) -> bool {
        false
    }

    /// The nanoseconds since some start, if there is a clock. By it a run finds out whether its workers pay.
    fn nanos(&self) -> Option<u64> {
        None
    }

    /// The same, if the time of each command is to be measured.
    fn step_nanos(&self) -> Option<u64> {
        None
    }
}

// The clock of a gate, for the time of the stages.
#[derive(Drop)]
pub(crate) struct GateClock<'a, G: Gate>(pub(crate) &'a G);

impl<'a, G: Gate> StepClock for GateClock<'a, G> {
    fn nanos(&self) -> Option<u64> {
        self.0.step_nanos()
    }
}

/// The gate that lets everyone pass, and has no clock.
#[derive(Clone, Copy, Debug, PartialEq, Eq)]
pub struct Open;

impl Gate for Open {
    fn pass(&self, _worker: usize, _turn: usize) {}

    fn may_begin(&self, _worker: usize) -> bool {
        true
    }
}

/// The gate that lets everyone pass, with the clock of a runtime.
#[derive(Clone, Copy)]
pub struct Timed<R: Clock + Sync>(pub R);

impl<R: Clock + Sync> Gate for Timed<R> {
    fn pass(&self, _worker: usize, _turn: usize) {}

    fn may_begin(&self, _worker: usize) -> bool {
        true
    }

    fn nanos(&self) -> Option<u64> {
        let time = self.0.monotonic().ok()?;
        u64::try_from(time.as_nanos()).ok()
    }
}
