/// A clock for the time that the steps of stages take.
pub trait StepClock {
    /// The nanoseconds since some start, if the time is to be measured.
    fn nanos(&self) -> Option<u64>;
}

/// No clock: no time is measured.
#[derive(Clone, Copy, Debug, PartialEq, Eq)]
pub struct NoClock;

impl StepClock for NoClock {
    fn nanos(&self) -> Option<u64> {
        None
    }
}
