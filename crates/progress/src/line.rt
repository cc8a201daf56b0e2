ghost use Rattle.std.specs.Prelude.{◌≡◌};
ghost use Rattle.progress.specs.inner.Rates.{rate_of, seconds_left_of, seconds_of, share_of};

use crate::amounts::{Bytes, Seconds};
use crate::tally::Tally;
use std::fmt;

/// What is printed of a run: how much was read and written, and how fast it was read. If the sizes of all inputs are known, it has the
/// share that was read, and how long the rest takes at this rate. If pipes grew, it has how often in place of the time: the run
/// stops for each growth, so the rate tells little. It has fewer than 80 bytes.
#[derive(Clone, Copy, Debug, PartialEq, Eq)]
pub struct Line {
    /// What was read and written so far.
    pub tally: Tally,
    /// How many milliseconds the run has taken so far.
    pub millis: u64,
}

impl Line {
    /// How many bytes were read in a second, over the whole run.
    pub fn rate(&self) -> u64
        ensures { result ≡ rate_of self.now.tally.read self.now.millis }
    {
        let rate = self.tally.read as u128 * 1_000 / self.millis.max(1) as u128;
        u64::try_from(rate).unwrap_or(u64::MAX)
    }

    /// The share of the inputs that was read, in hundredths; all of it if more was read, as of a
    /// file that grows.
    pub fn share(&self) -> Option<u64>
        ensures { result ≡ share_of self.now.tally.read self.now.tally.whole }
    {
        match self.tally.whole {
            Some(whole) if whole > 0 => {
                let share = self.tally.read as u128 * 100 / whole as u128;
                Some(share.min(100) as u64)
            }
            _ => None,
        }
    }

    // Writes how long the rest takes, if the share that was read is known.
    fn write_left<W: fmt::Write>(&self, f: &mut fmt::Formatter<W>) -> fmt::Result {
        match (self.share(), self.seconds_left()) {
            (Some(_), Some(seconds)) => write!(f, ", {} left", Seconds(seconds)),
            _ => Ok(()),
        }
    }

    // How many seconds the rest takes, rounded up, if that can be told.
    fn seconds_left(&self) -> Option<u64>
        ensures { result ≡ seconds_left_of self.now.tally.whole self.now.tally.read
            (rate_of self.now.tally.read self.now.millis) }
    {
        match self.tally.whole {
            Some(whole) => seconds_for(whole.saturating_sub(self.tally.read), self.rate()),
            None => None,
        }
    }
}

// How many seconds a rest takes at this rate, rounded up. None if the rate is 0.
fn seconds_for(rest: u64, rate: u64) -> Option<u64>
    ensures { result ≡ seconds_of rest rate }
{
    if rate == 0 {
        None
    } else {
        Some(rest.div_ceil(rate))
    }
}

impl fmt::Display for Line {
    fn fmt<W: fmt::Write>(&self, f: &mut fmt::Formatter<W>) -> fmt::Result {
        let read = Bytes(self.tally.read);
        let written = Bytes(self.tally.written);
        let rate = Bytes(self.rate());
        write!(f, "plrun: read {read}, written {written}, {rate}/s")?;
        if let Some(share) = self.share() {
            write!(f, ", {share}%")?;
        }
        match self.tally.growths {
            0 => self.write_left(f),
            1 => write!(f, ", 1 growth"),
            growths => write!(f, ", {growths} growths"),
        }
    }
}
