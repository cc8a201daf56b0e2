// Which way the next phase of a run goes: with workers, or on the caller's thread alone. Both give the same bytes, so the faster one is taken.
ghost use Rattle.std.specs.Prelude.{◌≤◌};

use machine::Machine;
use networks::Network;
use run_types::Statistics;
use std::alloc::Global;
use std::mem;

// After a source had to wait, this many rounds are made on the caller's thread before workers
// begin. In each of them a piece goes the whole way.
const WAITING: usize = 4;

// Phases on the caller's thread count together, until they have taken this many nanoseconds.
const MEASURED: u64 = ALONE_NANOS / 4;

// A single group of stages may get a worker only if the network has more pipes than this, so more than two inputs. For fewer a worker takes more
// processor time than it saves.
const FEW_PIPES: usize = 3;

// Workers are taken if they are faster by more than one part of this many, since they cost more
// processor time.
const GAIN: u64 = 16;

// Trials of the other way lose one part of this many of the time of a run.
const RARELY: u64 = 256;

// After a first lost trial the next one comes once it loses one part of this many. Other work of the machine may have held up its workers. Each trial
// lost after that doubles it, up to RARELY.
const SOON: u64 = 32;

// Parts of a speed are counted in this many.
const SHARE: u64 = 64;

// How many nanoseconds a trial costs at least, since workers begin or end for it.
const SWITCH: u64 = 250_000;

// How many rounds a phase on the caller's thread has at first, and how many nanoseconds it is to take.
const ROUNDS: usize = 4;

const ALONE_NANOS: u64 = 1_000_000;

// How many nanoseconds a trial with workers takes for each of them, since it takes a while until the last one has work.
const BESIDE_NANOS: u64 = 500_000;

// If the phases of one way have taken more nanoseconds than this, the bytes and times of the earlier ones count half.
const WHOLE: u64 = 16_000_000;

/// How a phase goes.
#[derive(Clone, Copy, Debug, PartialEq, Eq)]
pub enum Way {
    /// With a worker for each group, for about this many nanoseconds, if there is a clock.
    Beside(u64),
    /// On the caller's thread alone, in at most this many rounds.
    Alone(usize),
    /// On the caller's thread alone, and only if the next read of a source would wait.
    Waiting,
}

/// What a phase came to.
#[derive(Clone, Copy, Debug, PartialEq, Eq)]
pub struct Tally {
    /// Whether nothing can move before a source has read.
    pub drained: bool,
    /// How many steps of its nodes have moved something.
    pub moved: usize,
    /// How many of its groups got a thread, if it has workers.
    pub threads: Option<usize>,
    /// When it was called, in nanoseconds of the gate's clock, if there is one.
    pub called: Option<u64>,
    /// When its workers had begun.
    pub begun: Option<u64>,
    /// When it had done what it could without waiting.
    pub ended: Option<u64>,
}

impl Tally {
    // Nothing has moved in a phase that was called now, and needs no workers.
    pub(crate) fn new(now: Option<u64>) -> Tally {
        Tally {
            drained: false,
            moved: 0,
            threads: None,
            called: now,
            begun: now,
            ended: None,
        }
    }

    // This many workers had begun at this time, and this many steps moved something: of the caller's nodes, and of the workers'.
    pub(crate) fn with_workers(
        self,
        threads: usize,
        begun: Option<u64>,
        here: usize,
        there: usize,
    ) -> Tally {
        Tally {
            moved: here.wrapping_add(there),
            threads: Some(threads),
            begun,
            ..self
        }
    }

    // How many groups get a thread in the phases after it, at most this many: no more than got one in it.
    pub(crate) fn given(&self, most: usize) -> usize
        ensures { result ≤ most }
    {
        match self.threads {
            Some(threads) => threads.min(most),
            None => most,
        }
    }

    // The phase has done what it could by now, in this many steps more.
    pub(crate) fn ended(self, drained: bool, more: usize, now: Option<u64>) -> Tally {
        Tally {
            drained,
            moved: self.moved.wrapping_add(more),
            ended: now,
            ..self
        }
    }

    // How many nanoseconds its workers took to begin.
    fn starting(&self) -> Option<u64> {
        between(self.called, self.begun)
    }

    // How many it took from then on.
    fn nanos(&self) -> Option<u64> {
        between(self.begun, self.ended)
    }
}

// How many nanoseconds are between these times.
fn between(from: Option<u64>, to: Option<u64>) -> Option<u64> {
    Some(to?.saturating_sub(from?))
}

// How many bytes were put on pipes in the phases of one way, and in how many nanoseconds; none of either if no phase counted.
#[derive(Clone, Copy)]
struct Measured {
    bytes: u64,
    nanos: u64,
}

impl Measured {
    // No phase has counted.
    fn nothing() -> Measured {
        Measured { bytes: 0, nanos: 0 }
    }

    // With a phase that put this many bytes on pipes in this many nanoseconds.
    fn with(self, bytes: u64, nanos: u64) -> Measured {
        let before = if self.nanos > WHOLE {
            self.half()
        } else {
            self
        };
        Measured {
            bytes: before.bytes.saturating_add(bytes),
            nanos: before.nanos.saturating_add(nanos).max(1),
        }
    }

    // Half of its bytes and of its time.
    fn half(self) -> Measured {
        Measured {
            bytes: self.bytes / 2,
            nanos: self.nanos / 2,
        }
    }

    // Whether a phase has counted.
    fn is_known(self) -> bool {
        self.nanos > 0
    }

    // How many bytes went in a second: 1 at least.
    fn speed(self) -> u64 {
        speed_of(self.bytes, self.nanos)
    }
}

// How fast the phases of a run were, by their ways.
#[derive(Drop)]
pub(crate) struct Pace {
    beside: Measured,
    alone: Measured,
    // Whether the caller's thread alone is fast enough, as far as known.
    is_alone: bool,
    // This many nanoseconds are left until the other way is tried.
    left: u64,
    // How many trials were lost one after another.
    lost: u32,
    // How many nanoseconds a trial with workers takes, and how many the last one took.
    trial: u64,
    tried: u64,
    // How many rounds the next phase on the caller's thread has.
    rounds: usize,
    // Whether workers may pay: if not, all is done on the caller's thread.
    may_pay: bool,
    // Whether its inputs are asked for before they are read, so that reads and other work overlap.
    reads_ahead: bool,
    // The phases on the caller's thread that do not count yet.
    some: Measured,
    // What was put on the pipes, and how many bytes of it before the phase.
    carried: Statistics,
    bytes: u64,
}

impl Pace {
    // Nothing is known of a run of this network with this many workers. With a clock the first phase has no workers.
    pub(crate) fn new<M: Machine>(
        alloc: Global,
        network: &Network<M>,
        workers: usize,
        has_clock: bool,
    ) -> Pace {
        let trial = BESIDE_NANOS.saturating_mul(workers as u64);
        let pipes = pipes_of(network);
        let may_pay = workers > 1 || (workers == 1 && pipes > FEW_PIPES);
        Pace {
            beside: Measured::nothing(),
            alone: Measured::nothing(),
            is_alone: has_clock,
            left: u64::MAX,
            lost: 0,
            trial,
            tried: trial,
            rounds: ROUNDS,
            may_pay,
            reads_ahead: may_pay || workers == 0 || !has_clock,
            some: Measured::nothing(),
            carried: Statistics::new(alloc, pipes, 0),
            bytes: 0,
        }
    }

    // Whether inputs that may wait are asked for before they are read. If a single group computes, the caller reads them itself: its work leaves
    // little to overlap with, and a thread costs more. If no stage computes, reads and writes are all the work.
    pub(crate) fn reads_ahead(&self) -> bool {
        self.reads_ahead
    }

    // A phase of this network begins.
    pub(crate) fn begin<M: Machine>(&mut self, network: &Network<M>) {
        self.bytes = self.bytes_of(network);
    }

    // How the phase after this one goes, which went this way, came to this, and left this network. This many groups may have a worker in it.
    pub(crate) fn after<M: Machine>(
        &mut self,
        way: Way,
        tally: Tally,
        network: &Network<M>,
        groups: usize,
    ) -> Way {
        if let Some(nanos) = tally.nanos() {
            let bytes = self.bytes_of(network).saturating_sub(self.bytes);
            match way {
                Way::Beside(_) => self.note_beside(bytes, nanos, tally.starting().unwrap_or(0)),
                Way::Alone(_) if tally.moved > 0 => self.note_alone(bytes, nanos, tally.drained),
                _ => {}
            }
        }
        match (tally.drained, groups) {
            (true, _) => Way::Alone(WAITING),
            (false, 0) => Way::Alone(self.rounds),
            (false, _) => self.next_way(),
        }
    }

    // How the next phase goes, if something may move in it.
    fn next_way(&self) -> Way {
        match (self.is_alone, self.left) {
            (true, 0) => Way::Beside(self.trial),
            (false, 0) | (true, _) => Way::Alone(self.rounds),
            (false, left) => Way::Beside(left),
        }
    }

    // How many bytes were put on the pipes of this network so far.
    fn bytes_of<M: Machine>(&mut self, network: &Network<M>) -> u64 {
        network.statistics(&mut self.carried);
        let mut bytes = 0u64;
        for amount in self.carried.amounts.as_slice() {
            bytes = bytes.saturating_add(amount.bytes);
        }
        bytes
    }

    // Whether a phase that went this way was a trial of the other way.
    fn is_trial(&self, was_alone: bool) -> bool {
        self.left == 0 && self.is_alone != was_alone
    }

    // Notes what a phase with workers put on pipes, in how many nanoseconds, and how many its workers had taken to begin.
    fn note_beside(&mut self, bytes: u64, nanos: u64, starting: u64) {
        let all = nanos.saturating_add(starting);
        let is_trial = self.is_trial(false);
        if is_trial {
            // What its beginning costs in a long phase does not show in a short one.
            self.beside = Measured::nothing().with(bytes, nanos);
            self.tried = all;
        } else {
            self.beside = self.beside.with(bytes, all);
        }
        self.choose(is_trial, all);
    }

    // Notes what a phase on the caller's thread put on pipes, in how many nanoseconds, and whether it ended before its rounds did.
    fn note_alone(&mut self, bytes: u64, nanos: u64, drained: bool) {
        if !drained {
            self.fit_rounds(nanos);
        }
        self.some = self.some.with(bytes, nanos);
        if self.may_pay && self.some.nanos >= MEASURED {
            let some = mem::replace(&mut self.some, Measured::nothing());
            self.count_alone(some);
        }
    }

    // Doubles or halves the rounds of a phase on the caller's thread, by how many nanoseconds the last one took.
    fn fit_rounds(&mut self, nanos: u64) {
        if nanos < ALONE_NANOS / 2 {
            self.rounds = self.rounds.saturating_mul(2);
        } else if nanos > ALONE_NANOS * 2 {
            self.rounds = (self.rounds / 2).max(ROUNDS);
        }
    }

    // Counts some phases on the caller's thread.
    fn count_alone(&mut self, some: Measured) {
        let is_trial = self.is_trial(true);
        self.alone = if is_trial {
            some
        } else {
            self.alone.with(some.bytes, some.nanos)
        };
        self.choose(is_trial, some.nanos);
    }

    // Takes the better way after a phase of this many nanoseconds, which was a trial or not, and says when the other one is tried again.
    fn choose(&mut self, is_trial: bool, nanos: u64) {
        if !self.beside.is_known() || !self.alone.is_known() {
            self.left = 0;
            return;
        }
        let alone = self.alone.speed();
        let is_alone = self.beside.speed() <= alone.saturating_add(alone / GAIN);
        if is_alone != self.is_alone || is_trial {
            self.lost = if is_alone == self.is_alone {
                self.lost.saturating_add(1)
            } else {
                0
            };
            self.is_alone = is_alone;
            self.left = self.trial_loss().saturating_mul(self.rarely());
        } else if self.left > nanos.saturating_add(ALONE_NANOS) {
            self.left -= nanos;
        } else {
            self.left = 0;
        }
    }

    // The next trial loses one part of this many of the time until then, by how many trials were lost one after another.
    fn rarely(&self) -> u64 {
        match self.lost {
            1 => SOON,
            2 => SOON * 2,
            3 => SOON * 4,
            _ => RARELY,
        }
    }

    // About how many nanoseconds a trial of the other way takes more than its work does the better way.
    fn trial_loss(&self) -> u64 {
        let beside = self.beside.speed();
        let alone = self.alone.speed();
        let loss = if self.is_alone {
            (self.tried / SHARE).saturating_mul(lag(beside, alone))
        } else {
            (ALONE_NANOS / SHARE).saturating_mul(lag(alone, beside))
        };
        loss.saturating_add(SWITCH)
    }
}

// How many pipes a network has.
fn pipes_of<M: Machine>(network: &Network<M>) -> usize {
    for pipe in 0..usize::MAX {
        if network.capacity(pipe) == 0 {
            return pipe;
        }
    }
    usize::MAX
}

// By how many parts of SHARE a speed is less than a better one.
fn lag(speed: u64, better: u64) -> u64 {
    (better.saturating_sub(speed) / (better / SHARE).max(1)).min(SHARE)
}

// How many bytes went in a second, by how many did in how many nanoseconds: 1 at least.
fn speed_of(bytes: u64, nanos: u64) -> u64 {
    (bytes.saturating_mul(1_000_000) / (nanos / 1_000).max(1)).max(1)
}
