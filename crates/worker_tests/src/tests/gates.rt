// Gates that hold workers back, count what they do, or refuse them a thread.
use std::hint;
use std::sync::atomic::AtomicUsize;
use std::sync::atomic::Ordering::SeqCst;
use workers::Gate;

// How often a worker looks for another one at most.
const LOOKS: usize = 100_000_000;

// Holds each worker back before each turn, for as many looks as its seed gives this worker and turn.
#[derive(Drop)]
pub(super) struct Delays {
    pub(super) seed: usize,
    looks: AtomicUsize,
}

impl Delays {
    pub(super) fn new(seed: usize) -> Delays {
        Delays {
            seed,
            looks: AtomicUsize::new(0),
        }
    }
}

impl Gate for Delays {
    fn pass(&self, worker: usize, turn: usize) {
        for _ in 0..delay(self.seed, worker, turn) {
            let _looks = self.looks.load(SeqCst);
        }
    }

    fn may_begin(&self, _worker: usize) -> bool {
        true
    }
}

// A number up to 2,000, of a linear congruential generator.
fn delay(seed: usize, worker: usize, turn: usize) -> usize {
    let mut state = seed;
    for part in [worker, turn, seed] {
        state = state
            .wrapping_add(part)
            .wrapping_mul(6364136223846793005)
            .wrapping_add(1442695040888963407);
    }
    (state >> 33) % 2001
}

// Lets everyone pass, with a clock by which now the workers are faster and now the caller's thread alone. Each look at it takes a half to one
// millisecond. Steps are timed by it too. It counts the phases with workers.
#[derive(Drop)]
pub(super) struct Ticks {
    seed: usize,
    looks: AtomicUsize,
    phases: AtomicUsize,
}

impl Ticks {
    pub(super) fn new(seed: usize) -> Ticks {
        Ticks {
            seed,
            looks: AtomicUsize::new(0),
            phases: AtomicUsize::new(0),
        }
    }

    // How many phases with workers there were so far.
    pub(super) fn phases(&self) -> usize {
        self.phases.load(SeqCst)
    }
}

impl Gate for Ticks {
    fn pass(&self, _worker: usize, _turn: usize) {}

    fn may_begin(&self, worker: usize) -> bool {
        if worker == 0 {
            self.phases.fetch_add(1, SeqCst);
        }
        true
    }

    fn nanos(&self) -> Option<u64> {
        let look = self.looks.fetch_add(1, SeqCst);
        let time = look
            .wrapping_mul(500_001)
            .wrapping_add(delay(self.seed, 0, look).wrapping_mul(250));
        Some(time as u64)
    }

    fn step_nanos(&self) -> Option<u64> {
        self.nanos()
    }
}

// The place at which one of two workers waits.
#[derive(Drop)]
struct Place {
    // 1 once it has come.
    came: AtomicUsize,
    // How often it saw the other one.
    met: AtomicUsize,
    // How often it looked in vain.
    missed: AtomicUsize,
}

impl Place {
    fn new() -> Place {
        Place {
            came: AtomicUsize::new(0),
            met: AtomicUsize::new(0),
            missed: AtomicUsize::new(0),
        }
    }

    // Whether someone has come here, who may be waited for.
    fn is_taken(&self) -> bool {
        for _ in 0..LOOKS {
            if self.came.load(SeqCst) == 1 {
                return true;
            }
            hint::spin_loop();
        }
        false
    }

    // Comes here, and waits for the other one.
    fn meet(&self, other: &Place) {
        self.came.store(1, SeqCst);
        if other.is_taken() {
            self.met.fetch_add(1, SeqCst);
        } else {
            self.missed.fetch_add(1, SeqCst);
        }
    }

    fn has_met(&self) -> bool {
        self.met.load(SeqCst) > 0 && self.missed.load(SeqCst) == 0
    }
}

// Holds each of two workers before its first turn until the other one has come.
#[derive(Drop)]
pub(super) struct Meeting {
    one: Place,
    other: Place,
}

impl Meeting {
    pub(super) fn new() -> Meeting {
        Meeting {
            one: Place::new(),
            other: Place::new(),
        }
    }

    // Whether each saw the other one, whenever it looked.
    pub(super) fn have_met(&self) -> bool {
        self.one.has_met() && self.other.has_met()
    }
}

impl Gate for Meeting {
    fn pass(&self, worker: usize, turn: usize) {
        if turn == 0 && worker == 0 {
            self.one.meet(&self.other);
        }
        if turn == 0 && worker == 1 {
            self.other.meet(&self.one);
        }
    }

    fn may_begin(&self, _worker: usize) -> bool {
        true
    }
}

// How many phases there were, how many workers began in them, and how many first and other turns these took.
#[derive(Clone, Copy)]
pub(super) struct Counted {
    pub(super) phases: usize,
    pub(super) begun: usize,
    pub(super) first_turns: usize,
    pub(super) later_turns: usize,
}

// Gives a thread to every worker, and counts.
#[derive(Drop)]
pub(super) struct Counts {
    phases: AtomicUsize,
    begun: AtomicUsize,
    first_turns: AtomicUsize,
    later_turns: AtomicUsize,
}

impl Counts {
    pub(super) fn new() -> Counts {
        Counts {
            phases: AtomicUsize::new(0),
            begun: AtomicUsize::new(0),
            first_turns: AtomicUsize::new(0),
            later_turns: AtomicUsize::new(0),
        }
    }

    // What was counted so far.
    pub(super) fn counted(&self) -> Counted {
        Counted {
            phases: self.phases.load(SeqCst),
            begun: self.begun.load(SeqCst),
            first_turns: self.first_turns.load(SeqCst),
            later_turns: self.later_turns.load(SeqCst),
        }
    }
}

impl Gate for Counts {
    fn pass(&self, _worker: usize, turn: usize) {
        let turns = if turn == 0 {
            &self.first_turns
        } else {
            &self.later_turns
        };
        turns.fetch_add(1, SeqCst);
    }

    fn may_begin(&self, worker: usize) -> bool {
        if worker == 0 {
            self.phases.fetch_add(1, SeqCst);
        }
        self.begun.fetch_add(1, SeqCst);
        true
    }
}

// Gives one worker a thread in this many phases, and then none.
#[derive(Drop)]
pub(super) struct Refuses {
    worker: usize,
    granted: usize,
    asked: AtomicUsize,
}

impl Refuses {
    pub(super) fn new(worker: usize, granted: usize) -> Refuses {
        Refuses {
            worker,
            granted,
            asked: AtomicUsize::new(0),
        }
    }
}

impl Gate for Refuses {
    fn pass(&self, _worker: usize, _turn: usize) {}

    fn may_begin(&self, worker: usize) -> bool {
        worker != self.worker || self.asked.fetch_add(1, SeqCst) < self.granted
    }
}

// The same, and the run goes on without the thread.
#[derive(Drop)]
pub(super) struct DoesWithout(pub(super) Refuses);

impl Gate for DoesWithout {
    fn pass(&self, worker: usize, turn: usize) {
        self.0.pass(worker, turn);
    }

    fn may_begin(&self, worker: usize) -> bool {
        self.0.may_begin(worker)
    }

    fn goes_on_without(&self) -> bool {
        true
    }
}
