// Reads and turns that wait for one another: the workers step the stages while the caller reads,
// and what is read reaches them then.
use super::rows::{BYTES_MAX, plan_of};
use super::*;
use collector::{Batch, Files, IoFailed, NotOpened, Readiness};
use file_stores::MemoryFiles;
use machine::NoMemory;
use network_laws::Outcome;
use openings::open;
use plan_runs::run_plan;
use run_types::{InName, OutName, Placing, Settings};
use std::hint;
use std::process::Abort;
use std::sync::Wait;
use std::sync::atomic::AtomicUsize;
use std::sync::atomic::Ordering::SeqCst;
use std::thread::Threads;
use workers::Gate;

// How often one looks for another at most.
const LOOKS: usize = 100_000_000;

// How far the reads and the turns of the first worker have come, in the first phase.
#[derive(Drop)]
struct Marks {
    // How many reads have begun.
    reads: AtomicUsize,
    // How many turns the first worker has begun.
    turns: AtomicUsize,
    // How many of the three that were waited for have come.
    seen: AtomicUsize,
    // How much came that should not have: a write before the first turn, a fourth read while nothing more was taken.
    early: AtomicUsize,
}

impl Marks {
    fn new() -> Marks {
        Marks {
            reads: AtomicUsize::new(0),
            turns: AtomicUsize::new(0),
            seen: AtomicUsize::new(0),
            early: AtomicUsize::new(0),
        }
    }

    // Waits until there were this many.
    fn wait_for(&self, count: &AtomicUsize, most: usize) {
        if comes_to(count, most) {
            self.seen.fetch_add(1, SeqCst);
        }
    }

    // The first worker waits at its first turn, until the second read has begun.
    fn first_turn(&self) {
        self.wait_for(&self.reads, 2);
        self.turns.store(1, SeqCst);
    }

    // It waits at its second turn, until the third read has begun, and then for a while in which no
    // other read may begin.
    fn second_turn(&self) {
        self.turns.store(2, SeqCst);
        self.wait_for(&self.reads, 3);
        if comes_to(&self.reads, 4) {
            self.early.fetch_add(1, SeqCst);
        }
        self.turns.store(3, SeqCst);
    }

    // A read begins. The second one waits until the first worker is at its second turn.
    fn read_begins(&self) {
        if self.reads.fetch_add(1, SeqCst) == 1 {
            self.wait_for(&self.turns, 2);
        }
    }

    // A write begins.
    fn write_begins(&self) {
        if self.turns.load(SeqCst) == 0 {
            self.early.fetch_add(1, SeqCst);
        }
    }
}

// Whether there are this many before one has looked too often.
fn comes_to(count: &AtomicUsize, most: usize) -> bool {
    for _ in 0..LOOKS {
        if count.load(SeqCst) >= most {
            return true;
        }
        hint::spin_loop();
    }
    false
}

impl Gate for Marks {
    fn pass(&self, worker: usize, turn: usize) {
        match (worker, turn, self.turns.load(SeqCst)) {
            (0, 0, 0) => self.first_turn(),
            (0, 1, 1) => self.second_turn(),
            _ => {}
        }
    }

    fn may_begin(&self, _worker: usize) -> bool {
        true
    }
}

// Files in memory whose reads and writes are marked as they begin.
#[derive(Drop)]
struct HeldFiles<'a> {
    files: MemoryFiles,
    marks: &'a Marks,
}

impl Files for HeldFiles<'_> {
    ghost use Rattle.std.specs.Prelude.{true};
    ghost use Rattle.file_stores.specs.inner.Memory.{shown_files};

    ghost contents_known = { true };

    ghost shows = { λ held. shown_files held.files };

    fn open_in(&mut self, name: &InName) -> Result<usize, NotOpened> {
        self.files.open_in(name)
    }

    fn leave_rest(&mut self, file: usize, lines: u64) {
        self.files.leave_rest(file, lines);
    }

    fn begin_outputs(&mut self, placing: Placing) -> Result<(), NoMemory> {
        self.files.begin_outputs(placing)
    }

    fn put_in_place(&mut self, file: usize) -> Result<(), IoFailed> {
        self.files.put_in_place(file)
    }

    fn leave_outputs(&mut self) {
        self.files.leave_outputs();
    }

    fn open_out(&mut self, name: &OutName) -> Result<usize, NotOpened> {
        self.files.open_out(name)
    }

    fn read(&mut self, file: usize, into: &mut [u8]) -> Result<usize, IoFailed> {
        self.marks.read_begins();
        self.files.read(file, into)
    }

    fn write(&mut self, file: usize, from: &[u8]) -> Result<usize, IoFailed> {
        self.marks.write_begins();
        self.files.write(file, from)
    }

    fn settle(&mut self, file: usize) -> Result<Option<Batch>, IoFailed> {
        self.files.settle(file)
    }

    fn failures(&self) -> u64 {
        self.files.failures()
    }
}

impl Readiness for HeldFiles<'_> {}

// Runs a script of two stages over these files.
fn run_held<R: Threads + Wait + Sync, F: Readiness>(
    rt: &R,
    alloc: Global,
    files: &mut F,
    marks: &Marks,
) -> Result<Outcome, Fail> {
    let settings = Settings {
        workers: 2,
        fits_workers: false,
        capacity: 1,
        max_capacity: 4096,
        bytes: BYTES_MAX,
        block: 1,
        first_read: 1,
        turns: 1024,
    };
    let plan = plan_of(alloc, "tr a-z A-Z | cat")?;
    let opened = open(alloc, &plan, files)?;
    Ok(run_plan(rt, alloc, &plan, &opened, files, settings, marks).outcome)
}

// The third read needs that the first worker took a byte in its first turn. A fourth one would need that somebody took another, while
// the worker is held.
#[test]
fn a_read_waits_for_a_turn(rt: HostRuntime) -> Result<(), Fail> {
    let marks = Marks::new();
    let mut files = HeldFiles {
        files: MemoryFiles::new(rt.alloc()),
        marks: &marks,
    };
    files.files.set_input(b"xyz\n")?;
    let outcome = run_held(&rt, rt.alloc(), &mut files, &marks)?;
    assert!(rt; matches!(outcome, Outcome::Finished { status: 0 }));
    assert_eq!(rt; files.files.output(), b"XYZ\n".as_slice());
    assert_eq!(rt; (marks.seen.load(SeqCst), marks.early.load(SeqCst)), (3, 0));
    Ok(())
}
