// Inputs that are silent for a while: none is read while its read would wait, and one that is silent holds up no other.
use super::rows::{BYTES_MAX, plan_of};
use super::*;
use collector::{Batch, Files, IoFailed, NotOpened, Readiness};
use file_stores::MemoryFiles;
use machine::NoMemory;
use network_laws::Outcome;
use openings::open;
use plan_runs::run_plan;
use run_types::{InName, OutName, Placing, Settings};
use std::process::Abort;
use std::sync::Wait;
use std::thread::Threads;
use workers::Open;

// The numbers of the two inputs, in the order of their openings.
const SILENT: usize = 0;

const OTHER: usize = 1;

// Files in memory. The first input is silent until the second one is at its end.
#[derive(Drop)]
struct SilentFiles {
    files: MemoryFiles,
    // Whether the second input was read to its end.
    is_read: bool,
    // How many reads of the first one began before that.
    early: usize,
}

impl SilentFiles {
    // Whether this input is silent.
    fn is_silent(&self, file: usize) -> bool {
        file == SILENT && !self.is_read
    }
}

impl Files for SilentFiles {
    ghost use Rattle.std.specs.Prelude.{true};
    ghost use Rattle.file_stores.specs.inner.Memory.{shown_files};

    ghost contents_known = { true };

    ghost shows = { λ silent. shown_files silent.files };

    fn open_in(&mut self, name: &InName) -> Result<usize, NotOpened> {
        self.files.open_in(name)
    }

    fn leave_rest(&mut self, file: usize, lines: u64) {
        self.files.leave_rest(file, lines);
    }

    fn begin_outputs(&mut self, placing: Placing) -> Result<(), NoMemory> {
        self.files.begin_outputs(placing)
    }

    fn put_in_place(&mut self, file: usize) -> Result<(), IoFailed> {
        self.files.put_in_place(file)
    }

    fn leave_outputs(&mut self) {
        self.files.leave_outputs();
    }

    fn open_out(&mut self, name: &OutName) -> Result<usize, NotOpened> {
        self.files.open_out(name)
    }

    fn read(&mut self, file: usize, into: &mut [u8]) -> Result<usize, IoFailed> {
        if self.is_silent(file) {
            self.early = self.early.saturating_add(1);
        }
        let read = self.files.read(file, into);
        if file == OTHER && matches!(read, Ok(0)) {
            self.is_read = true;
        }
        read
    }

    fn write(&mut self, file: usize, from: &[u8]) -> Result<usize, IoFailed> {
        self.files.write(file, from)
    }

    fn settle(&mut self, file: usize) -> Result<Option<Batch>, IoFailed> {
        self.files.settle(file)
    }

    fn failures(&self) -> u64 {
        self.files.failures()
    }
}

impl Readiness for SilentFiles {
    fn would_wait(&mut self, file: usize) -> bool {
        self.is_silent(file)
    }
}

// Runs a script of two pipelines over these files.
fn run_silent<R: Threads + Wait + Sync, F: Readiness>(
    rt: &R,
    alloc: Global,
    files: &mut F,
) -> Result<Outcome, Fail> {
    let settings = Settings {
        workers: 2,
        fits_workers: false,
        capacity: 1,
        max_capacity: 4096,
        bytes: BYTES_MAX,
        block: 1,
        first_read: 1,
        turns: 16,
    };
    let plan = plan_of(alloc, "cat a > x & cat b")?;
    let opened = open(alloc, &plan, files)?;
    Ok(run_plan(rt, alloc, &plan, &opened, files, settings, &Open).outcome)
}

#[test]
fn a_silent_input_holds_up_no_other(rt: HostRuntime) -> Result<(), Fail> {
    let mut files = SilentFiles {
        files: MemoryFiles::new(rt.alloc()),
        is_read: false,
        early: 0,
    };
    files.files.add(b"a", b"abc\n")?;
    files.files.add(b"b", b"xyz\n")?;
    let outcome = run_silent(&rt, rt.alloc(), &mut files)?;
    assert!(rt; matches!(outcome, Outcome::Finished { status: 0 }));
    assert_eq!(rt; files.files.output(), b"xyz\n".as_slice());
    assert_eq!(rt; files.files.content(b"x"), Some(b"abc\n".as_slice()));
    assert_eq!(rt; files.early, 0);
    Ok(())
}
