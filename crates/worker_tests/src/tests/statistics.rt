// A run returns what each pipe moved, and how long the steps of its stages took if its gate has a clock for them.
use super::gates::Ticks;
use super::rows::{BYTES_MAX, plan_of};
use super::*;
use collector::Readiness;
use file_stores::MemoryFiles;
use openings::open;
use plan_runs::{RanPlan, run_plan};
use run_types::{Amount, Settings};
use std::process::Abort;
use std::sync::Wait;
use std::thread::Threads;
use workers::{Gate, Open};

// Two pieces of two bytes.
const MOVED: Amount = Amount {
    pieces: 2,
    bytes: 4,
};

// Runs two commands over an input of four bytes.
fn run_upper<R: Threads + Wait + Sync, G: Gate>(
    rt: &R,
    alloc: Global,
    gate: &G,
) -> Result<RanPlan, Fail> {
    let mut files = MemoryFiles::new(alloc);
    files.add(b"in", b"ab1\n")?;
    run_over(rt, alloc, &mut files, gate)
}

// Runs them over these files.
fn run_over<R: Threads + Wait + Sync, F: Readiness, G: Gate>(
    rt: &R,
    alloc: Global,
    files: &mut F,
    gate: &G,
) -> Result<RanPlan, Fail> {
    let settings = Settings {
        workers: 2,
        fits_workers: false,
        capacity: 16,
        max_capacity: 4096,
        bytes: BYTES_MAX,
        block: 2,
        first_read: 2,
        turns: 16,
    };
    let plan = plan_of(alloc, "tr a-z A-Z < in | cat > out")?;
    let opened = open(alloc, &plan, files)?;
    Ok(run_plan(rt, alloc, &plan, &opened, files, settings, gate))
}

// How many of these times are not zero.
fn timed(times: &[u64]) -> usize {
    let mut timed = 0usize;
    for time in times {
        timed = timed.saturating_add(usize::from(*time > 0));
    }
    timed
}

// It moved all bytes through each of its three pipes, none of which grew. The steps of this many of its four nodes took time.
fn has_moved(rt: &impl Abort, ran: &RanPlan, stages: usize) {
    let statistics = &ran.statistics;
    assert_eq!(rt; statistics.growths, 0);
    assert_eq!(rt; statistics.amounts.as_slice(), [MOVED; 3].as_slice());
    assert_eq!(rt; statistics.times.len(), 4);
    assert_eq!(rt; timed(statistics.times.as_slice()), stages);
}

#[test]
fn a_run_without_a_clock(rt: HostRuntime) -> Result<(), Fail> {
    let ran = run_upper(&rt, rt.alloc(), &Open)?;
    has_moved(&rt, &ran, 0);
    Ok(())
}

#[test]
fn a_run_with_a_clock(rt: HostRuntime) -> Result<(), Fail> {
    for seed in 0..10 {
        let ran = run_upper(&rt, rt.alloc(), &Ticks::new(seed))?;
        has_moved(&rt, &ran, 2);
    }
    Ok(())
}
