// The examples of docs/CALLING.md, in their order.
mod calls;

use pipeline_text::{Script, read_script};
use std::alloc::Global;
use std::test::Fail;

fn script_of(alloc: Global, text: &str) -> Result<Script, Fail> {
    let script = read_script(alloc, text.as_bytes())?;
    Ok(script)
}

ghost use Rattle.std.specs.Prelude.{IfOk};
ghost use Rattle.step_scheduler.specs.Setups.{IsOfScript};

use planner::laws::texts_have_bodies;
use planner::{Plan, make_plan};

fn plan_of(alloc: Global, text: &str) -> Result<Plan, Fail>
    ensures { IfOk result IsOfScript }
{
    texts_have_bodies();
    let script = read_script(alloc, text.as_bytes())?;
    Ok(make_plan(alloc, &script)?)
}

use collector::{Files, Readiness};
use file_stores::MemoryFiles;
use network_laws::Outcome;
use openings::open;
use plan_runs::run_plan;
use run_types::Settings;
use std::marker::Sync;
use std::sync::Wait;
use std::thread::Threads;
use workers::Open;

fn settings() -> Settings {
    Settings {
        workers: 4,
        fits_workers: false,
        capacity: 16,
        max_capacity: 4096,
        bytes: 268_435_456,
        block: 65_536,
        first_read: 4096,
        turns: 1_000_000,
    }
}

fn run_on_threads<R: Threads + Wait + Sync, F: Readiness>(
    rt: &R,
    alloc: Global,
    text: &str,
    files: &mut F,
) -> Result<Outcome, Fail> {
    let plan = plan_of(alloc, text)?;
    let opened = open(alloc, &plan, files)?;
    Ok(run_plan(rt, alloc, &plan, &opened, files, settings(), &Open).outcome)
}

fn run_upper<R: Threads + Wait + Sync>(rt: &R, alloc: Global) -> Result<Outcome, Fail> {
    let mut files = MemoryFiles::new(alloc);
    files.add(b"in", b"ab1\n")?;
    run_on_threads(rt, alloc, "tr a-z A-Z < in > out", &mut files)
}

use plan_runs::{enough_rounds, run_plan_in_turn};

fn run_to_the_end<F: Files>(
    alloc: Global,
    text: &str,
    bytes: u64,
    files: &mut F,
) -> Result<Option<Outcome>, Fail> {
    let plan = plan_of(alloc, text)?;
    let opened = open(alloc, &plan, files)?;
    let Some(rounds) = enough_rounds(&plan, bytes) else {
        return Ok(None);
    };
    Ok(run_plan_in_turn(alloc, &plan, &opened, files, settings(), rounds).ok())
}

use networks::NoClock;
use step_scheduler::make_network;

fn run_alone<F: Files>(alloc: Global, text: &str, files: &mut F) -> Result<Option<Outcome>, Fail> {
    let plan = plan_of(alloc, text)?;
    let opened = open(alloc, &plan, files)?;
    let mut network = make_network(alloc, &plan, &opened, settings())?;
    match network.run_in_turn(alloc, 1000, files, &NoClock) {
        Ok(outcome) => Ok(Some(outcome)),
        Err(_spent) => Ok(None),
    }
}

use program::command;

fn run_words<R: Threads + Wait + Sync>(
    rt: &R,
    alloc: Global,
    files: &mut MemoryFiles,
    errors: &mut Vec<u8>,
) -> u8 {
    let words = ["plrun", "-c", "tr a-z A-Z < in > out"];
    command(rt, alloc, &words, files, &Open, errors)
}

use file_stores::Watched;
use progress::HostWatch;

fn run_watched<R: Threads + Wait + Sync>(
    threads: &R,
    rt: HostRuntime,
    files: MemoryFiles,
    errors: &mut Vec<u8>,
) -> (u8, MemoryFiles) {
    let words = ["plrun", "-c", "tr a-z A-Z < in > out"];
    let mut files = Watched::new(files, HostWatch::new(rt));
    let status = command(threads, rt.alloc(), &words, &mut files, &Open, errors);
    let (files, _watch) = files.finish();
    (status, files)
}
