// A row of a table is a line `NAME :: LIMITS :: FILES :: SCRIPT :: OUTCOME :: OUTPUTS`.
//
// LIMITS are the capacity, perhaps as `CAPACITY-MOST` if pipes may grow, and the block, perhaps as
// `BLOCK/BYTES` with the bytes that a pipe can hold, and perhaps `held` if outputs are held back, and
// perhaps `fail-read CALL` or `fail-write CALL`, or `short` if each read and each write moves one
// byte. FILES are `NAME=CONTENT`, and - is
// the standard input. OUTCOME is the exit status, the fault, or `stalled` and the waits as they are
// printed for a reader of the source; it may end with .. for whatever follows. OUTPUTS are
// `NAME=CONTENT`, or `NAME~CONTENT` for a prefix of it, and - is the standard output.
ghost use Rattle.std.specs.Prelude.{IfOk};
ghost use Rattle.step_scheduler.specs.Setups.{IsOfScript};

use super::*;
use collector::Files;
use file_stores::MemoryFiles;
use network_laws::Outcome;
use openings::open_placing;
use pipeline_text::read_script;
use plan_runs::{enough_rounds, run_plan, run_plan_in_turn};
use planner::laws::texts_have_bodies;
use planner::{Plan, make_plan};
use run_types::{Placing, Settings};
use std::process::Abort;
use std::sync::Wait;
use std::thread::Threads;
use workers::Gate;

// The most bytes that a pipe can be made for.
pub(super) const BYTES_MAX: usize = 268_435_456;

// A row of a table.
#[derive(Clone, Copy)]
pub(super) struct Row<'a> {
    line: &'a str,
    limits: &'a str,
    files: &'a str,
    script: &'a str,
    outcome: &'a str,
    outputs: &'a str,
    refused: Option<Refused>,
}

// What a call of files does.
#[derive(Clone, Copy)]
pub(super) enum Call {
    Read,
    Write,
}

// The read or the write, counted from 1, that is refused besides those that its limits name.
#[derive(Clone, Copy)]
pub(super) struct Refused {
    pub(super) call: Call,
    pub(super) number: u64,
}

// What a run came to, and its files after it.
#[derive(Drop)]
pub(super) struct Ran {
    pub(super) outcome: Outcome,
    files: MemoryFiles,
}

impl<'a> Row<'a> {
    // The row of a line.
    pub(super) fn new(line: &'a str) -> Row<'a> {
        let (_name, rest) = halves(line, " :: ");
        let (limits, rest) = halves(rest, " :: ");
        let (files, rest) = halves(rest, " :: ");
        let (script, rest) = halves(rest, " :: ");
        let (outcome, outputs) = halves(rest, " :: ");
        Row {
            line,
            limits,
            files,
            script,
            outcome,
            outputs,
            refused: None,
        }
    }

    // The same row with this call refused.
    pub(super) fn refusing(self, refused: Refused) -> Row<'a> {
        Row {
            refused: Some(refused),
            ..self
        }
    }

    // Its limits, with these numbers of workers and turns.
    pub(super) fn settings(&self, workers: usize, turns: usize) -> Result<Settings, Fail> {
        let (items, rest) = halves(self.limits, " ");
        let (sizes, _fails) = halves(rest, " ");
        let (block, bytes) = sizes_of(sizes)?;
        let (capacity, most) = items_of(items)?;
        let capacity = capacity.clamp(1, 4096);
        let block = block.clamp(1, 65536);
        Ok(Settings {
            workers: workers.clamp(1, 16),
            fits_workers: false,
            capacity,
            max_capacity: most.clamp(capacity, 4096),
            bytes: bytes.clamp(block, BYTES_MAX),
            block,
            first_read: block,
            turns: turns.clamp(1, 1_000_000),
        })
    }

    // When its outputs get what is written to them.
    fn placing(&self) -> Placing {
        if self.limits.contains(" held") {
            Placing::AtEnd
        } else {
            Placing::AsWritten
        }
    }

    // Its files, as they are before it is run.
    fn files(&self, alloc: Global) -> Result<MemoryFiles, Fail> {
        let mut files = MemoryFiles::new(alloc);
        for file in self.files.split(' ') {
            add_file(alloc, &mut files, file)?;
        }
        if let Some((_before, call)) = self.limits.split_once(" fail-read ") {
            files.fail_read(call.parse()?);
        }
        if let Some((_before, call)) = self.limits.split_once(" fail-write ") {
            files.fail_write(call.parse()?);
        }
        self.limit(&mut files);
        Ok(files)
    }

    // Sets the limits of its calls.
    fn limit(&self, files: &mut MemoryFiles) {
        if self.limits.ends_with(" short") {
            files.limit_reads(1);
            files.limit_writes(1);
        }
        let Some(Refused { call, number }) = self.refused else {
            return;
        };
        match call {
            Call::Read => files.fail_read(number),
            Call::Write => files.fail_write(number),
        }
    }

    // Runs its script.
    pub(super) fn run<R: Threads + Wait + Sync, G: Gate>(
        &self,
        rt: &R,
        alloc: Global,
        settings: Settings,
        gate: &G,
    ) -> Result<Ran, Fail> {
        let plan = plan_of(alloc, self.script)?;
        let mut files = self.files(alloc)?;
        let opened = open_placing(alloc, &plan, false, self.placing(), &mut files)?;
        let outcome = run_plan(rt, alloc, &plan, &opened, &mut files, settings, gate).outcome;
        Ok(Ran { outcome, files })
    }

    // Runs its script on this thread, in as many rounds as are enough if no pipe carries more than this many bytes.
    pub(super) fn run_in_turn(
        &self,
        alloc: Global,
        settings: Settings,
        bytes: u64,
    ) -> Result<Ran, Fail> {
        let mut files = self.files(alloc)?;
        match run_to_the_end(alloc, self.script, bytes, settings, &mut files)? {
            Some(outcome) => Ok(Ran { outcome, files }),
            None => Err("its rounds are not enough")?,
        }
    }

    // Its run came to its outcome, and its outputs hold what they should.
    pub(super) fn agrees(
        &self,
        rt: &impl Abort,
        alloc: Global,
        settings: Settings,
        ran: &Ran,
    ) -> Result<(), Fail> {
        let case = format!(in alloc; "{settings:?}: {}", self.line)?;
        let told = told(alloc, &ran.outcome)?;
        is_outcome(rt, told.as_str(), self.outcome, case.as_str());
        for output in self.outputs.split(' ') {
            has_output(rt, alloc, &ran.files, output, case.as_str())?;
        }
        Ok(())
    }

    // Its run failed by the refused call on one of its files, and its outputs hold prefixes of what they should.
    pub(super) fn is_cut_short(
        &self,
        rt: &impl Abort,
        alloc: Global,
        ran: &Ran,
    ) -> Result<(), Fail> {
        let told = told(alloc, &ran.outcome)?;
        let blamed = match self.refused {
            None => false,
            Some(
                Refused {
                    call: Call::Read,
                    number: _,
                },
            ) => blames(
                told.as_str(),
                "F1 ReadFault: ",
                self.files,
                "standard input",
            ),
            Some(
                Refused {
                    call: Call::Write,
                    number: _,
                },
            ) => blames(
                told.as_str(),
                "F2 WriteFault: ",
                self.outputs,
                "standard output",
            ),
        };
        assert!(rt; blamed, "{told}: {}", self.line);
        for output in self.outputs.split(' ') {
            let (name, content) = halves(output, "=");
            match self.placing() {
                Placing::AsWritten => {
                    begins_output(rt, alloc, &ran.files, name, content, self.line)?;
                }
                Placing::AtEnd | Placing::AtEndStored => self.is_kept(rt, alloc, ran, name)?,
            }
        }
        Ok(())
    }

    // The file of this name holds what it held before the run, or is not there if it was not.
    fn is_kept(&self, rt: &impl Abort, alloc: Global, ran: &Ran, name: &str) -> Result<(), Fail> {
        let before = self.files(alloc)?;
        assert_eq!(rt;
            held(&ran.files, name),
            held(&before, name),
            "{}",
            self.line
        );
        Ok(())
    }
}

// The items that a pipe can hold, and can grow to hold: no more, if that is not given.
fn items_of(text: &str) -> Result<(usize, usize), Fail> {
    match text.split_once('-') {
        Some((capacity, most)) => Ok((capacity.parse()?, most.parse()?)),
        None => Ok((text.parse()?, text.parse()?)),
    }
}

// The block, and the bytes that a pipe can hold: the most, if they are not given.
fn sizes_of(text: &str) -> Result<(usize, usize), Fail> {
    match text.split_once('/') {
        Some((block, bytes)) => Ok((block.parse()?, bytes.parse()?)),
        None => Ok((text.parse()?, BYTES_MAX)),
    }
}

// Whether a fault is of this kind, and names one of these files, `NAME=CONTENT`, or this one for -.
fn blames(told: &str, kind: &str, files: &str, standard: &str) -> bool {
    let Some(blamed) = told.strip_prefix(kind) else {
        return false;
    };
    for file in files.split(' ') {
        let (name, _content) = halves(file, "=");
        if blamed == name || name == "-" && blamed == standard {
            return true;
        }
    }
    false
}

// The plan of a script.
pub(super) fn plan_of(alloc: Global, script: &str) -> Result<Plan, Fail>
    ensures { IfOk result IsOfScript }
{
    texts_have_bodies();
    let read = read_script(alloc, script.as_bytes())?;
    Ok(make_plan(alloc, &read)?)
}

// Adds a file, `NAME=CONTENT`.
fn add_file(alloc: Global, files: &mut MemoryFiles, file: &str) -> Result<(), Fail> {
    let (name, content) = halves(file, "=");
    let content = decoded(alloc, content)?;
    if name == "-" {
        files.set_input(content.as_slice())?;
    } else {
        files.add(name.as_bytes(), content.as_slice())?;
    }
    Ok(())
}

// What a run came to, in words.
fn told(alloc: Global, outcome: &Outcome) -> Result<String, Fail> {
    match outcome {
        Outcome::Finished { status } => Ok(format!(in alloc; "{status}")?),
        Outcome::Stalled { waits } => Ok(format!(in alloc; "stalled {waits:?}")?),
        Outcome::Faulted { fault } => Ok(format!(in alloc; "{fault}")?),
    }
}

fn is_outcome(rt: &impl Abort, told: &str, wanted: &str, case: &str) {
    let is_wanted = match wanted.strip_suffix("..") {
        Some(begin) => told.starts_with(begin),
        None => told == wanted,
    };
    assert!(rt; is_wanted, "{told}: {case}");
}

// An output holds this content, `NAME=CONTENT`, or a prefix of it, `NAME~CONTENT`.
fn has_output(
    rt: &impl Abort,
    alloc: Global,
    files: &MemoryFiles,
    output: &str,
    case: &str,
) -> Result<(), Fail> {
    if let Some((name, content)) = output.split_once('~') {
        return begins_output(rt, alloc, files, name, content, case);
    }
    let (name, content) = halves(output, "=");
    let wanted = decoded(alloc, content)?;
    assert_eq!(rt; held(files, name), wanted.as_slice(), "{case}");
    Ok(())
}

// An output holds a prefix of this content.
fn begins_output(
    rt: &impl Abort,
    alloc: Global,
    files: &MemoryFiles,
    name: &str,
    content: &str,
    case: &str,
) -> Result<(), Fail> {
    let wanted = decoded(alloc, content)?;
    assert!(rt; wanted.as_slice().starts_with(held(files, name)), "{case}");
    Ok(())
}

// What an output holds.
fn held<'a>(files: &'a MemoryFiles, name: &str) -> &'a [u8] {
    if name == "-" {
        return files.output();
    }
    files.content(name.as_bytes()).unwrap_or(b"?")
}

// Runs a row with these numbers of workers and turns, and looks at the result of the run.
pub(super) fn run_right<R: Abort + Threads + Wait + Sync, G: Gate>(
    rt: &R,
    alloc: Global,
    row: Row,
    workers: usize,
    turns: usize,
    gate: &G,
) -> Result<MemoryFiles, Fail> {
    let settings = row.settings(workers, turns)?;
    let ran = row.run(rt, alloc, settings, gate)?;
    row.agrees(rt, alloc, settings, &ran)?;
    Ok(ran.files)
}

// The same with each of these numbers of workers and of turns.
pub(super) fn try_row<R: Abort + Threads + Wait + Sync, G: Gate>(
    rt: &R,
    alloc: Global,
    row: Row,
    ways: &[(usize, usize)],
    gate: &G,
) -> Result<(), Fail> {
    for (workers, turns) in ways {
        run_right(rt, alloc, row, *workers, *turns, gate)?;
    }
    Ok(())
}

// The same for each of the `count` rows of a table.
pub(super) fn try_table<R: Abort + Threads + Wait + Sync, G: Gate>(
    rt: &R,
    alloc: Global,
    rows: usize,
    table: &str,
    ways: &[(usize, usize)],
    gate: &G,
) -> Result<(), Fail> {
    let mut tried = 0usize;
    for line in table.lines() {
        try_row(rt, alloc, Row::new(line), ways, gate)?;
        tried = tried.saturating_add(1);
    }
    all_tried(rt, tried, rows);
    Ok(())
}

// Runs a script over these files on this thread. None if no number of rounds is enough, or they are spent.
fn run_to_the_end<F: Files>(
    alloc: Global,
    script: &str,
    bytes: u64,
    settings: Settings,
    files: &mut F,
) -> Result<Option<Outcome>, Fail> {
    let plan = plan_of(alloc, script)?;
    let opened = open_placing(alloc, &plan, false, Placing::AsWritten, files)?;
    let Some(rounds) = enough_rounds(&plan, bytes) else {
        return Ok(None);
    };
    Ok(run_plan_in_turn(alloc, &plan, &opened, files, settings, rounds).ok())
}

pub(super) fn all_tried(rt: &impl Abort, tried: usize, rows: usize) {
    assert_eq!(rt; tried, rows);
}
