// The program plrun: it reads one script and runs it.
#![tactic(auto)]

ghost use Rattle.std.specs.Prelude.{◌≡◌};
ghost use Rattle.plrun.specs.Process.{IsExitStatus};

use crate::folder::HostFolder;
use crate::lines::Lines;
use crate::process::Process;
use crate::report::HostReport;
use crate::room::keep_freed;
use crate::words::HostWords;
use file_stores::{
    HostFiles, HostHandle, HostLook, HostReader, NotClaimed, StandardStreams, SystemDisk, Watched,
};
use program::EXIT_REFUSED;
use progress::{LineDesk, LineThread, LineWriter};
use std::alloc::Global;
use std::io::Write;
use std::marker::Sync;
use std::process::ExitCode;
use std::sync::Wait;
use std::thread::{self, Threads};
use waiting_inputs::{ByCall, Inputs, ThreadInputs, begin_thread, errands};

mod advice;
mod check;
mod folder;
mod gate;
mod lines;
mod looks;
mod presets;
mod process;
mod report;
mod room;
mod run_files;
mod stats;
mod wishes;
mod words;

// The line if memory is refused.
const NO_MEMORY: &[u8] = b"plrun: error: out of memory\n";

// The line if a standard stream is closed, and nothing can take its number.
const NOT_CLAIMED: &[u8] =
    b"plrun: error: a standard stream is closed, and nothing can be opened in its place\n";

fn main(rt: HostRuntime) -> ExitCode {
    let alloc = rt.alloc();
    keep_freed(alloc);
    let mut errors = Lines::new(alloc, rt.stderr());
    // Only here can a thread be begun: for the line of progress, and for each input that wants one.
    let writer = match LineDesk::new(alloc) {
        Ok(desk) => match Box::new(alloc, move |errand| desk.serve(&rt, errand)) {
            Ok(call) => Some(LineWriter::new(call)),
            Err(_) => None,
        },
        Err(_) => None,
    };
    // The numbers of closed streams are taken before any file gets one.
    let status = match (
        StandardStreams::claim(&rt),
        errands::<HostReader<HostRuntime>>(alloc),
    ) {
        (Ok(streams), Ok((errands, taken))) => {
            match Box::new(alloc, move || begin_thread(&rt, &taken)) {
                Ok(begin) => {
                    let inputs = ThreadInputs::new(rt, alloc, errands, ByCall::new(begin));
                    let process = Process {
                        rt,
                        threads: &rt,
                        alloc,
                        streams,
                        writer,
                    };
                    begin_here(process, rt, inputs, &mut errors)
                }
                Err(_) => not_read(NO_MEMORY, &mut errors),
            }
        }
        (Err(NotClaimed::NothingOpens), _) => not_read(NOT_CLAIMED, &mut errors),
        _ => not_read(NO_MEMORY, &mut errors),
    };
    // A failed write of the lines changes no status.
    let _ = errors.flush();
    ExitCode::from(status)
}

// How many processors the machine has, if that can be known.
fn processors<R: Threads>(rt: &R) -> usize {
    match thread::available_parallelism(rt) {
        Ok(count) => count.get(),
        Err(_) => 1,
    }
}

// Runs the command of the process over what the system hands over: its words, its folder, its files, and one of them for the statistics. Returns
// the exit status.
fn begin_here<
    'a,
    R: Threads + Wait + Sync,
    H: HostHandle,
    I: Inputs<HostReader<H>>,
    W: LineThread,
    E: Write,
>(process: Process<'a, R, W>, host: H, inputs: I, errors: &mut Lines<E>) -> u8
    ensures { IsExitStatus result }
{
    let rt = process.rt;
    let alloc = process.alloc;
    let streams = process.streams;
    let files = HostFiles::new(
        host,
        alloc,
        streams,
        inputs,
        processors(process.threads),
        SystemDisk::new(host, alloc),
    );
    process.begin(
        &HostWords(rt),
        &mut HostFolder::new(rt, alloc),
        &mut Watched::new(files, None),
        &mut HostReport::new(host, alloc),
        &mut HostLook::new(rt, alloc, streams),
        errors,
    )
}

// The status of words that could not be read, and the line that says why.
fn not_read<E: Write>(line: &[u8], errors: &mut E) -> u8
    ensures { result ≡ 2 }
{
    let _ = errors.write_all(line);
    EXIT_REFUSED
}
