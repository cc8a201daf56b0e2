ghost use Rattle.std.specs.Prelude.{◌≡◌, [], false, None, IsErrOf, IsTrue, IfOk};
ghost use Rattle.folders.specs.inner.Folder.{LeavesAlone};
ghost use Rattle.folders.specs.inner.Outputs.{IsNoNew};
ghost use Rattle.collector.specs.Files.{OpensNothing, OpensOutput, Refuses, one_more};
ghost use Rattle.file_stores.specs.inner.Host.{shown_host};

use crate::error_number::{BROKEN_PIPE, ErrorNumber};
use crate::facts::{Facts, Kind};
use crate::handle::HostHandle;
use crate::logged::{LoggedInput, Waiting};
use crate::mounts::Mounts;
use crate::patient::HostReader;
use crate::streams::StandardStreams;
use crate::writable::Stores;
use amount::Spare;
use collector::{Batch, Files, IoFailed, NeededEnd, NotOpened, Opening, Readiness};
use folders::PlaceFault;
use held_outputs::{Disk, Holding};
use input::{HostInput, add_reading, ask_each, opened, wait_here};
use machine::NoMemory;
use output::{FoundOutput, HostOutput, add_waiting, begun, end_held_at, finish_at, note_end_at};
use run_types::{InName, OutName, Placing};
use std::alloc::Global;
use std::fs::{File, OpenOptions};
use std::marker::Model;
use std::rt;
use waiting_inputs::Inputs;

mod amount;
mod finding;
mod holding;
mod input;
mod output;
mod placing;
mod report;
mod writing;

/// The files of the host, its standard input and output. Contracts know what their reads returned and what their writes took, and nothing
/// of what the file of a name holds. A name that is not UTF-8 is refused. A directory is
/// refused as an input. A regular file is refused as an output if it is open already, under whatever name, and keeps its bytes.
/// A FIFO, a terminal or a socket is refused as an input if it is open as one, under whatever name. No name leads to the standard input or output.
/// An input whose reads may wait, as a FIFO, a socket or a terminal, is read by the caller as long as it is the only file to wait for. Once
/// something else may go on meanwhile, it is read by a thread of its own, if it gets one. A FIFO of the file system is opened by what reads it.
/// An output whose writes may wait is written by a thread of its own while another output has not come to its end. One that is held back is not.
/// Meanwhile a long regular file is read or written by a thread too: at most as many inputs and as many outputs as there are processors.
#[derive(Drop)]
pub struct HostFiles<R: HostHandle, I, D> {
    rt: R,
    alloc: Global,
    streams: StandardStreams,
    waiting: Waiting<I>,
    openings: Vec<Opening>,
    inputs: Vec<HostInput<R>>,
    outputs: Vec<HostOutput<R>>,
    // How many outputs have not come to their ends.
    unended: usize,
    // How many long inputs may still get a thread, and how many long outputs.
    readers: Spare,
    writers: Spare,
    mounts: Mounts,
    // Whether an output was opened that was there before, while nothing is known of a standard stream.
    has_old_output: bool,
    failures: u64,
    // When the outputs that are opened get what is written to them.
    placing: Placing,
    // The new files of those that are held back, and what came of placing them.
    holding: Holding<D>,
    placed: Option<Result<(), PlaceFault>>,
    // Whether a write to the standard output failed since its reader has ended.
    reader_is_gone: bool,
    // The number of the error of the last read or write that failed, if the system gave one.
    last_error: ErrorNumber,
}

impl<R: HostHandle, I, D> Model for HostFiles<R, I, D> {
    ghost use Rattle.run_types.specs.Placings.{is_held};
    ghost use Rattle.file_stores.specs.inner.Host.{HostShown};

    ghost Value = { HostShown D };

    ghost view = { λ h. record {
      openings = h.openings.items;
      inputs = h.inputs.items;
      outputs = h.outputs.items;
      failures = h.failures;
      held_back = is_held h.placing;
      holding = h.holding;
    } };
}

impl<R: HostHandle, I: Inputs<HostReader<R>>, D: Disk> HostFiles<R, I, D> {
    /// No file is open but the standard streams. At most so many long inputs, and so many long outputs, get a thread.
    pub fn new(
        rt: R,
        alloc: Global,
        streams: StandardStreams,
        waiting: I,
        processors: usize,
        disk: D,
    ) -> HostFiles<R, I, D>
        ensures { result
            ≡ record {
              openings = [];
              inputs = [];
              outputs = [];
              failures = 0;
              held_back = false;
              holding = record { disk = disk; outputs = [] };
            } }
    {
        HostFiles {
            rt,
            alloc,
            streams,
            waiting: Waiting::new(waiting),
            openings: Vec::new(alloc),
            inputs: Vec::new(alloc),
            outputs: Vec::new(alloc),
            unended: 0,
            readers: Spare::new(processors),
            writers: Spare::new(processors),
            mounts: Mounts::new(),
            has_old_output: false,
            failures: 0,
            placing: Placing::AsWritten,
            holding: Holding::new(disk, alloc),
            placed: None,
            reader_is_gone: false,
            last_error: None,
        }
    }

    /// The standard streams that it was made with.
    pub fn streams(&self) -> StandardStreams {
        self.streams
    }

    /// Whether a write to the standard output failed since its reader has ended (POSIX.1-2017 XSH write, EPIPE).
    pub fn reader_is_gone(&self) -> bool {
        self.reader_is_gone
    }

    /// The number of the error (POSIX.1-2017 XSH errno) of the last read or write that failed, if one failed and the system gave a number. To
    /// end an output and to put it in place are writes.
    pub fn last_error(&self) -> ErrorNumber {
        self.last_error
    }

    // The numbers of the threads that read these inputs, and that these outputs wait for.
    fn threads_of(&self, inputs: &[usize], outputs: &[usize]) -> Result<Vec<usize>, NoMemory> {
        let mut threads = Vec::new(self.alloc);
        add_reading(self.inputs.as_slice(), inputs, &mut threads)?;
        add_waiting(self.outputs.as_slice(), outputs, &mut threads)?;
        Ok(threads)
    }

    // Ends an output. One that is held back gets its rights, and is stored if it is to outlast a power cut. Returns why that failed.
    fn end_output(&mut self, file: usize) -> Result<(), ErrorNumber>
        ensures rest { self.new ≡ record self.old { holding = self.new.holding } }
        ensures outputs { self.new.holding.outputs ≡ self.old.holding.outputs }
        ensures others { IsTrue D.names_known → LeavesAlone (IsNoNew self.old.holding.outputs)
            (D.shows self.old.holding.disk) (D.shows self.new.holding.disk) }
    {
        self.end_written(file)?;
        end_held_at(&mut self.outputs, file, &mut self.holding)
    }

    // Ends what was written to an output: closes a FIFO once it is open, and waits until the bytes of a file are stored if they may be lost. One that
    // is stored later is left to that. Returns why that failed.
    fn end_written(&mut self, file: usize) -> Result<(), ErrorNumber>
        ensures { self.new ≡ self.old }
    {
        let Some(output) = self.outputs.get(file) else {
            return Ok(());
        };
        let facts = output.facts;
        let is_standard = output.is_standard;
        let is_stored = output.is_stored(self.placing);
        let may_lose = self.mounts.may_lose(&self.rt, self.alloc, facts);
        match ending_of(is_standard, may_lose & !is_stored, facts) {
            Ending::Nothing => Ok(()),
            Ending::Standard => store_standard(&self.rt, facts),
            Ending::File => finish_at(&mut self.outputs, file, &mut self.waiting),
        }
    }

    // Notes an output that was opened or refused, under this name. There is room for it.
    fn note_output(
        &mut self,
        entry: OutName,
        found: Result<FoundOutput<R>, NotOpened>,
    ) -> Result<usize, NotOpened>
        ensures ok { IfOk result
            (λ file. OpensOutput entry file (shown_host self.old) (shown_host self.new)) }
        ensures refused { IsErrOf result NotOpened.Refused
            → Refuses (Opening.Output entry None) (shown_host self.old) (shown_host self.new) }
        ensures no_memory { IsErrOf result NotOpened.NoMemory
            → OpensNothing (shown_host self.old) (shown_host self.new) }
    {
        self.openings.reserve(1)?;
        self.outputs.reserve(1)?;
        match found {
            Ok(found) => {
                let output = begun(&self.rt, &mut self.waiting, found);
                let number = self.outputs.len();
                self.openings
                    .push_reserved(Opening::Output(entry, Some(number)));
                self.outputs.push_reserved(output);
                self.unended = self.unended.saturating_add(1);
                Ok(number)
            }
            Err(NotOpened::NoMemory) => Err(NotOpened::NoMemory),
            Err(NotOpened::Refused) => {
                self.openings.push_reserved(Opening::Output(entry, None));
                Err(NotOpened::Refused)
            }
        }
    }

    // Counts a write that failed, to the standard output or not, and remembers whether it shows that the reader has ended.
    fn fail_write(&mut self, is_standard: bool, error: ErrorNumber) -> IoFailed
        ensures { self.new ≡ record self.old { failures = one_more self.old.failures } }
    {
        self.reader_is_gone = self.reader_is_gone | shows_end(is_standard, error);
        self.fail(error)
    }

    // Counts a read or a write that failed, and remembers the number of its error.
    fn fail(&mut self, error: ErrorNumber) -> IoFailed
        ensures { self.new ≡ record self.old { failures = one_more self.old.failures } }
    {
        self.failures = self.failures.saturating_add(1);
        self.last_error = error;
        IoFailed
    }
}

impl<R: HostHandle, I: Inputs<HostReader<R>>, D: Disk> Files for HostFiles<R, I, D> {
    ghost use Rattle.std.specs.Prelude.{false};

    ghost contents_known = { false };

    ghost shows = { shown_host };

    fn open_in(&mut self, name: &InName) -> Result<usize, NotOpened> {
        let entry = name.copied(self.alloc)?;
        self.openings.reserve(1)?;
        self.inputs.reserve(1)?;
        match self.found_input(name) {
            Ok(found) => {
                let input = opened(found);
                let number = self.inputs.len();
                self.openings
                    .push_reserved(Opening::Input(entry, Some(number)));
                self.inputs.push_reserved(input);
                Ok(number)
            }
            Err(NotOpened::NoMemory) => Err(NotOpened::NoMemory),
            Err(NotOpened::Refused) => {
                self.openings.push_reserved(Opening::Input(entry, None));
                Err(NotOpened::Refused)
            }
        }
    }

    fn leave_out_front(&mut self, file: usize, needed: NeededEnd) {
        self.inputs[file].leave_front(self.alloc, needed);
    }

    fn leave_rest(&mut self, file: usize, lines: u64) {
        self.inputs[file].leave_rest(lines);
    }

    fn begin_outputs(&mut self, placing: Placing) -> Result<(), NoMemory> {
        self.placing = placing;
        self.placed = None;
        Ok(())
    }

    fn put_in_place(&mut self, file: usize) -> Result<(), IoFailed> {
        if self.placing == Placing::AsWritten {
            return Ok(());
        }
        if let Err(error) = self.place(file) {
            return Err(self.fail(error));
        }
        Ok(())
    }

    fn leave_outputs(&mut self) {
        self.leave();
    }

    fn open_out(&mut self, name: &OutName) -> Result<usize, NotOpened> {
        let entry = name.copied(self.alloc)?;
        self.note_old(name);
        self.openings.reserve(1)?;
        self.outputs.reserve(1)?;
        let found = self.found_output(name);
        self.note_output(entry, found)
    }

    fn read(&mut self, file: usize, into: &mut [u8]) -> Result<usize, IoFailed> {
        let input = &mut self.inputs[file];
        let has_others = self.unended >= 2;
        match input.read(
            &self.rt,
            &mut self.waiting,
            &mut self.readers,
            has_others,
            into,
        ) {
            Some(count) => Ok(count),
            None => {
                let error = input.logged.last_error();
                Err(self.fail(error))
            }
        }
    }

    fn take_read(&mut self, file: usize, most: usize) -> Option<Vec<u8>> {
        self.inputs[file].take(&mut self.waiting, most)
    }

    fn write(&mut self, file: usize, from: &[u8]) -> Result<usize, IoFailed> {
        let output = &mut self.outputs[file];
        let is_standard = output.is_standard;
        match output.write(&mut self.waiting, from) {
            Ok(count) => Ok(count),
            Err(error) => Err(self.fail_write(is_standard, error)),
        }
    }

    fn hand_over(&mut self, file: usize, batch: Batch) -> Result<(), Batch> {
        if self.unended < 2 {
            return Err(batch);
        }
        self.outputs[file].hand_over(
            &self.rt,
            self.alloc,
            &mut self.waiting,
            &mut self.writers,
            batch,
        )
    }

    fn settle(&mut self, file: usize) -> Result<Option<Batch>, IoFailed> {
        if file >= self.outputs.len() {
            return Ok(None);
        }
        let output = &mut self.outputs[file];
        let is_standard = output.is_standard;
        match output.settle(&self.rt, &mut self.waiting) {
            Ok(batch) => Ok(batch),
            Err(error) => Err(self.fail_write(is_standard, error)),
        }
    }

    fn finish_output(&mut self, file: usize) -> Result<(), IoFailed> {
        if note_end_at(&mut self.outputs, file) {
            self.unended = self.unended.saturating_sub(1);
        }
        match self.end_output(file) {
            Ok(()) => Ok(()),
            Err(error) => Err(self.fail(error)),
        }
    }

    fn failures(&self) -> u64 {
        self.failures
    }
}

impl<R: HostHandle, I: Inputs<HostReader<R>>, D: Disk> Readiness for HostFiles<R, I, D> {
    fn would_wait(&mut self, file: usize) -> bool {
        match self.inputs.get(file) {
            Some(input) => input.logged.would_wait(&mut self.waiting),
            None => false,
        }
    }

    fn ask_for_input(&mut self, files: &[usize]) {
        ask_each(&mut self.inputs, &mut self.waiting, files);
    }

    fn output_would_wait(&mut self, file: usize) -> bool {
        match self.outputs.get(file) {
            Some(output) => output.would_wait(&mut self.waiting),
            None => false,
        }
    }

    fn wait_for_files(&mut self, inputs: &[usize], outputs: &[usize]) {
        if outputs.is_empty() && wait_here(&mut self.inputs, inputs) {
            return;
        }
        ask_each(&mut self.inputs, &mut self.waiting, inputs);
        let Ok(threads) = self.threads_of(inputs, outputs) else {
            return;
        };
        if inputs.len().checked_add(outputs.len()) == Some(threads.len()) {
            LoggedInput::wait(&mut self.waiting, threads.as_slice());
        }
    }
}

// How an output is ended.
enum Ending {
    // Nothing has to be done.
    Nothing,
    // The standard output is stored.
    Standard,
    // A file is stored, or a FIFO is closed.
    File,
}

// How such an output is ended, if its bytes may be lost or not.
fn ending_of(is_standard: bool, may_lose: bool, facts: Option<Facts>) -> Ending {
    match (is_standard, may_lose) {
        (true, true) => Ending::Standard,
        (true, false) => Ending::Nothing,
        (false, true) => Ending::File,
        (false, false) if is_fifo(facts) => Ending::File,
        (false, false) => Ending::Nothing,
    }
}

// Whether it is known to be a FIFO.
fn is_fifo(facts: Option<Facts>) -> bool {
    match facts {
        Some(facts) => facts.kind == Kind::Fifo,
        None => false,
    }
}

// Waits until the bytes of the standard output are stored, if that is this file. It is opened anew for that, since the standard library
// calls nothing by number. If it cannot be opened, nothing is known.
fn store_standard<R: rt::Files<File = File>>(
    rt: &R,
    facts: Option<Facts>,
) -> Result<(), ErrorNumber> {
    let mut options = OpenOptions::new();
    options.append(true);
    match options.open(rt, "/dev/stdout") {
        Ok(file) if Facts::of(&file) == facts => file.store().map_err(|error| error.raw_os_error()),
        _ => Ok(()),
    }
}

// Whether a write that failed for this cause shows that the reader of the standard output has ended.
fn shows_end(is_standard: bool, error: ErrorNumber) -> bool {
    is_standard && error == Some(BROKEN_PIPE)
}
