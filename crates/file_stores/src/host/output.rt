// The open outputs of the host.
ghost use Rattle.std.specs.Prelude.{◌≡◌, ◌≤◌, [], ◌++◌, length, take, IfOk, IfErr, IsOk, IsTrue, OnOk, OnErr};
ghost use Rattle.folders.specs.inner.Folder.{LeavesAlone};
ghost use Rattle.folders.specs.inner.Outputs.{IsNoNew};
ghost use Rattle.collector.specs.Files.{batch_bytes, nothing_written, SettlesAll, SettlesSome};

use super::amount::{Amount, Spare};
use super::writing::WrittenBy;
use crate::error_number::ErrorNumber;
use crate::facts::{Facts, Kind};
use crate::handle::HostHandle;
use crate::held::HeldOutput;
use crate::logged::{LoggedInput, Waiting};
use crate::patient::{HostReader, HostWriter};
use collector::Batch;
use folders::PlaceFault;
use held_outputs::{Disk, Holding};
use run_types::Placing;
use std::alloc::{AllocError, Global};
use std::marker::Model;
use std::mem;
use waiting_inputs::Inputs;
use waiting_outputs::Output;

// An output that can be written to, and what the system says of it. Nothing has been written to it.
#[derive(Drop)]
pub(crate) struct FoundOutput<R: HostHandle> {
    pub(crate) to: HostWriter<R>,
    pub(crate) is_standard: bool,
    // The task that opens it, if it is not open.
    pub(crate) opener: Option<HostReader<R>>,
    pub(crate) facts: Option<Facts>,
    // Its file, if that is held back.
    pub(crate) held: Option<HeldOutput>,
}

// An open output of the host, and what the system says of it.
#[derive(Drop)]
pub(crate) struct HostOutput<R: HostHandle> {
    written: Output<HostWriter<R>>,
    written_by: WrittenBy<R>,
    pub(crate) is_standard: bool,
    // The task that opens it, as an input that nothing is read of. None once that is done.
    opening: Option<LoggedInput<HostReader<R>>>,
    pub(crate) facts: Option<Facts>,
    // Its file, if that is held back.
    held: Option<HeldOutput>,
    // Whether it has come to its end.
    is_ended: bool,
    // How much the caller has written to it.
    amount: Amount,
}

impl<R: HostHandle> Model for HostOutput<R> {
    ghost use Rattle.file_stores.specs.inner.Host.{HostOutputShown};

    ghost Value = { HostOutputShown };

    ghost view = { λ o. record { log = record { bytes = o.written.taken; out = o.written.out } } };
}

// Opens an output. If it has to be opened yet, a thread begins to do so now. Nothing has been written to it.
pub(crate) fn begun<R: HostHandle, I: Inputs<HostReader<R>>>(
    rt: &R,
    waiting: &mut Waiting<I>,
    found: FoundOutput<R>,
) -> HostOutput<R>
    ensures { result ≡ record { log = nothing_written } }
{
    let FoundOutput {
        to,
        is_standard,
        opener,
        facts,
        held,
    } = found;
    HostOutput {
        written: Output::new(to),
        written_by: WrittenBy::Caller,
        is_standard,
        opening: match opener {
            Some(opener) => Some(asked(rt, waiting, opener)),
            None => None,
        },
        facts,
        held,
        is_ended: false,
        amount: Amount::new(),
    }
}

// A thread does this task now. If there is none, it is done here.
fn asked<R: HostHandle, I: Inputs<HostReader<R>>>(
    rt: &R,
    waiting: &mut Waiting<I>,
    opener: HostReader<R>,
) -> LoggedInput<HostReader<R>> {
    let mut opening = LoggedInput::late(opener);
    opening.ask(waiting);
    opening.open(rt);
    opening
}

impl<R: HostHandle> HostOutput<R> {
    // Writes once, after it was opened. Returns how many bytes were taken, or why none was of a nonempty slice. It fails if bytes are out.
    pub(crate) fn write<I: Inputs<HostReader<R>>>(
        &mut self,
        waiting: &mut Waiting<I>,
        from: &[u8],
    ) -> Result<usize, ErrorNumber>
        ensures count { IfOk result
            (λ count. (count ≤ length from.now) × (1 ≤ length from.now → 1 ≤ count)) }
        ensures told { IfOk result
            (λ count. self.new.log.bytes ≡ self.old.log.bytes ++ take count from.now) }
        ensures home { IsOk result → self.old.log.out ≡ [] }
        ensures out { self.new.log.out ≡ self.old.log.out }
        ensures failed { OnErr result (self.new ≡ self.old) }
    {
        finish_opening(&mut self.opening, waiting);
        match self.written.write(from) {
            Ok(count) => {
                note_held(&mut self.held, count);
                self.amount = self.amount.with(count);
                Ok(count)
            }
            Err(error) => Err(error.raw_os_error()),
        }
    }

    // Hands bytes over to the thread that writes to it, if it may have one. They come back if it has none.
    pub(crate) fn hand_over<I: Inputs<HostReader<R>>>(
        &mut self,
        rt: &R,
        alloc: Global,
        waiting: &mut Waiting<I>,
        spare: &mut Spare,
        batch: Batch,
    ) -> Result<(), Batch>
        ensures free { OnOk result (self.old.log.out ≡ []) }
        ensures handed { OnOk result (self.new
            ≡ record { log = record { bytes = self.old.log.bytes; out = batch_bytes batch } }) }
        ensures back { IfErr result (λ back. (back ≡ batch) × (self.new ≡ self.old)) }
    {
        if !self.may_have_thread(spare) {
            return Err(batch);
        }
        // It is in this place only until the next line.
        let written_by = mem::replace(&mut self.written_by, WrittenBy::CallerAlone);
        self.written_by = written_by.with_thread(alloc, waiting);
        let WrittenBy::Thread(thread) = &mut self.written_by else {
            return Err(batch);
        };
        finish_opening(&mut self.opening, waiting);
        if let Some(back) = self.written.hand_over(rt, alloc, &thread.giver, batch) {
            return Err(back);
        }
        thread.answers.ask(waiting);
        Ok(())
    }

    // Whether a thread may write to it: its writes may wait, or it is a long regular file and there is a thread for it. One that is held back has none.
    fn may_have_thread(&self, spare: &mut Spare) -> bool {
        if self.held.is_some() {
            return false;
        }
        match self.written_by {
            _ if may_wait(self.facts) => true,
            WrittenBy::Caller => is_regular(self.facts) && self.amount.is_long() && spare.take(),
            WrittenBy::CallerAlone => false,
            WrittenBy::Thread(_) => true,
        }
    }

    #[tactic(auto, using(crate::proofs::lemmas::HostSettles::settles_some))]
    // Waits until all that was handed over is written, or a write of it failed. Returns it, as room for other bytes, or why it failed.
    pub(crate) fn settle<I: Inputs<HostReader<R>>>(
        &mut self,
        rt: &R,
        waiting: &mut Waiting<I>,
    ) -> Result<Option<Batch>, ErrorNumber>
        ensures all { OnOk result (SettlesAll self.old.log self.new.log) }
        ensures some { OnErr result (SettlesSome self.old.log self.new.log) }
        ensures idle { self.old.log.out ≡ [] → IsOk result × (self.new ≡ self.old) }
    {
        self.written_by.wait(self.written.is_out(), waiting);
        match self.written.settle(rt) {
            Ok(batch) => Ok(batch),
            Err(failed) => Err(failed.number),
        }
    }

    // The number of the thread that it waits for, if it does: the one that writes to it, or else the one that opens it.
    pub(crate) fn thread(&self) -> Option<usize> {
        match &self.written_by {
            WrittenBy::Thread(thread) if self.written.is_out() => thread.answers.thread(),
            _ => self.opening.as_ref()?.thread(),
        }
    }

    // Whether a write to it would wait, since a thread has not written what was handed over, or has not opened it.
    pub(crate) fn would_wait<I: Inputs<HostReader<R>>>(&self, waiting: &mut Waiting<I>) -> bool {
        match (&self.written_by, &self.opening) {
            (WrittenBy::Thread(thread), _) if self.written.is_out() => {
                thread.answers.would_wait(waiting)
            }
            (_, Some(opening)) => opening.would_wait(waiting),
            (_, None) => false,
        }
    }

    // Notes that it has come to its end. Returns whether that was noted before.
    pub(crate) fn note_end(&mut self) -> bool
        ensures { self.new ≡ self.old }
    {
        mem::replace(&mut self.is_ended, true)
    }

    // Ends it: waits until the bytes of a file are stored, or closes a FIFO once it is open. Returns why that failed.
    pub(crate) fn finish<I: Inputs<HostReader<R>>>(
        &mut self,
        waiting: &mut Waiting<I>,
    ) -> Result<(), ErrorNumber>
        ensures { self.new ≡ self.old }
    {
        finish_opening(&mut self.opening, waiting);
        self.written.finish().map_err(|error| error.raw_os_error())
    }

    // Whether its file is held back, and is to outlast a power cut once it is in place.
    pub(crate) fn is_stored(&self, placing: Placing) -> bool {
        placing == Placing::AtEndStored && self.held.is_some()
    }

    // What the system says of the file that it is to replace, if it is held back and there is one.
    pub(crate) fn replaced<D: Disk>(&self, holding: &Holding<D>) -> Option<Facts> {
        self.held.as_ref()?.replaced(holding)
    }

    // Gives its file the rights that it is to have, and stores it if it is to be stored, if it is held back. Returns why that failed.
    pub(crate) fn end_held<D: Disk>(&mut self, holding: &mut Holding<D>) -> Result<(), ErrorNumber>
        ensures same { self.new ≡ self.old }
        ensures outputs { holding.new.outputs ≡ holding.old.outputs }
        ensures others { IsTrue D.names_known → LeavesAlone (IsNoNew holding.old.outputs)
            (D.shows holding.old.disk) (D.shows holding.new.disk) }
    {
        match &mut self.held {
            Some(held) => held.end(holding),
            None => Ok(()),
        }
    }

    // Makes its file ready to be put in place, if that is held back. Returns why that failed.
    pub(crate) fn make_ready<D: Disk>(
        &mut self,
        rt: &R,
        holding: &mut Holding<D>,
    ) -> Result<(), ErrorNumber>
        ensures same { self.new ≡ self.old }
        ensures outputs { holding.new.outputs ≡ holding.old.outputs }
        ensures others { IsTrue D.names_known → LeavesAlone (IsNoNew holding.old.outputs)
            (D.shows holding.old.disk) (D.shows holding.new.disk) }
    {
        match &mut self.held {
            Some(held) => held.make_ready(rt, holding),
            None => Ok(()),
        }
    }

    // Notes that its file is in place, if that is held back and ready, and this came of placing this many new files. Returns why it is not.
    pub(crate) fn note_placed(
        &mut self,
        placed: Result<(), PlaceFault>,
        count: usize,
    ) -> Result<(), ErrorNumber>
        ensures { self.new ≡ self.old }
    {
        match &mut self.held {
            Some(held) => held.note_placed(placed, count),
            None => Ok(()),
        }
    }

    // Leaves its file, if that is held back and not in place.
    pub(crate) fn leave(&mut self, rt: &R)
        ensures { self.new ≡ self.old }
    {
        if let Some(held) = &mut self.held {
            held.leave(rt);
        }
    }
}

// Whether a write to such an output may wait. If nothing is known of it, it may.
fn may_wait(facts: Option<Facts>) -> bool {
    match facts {
        Some(facts) => facts.is_stream(),
        None => true,
    }
}

// Whether it is known to be a regular file.
fn is_regular(facts: Option<Facts>) -> bool {
    match facts {
        Some(facts) => facts.kind == Kind::Regular,
        None => false,
    }
}

// Waits until the task that opens an output is done.
fn finish_opening<R: HostHandle, I: Inputs<HostReader<R>>>(
    opening: &mut Option<LoggedInput<HostReader<R>>>,
    waiting: &mut Waiting<I>,
) {
    if let Some(mut task) = opening.take() {
        // It gives no byte, and the output itself knows whether it was opened.
        let _ = task.read(waiting, &mut [0]);
    }
}

// Notes that the output with this number has come to its end. Returns whether that is new.
pub(crate) fn note_end_at<R: HostHandle>(outputs: &mut Vec<HostOutput<R>>, file: usize) -> bool
    ensures { outputs.new.items ≡ outputs.old.items }
{
    if file < outputs.len() {
        !outputs[file].note_end()
    } else {
        false
    }
}

// Ends the output with this number, as `HostOutput::finish` does.
pub(crate) fn finish_at<R: HostHandle, I: Inputs<HostReader<R>>>(
    outputs: &mut Vec<HostOutput<R>>,
    file: usize,
    waiting: &mut Waiting<I>,
) -> Result<(), ErrorNumber>
    ensures { outputs.new.items ≡ outputs.old.items }
{
    if file < outputs.len() {
        outputs[file].finish(waiting)
    } else {
        Ok(())
    }
}

// Ends what is held back of the output with this number, as `HostOutput::end_held` does.
pub(crate) fn end_held_at<R: HostHandle, D: Disk>(
    outputs: &mut Vec<HostOutput<R>>,
    file: usize,
    holding: &mut Holding<D>,
) -> Result<(), ErrorNumber>
    ensures same { outputs.new.items ≡ outputs.old.items }
    ensures outputs { holding.new.outputs ≡ holding.old.outputs }
    ensures others { IsTrue D.names_known → LeavesAlone (IsNoNew holding.old.outputs)
        (D.shows holding.old.disk) (D.shows holding.new.disk) }
{
    if file < outputs.len() {
        outputs[file].end_held(holding)
    } else {
        Ok(())
    }
}

// Notes that the output with this number is in place, as `HostOutput::note_placed` does.
pub(crate) fn note_placed_at<R: HostHandle>(
    outputs: &mut Vec<HostOutput<R>>,
    file: usize,
    placed: Result<(), PlaceFault>,
    count: usize,
) -> Result<(), ErrorNumber>
    ensures { outputs.new.items ≡ outputs.old.items }
{
    if file < outputs.len() {
        outputs[file].note_placed(placed, count)
    } else {
        Ok(())
    }
}

// Makes each output ready to be put in place, if it is held back. Returns why one failed.
pub(crate) fn make_all_ready<R: HostHandle, D: Disk>(
    rt: &R,
    outputs: &mut Vec<HostOutput<R>>,
    holding: &mut Holding<D>,
) -> Result<(), ErrorNumber>
    ensures same { outputs.new.items ≡ outputs.old.items }
    ensures outputs { holding.new.outputs ≡ holding.old.outputs }
    ensures others { IsTrue D.names_known → LeavesAlone (IsNoNew holding.old.outputs)
        (D.shows holding.old.disk) (D.shows holding.new.disk) }
{
    for file in 0..outputs.len() {
        outputs[file].make_ready(rt, holding)?;
    }
    Ok(())
}

// Counts bytes that were written to an output, if it is held back.
fn note_held(held: &mut Option<HeldOutput>, count: usize) {
    if let Some(held) = held {
        held.note_written(count);
    }
}

// Leaves the file of each output that is held back and not in place.
pub(crate) fn leave_all<R: HostHandle>(rt: &R, outputs: &mut Vec<HostOutput<R>>)
    ensures { outputs.new.items ≡ outputs.old.items }
{
    for file in 0..outputs.len() {
        outputs[file].leave(rt);
    }
}

// Adds the numbers of the threads that these files wait for.
pub(crate) fn add_waiting<R: HostHandle>(
    outputs: &[HostOutput<R>],
    files: &[usize],
    threads: &mut Vec<usize>,
) -> Result<(), AllocError> {
    for file in files {
        if let Some(output) = outputs.get(*file)
            && let Some(number) = output.thread()
        {
            threads.push(number)?;
        }
    }
    Ok(())
}
