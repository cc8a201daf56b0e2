// The open inputs of the host.
ghost use Rattle.std.specs.Prelude.{◌≡◌, ◌≤◌, length, take, IfSome, IfNone, IsNone};
ghost use Rattle.collector.specs.Files.{Reads};
ghost use Rattle.collector.specs.InputEnds.{left_out_too};
ghost use Rattle.file_stores.specs.inner.Host.{opened_now};

use super::amount::{Amount, Spare};
use crate::facts::{Facts, Kind, may_be_one_stream};
use crate::handle::HostHandle;
use crate::logged::{LoggedInput, Waiting};
use crate::patient::HostReader;
use collector::NeededEnd;
use std::alloc::{AllocError, Global};
use std::marker::Model;
use waiting_inputs::Inputs;

// An input that can be opened, and what the system says of it. Nothing of it has been read.
#[derive(Drop)]
pub(crate) struct Found<R: HostHandle> {
    pub(crate) file: HostReader<R>,
    pub(crate) facts: Option<Facts>,
    pub(crate) is_standard: bool,
}

// An open input of the host, and what the system says of it.
#[derive(Drop)]
pub(crate) struct HostInput<R: HostHandle> {
    pub(crate) logged: LoggedInput<HostReader<R>>,
    pub(crate) facts: Option<Facts>,
    // Whether it is the standard input.
    is_standard: bool,
    // How much of it was read.
    amount: Amount,
}

impl<R: HostHandle> Model for HostInput<R> {
    ghost use Rattle.file_stores.specs.inner.Host.{HostInputShown};

    ghost Value = { HostInputShown };

    ghost view = { λ i. record { log = i.logged.log; left = i.logged.left } };
}

// An input that was found. Nothing of it has been read or left out, and no thread has it.
pub(crate) fn opened<R: HostHandle>(found: Found<R>) -> HostInput<R>
    ensures { result ≡ opened_now }
{
    let Found {
        file,
        facts,
        is_standard,
    } = found;
    let logged = if may_wait(facts) {
        LoggedInput::late(file)
    } else {
        LoggedInput::direct(file)
    };
    HostInput {
        logged,
        facts,
        is_standard,
        amount: Amount::new(),
    }
}

// Whether a read of such an input may wait. If nothing is known of it, it may.
fn may_wait(facts: Option<Facts>) -> bool {
    match facts {
        Some(facts) => facts.is_stream() || facts.kind == Kind::Device,
        None => true,
    }
}

impl<R: HostHandle> HostInput<R> {
    // Whether it is a stream that may be the other one. An input that was read to its end, as a script, is in nobody's way.
    pub(crate) fn may_share(&self, other: Option<Facts>) -> bool {
        !self.logged.is_at_end() && may_be_one_stream(self.facts, other)
    }

    // Whether it is a regular file, and was not read to its end.
    pub(crate) fn is_unread_file(&self) -> bool {
        !self.logged.is_at_end() && is_regular(self.facts)
    }

    // Leaves out a front of a regular file, if its reader needs only this end of it. It is noted in any case.
    pub(crate) fn leave_front(&mut self, alloc: Global, needed: NeededEnd)
        ensures { self.new ≡ record self.old { left = left_out_too self.old.left needed } }
    {
        let may = is_regular(self.facts);
        self.logged.leave_front(alloc, needed, may);
    }
}

impl<R: HostHandle> HostInput<R> {
    // Reads once, unless it is at its end. If the caller reads it, and it is a FIFO that is not open, it is opened first. Returns how many bytes
    // were read. None if the read failed. A long file may get a thread after that, if several outputs go on.
    pub(crate) fn read<I: Inputs<HostReader<R>>>(
        &mut self,
        rt: &R,
        waiting: &mut Waiting<I>,
        spare: &mut Spare,
        has_others: bool,
        into: &mut [u8],
    ) -> Option<usize>
        ensures count { IfSome result (λ count. count ≤ length into.new) }
        ensures told { IfSome result
            (λ count. Reads (length into.new) (take count into.new) self.old.log self.new.log) }
        ensures failed { IsNone result → self.new ≡ self.old }
        ensures kept { self.new.left ≡ self.old.left }
    {
        self.logged.open(rt);
        let count = self.logged.read(waiting, into)?;
        self.amount = self.amount.with(count);
        if has_others {
            self.share(waiting, spare);
        }
        Some(count)
    }

    // Lets a thread read it from here on, if it is a long regular file that the caller reads, and there is a thread for it.
    fn share<I: Inputs<HostReader<R>>>(&mut self, waiting: &mut Waiting<I>, spare: &mut Spare)
        ensures { self.new ≡ self.old }
    {
        if self.amount.is_long()
            && is_regular(self.facts)
            && self.logged.thread().is_none()
            && spare.take()
        {
            self.logged.put_off();
            self.logged.ask(waiting);
            self.logged.read_ahead(waiting);
        }
    }

    // Takes what a read by a thread gave without copying it, if there are such bytes, and at most this many.
    pub(crate) fn take<I: Inputs<HostReader<R>>>(
        &mut self,
        waiting: &mut Waiting<I>,
        most: usize,
    ) -> Option<Vec<u8>>
        ensures long { IfSome result
            (λ bytes. (1 ≤ length bytes.items) × (length bytes.items ≤ most)) }
        ensures told { IfSome result
            (λ bytes. Reads (length bytes.items) bytes.items self.old.log self.new.log) }
        ensures none { IfNone result (self.new ≡ self.old) }
        ensures kept { self.new.left ≡ self.old.left }
    {
        self.logged.take(waiting, most)
    }

    // Asks a thread for the next bytes of it, if it may wait.
    pub(crate) fn ask<I: Inputs<HostReader<R>>>(&mut self, waiting: &mut Waiting<I>)
        ensures { self.new ≡ self.old }
    {
        self.logged.ask(waiting);
    }

    // Lets the caller wait in the next read of it, unless a thread reads it. Returns whether the caller reads it.
    pub(crate) fn wait_here(&mut self) -> bool
        ensures { self.new ≡ self.old }
    {
        self.logged.wait_here()
    }
}

impl<R: HostHandle> HostInput<R> {
    // Leaves what follows the first lines of the standard input, this many, to others, if that is a regular file. Other processes read on
    // in it after this one. No other input has a place that they share.
    pub(crate) fn leave_rest(&mut self, lines: u64)
        ensures { self.new ≡ self.old }
    {
        if self.is_standard && is_regular(self.facts) {
            self.logged.leave_rest(lines);
        }
    }
}

// Whether it is known to be a regular file.
fn is_regular(facts: Option<Facts>) -> bool {
    match facts {
        Some(facts) => facts.kind == Kind::Regular,
        None => false,
    }
}

// Adds the numbers of the threads that read these files.
pub(crate) fn add_reading<R: HostHandle>(
    inputs: &[HostInput<R>],
    files: &[usize],
    threads: &mut Vec<usize>,
) -> Result<(), AllocError> {
    for file in files {
        if let Some(input) = inputs.get(*file)
            && let Some(number) = input.logged.thread()
        {
            threads.push(number)?;
        }
    }
    Ok(())
}

// Asks threads for the next bytes of those of these files that may wait.
pub(crate) fn ask_each<R: HostHandle, I: Inputs<HostReader<R>>>(
    inputs: &mut Vec<HostInput<R>>,
    waiting: &mut Waiting<I>,
    files: &[usize],
)
    ensures { inputs.new.items ≡ inputs.old.items }
{
    for file in files {
        ask_at(inputs, waiting, *file);
    }
}

// Asks a thread for the next bytes of this file, if it may wait.
fn ask_at<R: HostHandle, I: Inputs<HostReader<R>>>(
    inputs: &mut Vec<HostInput<R>>,
    waiting: &mut Waiting<I>,
    file: usize,
)
    ensures { inputs.new.items ≡ inputs.old.items }
{
    if file < inputs.len() {
        inputs[file].ask(waiting);
    }
}

// If this is a single file, the caller waits in the next read of it, unless a thread reads it. Returns whether the caller reads it.
pub(crate) fn wait_here<R: HostHandle>(inputs: &mut Vec<HostInput<R>>, files: &[usize]) -> bool
    ensures { inputs.new.items ≡ inputs.old.items }
{
    let [file] = files else {
        return false;
    };
    match inputs.get_mut(*file) {
        Some(input) => input.wait_here(),
        None => false,
    }
}
