ghost use Rattle.std.specs.Prelude.{◌≡◌, ◌≤◌, ◌-◌, [], ◌∷◌, ◌++◌, length, take, IfOk, IfErr, IfSome, IfNone};
ghost use Rattle.waiting_inputs.specs.Inputs.{ReadsInput, TakesInput};

use crate::chunk::Buffer;
use crate::input::{AHEAD, Input};
use crate::line::{Feeder, ends};
use crate::thread::{Errand, Source};
use crossbeam_channel::{Receiver, Sender, bounded};
use std::alloc::{AllocError, Global};
use std::io::Read;
use std::marker::Brand;
use std::sync::Wait;

// At most this many notices can be on their way. A thread with one more waits.
const NOTICES: usize = 64;

// The channel on which the threads say that their inputs have a result.
#[derive(Drop)]
struct Notices {
    to: Sender<usize>,
    from: Receiver<usize>,
}

// A new input, and all that its thread needs but the file.
#[derive(Drop)]
struct Begun {
    input: Input,
    results: Feeder,
    requests: Receiver<Option<Buffer>>,
}

// The inputs, and the notices of their threads.
#[derive(Drop)]
pub(crate) struct Table {
    alloc: Global,
    // None before the first input.
    notices: Option<Notices>,
    pub(crate) inputs: Vec<Input>,
}

impl Table {
    // No input.
    pub(crate) fn new(alloc: Global) -> Table
        ensures { result.inputs.items ≡ [] }
    {
        Table {
            alloc,
            notices: None,
            inputs: Vec::new(alloc),
        }
    }

    // Adds an input for this file. Returns the task of its thread.
    pub(crate) fn add<F: Read + Drop>(&mut self, file: F) -> Result<Errand<F>, F>
        ensures added { IfOk result
            (λ errand. self.new.inputs.items ≡ self.old.inputs.items ++ F.remaining file ∷ []) }
        ensures errand { IfOk result
            (λ errand. (errand.input ≡ length self.old.inputs.items) × (errand.source ≡ file)) }
        ensures refused { IfErr result
            (λ back. (back ≡ file) × (self.new.inputs.items ≡ self.old.inputs.items)) }
    {
        let input = self.inputs.len();
        let Ok(notices) = self.notices() else {
            return Err(file);
        };
        let Ok(begun) = begin(self.alloc, &file) else {
            return Err(file);
        };
        if self.inputs.push(begun.input).is_err() {
            return Err(file);
        }
        Ok(Errand {
            alloc: self.alloc,
            input,
            source: Source::new(file, begun.results),
            requests: begun.requests,
            notices,
        })
    }

    // Takes the last input out, which no thread reads.
    pub(crate) fn forget_last(&mut self)
        ensures { self.new.inputs.items
            ≡ take (length self.old.inputs.items - 1) self.old.inputs.items }
    {
        self.inputs.pop();
    }

    // The channel on which a thread says that its input has a result.
    fn notices(&mut self) -> Result<Sender<usize>, AllocError>
        ensures { self.new.inputs.items ≡ self.old.inputs.items }
    {
        if let Some(notices) = &self.notices {
            return notices.to.clone();
        }
        let (to, from) = bounded(self.alloc, NOTICES)?;
        let own = to.clone()?;
        self.notices = Some(Notices { to: own, from });
        Ok(to)
    }

    // Whether a read of this input would wait, as far as that is known.
    pub(crate) fn would_wait<R: Wait>(&mut self, rt: &R, input: usize) -> bool
        ensures { self.new.inputs.items ≡ self.old.inputs.items }
    {
        if self.is_ready(input) {
            return false;
        }
        if let Some(input) = self.inputs.get_mut(input) {
            input.ask_ahead(rt);
        }
        self.take_results(rt);
        !self.is_ready(input)
    }

    // Waits until a read of one of these inputs would not wait.
    pub(crate) fn wait<R: Wait>(&mut self, rt: &R, inputs: &[usize])
        ensures { self.new.inputs.items ≡ self.old.inputs.items }
    {
        for input in inputs {
            self.ask(rt, *input);
        }
        self.take_until_ready(rt, inputs);
    }

    // Gives what comes next from this input. None if the read failed.
    pub(crate) fn read<R: Wait>(&mut self, rt: &R, input: usize, into: &mut [u8]) -> Option<usize>
        ensures count { IfSome result (λ count. count ≤ length into.new) }
        ensures told { ReadsInput input result into.new self.old.inputs.items self.new.inputs.items }
    {
        self.ask(rt, input);
        self.take_until_ready(rt, &[input]);
        self.inputs.get_mut(input)?.give_on(rt, into)
    }

    // Takes what the last read of this input gave without copying it, if that is at most this many bytes, none of them was given, and they are not
    // few.
    pub(crate) fn take<R: Wait>(&mut self, rt: &R, input: usize, most: usize) -> Option<Vec<u8>>
        ensures told { IfSome result (λ bytes. TakesInput input bytes.items self.old.inputs.items self.new.inputs.items) }
        ensures long { IfSome result
            (λ bytes. (1 ≤ length bytes.items) × (length bytes.items ≤ most)) }
        ensures none { IfNone result (self.new.inputs.items ≡ self.old.inputs.items) }
    {
        self.inputs.get_mut(input)?.take(rt, most)
    }

    // Lets the thread of this input be asked for several reads at once.
    pub(crate) fn read_ahead(&mut self, input: usize)
        ensures { self.new.inputs.items ≡ self.old.inputs.items }
    {
        if let Some(input) = self.inputs.get_mut(input) {
            input.read_ahead();
        }
    }

    // Asks the thread of this input for a read, if nothing is left of the last one.
    pub(crate) fn ask<R: Wait>(&mut self, rt: &R, input: usize)
        ensures { self.new.inputs.items ≡ self.old.inputs.items }
    {
        if let Some(input) = self.inputs.get_mut(input) {
            input.ask(rt);
        }
    }

    // Whether a read of this input need not wait.
    fn is_ready(&self, input: usize) -> bool {
        match self.inputs.get(input) {
            Some(input) => input.is_ready(),
            None => true,
        }
    }

    // Takes the results that are there.
    fn take_results<R: Wait>(&mut self, rt: &R)
        ensures { self.new.inputs.items ≡ self.old.inputs.items }
    {
        for _ in 0..self.inputs.len() {
            let Some(input) = self.next_notice(rt) else {
                return;
            };
            self.take_result(rt, input);
        }
    }

    // Takes results until a read of one of these inputs need not wait.
    fn take_until_ready<R: Wait>(&mut self, rt: &R, inputs: &[usize])
        ensures { self.new.inputs.items ≡ self.old.inputs.items }
    {
        for _ in rt.forever() {
            if inputs.is_empty() || inputs.iter().any(|input| self.is_ready(*input)) {
                return;
            }
            let Some(input) = self.wait_for_notice(rt) else {
                return;
            };
            self.take_result(rt, input);
        }
    }

    // The next input that has a result, if there is one.
    fn next_notice<R: Wait>(&self, rt: &R) -> Option<usize> {
        self.notices.as_ref()?.from.try_recv(rt).ok()
    }

    // The next input that has a result. None if none can come.
    fn wait_for_notice<R: Wait>(&self, rt: &R) -> Option<usize> {
        self.notices.as_ref()?.from.recv(rt).ok()
    }

    // Takes the result of this input.
    fn take_result<R: Wait>(&mut self, rt: &R, input: usize)
        ensures { self.new.inputs.items ≡ self.old.inputs.items }
    {
        if let Some(input) = self.inputs.get_mut(input) {
            input.take_result(rt);
        }
    }
}

// An input for this file, and all that its thread needs but the file.
fn begin<F: Read>(alloc: Global, file: &F) -> Result<Begun, AllocError>
    ensures input { IfOk result (λ b. b.input ≡ F.remaining file.now) }
    ensures results { IfOk result (λ b. b.results ≡ F.remaining file.now) }
{
    let buffer = Buffer::for_read(alloc)?;
    let (to, requests) = bounded(alloc, AHEAD)?;
    let (taker, results) = ends::<F, Brand>(alloc, file)?;
    Ok(Begun {
        input: Input::new(to, taker, buffer),
        results,
        requests,
    })
}
