ghost use Rattle.std.specs.Prelude.{◌≡◌, ◌≤◌, [], length, IfOk, IfErr, IfSome, IfNone};
ghost use Rattle.waiting_inputs.specs.Inputs.{Lefts, AddsInput, ReadsInput, TakesInput};

use crate::table::Table;
use crate::thread::Errand;
use crossbeam_channel::Sender;
use std::alloc::Global;
use std::io::Read;
use std::sync::Wait;

/// Inputs whose reads may wait.
pub trait Inputs<F: Read>: Drop {
    /// What each input has left: the bytes that its reads will return from here on, where they are known.
    ghost lefts: { Self → Lefts };

    /// Adds this file, and begins what reads it. Returns the number of the input. At Err memory or a thread was refused.
    fn add(&mut self, file: F) -> Result<usize, F>
        ensures added { IfOk result
            (λ input. AddsInput input (F.remaining file) (lefts self.old) (lefts self.new)) }
        ensures refused { IfErr result (λ back. (back ≡ file) × (lefts self.new ≡ lefts self.old)) };

    /// Whether a read of this input would wait, as far as that is known.
    fn would_wait(&mut self, input: usize) -> bool
        ensures { lefts self.new ≡ lefts self.old };

    /// Asks for what comes next from this input.
    fn ask(&mut self, input: usize)
        ensures { lefts self.new ≡ lefts self.old };

    /// Asks for what comes next from each of these inputs, and waits until a read of one of them would not wait.
    fn wait(&mut self, inputs: &[usize])
        ensures { lefts self.new ≡ lefts self.old };

    /// Lets the thread of this input be asked for several reads at once, since its reads do not wait for others.
    fn read_ahead(&mut self, input: usize)
        ensures { lefts self.new ≡ lefts self.old };

    /// Takes what a read of this input gave without copying it, if that is at most this many bytes, none of them was given, and they are not few.
    fn take(&mut self, input: usize, most: usize) -> Option<Vec<u8>>
        ensures told { IfSome result (λ bytes. TakesInput input bytes.items (lefts self.old) (lefts self.new)) }
        ensures long { IfSome result
            (λ bytes. (1 ≤ length bytes.items) × (length bytes.items ≤ most)) }
        ensures none { IfNone result (lefts self.new ≡ lefts self.old) };

    /// Reads what comes next from this input: 0 bytes of a nonempty slice only at the end. None if the read failed.
    fn read(&mut self, input: usize, into: &mut [u8]) -> Option<usize>
        ensures count { IfSome result (λ count. count ≤ length into.new) }
        ensures told { ReadsInput input result into.new (lefts self.old) (lefts self.new) };
}

/// Begins the threads of inputs.
pub trait Begins: Drop {
    /// Begins a thread that takes one errand. False if it gets none.
    fn begin(&self) -> bool;
}

/// Begins each thread by a call.
#[derive(Drop)]
pub struct ByCall {
    call: Box<dyn Fn() -> bool>,
    ghost callable: { IsAlwaysCallable call },
}

impl ByCall {
    /// The call is to begin a thread that takes one errand, as `begin_thread` does.
    pub fn new(call: Box<dyn Fn() -> bool>) -> ByCall
        requires { IsAlwaysCallable call }
    {
        ByCall { call }
    }
}

impl Begins for ByCall {
    fn begin(&self) -> bool {
        (self.call)()
    }
}

/// Inputs that have a thread each, which reads once each time that it is asked.
#[derive(Drop)]
pub struct ThreadInputs<R: Wait, F: Read, B> {
    rt: R,
    threads: B,
    // The channel from which each thread takes its task.
    errands: Sender<Errand<F>>,
    table: Table,
}

impl<R: Wait, F: Read, B> ThreadInputs<R, F, B> {
    /// No input. The threads that are begun are to take these errands.
    pub fn new(
        rt: R,
        alloc: Global,
        errands: Sender<Errand<F>>,
        threads: B,
    ) -> ThreadInputs<R, F, B>
        ensures { result.table.inputs.items ≡ [] }
    {
        ThreadInputs {
            rt,
            threads,
            errands,
            table: Table::new(alloc),
        }
    }
}

impl<R: Wait + Drop, F: Read + Drop, B: Begins> Inputs<F> for ThreadInputs<R, F, B> {
    ghost lefts = { λ t. t.table.inputs.items };

    fn add(&mut self, file: F) -> Result<usize, F> {
        let errand = match self.table.add(file) {
            Ok(errand) => errand,
            Err(file) => return Err(file),
        };
        let number = errand.input;
        if !self.threads.begin() {
            self.table.forget_last();
            return Err(errand.into_file());
        }
        match self.errands.send(&self.rt, errand) {
            Ok(()) => Ok(number),
            Err(refused) => {
                self.table.forget_last();
                Err(refused.into_inner().into_file())
            }
        }
    }

    fn would_wait(&mut self, input: usize) -> bool {
        self.table.would_wait(&self.rt, input)
    }

    fn ask(&mut self, input: usize) {
        self.table.ask(&self.rt, input);
    }

    fn wait(&mut self, inputs: &[usize]) {
        self.table.wait(&self.rt, inputs);
    }

    fn read_ahead(&mut self, input: usize) {
        self.table.read_ahead(input);
    }

    fn take(&mut self, input: usize, most: usize) -> Option<Vec<u8>> {
        self.table.take(&self.rt, input, most)
    }

    fn read(&mut self, input: usize, into: &mut [u8]) -> Option<usize> {
        self.table.read(&self.rt, input, into)
    }
}
