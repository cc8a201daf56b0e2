ghost use Rattle.std.specs.Prelude.{◌≡◌, ◌≤◌, ◌↔◌, true, false, length, take, None, Some, IfSome, IfNone, IsNone, IsTrue};
ghost use Rattle.collector.specs.Files.{nothing_read, Reads};
ghost use Rattle.collector.specs.InputEnds.{IsHeldFirst, IsHeldLeft, left_out_too};
ghost use Rattle.collector.specs.declared.needed.LeftOut.TheVariants.{Nothing};
ghost use Rattle.waiting_inputs.specs.Inputs.{Lefts, TakesInput};
ghost use Rattle.file_stores.specs.inner.Logged.{MovesFile, ReadsOnce, left_of, thread_of, delay_of};
ghost use Rattle.file_stores.specs.inner.Logged.{is_put_off, accepted, once_read, put_off, put_off_from, read_next_here};

use crate::error_number::ErrorNumber;
use crate::placed::LeavesPart;
use collector::{LeftOut, NeededEnd};
use std::alloc::Global;
use std::io::Read;
use std::marker::Model;
use std::mem;
use waiting_inputs::{Inputs, OpensLate};
use waiting_outputs::Passed;

// The inputs that threads read. They are reached by the methods of logged inputs alone.
#[derive(Drop)]
pub(crate) struct Waiting<I> {
    inputs: I,
}

impl<I> Waiting<I> {
    pub(crate) fn new(inputs: I) -> Waiting<I>
        ensures { result.inputs ≡ inputs }
    {
        Waiting { inputs }
    }
}

// Whether a read by the caller may wait.
#[derive(Clone, Copy)]
enum Delay {
    // It never waits.
    Never,
    // It may wait. So it is put off while something else may go on.
    Possible,
    // It may wait, and the caller makes it next all the same: there is nothing else to wait for, or no thread is to be had.
    Accepted,
}

impl Delay {
    // Whether a read is to be put off.
    fn is_put_off(self) -> bool
        ensures { result ≡ is_put_off self }
    {
        match self {
            Delay::Possible => true,
            Delay::Never | Delay::Accepted => false,
        }
    }

    // The caller makes the next read, though that may wait.
    fn accepted(self) -> Delay
        ensures { result ≡ accepted self }
    {
        match self {
            Delay::Never => Delay::Never,
            Delay::Possible | Delay::Accepted => Delay::Accepted,
        }
    }

    // A read is to be put off from here on.
    fn put_off(self) -> Delay
        ensures { result ≡ put_off self }
    {
        match self {
            Delay::Never | Delay::Possible => Delay::Possible,
            Delay::Accepted => Delay::Accepted,
        }
    }

    // A read was made. The one after it may wait again.
    fn once_read(self) -> Delay
        ensures { result ≡ once_read self }
    {
        match self {
            Delay::Never => Delay::Never,
            Delay::Possible | Delay::Accepted => Delay::Possible,
        }
    }
}

// What an input is read from.
#[derive(Drop)]
enum InFrom<F> {
    // The caller reads this file. A reader of the standard input is held as long as the files: to begin anew asks the system for its place.
    Direct(F, Delay),
    // A thread, by its number.
    Thread(usize),
}

impl<F: Read> InFrom<F> {
    // Reads once. Returns how many bytes were read. None if the read failed. `error` is set to the number of its error, unless a thread reads.
    fn read<I: Inputs<F>>(
        &mut self,
        inputs: &mut I,
        into: &mut [u8],
        error: &mut ErrorNumber,
    ) -> Option<usize>
        ensures count { IfSome result (λ count. count ≤ length into.new) }
        ensures asked { ReadsOnce F.remaining result into.new self.old self.new
            (I.lefts inputs.old) (I.lefts inputs.new) }
    {
        match self {
            InFrom::Direct(file, delay) => {
                *delay = delay.once_read();
                match file.read(into) {
                    Ok(count) => Some(count),
                    Err(why) => {
                        *error = why.raw_os_error();
                        None
                    }
                }
            }
            InFrom::Thread(number) => inputs.read(*number, into),
        }
    }

    // Gives its file to a thread, if its reads may wait and no thread has it. If it gets none, the caller reads it next.
    fn given_to_thread<I: Inputs<F>>(self, inputs: &mut I) -> InFrom<F>
        ensures { MovesFile F.remaining self result (I.lefts inputs.old) (I.lefts inputs.new) }
    {
        match self {
            InFrom::Direct(file, Delay::Possible | Delay::Accepted) => match inputs.add(file) {
                Ok(number) => InFrom::Thread(number),
                Err(file) => InFrom::Direct(file, Delay::Accepted),
            },
            other => other,
        }
    }
}

// An open input: what it is read from, with what its reads returned.
#[derive(Drop)]
pub(crate) struct LoggedInput<F> {
    from: InFrom<F>,
    given: Passed,
    // Whether a read returned the end. No more is read then.
    at_end: bool,
    // The number of the error of the last read of it that failed, if the system gave one here.
    error: ErrorNumber,
    // Whether it was asked to leave out a front.
    left: LeftOut,
}

impl<F> Model for LoggedInput<F> {
    ghost use Rattle.file_stores.specs.inner.Logged.{InputShown};

    ghost Value = { InputShown F };

    ghost view = { λ i. record {
      from = i.from;
      log = record { bytes = i.given.bytes; at_end = i.at_end };
      left = i.left;
    } };
}

impl<F: Read> LoggedInput<F> {
    // A file whose reads never wait. The caller reads it. Nothing of it has been read.
    pub(crate) fn direct(file: F) -> LoggedInput<F>
        ensures { result ≡ record {
          from = InFrom.Direct file Delay.Never;
          log = nothing_read;
          left = Nothing;
        } }
    {
        LoggedInput {
            from: InFrom::Direct(file, Delay::Never),
            given: Passed::new(),
            at_end: false,
            error: None,
            left: LeftOut::Nothing,
        }
    }

    // A file whose reads may wait. The caller reads it as long as no thread has it. Nothing of it has been read.
    pub(crate) fn late(file: F) -> LoggedInput<F>
        ensures { result ≡ record {
          from = InFrom.Direct file Delay.Possible;
          log = nothing_read;
          left = Nothing;
        } }
    {
        LoggedInput {
            from: InFrom::Direct(file, Delay::Possible),
            given: Passed::new(),
            at_end: false,
            error: None,
            left: LeftOut::Nothing,
        }
    }

    // Opens it by this runtime, if the caller reads it and it is not open. Its bytes stay as they are.
    pub(crate) fn open<R>(&mut self, rt: &R)
    where
        F: OpensLate<R>,
        ensures log { self.new.log ≡ self.old.log }
        ensures kept { self.new.left ≡ self.old.left }
        ensures thread { thread_of self.new.from ≡ thread_of self.old.from }
        ensures delay { delay_of self.new.from ≡ delay_of self.old.from }
        ensures left { (lefts : Lefts) → left_of F.remaining lefts self.new.from
            ≡ left_of F.remaining lefts self.old.from }
    {
        if let InFrom::Direct(file, _) = &mut self.from {
            file.open_late(rt);
        }
    }

    // Leaves out a front of it, if it may have one left out, the caller reads it, and its reader needs only this end of it. That is no read. It is
    // noted in any case.
    pub(crate) fn leave_front(&mut self, alloc: Global, needed: NeededEnd, may: bool)
    where
        F: LeavesPart,
        ensures log { self.new.log ≡ self.old.log }
        ensures noted { self.new.left ≡ left_out_too self.old.left needed }
        ensures thread { thread_of self.new.from ≡ thread_of self.old.from }
        ensures delay { delay_of self.new.from ≡ delay_of self.old.from }
        ensures left { (lefts : Lefts) → IsHeldLeft needed (left_of F.remaining lefts self.old.from)
            (left_of F.remaining lefts self.new.from) }
    {
        self.left = self.left.too(needed);
        if may && let InFrom::Direct(file, _) = &mut self.from {
            file.leave_front(alloc, needed);
        }
    }

    // Leaves what follows its first lines, this many, to others, if the caller reads it. That is no read.
    pub(crate) fn leave_rest(&mut self, lines: u64)
    where
        F: LeavesPart,
        ensures log { self.new.log ≡ self.old.log }
        ensures kept { self.new.left ≡ self.old.left }
        ensures thread { thread_of self.new.from ≡ thread_of self.old.from }
        ensures delay { delay_of self.new.from ≡ delay_of self.old.from }
        ensures first { thread_of self.old.from ≡ None
            → (lefts : Lefts) → IsHeldFirst lines (left_of F.remaining lefts self.old.from)
            (left_of F.remaining lefts self.new.from) }
    {
        if let InFrom::Direct(file, _) = &mut self.from {
            file.leave_rest(lines);
        }
    }

    // The number of the error of the last read of it that failed. None if a thread made it.
    pub(crate) fn last_error(&self) -> ErrorNumber {
        self.error
    }

    // Whether a read of it returned the end.
    pub(crate) fn is_at_end(&self) -> bool
        ensures { result ≡ self.now.log.at_end }
    {
        self.at_end
    }

    // The number of the thread that reads it, if one does.
    pub(crate) fn thread(&self) -> Option<usize>
        ensures { result ≡ thread_of self.now.from }
    {
        match self.from {
            InFrom::Thread(number) => Some(number),
            InFrom::Direct(..) => None,
        }
    }

    // Whether a read of it would wait, as far as that is known. If the caller reads it, it would just if the read is to be put off.
    pub(crate) fn would_wait<I: Inputs<F>>(&self, waiting: &mut Waiting<I>) -> bool
        ensures direct { IfSome (delay_of self.now.from) (λ delay. result ≡ is_put_off delay) }
        ensures lefts { I.lefts waiting.new.inputs ≡ I.lefts waiting.old.inputs }
    {
        match &self.from {
            InFrom::Thread(number) => waiting.inputs.would_wait(*number),
            InFrom::Direct(_, delay) => delay.is_put_off(),
        }
    }

    // Its reads count as ones that may wait from here on, so that a thread may make them.
    pub(crate) fn put_off(&mut self)
        ensures after { self.new ≡ record self.old { from = put_off_from self.old.from } }
        ensures left { (lefts : Lefts) → left_of F.remaining lefts self.new.from
            ≡ left_of F.remaining lefts self.old.from }
    {
        if let InFrom::Direct(_, delay) = &mut self.from {
            *delay = delay.put_off();
        }
    }

    // Asks a thread for the next bytes of it, if it may wait. A thread that has been given it keeps it. If it gets none, the caller reads it next.
    pub(crate) fn ask<I: Inputs<F>>(&mut self, waiting: &mut Waiting<I>)
    where
        F: Drop,
        ensures log { self.new.log ≡ self.old.log }
        ensures kept { self.new.left ≡ self.old.left }
        ensures moves { MovesFile F.remaining self.old.from self.new.from
            (I.lefts waiting.old.inputs) (I.lefts waiting.new.inputs) }
    {
        // This number is in its place only until the next line.
        let from = mem::replace(&mut self.from, InFrom::Thread(0));
        self.from = from.given_to_thread(&mut waiting.inputs);
        if let InFrom::Thread(number) = self.from {
            waiting.inputs.ask(number);
        }
    }

    // Lets the thread that reads it make several reads before they are asked for.
    pub(crate) fn read_ahead<I: Inputs<F>>(&self, waiting: &mut Waiting<I>)
        ensures { I.lefts waiting.new.inputs ≡ I.lefts waiting.old.inputs }
    {
        if let InFrom::Thread(number) = self.from {
            waiting.inputs.read_ahead(number);
        }
    }

    // Lets the caller make the next read of it though that may wait, unless a thread reads it. Returns whether the caller reads it.
    pub(crate) fn wait_here(&mut self) -> bool
        ensures after { self.new ≡ record self.old { from = read_next_here self.old.from } }
        ensures left { (lefts : Lefts) → left_of F.remaining lefts self.new.from
            ≡ left_of F.remaining lefts self.old.from }
        ensures ready { IfSome (delay_of self.new.from) (λ delay. is_put_off delay ≡ false) }
        ensures here { IsTrue result ↔ (thread_of self.old.from ≡ None) }
    {
        match &mut self.from {
            InFrom::Direct(_, delay) => {
                *delay = delay.accepted();
                true
            }
            InFrom::Thread(_) => false,
        }
    }

    // Waits until a read of an input that one of these threads reads would not wait.
    pub(crate) fn wait<I: Inputs<F>>(waiting: &mut Waiting<I>, threads: &[usize])
        ensures { I.lefts waiting.new.inputs ≡ I.lefts waiting.old.inputs }
    {
        waiting.inputs.wait(threads);
    }

    // Takes what a read by a thread gave without copying it, if there are such bytes, and at most this many.
    pub(crate) fn take<I: Inputs<F>>(
        &mut self,
        waiting: &mut Waiting<I>,
        most: usize,
    ) -> Option<Vec<u8>>
        ensures long { IfSome result
            (λ bytes. (1 ≤ length bytes.items) × (length bytes.items ≤ most)) }
        ensures asked { IfSome result (λ bytes. IfSome (thread_of self.old.from)
            (λ number. TakesInput number bytes.items (I.lefts waiting.old.inputs) (I.lefts waiting.new.inputs))) }
        ensures told { IfSome result
            (λ bytes. Reads (length bytes.items) bytes.items self.old.log self.new.log) }
        ensures none { IfNone result ((self.new ≡ self.old)
            × (I.lefts waiting.new.inputs ≡ I.lefts waiting.old.inputs)) }
        ensures same { self.new ≡ record self.old { log = self.new.log } }
    {
        let (InFrom::Thread(number), false) = (&self.from, self.at_end) else {
            return None;
        };
        let bytes = waiting.inputs.take(*number, most)?;
        self.given.note(bytes.as_slice());
        Some(bytes)
    }

    // Reads once, unless it is at its end. Returns how many bytes were read. None if the read failed.
    pub(crate) fn read<I: Inputs<F>>(
        &mut self,
        waiting: &mut Waiting<I>,
        into: &mut [u8],
    ) -> Option<usize>
        ensures count { IfSome result (λ count. count ≤ length into.new) }
        ensures asked { self.old.log.at_end ≡ false
            → ReadsOnce F.remaining result into.new self.old.from self.new.from
            (I.lefts waiting.old.inputs) (I.lefts waiting.new.inputs) }
        ensures ended { self.old.log.at_end ≡ true
            → (result ≡ Some 0) × (self.new ≡ self.old) × (waiting.new ≡ waiting.old)
            × (into.new ≡ into.old) }
        ensures told { IfSome result
            (λ count. Reads (length into.new) (take count into.new) self.old.log self.new.log) }
        ensures failed { IsNone result → self.new.log ≡ self.old.log }
        ensures kept { self.new.left ≡ self.old.left }
    {
        if self.at_end {
            return Some(0);
        }
        let count = self.from.read(&mut waiting.inputs, into, &mut self.error)?;
        self.given.note(&into[..count]);
        self.at_end = count == 0 && !into.is_empty();
        Some(count)
    }
}
