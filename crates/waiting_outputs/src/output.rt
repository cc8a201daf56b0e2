ghost use Rattle.std.specs.Prelude.{◌≡◌, ◌≤◌, [], ◌++◌, length, take, IfOk, IsOk, OnErr, IfSome, IfNone, IsTrue, IsFalse, true, false, ◌↔◌, None};
ghost use Rattle.std.specs.Io.KnownBytes.{WriteAppends, Keeps};
ghost use Rattle.collector.specs.Files.{batch_bytes};
ghost use Rattle.waiting_outputs.specs.inner.Outputs.{SettlesOutput};
ghost use Rattle.waiting_outputs.specs.inner.Writes.{TakesAnswer};

use crate::done::{Done, Failed};
use crate::line::Owing;
use crate::passed::{Passed, note_batch};
use crate::thread::{Giver, hand};
use collector::Batch;
use std::alloc::Global;
use std::io::{self, ErrorKind, Write};
use std::marker::Model;
use std::mem;
use std::sync::Wait;

// How many of the bytes that were handed over a file took, and those bytes, as room for others.
#[derive(Drop)]
pub(crate) struct Answer {
    // How many of its bytes, from the first, were taken.
    count: usize,
    // The failure after them, if not all were taken.
    error: Option<Failed>,
    // What was handed over.
    batch: Batch,
}

impl Answer {
    // What was handed over, or the failure.
    fn told(self) -> Result<Option<Batch>, Failed>
        ensures { IsOk result ↔ (self.error ≡ None) }
    {
        match self.error {
            None => Ok(Some(self.batch)),
            Some(error) => Err(error),
        }
    }
}

// Where the file is.
#[derive(Drop)]
pub(crate) enum State<F: Write + Drop> {
    // Here.
    Here(F),
    // With bytes that are being written to it.
    Out(Owing<F>),
    // The thread that had it has ended.
    Lost,
}

/// An output to which bytes are written one after the other, here or by a thread. Contracts see what it holds after the last answer, if
/// that is known; the bytes that its writes took, those of a thread from the answer on; and those that have no answer yet.
#[derive(Drop)]
pub struct Output<F: Write + Drop> {
    state: State<F>,
    taken: Passed,
}

impl<F: Write + Drop> Model for Output<F> {
    ghost use Rattle.waiting_outputs.specs.inner.Outputs.{OutputShown};
    ghost use Rattle.waiting_outputs.specs.inner.States.{held_in, out_in, is_out_in, HasOut};

    ghost Value = { OutputShown };

    ghost view = { λ o. record {
      holds = held_in F.contents o.state;
      taken = o.taken.bytes;
      out = out_in o.state;
      is_out = is_out_in o.state;
    } };

    ghost invariant = { λ o. HasOut o.state };
}

impl<F: Write + Drop> Output<F> {
    /// Nothing has been written to it.
    pub fn new(file: F) -> Output<F>
        ensures { result ≡ record { holds = F.contents file; taken = []; out = []; is_out = false } }
    {
        Output {
            state: State::Here(file),
            taken: Passed::new(),
        }
    }

    /// Whether bytes are out: they were handed over, and have no answer yet.
    pub fn is_out(&self) -> bool
        ensures value { result ≡ self.now.is_out }
        ensures some { IsTrue result → 1 ≤ length self.now.out }
        ensures none { IsFalse result → self.now.out ≡ [] }
    {
        matches!(self.state, State::Out(_))
    }

    /// Writes once, here. Returns how many bytes were taken: at least 1 of a nonempty slice. It fails if bytes are out.
    pub fn write(&mut self, from: &[u8]) -> io::Result<usize>
        ensures count { IfOk result
            (λ count. (count ≤ length from.now) × (1 ≤ length from.now → 1 ≤ count)) }
        ensures asked { WriteAppends self.old.holds self.new.holds result from.now }
        ensures told { IfOk result
            (λ count. self.new.taken ≡ self.old.taken ++ take count from.now) }
        ensures failed { OnErr result (self.new.taken ≡ self.old.taken) }
        ensures home { IsOk result → self.old.out ≡ [] }
        ensures same { self.new
            ≡ record self.old { holds = self.new.holds; taken = self.new.taken } }
    {
        let State::Here(file) = &mut self.state else {
            return Err(io::Error::from(ErrorKind::Other));
        };
        let count = write_some(file, from)?;
        self.taken.note(&from[..count]);
        Ok(count)
    }

    /// Lets its file end what was written to it. It fails if bytes are out. Nothing is written anew.
    pub fn finish(&mut self) -> io::Result<()>
        ensures asked { Keeps self.old.holds self.new.holds }
        ensures same { self.new ≡ record self.old { holds = self.new.holds } }
    {
        match &mut self.state {
            State::Here(file) => file.flush(),
            State::Out(_) | State::Lost => Err(io::Error::from(ErrorKind::Other)),
        }
    }

    /// Hands bytes over to a thread. None of them counts as written. They come back if there are none, if others are out, or if memory or the
    /// thread is refused.
    pub fn hand_over<R: Wait>(
        &mut self,
        rt: &R,
        alloc: Global,
        giver: &Giver<F>,
        batch: Batch,
    ) -> Option<Batch>
        ensures free { IfNone result (self.old.out ≡ []) }
        ensures handed { IfNone result
            (self.new ≡ record self.old { out = batch_bytes batch; is_out = true }) }
        ensures back { IfSome result (λ b. (b ≡ batch) × (self.new ≡ self.old)) }
    {
        if batch.is_empty() {
            return Some(batch);
        }
        match mem::replace(&mut self.state, State::Lost) {
            State::Here(file) => match hand(rt, alloc, giver, file, batch) {
                Ok(owing) => {
                    self.state = State::Out(owing);
                    None
                }
                Err((file, batch)) => {
                    self.state = State::Here(file);
                    Some(batch)
                }
            },
            other => {
                self.state = other;
                Some(batch)
            }
        }
    }

    /// Waits until all that is out is written, or a write of it failed. Those bytes that were written count from now on. Returns what was handed over,
    /// as room for other bytes. If nothing is out, nothing happens.
    pub fn settle<R: Wait>(&mut self, rt: &R) -> Result<Option<Batch>, Failed>
        ensures { SettlesOutput result self.old self.new }
    {
        if !self.is_out() {
            return Ok(None);
        }
        match self.wait(rt) {
            Some(answer) => answer.told(),
            None => Err(Failed { number: None }),
        }
    }

    // Waits for the answer, and counts what it says. None if nothing is out, or if the thread has ended: then nothing is counted.
    fn wait<R: Wait>(&mut self, rt: &R) -> Option<Answer>
        ensures told { IfSome result (λ a. TakesAnswer a self.old self.new) }
        ensures none { IfNone result (self.new.taken ≡ self.old.taken) }
        ensures lost { IfNone result (self.old.is_out ≡ true → self.new.holds ≡ None) }
        ensures home { (self.new.out ≡ []) × (self.new.is_out ≡ false) }
    {
        match mem::replace(&mut self.state, State::Lost) {
            State::Out(owing) => {
                let Done {
                    file,
                    batch,
                    count,
                    error,
                } = owing.wait(rt)?;
                note_batch(&mut self.taken, &batch, count);
                self.state = State::Here(file);
                Some(Answer {
                    count,
                    error,
                    batch,
                })
            }
            other => {
                self.state = other;
                None
            }
        }
    }

    /// The file, after the last answer. None while bytes are out, and if the thread that had it has ended.
    pub fn into_file(self) -> Option<F>
        ensures { IfSome result (λ file. (F.contents file ≡ self.holds) × (self.is_out ≡ false)) }
    {
        match self.state {
            State::Here(file) => Some(file),
            State::Out(_) | State::Lost => None,
        }
    }
}

// Writes once. A write that takes no byte of a nonempty slice has failed.
fn write_some<F: Write>(file: &mut F, from: &[u8]) -> io::Result<usize>
    ensures count { IfOk result
        (λ count. (count ≤ length from.now) × (1 ≤ length from.now → 1 ≤ count)) }
    ensures asked { WriteAppends (F.contents file.old) (F.contents file.new) result from.now }
{
    match file.write(from) {
        Ok(count) if count > 0 || from.is_empty() => Ok(count),
        Ok(_) => Err(io::Error::from(ErrorKind::WriteZero)),
        Err(error) => Err(error),
    }
}
