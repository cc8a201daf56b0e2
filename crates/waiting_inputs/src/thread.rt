ghost use Rattle.std.specs.Prelude.{◌≡◌};
ghost use Rattle.std.specs.Io.KnownBytes.{Consumes, IsAtEnd};
ghost use Rattle.waiting_inputs.specs.inner.Line.{given, IsEnd};

use crate::chunk::{Buffer, Chunk};
use crate::late::OpensLate;
use crate::line::Feeder;
use crate::reading::Reading;
use crossbeam_channel::{Receiver, Sender, bounded};
use std::alloc::{AllocError, Global};
use std::io::Read;
use std::marker::{Model, Send};
use std::mem::drop;
use std::sync::Wait;
use std::thread;
use std::thread::Threads;

// The file of an input, and the line on which its bytes are sent. Contracts see it as the file.
#[derive(Drop)]
pub(crate) struct Source<F: Read> {
    file: F,
    results: Feeder,
}

impl<F: Read> Model for Source<F> {
    ghost use Rattle.std.specs.Io.KnownBytes.{Keeps};

    ghost Value = { F };

    ghost view = { λ s. s.file };

    ghost invariant = { λ s. Keeps s.results (F.remaining s.file) };
}

/// The task of an input's thread: it reads the file once for each request.
#[derive(Drop)]
pub struct Errand<F: Read> {
    pub(crate) alloc: Global,
    // The number of the input.
    pub(crate) input: usize,
    pub(crate) source: Source<F>,
    pub(crate) requests: Receiver<Option<Buffer>>,
    // The thread puts the number on it after each result.
    pub(crate) notices: Sender<usize>,
}

impl<F: Read> Errand<F> {
    // The file again.
    pub(crate) fn into_file(self) -> F
        ensures { result ≡ self.source }
    {
        let Errand {
            alloc: _,
            input: _,
            source,
            requests: _,
            notices: _,
        } = self;
        source.into_file()
    }
}

impl<F: Read> Source<F> {
    // This file, none of whose bytes have been sent.
    pub(crate) fn new(file: F, results: Feeder) -> Source<F>
        requires { results ≡ F.remaining file }
        ensures { result ≡ file }
    {
        Source { file, results }
    }

    // The file again.
    pub(crate) fn into_file(self) -> F
        ensures { result ≡ self }
    {
        let Source { file, results: _ } = self;
        file
    }

    #[tactic(auto, using(crate::proofs::lemmas::Lines::reads_next))]
    // Reads the file once, into this buffer, and sends the result. None if nobody receives it.
    fn read_and_send<R: Wait>(self, rt: &R, buffer: Option<Buffer>) -> Option<Source<F>>
    where
        F: OpensLate<R> + Drop,
    {
        let Source {
            mut file,
            mut results,
        } = self;
        let reading = read_once(rt, &mut file, buffer);
        if !results.send(rt, reading) {
            return None;
        }
        Some(Source { file, results })
    }
}

// At most this many errands can wait for a thread that takes them.
const ERRANDS: usize = 64;

/// A channel of errands, from the inputs to their threads.
pub fn errands<F: Read + Drop>(
    alloc: Global,
) -> Result<(Sender<Errand<F>>, Receiver<Errand<F>>), AllocError> {
    bounded(alloc, ERRANDS)
}

/// Begins a thread that takes one errand of this channel. False if memory or the thread was refused.
pub fn begin_thread<
    R: Threads + Wait + Copy + Send + 'static,
    F: OpensLate<R> + Drop + Send + 'static,
>(rt: &R, errands: &Receiver<Errand<F>>) -> bool {
    let rt = *rt;
    match errands.clone() {
        Ok(errands) => thread::spawn(&rt, move || take(&rt, errands)).is_ok(),
        Err(_) => false,
    }
}

// Takes one errand, and does it.
fn take<R: Wait, F: OpensLate<R> + Drop>(rt: &R, errands: Receiver<Errand<F>>) {
    let errand = errands.recv(rt);
    drop(errands);
    if let Ok(errand) = errand {
        serve(rt, errand);
    }
}

// Reads the file once for each request, until nobody asks any more.
fn serve<R: Wait, F: OpensLate<R> + Drop>(rt: &R, errand: Errand<F>) {
    let Errand {
        alloc,
        input,
        mut source,
        requests,
        notices,
    } = errand;
    for _ in rt.forever() {
        let Ok(buffer) = requests.recv(rt) else {
            return;
        };
        let buffer = buffer.or_else(|| Buffer::for_read(alloc).ok());
        let Some(next) = source.read_and_send(rt, buffer) else {
            return;
        };
        source = next;
        if notices.send(rt, input).is_err() {
            return;
        }
    }
}

// Opens the file if it is not open, and reads it once, into this buffer. With no buffer the read fails.
fn read_once<R, F: OpensLate<R>>(rt: &R, file: &mut F, buffer: Option<Buffer>) -> Reading
    ensures next { Consumes (F.remaining file.old) (F.remaining file.new) (given result) }
    ensures end { IsEnd result → IsAtEnd (F.remaining file.new) }
{
    let Some(mut buffer) = buffer else {
        return Reading::Failed(None);
    };
    file.open_late(rt);
    match file.read(buffer.bytes.as_mut_slice()) {
        Ok(count) => Reading::Gave(Chunk::new(buffer, count)),
        Err(_) => Reading::Failed(Some(buffer)),
    }
}
