ghost use Rattle.std.specs.Prelude.{◌≡◌, ◌≤◌, length, IfSome, IfNone};
ghost use Rattle.std.specs.Io.KnownBytes.{Consumes};
ghost use Rattle.waiting_inputs.specs.Inputs.{ReadsNext};
ghost use Rattle.waiting_inputs.specs.inner.Line.{given, IsEnd};

use crate::chunk::{Buffer, Chunk};
use crate::line::Taker;
use crate::reading::Reading;
use crossbeam_channel::Sender;
use std::marker::Model;
use std::mem;
use std::sync::Wait;

// A read of at least this many bytes is no sign that its input comes slowly.
const AMPLE: usize = 4096;

// A thread is asked for at most this many reads at once.
pub(crate) const AHEAD: usize = 8;

// An input, and the requests to its thread. Contracts see it as the bytes that its reads will return.
#[derive(Drop)]
pub(crate) struct Input {
    requests: Sender<Option<Buffer>>,
    results: Taker,
    reading: Reading,
    // Whether the last read gave much.
    is_ample: bool,
    // How many reads its thread may be asked for at once.
    ahead: usize,
    // How many reads its thread was asked for whose results were not taken.
    asked: usize,
}

impl Model for Input {
    ghost use Rattle.std.specs.Io.KnownBytes.{prepend_known, IsAtEnd};
    ghost use Rattle.waiting_inputs.specs.inner.Line.{Left, given, IsEnd};

    ghost Value = { Left };

    ghost view = { λ i. prepend_known (given i.reading) i.results };

    ghost invariant = { λ i. IsEnd i.reading → IsAtEnd i.results };
}

impl Input {
    // An input whose thread takes these requests and sends these results. No read is asked for.
    pub(crate) fn new(requests: Sender<Option<Buffer>>, results: Taker, buffer: Buffer) -> Input
        ensures { result ≡ results }
    {
        Input {
            requests,
            results,
            reading: Reading::Idle(Some(buffer)),
            is_ample: false,
            ahead: 1,
            asked: 0,
        }
    }

    // Lets its thread be asked for several reads at once.
    pub(crate) fn read_ahead(&mut self)
        ensures { self.new ≡ self.old }
    {
        self.ahead = AHEAD;
    }

    // Whether a read need not wait: there are bytes, or the end, or a failure.
    pub(crate) fn is_ready(&self) -> bool {
        !matches!(self.reading, Reading::Idle(_) | Reading::Asked)
    }

    // Asks its thread for a read before that is wanted, if the last one gave much.
    pub(crate) fn ask_ahead<R: Wait>(&mut self, rt: &R)
        ensures { self.new ≡ self.old }
    {
        if self.is_ample {
            self.ask(rt);
        }
    }

    // Asks its thread for a read, if there is nothing that the last read left. If it was asked for more than one, this takes the next result, if it
    // is there.
    pub(crate) fn ask<R: Wait>(&mut self, rt: &R)
        ensures { self.new ≡ self.old }
    {
        match mem::replace(&mut self.reading, Reading::Lost) {
            Reading::Idle(buffer) => {
                if self.asked == 0 {
                    self.asked = request(rt, &self.requests, buffer, self.ahead);
                }
                if self.asked > 0 {
                    self.reading = Reading::Asked;
                    self.take_result(rt);
                }
            }
            other => self.reading = other,
        }
    }

    // Takes the result of a read that its thread was asked for, if it is there.
    pub(crate) fn take_result<R: Wait>(&mut self, rt: &R)
        ensures { self.new ≡ self.old }
    {
        if let Reading::Asked = self.reading
            && let Some(reading) = self.results.take(rt)
        {
            self.asked = self.asked.saturating_sub(1);
            self.is_ample = is_ample(&reading);
            self.reading = reading;
        }
    }

    // Gives what the last read left. None if it failed. If the last read gave much, and nothing of it is left now, this asks for the next one.
    pub(crate) fn give_on<R: Wait>(&mut self, rt: &R, into: &mut [u8]) -> Option<usize>
        ensures count { IfSome result (λ count. count ≤ length into.new) }
        ensures next { ReadsNext result into.new self.old self.new }
    {
        let given = self.give(into);
        self.ask_ahead(rt);
        given
    }

    // Takes what the last read gave without copying it, if it may be taken whole. The thread makes the buffer of the next read. If the last one
    // gave much, this asks for the next.
    pub(crate) fn take<R: Wait>(&mut self, rt: &R, most: usize) -> Option<Vec<u8>>
        ensures next { IfSome result (λ bytes. Consumes self.old self.new bytes.items) }
        ensures long { IfSome result
            (λ bytes. (1 ≤ length bytes.items) × (length bytes.items ≤ most)) }
        ensures none { IfNone result (self.new ≡ self.old) }
    {
        match mem::replace(&mut self.reading, Reading::Lost) {
            Reading::Gave(chunk) => match chunk.into_whole(most) {
                Ok(bytes) => {
                    self.reading = Reading::Idle(None);
                    self.ask_ahead(rt);
                    Some(bytes)
                }
                Err(chunk) => {
                    self.reading = Reading::Gave(chunk);
                    None
                }
            },
            other => {
                self.reading = other;
                None
            }
        }
    }

    // Gives what the last read left. None if it failed.
    fn give(&mut self, into: &mut [u8]) -> Option<usize>
        ensures count { IfSome result (λ count. count ≤ length into.new) }
        ensures next { ReadsNext result into.new self.old self.new }
    {
        match mem::replace(&mut self.reading, Reading::Lost) {
            Reading::Gave(mut chunk) => {
                let count = chunk.give(into);
                self.reading = left_of(chunk);
                Some(count)
            }
            Reading::Failed(buffer) => {
                self.reading = Reading::Idle(buffer);
                None
            }
            other => {
                self.reading = other;
                None
            }
        }
    }
}

// Requests this many reads, the first of them with this buffer. Returns how many were requested: 0 if the thread takes no requests.
fn request<R: Wait>(
    rt: &R,
    requests: &Sender<Option<Buffer>>,
    first: Option<Buffer>,
    count: usize,
) -> usize {
    let mut buffer = first;
    for _ in 0..count {
        if requests.send(rt, buffer.take()).is_err() {
            return 0;
        }
    }
    count
}

// Whether this read gave much.
fn is_ample(reading: &Reading) -> bool {
    match reading {
        Reading::Gave(chunk) => chunk.count() >= AMPLE,
        _ => false,
    }
}

// The state after some bytes of a read were given.
fn left_of(chunk: Chunk) -> Reading
    ensures given { given result ≡ chunk }
    ensures end { ¬ IsEnd result }
{
    if chunk.is_empty() {
        Reading::Idle(Some(chunk.into_buffer()))
    } else {
        Reading::Gave(chunk)
    }
}
