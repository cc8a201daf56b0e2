use crate::line::Line;
use crate::shown::{Form, Shown};
use crossbeam_channel::{Receiver, Sender, bounded};
use std::alloc::{AllocError, Global};
use std::marker::Send;
use std::rt::Clock;
use std::sync::Wait;
use std::thread;
use std::thread::Threads;
use std::time::Duration;

// How many milliseconds the end of a run waits at most: so long for a place on the channel, and again so long for the last line.
const PATIENCE: u64 = 100;

/// What is asked of the thread that writes the line.
#[derive(Clone, Copy, Debug)]
pub enum Errand {
    /// To begin.
    Begin,
    /// To show this line in this form. It is dropped if the one before it has not been taken.
    Show(Line, Form),
    /// To erase the line, if its form is redrawn, and to end.
    End(Form),
}

/// The ends of the channels between a run and the thread that writes its line.
#[derive(Drop)]
pub struct LineDesk {
    to: Sender<Shown>,
    from: Receiver<Shown>,
    // On this channel the thread says that it has ended.
    ending: Sender<bool>,
    ended: Receiver<bool>,
}

impl LineDesk {
    /// Channels with one place each, and no thread yet.
    pub fn new(alloc: Global) -> Result<LineDesk, AllocError> {
        let (to, from) = bounded(alloc, 1)?;
        let (ending, ended) = bounded(alloc, 1)?;
        Ok(LineDesk {
            to,
            from,
            ending,
            ended,
        })
    }

    /// Does an errand. False if the thread is refused, or does not take the errand.
    pub fn serve<R: Threads + Wait + Clock + Eprint + Copy + Send + 'static>(
        &self,
        rt: &R,
        errand: Errand,
    ) -> bool {
        match errand {
            Errand::Begin => self.begin(rt).is_ok(),
            Errand::Show(line, form) => self.to.try_send(rt, Shown::Line(line, form)).is_ok(),
            Errand::End(form) => self.end(rt, form),
        }
    }

    // Begins the thread.
    fn begin<R: Threads + Wait + Eprint + Copy + Send + 'static>(
        &self,
        rt: &R,
    ) -> Result<(), AllocError> {
        let rt = *rt;
        let from = self.from.clone()?;
        let ending = self.ending.clone()?;
        thread::spawn(&rt, move || write_lines(&rt, from, ending))?;
        Ok(())
    }

    // Lets the thread end the line. A thread that still writes then is left.
    fn end<R: Wait + Clock>(&self, rt: &R, form: Form) -> bool {
        let patience = Duration::from_millis(PATIENCE);
        let is_taken = self.to.send_timeout(rt, Shown::End(form), patience).is_ok();
        is_taken && self.ended.recv_timeout(rt, patience).is_ok()
    }
}

// Writes each line that comes, until they end.
fn write_lines<R: Wait + Eprint>(rt: &R, from: Receiver<Shown>, ending: Sender<bool>) {
    for _ in rt.forever() {
        let Ok(shown) = from.recv(rt) else {
            return;
        };
        let _ = rt.eprint(shown);
        if matches!(shown, Shown::End(_)) {
            let _ = ending.send(rt, true);
            return;
        }
    }
}

/// The thread that writes the line, as a run sees it.
pub trait LineThread: Drop {
    /// Does an errand. False if it is not done.
    fn serve(&self, errand: Errand) -> bool;
}

/// No thread: the line is written by the thread that reads and writes.
#[derive(Clone, Copy, Debug)]
pub struct NoThread;

impl LineThread for NoThread {
    fn serve(&self, _errand: Errand) -> bool {
        false
    }
}

/// A thread that is reached by a call.
#[derive(Drop)]
pub struct LineWriter {
    call: Box<dyn Fn(Errand) -> bool>,
    ghost callable: { IsAlwaysCallable call },
}

impl LineWriter {
    /// The call is to do an errand, as `LineDesk::serve` does.
    pub fn new(call: Box<dyn Fn(Errand) -> bool>) -> LineWriter
        requires { IsAlwaysCallable call }
    {
        LineWriter { call }
    }
}

impl LineThread for LineWriter {
    fn serve(&self, errand: Errand) -> bool {
        (self.call)(errand)
    }
}
