// The threads that write to outputs of the host.
use crate::handle::HostHandle;
use crate::logged::{LoggedInput, Waiting};
use crate::patient::{HostReader, HostWriter};
use crate::served::Served;
use std::alloc::Global;
use waiting_inputs::Inputs;
use waiting_outputs::{Giver, tasks};

// What writes to an output.
#[derive(Drop)]
pub(crate) enum WrittenBy<R: HostHandle> {
    // The caller. No thread was asked for.
    Caller,
    // The caller, since no thread was to be had.
    CallerAlone,
    // A thread.
    Thread(WriterThread<R>),
}

// A thread that writes to one output.
#[derive(Drop)]
pub(crate) struct WriterThread<R: HostHandle> {
    pub(crate) giver: Giver<HostWriter<R>>,
    // Its answers, as an input: a read of it returns once what was handed over is written, or could not be.
    pub(crate) answers: LoggedInput<HostReader<R>>,
}

impl<R: HostHandle> WrittenBy<R> {
    // The same output, with a thread if it gets one and has none.
    pub(crate) fn with_thread<I: Inputs<HostReader<R>>>(
        self,
        alloc: Global,
        waiting: &mut Waiting<I>,
    ) -> WrittenBy<R> {
        match self {
            WrittenBy::Caller => match begun(alloc, waiting) {
                Some(thread) => WrittenBy::Thread(thread),
                None => WrittenBy::CallerAlone,
            },
            other => other,
        }
    }

    // Waits for the next answer of its thread, if one is owed and it has a thread.
    pub(crate) fn wait<I: Inputs<HostReader<R>>>(
        &mut self,
        is_owed: bool,
        waiting: &mut Waiting<I>,
    ) {
        if let (true, WrittenBy::Thread(thread)) = (is_owed, self) {
            let _ = thread.answers.read(waiting, &mut [0]);
        }
    }
}

// A thread that writes to an output. None if memory or the thread was refused.
fn begun<R: HostHandle, I: Inputs<HostReader<R>>>(
    alloc: Global,
    waiting: &mut Waiting<I>,
) -> Option<WriterThread<R>> {
    let (giver, taker) = tasks(alloc).ok()?;
    let mut answers = LoggedInput::late(Served::writes(taker));
    answers.ask(waiting);
    // If no thread has it, the caller would wait for itself.
    answers.thread()?;
    Some(WriterThread { giver, answers })
}
