ghost use Rattle.std.specs.Prelude.{◌≡◌, ◌+◌, ◌≤◌, [], ◌++◌, length, take, drop, None, IfOk, OnOk, OnErr};
ghost use Rattle.std.specs.Option.{option_copied};
ghost use Rattle.collector.specs.Files.{nothing_read};
ghost use Rattle.collector.specs.InputEnds.{IsLeftOf, left_out_too};
ghost use Rattle.collector.specs.declared.needed.LeftOut.TheVariants.{Nothing};
ghost use Rattle.machine.specs.FrontLines.{first_lines};
ghost use Rattle.file_stores.specs.inner.Ends.{end_of};
ghost use Rattle.file_stores.specs.inner.Opened.{OpenedInput, OpenedOutput, read_log, read_count, read_on, IsWithin, target_at};

use crate::ends::begin_of_end;
use collector::{LeftOut, NeededEnd};
use command_words::Word;
use machine::{NoMemory, front_lines};
use std::alloc::Global;
use std::marker::Model;

// An input that was opened, with a copy of what its file held.
#[derive(Drop)]
pub(crate) struct OpenInput {
    content: Vec<u8>,
    at: usize,
    at_end: bool,
    left: LeftOut,
}

impl Model for OpenInput {
    ghost use Rattle.std.specs.Prelude.{◌≡◌, ◌≤◌, true, length};
    ghost use Rattle.file_stores.specs.inner.Opened.{OpenedInput};

    ghost Value = { OpenedInput };

    ghost view = { λ i. record { content = i.content.items; at = i.at; at_end = i.at_end; left = i.left } };

    ghost invariant = { λ i. (i.at ≤ length i.content.items)
        × (i.at_end ≡ true → i.at ≡ length i.content.items) };
}

impl OpenInput {
    ghost use Rattle.std.specs.Prelude.{true, false};

    pub(crate) fn new(alloc: Global, content: &[u8]) -> Result<OpenInput, NoMemory>
        ensures { IfOk result
            (λ opened. opened ≡ record { content = content.now; at = 0; at_end = false; left = Nothing }) }
    {
        Ok(OpenInput {
            content: Vec::from_slice(alloc, content)?,
            at: 0,
            at_end: false,
            left: LeftOut::Nothing,
        })
    }

    // Reads at most this many bytes.
    pub(crate) fn read(&mut self, into: &mut [u8], most: usize) -> usize
        requires most { 1 ≤ most }
        ensures count { result ≡ read_count self.old (length into.old) most }
        ensures given { into.new
            ≡ take result (drop self.old.at self.old.content) ++ drop result into.old }
        ensures after { self.new ≡ read_on self.old (length into.old) result }
        ensures within { IsWithin self.old }
    {
        let count = into.len().min(most).min(self.content.len() - self.at);
        into[..count].copy_from_slice(&self.content[self.at..self.at + count]);
        if count == 0 && !into.is_empty() {
            self.at_end = true;
        }
        self.at += count;
        count
    }

    // Keeps the end that is needed, and leaves out what is before it. Nothing has been read.
    pub(crate) fn leave_out_front(&mut self, needed: NeededEnd)
        requires unread { read_log self.old ≡ nothing_read }
        ensures after { self.new
            ≡ record self.old {
              content = end_of needed self.old.content;
              left = left_out_too self.old.left needed;
            } }
        ensures left { IsLeftOf needed self.old.content self.new.content }
        ensures first { self.old.at ≡ 0 }
    {
        let begin = begin_of_end(self.content.as_slice(), needed);
        let left = self.content.len() - begin;
        self.content.rotate_left(begin);
        self.content.truncate(left);
        self.left = self.left.too(needed);
    }

    // Keeps the first lines, this many. Nothing has been read.
    pub(crate) fn leave_rest(&mut self, lines: u64)
        requires unread { read_log self.old ≡ nothing_read }
        ensures after { self.new
            ≡ record self.old { content = first_lines lines self.old.content } }
        ensures first { self.old.at ≡ 0 }
    {
        let (end, _) = front_lines(self.content.as_slice(), lines);
        self.content.truncate(end);
    }
}

// An output that was opened.
#[derive(Drop)]
pub(crate) struct OpenOutput {
    target: Option<Word>,
    taken: Vec<u8>,
}

impl Model for OpenOutput {
    ghost use Rattle.file_stores.specs.inner.Opened.{OpenedOutput};

    ghost Value = { OpenedOutput };

    ghost view = { λ o. record { target = o.target; taken = o.taken.items } };
}

impl OpenOutput {
    ghost use Rattle.std.specs.Prelude.{◌-◌, IfSome, ◌<◌};

    // An output that writes to the file of this name, or to the standard output.
    pub(crate) fn new(alloc: Global, target: Option<Word>) -> OpenOutput
        ensures { result ≡ record { target = target; taken = [] } }
    {
        OpenOutput {
            target,
            taken: Vec::new(alloc),
        }
    }

    // The name of the file, or none for the standard output.
    pub(crate) fn target(&self) -> Option<&Word>
        ensures { option_copied result ≡ self.now.target }
    {
        self.target.as_ref()
    }

    // Records what a write took.
    pub(crate) fn record(&mut self, bytes: &[u8]) -> Result<(), NoMemory>
        ensures ok { OnOk result
            (self.new ≡ record self.old { taken = self.old.taken ++ bytes.now }) }
        ensures err { OnErr result (self.new ≡ self.old) }
    {
        self.taken.extend_from_slice(bytes)?;
        Ok(())
    }

    // Forgets the last bytes that were recorded.
    pub(crate) fn forget(&mut self, count: usize)
        requires { count ≤ length self.old.taken }
        ensures { self.new
            ≡ record self.old { taken = take (length self.old.taken - count) self.old.taken } }
    {
        self.taken.truncate(self.taken.len() - count);
    }
}

// The name of the file that the open output of this number writes to. None for the standard output, or if no output of this number is open.
pub(crate) fn target_at(outputs: &[OpenOutput], file: usize) -> Option<&Word>
    ensures { option_copied result ≡ target_at outputs.now file }
{
    outputs.get(file)?.target()
}
