ghost use Rattle.std.specs.Prelude.{◌↔◌, ◌≡◌, ◌≢◌, ◌≤◌, ℕ, true, false, ◌||◌, [], None, Some, is_none, IsSome, IfOk, IfErr, IsTrue, IsFalse, MatchResult};
ghost use Rattle.std.specs.Option.{ForSome, option_copied};
ghost use Rattle.machine.specs.Pieces.{IsBlock};
ghost use Rattle.bounded_pipe.specs.Pipes.{items_put};
ghost use Rattle.collector.specs.Sources.{source_owed};
ghost use Rattle.collector.specs.Files.{ReadLog, nothing_read};
ghost use Rattle.collector.specs.inner.Parts.{ReadsFile, ItemFits, SourceGoesOn, with_item, reads_on, OffersPiece, OffersClose};
ghost use Rattle.collector.specs.inner.Copies.{named, IsSourceFaulted};
ghost use Rattle.collector.specs.Nodes.{SourceShown, SourceFits, source_part, SourceSays, read_by, failures_with, failures_after, IsSourceFault, is_failed, source_fault, SourceActs};

use crate::fault::RunFault;
use crate::opening::Files;
use crate::reading::Reading;
use bounded_pipe::{Amounts, PipeOut};
use machine::{Item, Piece};
use run_types::{InName, NodeFault, NodeState, Step};
use std::alloc::Global;
use std::marker::Model;

/// A node that reads a file and puts what it read on a pipe. One without a file puts Close alone.
#[derive(Drop)]
pub struct Source {
    pipe: usize,
    end: PipeOut,
    file: Option<usize>,
    name: Option<InName>,
    reading: Reading,
    at_end: bool,
    held: Option<Piece>,
    state: NodeState,
    fault: Option<RunFault>,
    // How many pieces it has put, and whether its reader is known to have taken one. No clause speaks of them: they decide which source is
    // stepped first.
    put: usize,
    is_read: bool,
}

// If its reader has taken none of this many pieces, a source has put enough for it to begin with.
const ENOUGH: usize = 2;

impl Model for Source {
    ghost use Rattle.std.specs.Prelude.{IsSome};
    ghost use Rattle.collector.specs.Nodes.{SourceShown};
    ghost use Rattle.collector.specs.inner.Copies.{named, IsSourceFaulted};

    ghost Value = { SourceShown };

    ghost view = { λ s. record {
      pipe = s.pipe;
      end = s.end;
      file = s.file;
      name = named s.name s.fault;
      block = s.reading;
      at_end = s.at_end;
      held = s.held;
      state = s.state;
    } };

    ghost invariant = { λ s. (IsSome s.file → IsSome (named s.name s.fault))
        × IsSourceFaulted s.state s.fault };
}

impl Source {
    ghost use Rattle.std.specs.Borrow.{sem};
    ghost use Rattle.collector.specs.inner.LentEnds.{LendsWriting};

    /// A source that puts what it reads of the file, in pieces of at most `block` bytes, on the pipe with this number. Its first
    /// read asks for `first_read` bytes. The name is that of its file.
    pub fn new(
        alloc: Global,
        pipe: usize,
        end: PipeOut,
        file: Option<usize>,
        name: Option<InName>,
        block: usize,
        first_read: usize,
    ) -> Source
        requires named { IsSome file → IsSome name }
        requires block { IsBlock block }
        requires first { (1 ≤ first_read) × (first_read ≤ block) }
        ensures shown { result
            ≡ record {
              pipe = pipe;
              end = end;
              file = file;
              name = name;
              block = block;
              at_end = false;
              held = None;
              state = NodeState.Running;
            } }
        ensures fits { items_put end ≡ [] → SourceFits nothing_read result }
    {
        Source {
            pipe,
            end,
            file,
            name,
            reading: Reading::new(alloc, block, first_read),
            at_end: false,
            held: None,
            state: NodeState::Running,
            fault: None,
            put: 0,
            is_read: false,
        }
    }

    /// One step: reads once if nothing is owed and its reader is there, and then tries to put what
    /// is owed.
    pub fn step<F: Files>(&mut self, files: &mut F) -> Step
        requires opened { ForSome self.old.file (λ file. IsSome ((F.shows files.old).inputs file)) }
        ensures acts { SourceActs self.old self.new (F.shows files.old)
            (F.shows files.new) result }
        ensures stays { self.old.state ≢ NodeState.Running
            → (self.new ≡ self.old) × (files.new ≡ files.old) }
    {
        match self.state {
            NodeState::Running => self.go_on(files),
            NodeState::Ended => Step::Ended,
            NodeState::Broken => Step::Broken,
            NodeState::Failed(_) => Step::Failed,
        }
    }

    /// Its state.
    pub fn state(&self) -> NodeState
        ensures { result ≡ self.now.state }
    {
        self.state
    }

    /// The name of its file, if it has one.
    pub fn name(&self) -> Option<&InName>
        ensures { option_copied result ≡ self.now.name }
    {
        match &self.fault {
            Some(RunFault::ReadFault(name)) => Some(name),
            _ => self.name.as_ref(),
        }
    }

    /// Why it has failed, if it has.
    pub fn fault(&self) -> Option<&RunFault>
        ensures fault { option_copied result ≡ source_fault self.now.name self.now.state }
        ensures failed { IsSome result ↔ IsTrue (is_failed self.now.state) }
    {
        self.fault.as_ref()
    }

    /// The file that its next step reads, if it reads one.
    pub fn next_read(&self) -> Option<usize>
        ensures reads { IsSome result ↔ (reads_on self.now ≡ true) }
        ensures own { (file : ℕ) → result ≡ Some file → self.now.file ≡ Some file }
    {
        if self.reads_on() { self.file } else { None }
    }

    /// Whether it has put enough for its reader to begin with, and the reader is not known to have taken any of it.
    pub fn is_ahead(&self) -> bool {
        !self.is_read && self.put >= ENOUGH
    }

    /// How many bytes the item has that it owes, if it runs and owes one.
    pub fn owed(&self) -> Option<u64>
        ensures { (log : ReadLog) → SourceFits log self.now → self.now.state ≡ NodeState.Running
            → result
            ≡ source_owed (is_none self.now.file) (source_part log.bytes self.now) self.now.end }
    {
        match &self.held {
            Some(piece) => Some(piece.len() as u64),
            None if self.at_end || self.file.is_none() => Some(0),
            None => None,
        }
    }

    /// The number of its pipe.
    pub fn pipe(&self) -> usize
        ensures { result ≡ self.now.pipe }
    {
        self.pipe
    }

    /// Its pipe end.
    pub fn end(&self) -> &PipeOut
        ensures { result.now ≡ self.now.end }
    {
        &self.end
    }

    /// How much it has put on its pipe.
    pub fn amounts(&self) -> Amounts {
        self.end.amounts()
    }

    /// Lends its pipe end, for writing.
    pub fn pipe_end(&mut self) -> &mut PipeOut
        ensures* lends { sem 𝓛 (LendsWriting self.entry result) }
        ensures value { result.now ≡ self.old.end }
    {
        &mut self.end
    }

    /// Notes that this many items are in its pipe, as a look at both ends found. What it shows stays the same.
    pub fn note_between(&mut self, items: usize)
        ensures { self.new ≡ self.old }
    {
        self.is_read = self.is_read || items < self.put;
    }

    // One step of a source that runs.
    fn go_on<F: Files>(&mut self, files: &mut F) -> Step
        requires running { self.old.state ≡ NodeState.Running }
        requires opened { ForSome self.old.file (λ file. IsSome ((F.shows files.old).inputs file)) }
        ensures fits { SourceFits (read_by (F.shows files.old) self.old.file) self.old
            → SourceFits (read_by (F.shows files.new) self.new.file) self.new }
        ensures says { SourceSays self.old self.new result }
        ensures goes_on { SourceGoesOn self.old self.new }
        ensures reads { ReadsFile self.old.block self.old.file (F.shows files.old)
            (F.shows files.new) }
        ensures failures { (F.shows files.new).failures
            ≡ failures_after self.old.state self.new.state (F.shows files.old).failures }
    {
        if self.breaks() {
            return Step::Broken;
        }
        match self.next_item(files) {
            Ok(item) => self.offer(item),
            Err(fault) => self.fail(fault),
        }
    }

    // Asks for its reader, and breaks if that is gone.
    fn breaks(&mut self) -> bool
        requires running { self.old.state ≡ NodeState.Running }
        ensures fits { (log : ReadLog) → SourceFits log self.old → SourceFits log self.new }
        ensures goes_on { SourceGoesOn self.old self.new }
        ensures gone { IsTrue result → self.new.state ≡ NodeState.Broken }
        ensures there { IsFalse result → self.new ≡ self.old }
        ensures none_seen { IsFalse result
            → (self.old.end.noted ≡ false) × (self.old.end.pending ≡ 0) }
    {
        let gone = self.end.reader_gone();
        if gone {
            self.reading.give_up();
            self.state = NodeState::Broken;
        }
        gone
    }

    // Whether it has a file to read and owes nothing.
    fn reads_on(&self) -> bool
        ensures { result ≡ reads_on self.now }
    {
        self.file.is_some() && self.held.is_none() && !self.at_end
    }

    // Takes the item that it owes: the piece that it holds, otherwise what one read returns. It is Close at the end of the
    // file, and without a file.
    fn next_item<F: Files>(&mut self, files: &mut F) -> Result<Item, NodeFault>
        requires running { self.old.state ≡ NodeState.Running }
        requires opened { ForSome self.old.file (λ file. IsSome ((F.shows files.old).inputs file)) }
        ensures fits { SourceFits (read_by (F.shows files.old) self.old.file) self.old
            → ItemFits result (read_by (F.shows files.new) self.old.file) self.new }
        ensures same { self.new ≡ record self.old { at_end = self.new.at_end; held = None } }
        ensures owes { IfOk result (λ item. item ≡ Item.Close
            → (self.new.at_end || is_none self.new.file) ≡ true) }
        ensures fault { IfErr result (λ fault. IsSourceFault fault × IsSome self.old.file) }
        ensures reads { ReadsFile self.old.block self.old.file (F.shows files.old)
            (F.shows files.new) }
        ensures failures { MatchResult result
            (λ item. (F.shows files.new).failures ≡ (F.shows files.old).failures)
            (λ fault. (F.shows files.new).failures
            ≡ failures_with fault (F.shows files.old).failures) }
    {
        if let Some(piece) = self.held.take() {
            return Ok(Item::Bytes(piece));
        }
        let Some(file) = self.file else {
            return Ok(Item::Close);
        };
        if self.at_end {
            return Ok(Item::Close);
        }
        match self.reading.next_piece(file, files)? {
            Some(piece) => Ok(Item::Bytes(piece)),
            None => {
                self.at_end = true;
                Ok(Item::Close)
            }
        }
    }

    // Fails by a read, or for want of memory.
    fn fail(&mut self, fault: NodeFault) -> Step
        requires running { self.old.state ≡ NodeState.Running }
        requires fault { IsSourceFault fault }
        requires file { IsSome self.old.file }
        ensures state { self.new ≡ record self.old { state = NodeState.Failed fault } }
        ensures says { result ≡ Step.Failed }
    {
        self.fault = blame(fault, &mut self.name);
        self.state = NodeState::Failed(fault);
        Step::Failed
    }

    // Offers an item to the pipe. It holds a piece that is refused.
    fn offer(&mut self, item: Item) -> Step
        requires running { self.old.state ≡ NodeState.Running }
        requires none { self.old.held ≡ None }
        requires owes { item ≡ Item.Close → (self.old.at_end || is_none self.old.file) ≡ true }
        requires none_seen { (self.old.end.noted ≡ false) × (self.old.end.pending ≡ 0) }
        ensures fits { (log : ReadLog) → SourceFits log (with_item item self.old)
            → SourceFits log self.new }
        ensures says { SourceSays self.old self.new result }
        ensures goes_on { SourceGoesOn self.old self.new }
        ensures failures { (failures : ℕ)
            → failures_after self.old.state self.new.state failures ≡ failures }
    {
        match item {
            Item::Bytes(piece) => self.offer_piece(piece),
            Item::Close => self.offer_close(),
        }
    }

    // Offers a piece to the pipe, and holds it if it is refused.
    fn offer_piece(&mut self, piece: Piece) -> Step
        requires running { self.old.state ≡ NodeState.Running }
        requires none { self.old.held ≡ None }
        ensures { OffersPiece piece self.old self.new result }
    {
        match self.end.put(Item::Bytes(piece)) {
            Ok(()) => {
                self.put = self.put.saturating_add(1);
                Step::Moved
            }
            Err(Item::Bytes(back)) => {
                self.held = Some(back);
                Step::Waits(self.pipe)
            }
            Err(Item::Close) => Step::Waits(self.pipe),
        }
    }

    // Offers Close to the pipe.
    fn offer_close(&mut self) -> Step
        requires running { self.old.state ≡ NodeState.Running }
        requires none { self.old.held ≡ None }
        ensures { OffersClose self.old self.new result }
    {
        match self.end.put(Item::Close) {
            Ok(()) => {
                self.state = NodeState::Ended;
                Step::Ended
            }
            Err(_) => Step::Waits(self.pipe),
        }
    }
}

// The fault of a source with this name, which is taken out if a read failed.
fn blame(fault: NodeFault, name: &mut Option<InName>) -> Option<RunFault>
    requires fault { IsSourceFault fault }
    requires name { IsSome name.old }
    ensures faulted { IsSourceFaulted (NodeState.Failed fault) result }
    ensures name { named name.new result ≡ name.old }
{
    match fault {
        NodeFault::ReadFault => Some(RunFault::ReadFault(name.take()?)),
        _ => Some(RunFault::NoMemory),
    }
}
