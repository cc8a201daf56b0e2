ghost use Rattle.std.specs.Prelude.{◌↔◌, ◌≡◌, ◌≢◌, false, [], IsSome, IfSome, IsTrue, IsFalse};
ghost use Rattle.std.specs.Option.{option_copied};
ghost use Rattle.bounded_pipe.specs.Ends.{Reading};
ghost use Rattle.bounded_pipe.specs.Pipes.{items_taken};
ghost use Rattle.collector.specs.Files.{batch_bytes, FilesShown, log_of, nothing_written, out_of, SettlesAll, SettlesSome, WritesOnly};
ghost use Rattle.collector.specs.Nodes.{SinkShown, SinkFits, IsUnended, IsIdle, SinkSays, failures_after, is_failed, sink_fault, SinkActs, SinkSettles};
ghost use Rattle.collector.specs.inner.Parts.{state_settled, state_finished, IsFinishAnswer, SinkGoesOn};
ghost use Rattle.collector.specs.inner.Joins.{Took, PassesOn, TakesNext, state_after, state_next};

use crate::batch::{Batch, FewPieces};
use crate::fault::RunFault;
use crate::joining::{is_short, join_short, take_long};
use crate::opening::{Files, IoFailed};
use crate::writing::write_batch;
use bounded_pipe::PipeIn;
use machine::{Item, Piece};
use run_types::{NodeFault, NodeState, OutName, Step};
use std::alloc::Global;
use std::marker::Model;
use std::mem;

/// A node that takes what is in a pipe and writes it to a file.
#[derive(Drop)]
pub struct Sink {
    pipe: usize,
    end: PipeIn,
    file: usize,
    state: NodeState,
    // The one fault that it can have.
    fault: RunFault,
    // The bytes of short pieces, which are written at once, and for how many there is room. Contracts see neither.
    joined: Vec<u8>,
    room: usize,
    // Whether the last bytes were handed over, and room for several pieces. Contracts see neither.
    is_handed: bool,
    several: Option<FewPieces>,
}

impl Model for Sink {
    ghost use Rattle.collector.specs.Nodes.{SinkShown};
    ghost use Rattle.collector.specs.inner.Copies.{written_to, IsSinkFaulted};

    ghost Value = { SinkShown };

    ghost view = { λ s. record {
      pipe = s.pipe;
      end = s.end;
      file = s.file;
      name = written_to s.fault;
      state = s.state;
    } };

    ghost invariant = { λ s. IsSinkFaulted s.state s.fault };
}

impl Sink {
    ghost use Rattle.std.specs.Borrow.{sem};
    ghost use Rattle.collector.specs.inner.LentEnds.{LendsReading};

    /// A sink that writes what it takes from the pipe with this number to the file with this name. It may write short pieces at once, as
    /// many as `room` bytes have room for.
    pub fn new(
        alloc: Global,
        pipe: usize,
        end: PipeIn,
        file: usize,
        name: OutName,
        room: usize,
    ) -> Sink
        ensures shown { result
            ≡ record { pipe = pipe; end = end; file = file; name = name; state = NodeState.Running } }
        ensures fits { items_taken end ≡ [] → end.hung_up ≡ false → SinkFits nothing_written result }
        ensures unended { items_taken end ≡ [] → IsUnended result }
    {
        Sink {
            pipe,
            end,
            file,
            state: NodeState::Running,
            fault: RunFault::WriteFault(name),
            joined: Vec::new(alloc),
            room,
            is_handed: false,
            several: None,
        }
    }

    /// One step. It waits until all that is out is written. Then it takes an item, and short pieces that are there with it, and writes
    /// them or hands them over. After Close the output is ended.
    pub fn step<F: Files>(&mut self, files: &mut F) -> Step
        requires opened { IsSome ((F.shows files.old).outputs self.old.file) }
        ensures acts { SinkActs self.old self.new (F.shows files.old)
            (F.shows files.new) result }
        ensures stays { self.old.state ≢ NodeState.Running
            → (self.new ≡ self.old) × (files.new ≡ files.old) }
    {
        match self.state {
            NodeState::Running => self.go_on(files),
            NodeState::Ended => Step::Ended,
            NodeState::Broken => Step::Broken,
            NodeState::Failed(_) => Step::Failed,
        }
    }

    /// Waits until all that is out is written, if it runs. If a write failed, so has it. It takes nothing.
    pub fn settle<F: Files>(&mut self, files: &mut F)
        requires opened { IsSome ((F.shows files.old).outputs self.old.file) }
        ensures { SinkSettles self.old self.new (F.shows files.old) (F.shows files.new) }
    {
        if self.state == NodeState::Running {
            self.settle_out(files);
        }
    }

    /// Its state.
    pub fn state(&self) -> NodeState
        ensures { result ≡ self.now.state }
    {
        self.state
    }

    /// The name of its file.
    pub fn name(&self) -> &OutName
        ensures { result.now ≡ self.now.name }
    {
        match &self.fault {
            RunFault::WriteFault(name) => name,
            _ => unreachable!(),
        }
    }

    /// Why it has failed, if it has.
    pub fn fault(&self) -> Option<&RunFault>
        ensures fault { option_copied result ≡ sink_fault self.now.name self.now.state }
        ensures failed { IsSome result ↔ IsTrue (is_failed self.now.state) }
    {
        match self.state {
            NodeState::Failed(_) => Some(&self.fault),
            _ => None,
        }
    }

    /// The file to which it may write in its next step, if it runs.
    pub fn next_write(&self) -> Option<usize>
        ensures { IfSome result (λ file. file ≡ self.now.file) }
    {
        match self.state {
            NodeState::Running => Some(self.file),
            _ => None,
        }
    }

    /// Its pipe end.
    pub fn end(&self) -> &PipeIn
        ensures { result.now ≡ self.now.end }
    {
        &self.end
    }

    /// Lends its pipe end, for writing.
    pub fn pipe_end(&mut self) -> &mut PipeIn
        ensures* lends { sem 𝓛 (LendsReading self.entry result) }
        ensures value { result.now ≡ self.old.end }
    {
        &mut self.end
    }

    // One step of a sink that runs. What is out is settled first.
    fn go_on<F: Files>(&mut self, files: &mut F) -> Step
        requires running { self.old.state ≡ NodeState.Running }
        requires opened { IsSome ((F.shows files.old).outputs self.old.file) }
        ensures fits { SinkFits (log_of (F.shows files.old) self.old.file) self.old
            → SinkFits (log_of (F.shows files.new) self.new.file) self.new }
        ensures unended { IsUnended self.old → IsUnended self.new }
        ensures says { SinkSays self.old self.new result }
        ensures idle { IsIdle result (out_of (F.shows files.new) self.new.file) }
        ensures goes_on { SinkGoesOn self.old self.new }
        ensures own { WritesOnly self.old.file (F.shows files.old) (F.shows files.new) }
        ensures failures { (F.shows files.new).failures
            ≡ failures_after self.old.state self.new.state (F.shows files.old).failures }
    {
        if self.settle_out(files) {
            self.take_next(files)
        } else {
            Step::Failed
        }
    }

    // Waits until all that is out is written. Returns false if a write failed. Then the sink has failed.
    fn settle_out<F: Files>(&mut self, files: &mut F) -> bool
        requires running { self.old.state ≡ NodeState.Running }
        requires opened { IsSome ((F.shows files.old).outputs self.old.file) }
        ensures all { IsTrue result → SettlesAll (log_of (F.shows files.old) self.old.file)
            (log_of (F.shows files.new) self.old.file) }
        ensures some { IsFalse result → SettlesSome (log_of (F.shows files.old) self.old.file)
            (log_of (F.shows files.new) self.old.file) }
        ensures state { self.new ≡ record self.old { state = state_settled result } }
        ensures own { WritesOnly self.old.file (F.shows files.old) (F.shows files.new) }
        ensures failures { (F.shows files.new).failures
            ≡ failures_after NodeState.Running self.new.state (F.shows files.old).failures }
    {
        match files.settle(self.file) {
            Ok(batch) => {
                self.is_handed = batch.is_some();
                self.reuse(batch);
                true
            }
            Err(IoFailed) => {
                self.state = NodeState::Failed(NodeFault::WriteFault);
                false
            }
        }
    }

    // Takes what is next in the pipe, and writes it or hands it over, if nothing is out.
    fn take_next<F: Files>(&mut self, files: &mut F) -> Step
        requires running { self.old.state ≡ NodeState.Running }
        requires opened { IsSome ((F.shows files.old).outputs self.old.file) }
        requires settled { out_of (F.shows files.old) self.old.file ≡ [] }
        ensures told { TakesNext self.old self.new result (log_of (F.shows files.old) self.old.file)
            (log_of (F.shows files.new) self.old.file) }
        ensures state { self.new
            ≡ record self.old { end = self.new.end; state = state_next result } }
        ensures own { WritesOnly self.old.file (F.shows files.old) (F.shows files.new) }
        ensures failures { (F.shows files.new).failures
            ≡ failures_after NodeState.Running self.new.state (F.shows files.old).failures }
    {
        match self.end.take() {
            Some(Item::Bytes(piece)) => {
                let batch = self.gather(piece);
                self.pass_on(batch, files)
            }
            Some(Item::Close) => self.finish(files),
            None => Step::Waits(self.pipe),
        }
    }

    // Gathers pieces that come next to this one, which was taken: short ones if it is short, and long ones if the last bytes were handed over.
    fn gather(&mut self, first: Piece) -> Batch
        ensures took { (start : Reading) → Took start self.old.end first false
            → Took start self.new.end (batch_bytes result) false }
        ensures same { self.new ≡ record self.old { end = self.new.end } }
    {
        if is_short(first.len(), 0, self.room) {
            self.gather_short(first)
        } else if self.is_handed {
            self.gather_long(first)
        } else {
            Batch::Single(first)
        }
    }

    // Gathers long pieces that come next to this one, if there is memory for that.
    fn gather_long(&mut self, first: Piece) -> Batch
        ensures took { (start : Reading) → Took start self.old.end first false
            → Took start self.new.end (batch_bytes result) false }
        ensures same { self.new ≡ record self.old { end = self.new.end } }
    {
        let Some(mut pieces) = self.room_for_several() else {
            return Batch::Single(first);
        };
        pieces.push(first);
        take_long(&mut self.end, self.room, &mut pieces);
        Batch::Several(pieces)
    }

    // Room for several pieces, with none in it. None if memory is refused.
    fn room_for_several(&mut self) -> Option<FewPieces>
        ensures empty { IfSome result (λ pieces. pieces ≡ []) }
        ensures same { self.new ≡ self.old }
    {
        match self.several.take() {
            Some(mut pieces) => {
                pieces.clear();
                Some(pieces)
            }
            None => FewPieces::new(*self.joined.allocator()).ok(),
        }
    }

    // Joins short pieces that come next to this one, which is short.
    fn gather_short(&mut self, first: Piece) -> Batch
        ensures took { (start : Reading) → Took start self.old.end first false
            → Took start self.new.end (batch_bytes result) false }
        ensures same { self.new ≡ record self.old { end = self.new.end } }
    {
        let unused = Vec::new(*self.joined.allocator());
        let mut joined = mem::replace(&mut self.joined, unused);
        joined.clear();
        if joined.extend_from_slice(first.bytes()).is_err() {
            return Batch::Single(first);
        }
        join_short(&mut self.end, self.room, &mut joined);
        Batch::Joined(joined)
    }

    // Hands bytes over that it has taken, or writes them.
    fn pass_on<F: Files>(&mut self, batch: Batch, files: &mut F) -> Step
        requires running { self.old.state ≡ NodeState.Running }
        requires opened { IsSome ((F.shows files.old).outputs self.old.file) }
        requires settled { out_of (F.shows files.old) self.old.file ≡ [] }
        ensures told { PassesOn (batch_bytes batch) result
            (log_of (F.shows files.old) self.old.file)
            (log_of (F.shows files.new) self.old.file) }
        ensures state { self.new ≡ record self.old { state = state_after result } }
        ensures own { WritesOnly self.old.file (F.shows files.old) (F.shows files.new) }
        ensures failures { (F.shows files.new).failures
            ≡ failures_after NodeState.Running self.new.state (F.shows files.old).failures }
    {
        match files.hand_over(self.file, batch) {
            Ok(()) => Step::Moved,
            Err(batch) => self.write(batch, files),
        }
    }

    // Writes bytes that it has taken.
    fn write<F: Files>(&mut self, batch: Batch, files: &mut F) -> Step
        requires running { self.old.state ≡ NodeState.Running }
        requires opened { IsSome ((F.shows files.old).outputs self.old.file) }
        requires settled { out_of (F.shows files.old) self.old.file ≡ [] }
        ensures told { PassesOn (batch_bytes batch) result
            (log_of (F.shows files.old) self.old.file)
            (log_of (F.shows files.new) self.old.file) }
        ensures state { self.new ≡ record self.old { state = state_after result } }
        ensures own { WritesOnly self.old.file (F.shows files.old) (F.shows files.new) }
        ensures failures { (F.shows files.new).failures
            ≡ failures_after NodeState.Running self.new.state (F.shows files.old).failures }
    {
        let written = write_batch(self.file, &batch, files);
        self.reuse(Some(batch));
        match written {
            Ok(()) => Step::Moved,
            Err(IoFailed) => {
                self.state = NodeState::Failed(NodeFault::WriteFault);
                Step::Failed
            }
        }
    }

    // Keeps the room of joined bytes or of several pieces, for others.
    fn reuse(&mut self, batch: Option<Batch>)
        ensures { self.new ≡ self.old }
    {
        match batch {
            Some(Batch::Joined(bytes)) => self.joined = bytes,
            Some(Batch::Several(mut pieces)) => {
                pieces.clear();
                self.several = Some(pieces);
            }
            Some(Batch::Single(_)) | None => {}
        }
    }

    // Ends its output, after Close.
    fn finish<F: Files>(&mut self, files: &mut F) -> Step
        requires running { self.old.state ≡ NodeState.Running }
        requires opened { IsSome ((F.shows files.old).outputs self.old.file) }
        ensures told { log_of (F.shows files.new) self.old.file
            ≡ log_of (F.shows files.old) self.old.file }
        ensures state { self.new ≡ record self.old { state = state_finished result } }
        ensures says { IsFinishAnswer result }
        ensures own { WritesOnly self.old.file (F.shows files.old) (F.shows files.new) }
        ensures failures { (F.shows files.new).failures
            ≡ failures_after NodeState.Running self.new.state (F.shows files.old).failures }
    {
        match files.finish_output(self.file) {
            Ok(()) => {
                self.state = NodeState::Ended;
                Step::Ended
            }
            Err(IoFailed) => {
                self.state = NodeState::Failed(NodeFault::WriteFault);
                Step::Failed
            }
        }
    }
}
