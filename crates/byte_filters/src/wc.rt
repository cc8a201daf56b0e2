ghost use Rattle.std.specs.Prelude.{◌≡◌, ◌≤◌, length, IfOk};
ghost use Rattle.machine.specs.Law.{IsNew};
ghost use Rattle.commands.specs.Wc.{wc_whole};
ghost use Rattle.byte_filters.specs.WcSteps.{is_present};

use crate::counts::{added, counted, nothing, sums_after};
use crate::wc_lines::closing;
use command_words::{Sequence, copies};
use commands::{Counts, WcSpec};
use machine::{InOrder, Machine, NoMemory, Piece, Pieces, Presence, StageFault, Want};
use std::alloc::Global;

/// wc as a machine of one input or more. It keeps numbers, and of the bytes only whether the last one belongs to a word.
#[derive(Drop)]
pub struct Wc {
    alloc: Global,
    spec: WcSpec,
    inputs: InOrder,
    counts: Counts,
    in_word: bool,
    sums: Counts,
}

// Whether an input is present.
fn is_present(input: Presence) -> bool
    ensures { result ≡ is_present input }
{
    match input {
        Presence::Present => true,
        Presence::Missing => false,
    }
}

// An equal spec.
fn copied(alloc: Global, spec: &WcSpec) -> Result<WcSpec, NoMemory>
    ensures { IfOk result (λ copy. copy ≡ spec.now) }
{
    Ok(WcSpec {
        lines: spec.lines,
        words: spec.words,
        bytes: spec.bytes,
        operands: Sequence::from_vec(copies(alloc, spec.operands.as_slice())?),
    })
}

impl Wc {
    ghost use Rattle.byte_filters.specs.WcShows.{wc_shows};

    /// A new machine with these inputs: one for each operand, or standard input if there are none.
    pub fn new(alloc: Global, spec: &WcSpec, inputs: &[Presence]) -> Result<Wc, NoMemory>
        requires { 1 ≤ length inputs.now }
        ensures { IfOk result (λ machine. IsNew (wc_shows machine) (wc_whole spec.now) inputs.now) }
    {
        Ok(Wc {
            alloc,
            spec: copied(alloc, spec)?,
            inputs: InOrder::new(alloc, inputs)?,
            counts: nothing(),
            in_word: false,
            sums: nothing(),
        })
    }
}

impl Machine for Wc {
    ghost use Rattle.byte_filters.specs.WcShows.{wc_shows, wc_lawful};

    ghost shows = { wc_shows };

    ghost lawful = { wc_lawful };

    fn want(&self) -> Want {
        self.inputs.want()
    }

    fn feed(&mut self, _input: usize, piece: Piece, _out: &mut Pieces) -> Result<(), StageFault> {
        if !is_present(self.inputs.here()) {
            return Ok(());
        }
        let (counts, last) = counted(&self.spec, self.in_word, piece.bytes());
        self.counts = added(&self.spec, self.counts, counts)?;
        self.in_word = last;
        Ok(())
    }

    fn close(&mut self, _input: usize, out: &mut Pieces) -> Result<(), StageFault> {
        let here = is_present(self.inputs.here());
        let last = self.inputs.is_last();
        let sums = sums_after(&self.spec, here, self.sums, self.counts)?;
        let text = closing(
            self.alloc,
            &self.spec,
            self.inputs.at(),
            here,
            last,
            self.counts,
            sums,
        )?;
        out.push_vec(text)?;
        self.sums = sums;
        self.counts = nothing();
        self.in_word = false;
        self.inputs.next();
        Ok(())
    }
}
