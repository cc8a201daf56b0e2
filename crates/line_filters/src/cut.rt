ghost use Rattle.std.specs.Prelude.{◌≡◌, [], IfOk};
ghost use Rattle.machine.specs.Law.{IsNew};
ghost use Rattle.commands.specs.declared.cut_words.Parts.TheVariants.{Bytes};

use crate::cut_lines::{put_last, put_lines};
use crate::long_lines::{put_long_last, take_long_line};
use crate::ranges::Ranges;
use commands::{CutSpec, Parts};
use lanes::Written;
use machine::{InOrder, Machine, NoMemory, Piece, Pieces, Presence, StageFault, Want};
use std::alloc::Global;

/// cut as a machine. With -f it keeps the beginning of a line until the line has ended, and with -b
/// the number of its bytes.
#[derive(Drop)]
pub struct Cut {
    ranges: Ranges,
    parts: Parts,
    inputs: InOrder,
    // The beginning of a line with -f.
    partial: Vec<u8>,
    // How many bytes of a line that is begun were read with -b.
    passed: usize,
    // What is made of a piece. It is put out before the next one comes.
    made: Written,
    ghost counted: { parts ≡ Bytes → partial.items ≡ [] },
}

impl Cut {
    ghost use Rattle.line_filters.specs.CutShows.{cut_shows};
    ghost use Rattle.commands.specs.Cut.{cut_whole};

    /// A new machine with these inputs.
    pub fn new(alloc: Global, spec: &CutSpec, inputs: &[Presence]) -> Result<Cut, NoMemory>
        ensures { IfOk result
            (λ machine. IsNew (cut_shows machine)
            (cut_whole spec.now.ranges spec.now.parts) inputs.now) }
    {
        Ok(Cut {
            ranges: Ranges::new(alloc, spec.ranges.as_slice())?,
            parts: spec.parts,
            inputs: InOrder::new(alloc, inputs)?,
            partial: Vec::new(alloc),
            passed: 0,
            made: Written::new(alloc, 4096),
        })
    }
}

impl Machine for Cut {
    ghost use Rattle.line_filters.specs.CutShows.{cut_shows, cut_lawful};

    ghost shows = { cut_shows };

    ghost lawful = { cut_lawful };

    fn want(&self) -> Want {
        self.inputs.want()
    }

    fn feed(&mut self, _input: usize, piece: Piece, out: &mut Pieces) -> Result<(), StageFault> {
        match self.inputs.here() {
            Presence::Missing => Ok(()),
            Presence::Present => {
                let bytes = piece.bytes();
                let at = take_long_line(&self.ranges, self.parts, &mut self.partial, bytes, out)?;
                self.made.clear();
                put_lines(
                    &self.ranges,
                    self.parts,
                    &mut self.partial,
                    &mut self.passed,
                    &bytes[at..],
                    &mut self.made,
                )?;
                out.push_bytes(self.made.bytes())?;
                Ok(())
            }
        }
    }

    fn close(&mut self, _input: usize, out: &mut Pieces) -> Result<(), StageFault> {
        put_long_last(&self.ranges, self.parts, &mut self.partial, out)?;
        self.made.clear();
        put_last(
            &self.ranges,
            self.parts,
            &mut self.partial,
            &mut self.passed,
            &mut self.made,
        )?;
        out.push_bytes(self.made.bytes())?;
        self.inputs.next();
        Ok(())
    }
}
