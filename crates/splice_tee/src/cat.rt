ghost use Rattle.std.specs.Prelude.{IfOk};
ghost use Rattle.machine.specs.Law.{IsNew};
ghost use Rattle.machine.specs.Whole.{joined_answer};

use machine::{InOrder, Machine, NoMemory, Piece, Pieces, Presence, StageFault, Want};
use std::alloc::Global;

/// cat as a machine, and tee too: it hands the pieces of its inputs on as they are, input by input. It keeps no bytes.
#[derive(Drop)]
pub struct Cat {
    inputs: InOrder,
}

impl Cat {
    ghost use Rattle.splice_tee.specs.CatShows.{cat_shows};

    /// A new machine with these inputs.
    pub fn new(alloc: Global, inputs: &[Presence]) -> Result<Cat, NoMemory>
        ensures { IfOk result (λ machine. IsNew (cat_shows machine) joined_answer inputs.now) }
    {
        Ok(Cat {
            inputs: InOrder::new(alloc, inputs)?,
        })
    }
}

impl Machine for Cat {
    ghost use Rattle.splice_tee.specs.CatShows.{cat_shows, cat_lawful};

    ghost shows = { cat_shows };

    ghost lawful = { cat_lawful };

    fn want(&self) -> Want {
        self.inputs.want()
    }

    fn feed(&mut self, _input: usize, piece: Piece, out: &mut Pieces) -> Result<(), StageFault> {
        match self.inputs.here() {
            Presence::Missing => Ok(()),
            Presence::Present => {
                out.push_piece(piece)?;
                Ok(())
            }
        }
    }

    fn close(&mut self, _input: usize, _out: &mut Pieces) -> Result<(), StageFault> {
        self.inputs.next();
        Ok(())
    }
}
