ghost use Rattle.std.specs.Prelude.{◌≡◌, [], ◌∷◌, length, MatchBool, IfOk};
ghost use Rattle.machine.specs.Law.{IsNew};
ghost use Rattle.commands.specs.Uniq.{uniq_whole};

use crate::begun::Begun;
use crate::made::Made;
use crate::runs::Rules;
use commands::UniqSpec;
use machine::{Machine, NoMemory, OneInput, Piece, Pieces, Presence, StageFault, Want};
use std::alloc::Global;

/// uniq as a machine of one input. It keeps the beginning of a line until the line has ended, and of the run that is not
/// over the first line and the number of its lines.
#[derive(Drop)]
pub struct Uniq {
    input: OneInput,
    partial: Vec<u8>,
    begun: Begun,
    made: Made,
}

impl Uniq {
    ghost use Rattle.pair_filters.specs.UniqShows.{uniq_shows};

    /// A new machine with this input.
    pub fn new(alloc: Global, spec: &UniqSpec, inputs: &[Presence]) -> Result<Uniq, NoMemory>
        requires { length inputs.now ≡ 1 }
        ensures { IfOk result
            (λ machine. IsNew (uniq_shows machine)
            (uniq_whole spec.now.skipped_fields spec.now.skipped_bytes spec.now.shown) inputs.now) }
    {
        let rules = Rules {
            skipped_fields: spec.skipped_fields,
            skipped_bytes: spec.skipped_bytes,
            shown: spec.shown,
        };
        Ok(Uniq {
            input: OneInput::new(inputs),
            partial: Vec::new(alloc),
            begun: Begun::new(alloc, rules),
            made: Made::new(alloc),
        })
    }
}

impl Machine for Uniq {
    ghost use Rattle.pair_filters.specs.UniqShows.{uniq_shows, uniq_lawful};

    ghost shows = { uniq_shows };

    ghost lawful = { uniq_lawful };

    fn want(&self) -> Want {
        self.input.want()
    }

    fn feed(&mut self, _input: usize, piece: Piece, out: &mut Pieces) -> Result<(), StageFault> {
        if !self.input.present {
            return Ok(());
        }
        self.made.clear();
        self.begun
            .take_bytes(&mut self.partial, piece.bytes(), &mut self.made)?;
        self.made.pour(out)?;
        Ok(())
    }

    fn close(&mut self, _input: usize, out: &mut Pieces) -> Result<(), StageFault> {
        self.input.closed = true;
        if !self.input.present {
            return Ok(());
        }
        self.made.clear();
        self.begun.end(&mut self.partial, &mut self.made)?;
        self.made.pour(out)?;
        Ok(())
    }
}
