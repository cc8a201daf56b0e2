use machine::{Machine, Piece, Pieces, StageFault, Want};

// A machine that takes its inputs one after another, and writes nothing.
#[derive(Drop)]
pub(crate) struct Silent {
    pub(crate) inputs: usize,
    pub(crate) at: usize,
}

impl Machine for Silent {
    ghost use Rattle.pair_filters.specs.SilentShows.{silent_shows, silent_lawful};

    ghost shows = { silent_shows };

    ghost lawful = { silent_lawful };

    fn want(&self) -> Want {
        if self.at < self.inputs {
            Want::Take(self.at)
        } else {
            Want::Finished
        }
    }

    fn feed(&mut self, _input: usize, _piece: Piece, _out: &mut Pieces) -> Result<(), StageFault> {
        Ok(())
    }

    fn close(&mut self, _input: usize, _out: &mut Pieces) -> Result<(), StageFault> {
        self.at += 1;
        Ok(())
    }
}
