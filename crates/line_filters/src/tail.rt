ghost use Rattle.std.specs.Prelude.{◌≡◌, ◌≤◌, [], ◌∷◌, length, MatchBool, IfOk};
ghost use Rattle.machine.specs.Law.{IsNew};
ghost use Rattle.line_filters.specs.KeptParts.{amount_of, kept_bytes, later_bytes};
ghost use Rattle.line_filters.specs.Skips.{left_of};
ghost use Rattle.commands.specs.declared.tail_words.Origin.TheVariants.{Beginning, End};
ghost use Rattle.commands.specs.Tail.{tail_whole};

use crate::kept::Kept;
use crate::skipping::put_behind;
use commands::{Origin, TailSpec};
use machine::{Machine, NoMemory, OneInput, Piece, Pieces, Presence, StageFault, Want};
use std::alloc::Global;
use std::mem;

/// tail as a machine of one input. It keeps the bytes that hold the last lines or bytes, or none.
#[derive(Drop)]
pub struct Tail {
    alloc: Global,
    origin: Origin,
    left: u64,
    input: OneInput,
    kept: Kept,
    ghost few: { origin ≡ End
        → amount_of kept.counted (later_bytes kept.full.items kept.last) ≤ left },
    ghost none: { origin ≡ Beginning → kept_bytes kept.full.items kept.last ≡ [] },
}

impl Tail {
    ghost use Rattle.line_filters.specs.TailShows.{tail_shows};

    /// A new machine with this input.
    pub fn new(alloc: Global, spec: &TailSpec, inputs: &[Presence]) -> Result<Tail, NoMemory>
        requires { length inputs.now ≡ 1 }
        ensures { IfOk result
            (λ machine. IsNew (tail_shows machine)
            (tail_whole spec.now.counted spec.now.origin spec.now.count) inputs.now) }
    {
        Ok(Tail {
            alloc,
            origin: spec.origin,
            left: first_left(spec.origin, spec.count),
            input: OneInput::new(inputs),
            kept: Kept::new(alloc, spec.counted),
        })
    }
}

impl Machine for Tail {
    ghost use Rattle.line_filters.specs.TailShows.{tail_shows, tail_lawful};

    ghost shows = { tail_shows };

    ghost lawful = { tail_lawful };

    fn want(&self) -> Want {
        self.input.want()
    }

    fn feed(&mut self, _input: usize, piece: Piece, out: &mut Pieces) -> Result<(), StageFault> {
        if !self.input.present {
            return Ok(());
        }
        match self.origin {
            Origin::Beginning => {
                self.left = put_behind(self.kept.counted(), piece, self.left, out)?;
                Ok(())
            }
            Origin::End => {
                self.kept.push(piece)?;
                self.kept.leave(self.left);
                Ok(())
            }
        }
    }

    fn close(&mut self, _input: usize, out: &mut Pieces) -> Result<(), StageFault> {
        self.input.closed = true;
        if !self.input.present {
            return Ok(());
        }
        match self.origin {
            Origin::Beginning => Ok(()),
            Origin::End => {
                let counted = self.kept.counted();
                let kept = mem::replace(&mut self.kept, Kept::new(self.alloc, counted));
                let skip = kept.members().saturating_sub(u128::from(self.left));
                kept.put_behind(skip, out)?;
                Ok(())
            }
        }
    }
}

// How many lines or bytes a new machine still skips, or keeps.
fn first_left(origin: Origin, count: u64) -> u64
    ensures { result ≡ left_of origin count }
{
    match origin {
        Origin::Beginning => count.max(1) - 1,
        Origin::End => count,
    }
}
