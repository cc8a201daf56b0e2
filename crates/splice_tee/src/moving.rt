ghost use Rattle.std.specs.Prelude.{◌≡◌, IfOk};
ghost use Rattle.bounded_pipe.specs.Ends.{ReadsOn, WritesOn};
ghost use Rattle.splice_tee.specs.inner.Splices.{IsExact, Splices};

use bounded_pipe::{PipeIn, PipeOut};
use machine::{Item, NoMemory, Piece};

/// The result of a splice.
#[derive(Drop)]
pub enum Moved {
    /// One item moved over.
    Handed,
    /// There was none to be taken.
    Empty,
    /// This item was taken, and there was no room for it.
    Held(Item),
}

/// Moves one item from a pipe to another, without copying it (splice(2)).
pub fn splice(from: &mut PipeIn, to: &mut PipeOut) -> Moved
    ensures splices { Splices from.old from.new to.old to.new result }
    ensures exact { IsExact from.old to.old result }
    ensures reads { ReadsOn from.old from.new }
    ensures writes { WritesOn to.old to.new }
{
    let Some(item) = from.take() else {
        return Moved::Empty;
    };
    match to.put(item) {
        Ok(()) => Moved::Handed,
        Err(back) => Moved::Held(back),
    }
}

/// An equal piece, which shares its bytes (tee(2)).
pub fn duplicate(piece: &Piece) -> Result<Piece, NoMemory>
    ensures { IfOk result (λ copy. copy ≡ piece.now) }
{
    piece.duplicate()
}
