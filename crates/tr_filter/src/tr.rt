ghost use Rattle.std.specs.Prelude.{◌≡◌, ℕ, ◌++◌, ◌≤◌, List, Option, length, take};
ghost use Rattle.machine.specs.Law.{IsNew};
ghost use Rattle.tr_filter.specs.Shifts.{made_by};
ghost use Rattle.tr_words.specs.Tr.{translated, squeezed, tr_whole};

use crate::change::{Change, apply, change_of};
use crate::squeezing::{Squeezing, squeeze, squeezing_of};
use machine::{Machine, NoMemory, OneInput, Piece, Pieces, Presence, StageFault, Want};
use tr_words::TrSpec;

// How the machine makes what it makes: bytes are deleted and translated, and then runs are squeezed.
#[derive(Clone, Copy)]
struct Way {
    pub change: Change,
    pub squeezing: Option<Squeezing>,
}

/// tr as a machine of one input. It keeps one byte from piece to piece.
#[derive(Drop)]
pub struct Tr {
    spec: Way,
    input: OneInput,
    last: Option<u8>,
}

impl Tr {
    ghost use Rattle.tr_filter.specs.TrShows.{tr_shows};

    /// A new machine with this input. It takes no memory.
    pub fn new(spec: &TrSpec, inputs: &[Presence]) -> Tr
        requires { length inputs.now ≡ 1 }
        ensures { IsNew (tr_shows result) (tr_whole spec.now) inputs.now }
    {
        Tr {
            spec: way_of(spec),
            input: OneInput::new(inputs),
            last: None,
        }
    }
}

impl Machine for Tr {
    ghost use Rattle.tr_filter.specs.TrShows.{tr_shows, tr_lawful};

    ghost shows = { tr_shows };

    ghost lawful = { tr_lawful };

    fn want(&self) -> Want {
        self.input.want()
    }

    fn feed(&mut self, _input: usize, piece: Piece, out: &mut Pieces) -> Result<(), StageFault> {
        if !self.input.present {
            return Ok(());
        }
        let mut bytes = piece.into_mut()?;
        let (kept, last) = make(&self.spec, self.last, bytes.as_mut_slice());
        self.last = last;
        bytes.truncate(kept);
        out.push_mut(bytes)?;
        Ok(())
    }

    fn close(&mut self, _input: usize, _out: &mut Pieces) -> Result<(), StageFault> {
        self.input.closed = true;
        Ok(())
    }
}

// The quickest way to make what tr makes.
fn way_of(spec: &TrSpec) -> Way
    ensures { (last : Option ℕ) (xs : List ℕ)
        → made_by result last xs ≡ squeezed spec.now.squeezed last (translated spec.now xs) }
{
    let squeezing = match &spec.squeezed {
        None => None,
        Some(set) => Some(squeezing_of(set)),
    };
    Way {
        change: change_of(spec),
        squeezing,
    }
}

// Writes at the front what tr makes of these bytes, if `last` comes before them. Returns its length
// and the byte after which the next ones are squeezed.
fn make(way: &Way, last: Option<u8>, bytes: &mut [u8]) -> (usize, Option<u8>)
    ensures made { take result.0 bytes.new ≡ made_by way.now last bytes.old }
    ensures goes_on { (ys : List ℕ)
        → made_by way.now last (bytes.old ++ ys)
        ≡ made_by way.now last bytes.old ++ made_by way.now result.1 ys }
    ensures within { result.0 ≤ length bytes.old }
{
    let len = apply(&way.change, bytes);
    match &way.squeezing {
        None => (len, last),
        Some(squeezing) => squeeze(bytes, len, squeezing, last),
    }
}
