ghost use Rattle.std.specs.Prelude.{◌≡◌, [], ◌++◌, IfOk, OnOk};
ghost use Rattle.machine.specs.Law.{IsNew};
ghost use Rattle.machine.specs.Lines.{HasNoNewline, IsLine};
ghost use Rattle.commands.specs.Fold.{folded, fold_whole};
ghost use Rattle.byte_filters.specs.FoldCuts.{IsHalf, IsUncut};
ghost use Rattle.byte_filters.specs.inner.Scans.{Folds};

use crate::fold_text::fold_text;
use commands::{FoldForm, FoldSpec};
use lanes::{Written, find_near};
use machine::{
    InOrder, Machine, NoMemory, Piece, Pieces, Presence, StageFault, Want, append, clear_and_shrink,
};
use std::alloc::Global;
use std::mem;

// Room for what is written of a first piece.
const ROOM: usize = 4096;

// A piece of fewer bytes is joined to what is held.
const MANY: usize = 256;

/// fold as a machine of one input or more. It keeps the bytes of a segment of a line, or of two at
/// most if pieces are short, so that none is looked at again for each piece.
#[derive(Drop)]
pub struct Fold {
    alloc: Global,
    spec: FoldForm,
    inputs: InOrder,
    held: Vec<u8>,
    // How many bytes the segment has with which the held bytes begin: at least half of them.
    segment: usize,
    made: Written,
    ghost plain: { HasNoNewline held.items },
    ghost half: { IsHalf spec held.items segment },
}

// Folds what is held and these bytes, and holds what is left of them. If no line ends, this waits
// until as many bytes came as the held segment has. Returns how many bytes the segment has with
// which the held bytes begin then.
fn take_bytes(
    alloc: Global,
    spec: &FoldForm,
    segment: usize,
    held: &mut Vec<u8>,
    bytes: &[u8],
    made: &mut Written,
) -> Result<usize, NoMemory>
    requires plain { HasNoNewline held.old.items }
    requires half { IsHalf spec.now held.old.items segment }
    ensures folds { OnOk result
        (Folds spec.now (held.old.items ++ bytes.now) held.new.items made.old made.new) }
    ensures plain { OnOk result (HasNoNewline held.new.items) }
    ensures half { IfOk result (λ segment. IsHalf spec.now held.new.items segment) }
{
    if held.is_empty() {
        fold_slice(spec, held, bytes, made)?;
        return Ok(held.len());
    }
    match find_near(bytes, 0, b'\n') {
        None => {
            append(held, bytes)?;
            if held.len() - segment < segment {
                return Ok(segment);
            }
            fold_held(alloc, spec, held, made)?;
            Ok(held.len())
        }
        Some(_) if bytes.len() < MANY => {
            append(held, bytes)?;
            fold_held(alloc, spec, held, made)?;
            Ok(held.len())
        }
        Some(end) => {
            fold_line(spec, held, &bytes[..end + 1], made)?;
            fold_slice(spec, held, &bytes[end + 1..], made)?;
            Ok(held.len())
        }
    }
}

// Folds these bytes, and holds what is left of them, if nothing is held.
fn fold_slice(
    spec: &FoldForm,
    held: &mut Vec<u8>,
    bytes: &[u8],
    made: &mut Written,
) -> Result<(), NoMemory>
    requires { held.old.items ≡ [] }
    ensures folds { OnOk result (Folds spec.now bytes.now held.new.items made.old made.new) }
    ensures plain { OnOk result (HasNoNewline held.new.items) }
    ensures uncut { OnOk result (IsUncut spec.now held.new.items) }
{
    let count = fold_text(spec, bytes, made)?;
    append(held, &bytes[count..])?;
    Ok(())
}

// Folds what is held, and holds what is left of it.
fn fold_held(
    alloc: Global,
    spec: &FoldForm,
    held: &mut Vec<u8>,
    made: &mut Written,
) -> Result<(), NoMemory>
    ensures folds { OnOk result
        (Folds spec.now held.old.items held.new.items made.old made.new) }
    ensures plain { OnOk result (HasNoNewline held.new.items) }
    ensures uncut { OnOk result (IsUncut spec.now held.new.items) }
{
    let count = fold_text(spec, held, made)?;
    let rest = Vec::from_slice(alloc, &held[count..])?;
    *held = rest;
    Ok(())
}

// Folds what is held and this line after it, which ends with its newline, so that nothing is left.
fn fold_line(
    spec: &FoldForm,
    held: &mut Vec<u8>,
    line: &[u8],
    made: &mut Written,
) -> Result<(), NoMemory>
    requires { IsLine line.now }
    ensures folds { OnOk result
        (Folds spec.now (held.old.items ++ line.now) held.new.items made.old made.new) }
    ensures empty { OnOk result (held.new.items ≡ []) }
{
    append(held, line)?;
    fold_text(spec, held, made)?;
    clear_and_shrink(held);
    Ok(())
}

// What a line gives at its end.
fn put_end(spec: &FoldForm, held: &[u8], made: &mut Written) -> Result<(), NoMemory>
    ensures { OnOk result (made.new ≡ made.old ++ folded spec.now held.now) }
{
    let count = fold_text(spec, held, made)?;
    made.put(&held[count..])?;
    Ok(())
}

impl Fold {
    ghost use Rattle.byte_filters.specs.FoldShows.{fold_shows};

    /// A new machine with these inputs.
    pub fn new(alloc: Global, spec: &FoldSpec, inputs: &[Presence]) -> Result<Fold, NoMemory>
        ensures { IfOk result
            (λ machine. IsNew (fold_shows machine) (fold_whole spec.now.form) inputs.now) }
    {
        Ok(Fold {
            alloc,
            spec: spec.form,
            inputs: InOrder::new(alloc, inputs)?,
            held: Vec::new(alloc),
            segment: 0,
            made: Written::new(alloc, ROOM),
        })
    }
}

impl Machine for Fold {
    ghost use Rattle.byte_filters.specs.FoldShows.{fold_shows, fold_lawful};

    ghost shows = { fold_shows };

    ghost lawful = { fold_lawful };

    fn want(&self) -> Want {
        self.inputs.want()
    }

    fn feed(&mut self, _input: usize, piece: Piece, out: &mut Pieces) -> Result<(), StageFault> {
        match self.inputs.here() {
            Presence::Missing => Ok(()),
            Presence::Present => {
                self.made.clear();
                // If memory is refused, nothing is held.
                let mut held = mem::replace(&mut self.held, Vec::new(self.alloc));
                let segment = mem::replace(&mut self.segment, 0);
                self.segment = take_bytes(
                    self.alloc,
                    &self.spec,
                    segment,
                    &mut held,
                    piece.bytes(),
                    &mut self.made,
                )?;
                self.held = held;
                out.push_bytes(self.made.bytes())?;
                Ok(())
            }
        }
    }

    fn close(&mut self, _input: usize, out: &mut Pieces) -> Result<(), StageFault> {
        let here = self.inputs.here();
        self.inputs.next();
        match here {
            Presence::Missing => {
                self.held.clear();
                self.segment = 0;
                Ok(())
            }
            Presence::Present => {
                self.made.clear();
                put_end(&self.spec, self.held.as_slice(), &mut self.made)?;
                self.held.clear();
                self.segment = 0;
                out.push_bytes(self.made.bytes())?;
                Ok(())
            }
        }
    }
}
