ghost use Rattle.std.specs.Prelude.{◌≡◌, ◌<◌, ◌≤◌, ◌||◌, true, nat_lt, length};

use crate::leaving::{leave, left_at_once, put_front};
use crate::progress::Progress;
use command_words::{Word, copies};
use commands::HeadSpec;
use machine::{Machine, NoMemory, Piece, Pieces, Presence, StageFault, Want, front_lines};
use std::alloc::Global;

/// head as a machine. It keeps no bytes.
#[derive(Drop)]
pub struct Head {
    progress: Progress,
    names: Vec<Word>,
    inputs: Vec<Presence>,
    closed: Vec<bool>,
    ghost named: { length names.items ≡ length inputs.items },
    ghost begun: { progress.begun ≡ true → 1 ≤ progress.left },
    ghost unbegun: { length closed.items < length inputs.items
        → (progress.titled || nat_lt 0 progress.count) ≡ true },
}

impl Head {
    ghost use Rattle.std.specs.Prelude.{IfOk};
    ghost use Rattle.machine.specs.Law.{IsNew};
    ghost use Rattle.commands.specs.Head.{head_whole};
    ghost use Rattle.line_filters.specs.HeadShows.{head_shows};

    /// A new machine with these inputs, as many as there are names.
    pub fn new(alloc: Global, spec: &HeadSpec, inputs: &[Presence]) -> Result<Head, NoMemory>
        requires { length spec.now.inputs ≡ length inputs.now }
        ensures { IfOk result
            (λ machine. IsNew (head_shows machine)
            (head_whole spec.now.count spec.now.inputs) inputs.now) }
    {
        let names = copies(alloc, spec.inputs.as_slice())?;
        let titled = names.len() >= 2;
        let closed = left_at_once(alloc, titled, spec.count)?;
        let progress = Progress {
            count: spec.count,
            titled,
            any: false,
            begun: false,
            left: spec.count,
        };
        Ok(Head {
            progress,
            names,
            inputs: Vec::from_slice(alloc, inputs)?,
            closed,
        })
    }
}

impl Machine for Head {
    ghost use Rattle.line_filters.specs.HeadShows.{head_shows, head_lawful};

    ghost shows = { head_shows };

    ghost lawful = { head_lawful };

    fn want(&self) -> Want {
        if self.closed.len() < self.inputs.len() {
            Want::Take(self.closed.len())
        } else {
            Want::Finished
        }
    }

    fn feed(&mut self, _input: usize, piece: Piece, out: &mut Pieces) -> Result<(), StageFault> {
        let at = self.closed.len();
        match self.inputs[at] {
            Presence::Missing => Ok(()),
            Presence::Present => {
                // If memory is refused, the progress stays as it was.
                let mut progress = self.progress;
                progress.begin(self.names[at].bytes(), out)?;
                let (end, left) = front_lines(piece.bytes(), progress.left);
                put_front(piece, end, out)?;
                progress.left = left;
                let is_line_left = left > 0;
                if is_line_left {
                    self.progress = progress;
                    return Ok(());
                }
                leave(&mut progress, &mut self.closed, false)?;
                self.progress = progress;
                Ok(())
            }
        }
    }

    fn close(&mut self, _input: usize, out: &mut Pieces) -> Result<(), StageFault> {
        let at = self.closed.len();
        match self.inputs[at] {
            Presence::Missing => {
                leave(&mut self.progress, &mut self.closed, true)?;
                Ok(())
            }
            Presence::Present => {
                let mut progress = self.progress;
                progress.begin(self.names[at].bytes(), out)?;
                leave(&mut progress, &mut self.closed, true)?;
                self.progress = progress;
                Ok(())
            }
        }
    }
}
