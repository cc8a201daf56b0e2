ghost use Rattle.std.specs.Prelude.{◌≡◌, ℕ, List, IfOk};
ghost use Rattle.machine.specs.Law.{IsNew};
ghost use Rattle.machine.specs.Whole.{inputs_of, is_some_missing};

use crate::serial::Serial;
use crate::silent::Silent;
use crate::table::Table;
use commands::PasteSpec;
use machine::{Machine, NoMemory, Piece, Pieces, Presence, StageFault, Want};
use std::alloc::Global;

/// paste as a machine.
#[derive(Drop)]
pub struct Paste {
    form: Form,
}

// The machine of each of its forms.
#[derive(Drop)]
enum Form {
    Table(Table),
    Serial(Serial),
    // No table is written if an input is missing.
    Silent(Silent),
}

impl Paste {
    ghost use Rattle.pair_filters.specs.PasteShows.{paste_shows};
    ghost use Rattle.commands.specs.Paste.{paste_whole};

    /// A new machine with these inputs.
    pub fn new(alloc: Global, spec: &PasteSpec, inputs: &[Presence]) -> Result<Paste, NoMemory>
        ensures { IfOk result
            (λ machine. IsNew (paste_shows machine)
            (paste_whole spec.now.delimiters spec.now.is_serial spec.now.columns) inputs.now) }
    {
        let delimiters = spec.delimiters.as_slice();
        let columns = spec.columns.as_slice();
        if spec.is_serial {
            let serial = Serial::new(alloc, delimiters, columns, inputs)?;
            return Ok(Paste {
                form: Form::Serial(serial),
            });
        }
        if is_some_missing(inputs) {
            let silent = Silent {
                inputs: inputs.len(),
                at: 0,
            };
            return Ok(Paste {
                form: Form::Silent(silent),
            });
        }
        let table = Table::new(alloc, delimiters, columns, inputs.len())?;
        Ok(Paste {
            form: Form::Table(table),
        })
    }
}

// Whether an input is missing.
fn is_some_missing(inputs: &[Presence]) -> bool
    ensures { (ys : ℕ → List ℕ) → result ≡ is_some_missing (inputs_of inputs.now ys) }
{
    inputs.contains(&Presence::Missing)
}

impl Machine for Paste {
    ghost use Rattle.pair_filters.specs.PasteShows.{paste_shows, paste_lawful};

    ghost shows = { paste_shows };

    ghost lawful = { paste_lawful };

    fn want(&self) -> Want {
        match &self.form {
            Form::Table(machine) => machine.want(),
            Form::Serial(machine) => machine.want(),
            Form::Silent(machine) => machine.want(),
        }
    }

    fn feed(&mut self, input: usize, piece: Piece, out: &mut Pieces) -> Result<(), StageFault> {
        match &mut self.form {
            Form::Table(machine) => machine.feed(input, piece, out),
            Form::Serial(machine) => machine.feed(input, piece, out),
            Form::Silent(machine) => machine.feed(input, piece, out),
        }
    }

    fn close(&mut self, input: usize, out: &mut Pieces) -> Result<(), StageFault> {
        match &mut self.form {
            Form::Table(machine) => machine.close(input, out),
            Form::Serial(machine) => machine.close(input, out),
            Form::Silent(machine) => machine.close(input, out),
        }
    }
}
