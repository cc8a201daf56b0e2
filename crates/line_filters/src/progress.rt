ghost use Rattle.std.specs.Prelude.{◌≡◌, ◌++◌, OnOk};
ghost use Rattle.machine.specs.Pieces.{contents};
ghost use Rattle.commands.specs.Head.{header};
ghost use Rattle.line_filters.specs.HeadLines.{Begins, title};

use crate::bytes::put;
use machine::{NoMemory, Pieces};

// How far head is.
#[derive(Clone, Copy)]
pub(crate) struct Progress {
    // How many lines are written of each input.
    pub(crate) count: u64,
    // Whether inputs have headers.
    pub(crate) titled: bool,
    // Whether a header was written.
    pub(crate) any: bool,
    // Whether the input that is wanted has begun.
    pub(crate) begun: bool,
    // How many of its lines are left, if it has any.
    pub(crate) left: u64,
}

impl Progress {
    // Begins the input with this name, if it has not begun.
    pub(crate) fn begin(&mut self, name: &[u8], out: &mut Pieces) -> Result<(), NoMemory>
        ensures ok { OnOk result (Begins self.old self.new name.now out.old out.new) }
        ensures block { out.new.block ≡ out.old.block }
        ensures kept { (self.new.titled ≡ self.old.titled) × (self.new.count ≡ self.old.count) }
    {
        if self.begun {
            return Ok(());
        }
        put_title(self.titled, self.any, name, out)?;
        self.any = true;
        self.begun = true;
        self.left = self.count;
        Ok(())
    }
}

// Adds what comes before the lines of an input.
fn put_title(titled: bool, any: bool, name: &[u8], out: &mut Pieces) -> Result<(), NoMemory>
    ensures ok { OnOk result (contents out.new ≡ contents out.old ++ title titled any name.now) }
    ensures block { out.new.block ≡ out.old.block }
{
    if !titled {
        return Ok(());
    }
    if any {
        put(b"\n", out)?;
        put_header(name, out)?;
        return Ok(());
    }
    put_header(name, out)?;
    Ok(())
}

// Adds the header of an input.
fn put_header(name: &[u8], out: &mut Pieces) -> Result<(), NoMemory>
    ensures ok { OnOk result (contents out.new ≡ contents out.old ++ header name.now) }
    ensures block { out.new.block ≡ out.old.block }
{
    put(b"==> ", out)?;
    put(name, out)?;
    put(b" <==\n", out)?;
    Ok(())
}
