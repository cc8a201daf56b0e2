ghost use Rattle.std.specs.Prelude.{◌≡◌};
ghost use Rattle.collector.specs.InputEnds.{left_out_too};

/// The end of an input that is all that its reader needs (POSIX.1-2017 XCU tail).
#[derive(Clone, Copy, Debug, PartialEq, Eq)]
pub enum NeededEnd {
    /// The last lines, at least this many.
    Lines(u64),
    /// The last bytes, at least this many.
    Bytes(u64),
}

/// Whether a front of an input was left out, before anything of it was read.
#[derive(Clone, Copy, Debug, PartialEq, Eq)]
pub enum LeftOut {
    /// None was.
    Nothing,
    /// It was asked for once, and this end was needed.
    Once(NeededEnd),
    /// It was asked for more than once.
    Often,
}

impl LeftOut {
    /// It was asked for once more, and this end was needed.
    pub fn too(self, needed: NeededEnd) -> LeftOut
        ensures { result ≡ left_out_too self needed }
    {
        match self {
            LeftOut::Nothing => LeftOut::Once(needed),
            LeftOut::Once(_) | LeftOut::Often => LeftOut::Often,
        }
    }
}
