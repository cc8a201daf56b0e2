ghost use Rattle.std.specs.Prelude.{◌≡◌};
ghost use Rattle.run_types.specs.Steps.{is_moved};

/// The result of a step of a node.
#[derive(Clone, Copy, Debug, PartialEq, Eq)]
pub enum Step {
    /// Something moved on a pipe, and the node can be stepped again.
    Moved,
    /// The node waits for the pipe of this number.
    Waits(usize),
    /// It has put or written all that it had to.
    Ended,
    /// Nobody reads its output any more.
    Broken,
    /// It cannot go on.
    Failed,
}

impl Step {
    /// Whether it moved something.
    pub fn has_moved(self) -> bool
        ensures { result ≡ is_moved self }
    {
        matches!(self, Step::Moved)
    }
}
