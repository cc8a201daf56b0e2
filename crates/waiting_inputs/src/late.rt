ghost use Rattle.std.specs.Prelude.{◌≡◌};

use std::io::Read;

/// A reader that may have to be opened before it is read, as a FIFO that waits for its writer (POSIX.1-2017 XSH open).
pub trait OpensLate<R>: Read {
    /// Opens it by this runtime, if it is not open yet. Its bytes stay as they are.
    fn open_late(&mut self, rt: &R)
        ensures { Self.remaining self.new ≡ Self.remaining self.old };
}
