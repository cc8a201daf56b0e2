ghost use Rattle.std.specs.Prelude.{◌≡◌};

use crate::opening::Files;

/// Files that say whether a read or a write would wait. Files in memory never do.
pub trait Readiness: Files {
    /// Whether a read of this input would wait, as far as that can be known. Files in memory never
    /// wait. Nothing that the files show changes, and no clause rests on the result.
    fn would_wait(&mut self, _file: usize) -> bool
        ensures { Self.shows self.new ≡ Self.shows self.old }
    {
        false
    }

    /// Learns that these inputs are to be read next, so that their bytes can be fetched. Nothing
    /// that the files show changes.
    fn ask_for_input(&mut self, _files: &[usize])
        ensures { Self.shows self.new ≡ Self.shows self.old }
    {}

    /// Whether a write to this output would wait, since it is not open at its other end, as far as that
    /// can be known (POSIX.1-2017 XSH open, FIFO). Files in memory never wait. Nothing that the files
    /// show changes, and no clause rests on the result.
    fn output_would_wait(&mut self, _file: usize) -> bool
        ensures { Self.shows self.new ≡ Self.shows self.old }
    {
        false
    }

    /// Waits until a read of one of these inputs, or a write to one of these outputs, would not wait, as
    /// far as that can be known. Nothing that the files show changes.
    fn wait_for_files(&mut self, _inputs: &[usize], _outputs: &[usize])
        ensures { Self.shows self.new ≡ Self.shows self.old }
    {}
}
