// The files of a run of the process.
ghost use Rattle.std.specs.Prelude.{◌≡◌};
ghost use Rattle.file_stores.specs.inner.Host.{shown_host};

use collector::Readiness;
use file_stores::{Disk, HostFiles, HostHandle, HostReader, Watch, Watched};
use waiting_inputs::Inputs;

/// Files that a run of the process ends.
pub(crate) trait RunFiles: Readiness {
    ghost use Rattle.std.specs.Prelude.{Bool, Option, None, IfSome};

    /// Whether a write to the standard output failed since its reader has gone (POSIX.1-2017 XSH write, EPIPE), if that is known.
    ghost gone: { Self → Option Bool } = { λ _. None };

    /// Ends the line of progress. Returns whether a write to the standard output failed since its reader has gone. Nothing that the files
    /// show changes.
    fn end(&mut self) -> bool
        ensures same { Self.shows self.new ≡ Self.shows self.old }
        ensures gone { IfSome (gone self.new) (λ is. result ≡ is) };

    /// The number of the error of the last read or write that failed, if the system gave one.
    fn last_error(&self) -> Option<i32>;
}

/// Files whose reads and writes a watch of this type can be notified of.
pub(crate) trait TakesWatch<W>: RunFiles {
    /// From now on this watch is notified. Nothing that the files show changes.
    fn watch(&mut self, watch: Option<W>)
        ensures shows { Self.shows self.new ≡ Self.shows self.old };
}

impl<R: HostHandle, I: Inputs<HostReader<R>>, D: Disk, W: Watch> RunFiles
    for Watched<HostFiles<R, I, D>, Option<W>> {
    fn end(&mut self) -> bool {
        self.end_watch();
        self.inside().reader_is_gone()
    }

    fn last_error(&self) -> Option<i32> {
        self.inside().last_error()
    }
}

impl<R: HostHandle, I: Inputs<HostReader<R>>, D: Disk, W: Watch> TakesWatch<W>
    for Watched<HostFiles<R, I, D>, Option<W>> {
    fn watch(&mut self, watch: Option<W>)
        ensures shows { shown_host self.new ≡ shown_host self.old }
    {
        self.set_watch(watch);
    }
}
