// The pipe ends of a stage.
ghost use Rattle.std.specs.Prelude.{◌≡◌, ◌<◌, length, slice_get, Some};

use crate::stage::Stage;
use bounded_pipe::{PipeIn, PipeOut};
use machine::Machine;

impl<M: Machine> Stage<M> {
    ghost use Rattle.std.specs.Borrow.{sem};
    ghost use Rattle.stages.specs.inner.LentEnds.{LendsOut, LendsIn};

    /// The pipe end of one branch.
    pub fn branch_end(&self, k: usize) -> &PipeOut
        requires { k < length self.now.outlet.ends }
        ensures { slice_get self.now.outlet.ends k ≡ Some result.now }
    {
        &self.outlet.ends[k]
    }

    /// The pipe end of one input.
    pub fn input_end(&self, k: usize) -> &PipeIn
        requires { k < length self.now.inlet.ends }
        ensures { slice_get self.now.inlet.ends k ≡ Some result.now }
    {
        &self.inlet.ends[k]
    }

    /// Lends the pipe end of one branch, for writing.
    pub fn pipe_out(&mut self, branch: usize) -> &mut PipeOut
        requires { branch < length self.old.outlet.ends }
        ensures* lends { sem 𝓛 (LendsOut M.row M.Machine self.entry branch result) }
        ensures value { slice_get self.old.outlet.ends branch ≡ Some result.now }
    {
        let outlet = &mut self.outlet;
        &mut outlet.ends[branch]
    }

    /// Lends the pipe end of one input, for writing.
    pub fn pipe_in(&mut self, input: usize) -> &mut PipeIn
        requires { input < length self.old.inlet.ends }
        ensures* lends { sem 𝓛 (LendsIn M.row M.Machine self.entry input result) }
        ensures value { slice_get self.old.inlet.ends input ≡ Some result.now }
    {
        // by a call, whose contract says that the inlet keeps as many ends as the machine has inputs
        self.inlet.end(input)
    }
}
