// What a stage owes to its branches, as a look at the stage tells.
ghost use Rattle.std.specs.Prelude.{◌≡◌, ◌<◌, ◌&&◌, ◌↔◌, not, length, slice_get, Some, is_some, IsTrue, true, if◌then◌else◌};
ghost use Rattle.std.specs.List.{list_any};
ghost use Rattle.bounded_pipe.specs.Ends.{Writing};
ghost use Rattle.bounded_pipe.specs.Pipes.{is_closed};
ghost use Rattle.splice_tee.specs.BranchStates.{is_open, is_lacking, served_at};
ghost use Rattle.splice_tee.specs.declared.branches.Served.TheVariants as is;
ghost use Rattle.stages.specs.Stages.{StagePart, front_size, has_end};
ghost use Rattle.stages.specs.Owed.{branch_owed, first_size, is_finished, owed_size};
ghost use Rattle.stages.specs.inner.Steps.{InCase, part};
ghost use Rattle.machine.specs.Whole.{StreamAnswer};
ghost use Rattle.machine.specs.declared.protocol.Want.TheVariants.{Finished};
ghost use Rattle.run_types.specs.declared.node_state.NodeState.TheVariants as state;

use crate::outlet::{Outlet, has_close};
use crate::stage::Stage;
use bounded_pipe::Amounts;
use machine::{Item, Machine, Want};

// The number of bytes of an item.
fn size_of(item: &Item) -> u64
    ensures { result ≡ front_size (Some item.now) }
{
    match item {
        Item::Bytes(piece) => piece.len() as u64,
        Item::Close => 0,
    }
}

impl Outlet {
    // Whether some branch lacks the front item.
    fn is_front_owed(&self) -> bool
        ensures { result ≡ (is_some self.now.front && list_any is_lacking self.now.served) }
    {
        self.front.is_some() && self.served.lacks(0).is_some()
    }

    // The number of bytes of the item that is owed.
    pub(crate) fn owed_size(&self) -> u64
        ensures { result
            ≡ (if is_some self.now.front && list_any is_lacking self.now.served
            then front_size self.now.front else first_size self.now.owed) }
    {
        if self.is_front_owed() {
            return front_size(&self.front);
        }
        match self.owed.front() {
            Some(piece) => piece.len() as u64,
            None => 0,
        }
    }

    // Whether the branch k lacks the front item.
    fn lacks(&self, k: usize) -> bool
        requires { k < length self.now.served }
        ensures { result ≡ is_lacking (served_at self.now.served k) }
    {
        match self.served.lacks(k) {
            Some(first) => first == k,
            None => false,
        }
    }

    // Whether an item is owed to the branch k. `finished` says whether the machine has finished.
    pub(crate) fn owes(&self, k: usize, finished: bool) -> bool
        requires { k < length self.now.served }
        ensures { (x : StagePart) (w : Writing)
            → x.front ≡ self.now.front → x.served ≡ self.now.served → x.owed ≡ self.now.owed
            → is_finished x.machine.wanted ≡ finished
            → slice_get self.now.ends k ≡ Some w
            → w.noted ≡ not (is_open (served_at self.now.served k))
            → is_closed w ≡ has_end self.now.front (served_at self.now.served k)
            → result ≡ branch_owed x w (served_at self.now.served k) }
    {
        let lacks = self.lacks(k);
        if self.is_front_owed() {
            return lacks;
        }
        !self.ends[k].has_noted()
            && (!self.owed.is_empty() || finished && (lacks || !has_close(&self.front)))
    }
}

impl<M: Machine> Stage<M> {
    /// How many branches it has.
    pub fn branch_count(&self) -> usize
        ensures pipes { result ≡ length self.now.outlet.pipes }
        ensures ends { result ≡ length self.now.outlet.ends }
        ensures served { result ≡ length self.now.outlet.served }
    {
        self.outlet.ends.len()
    }

    /// The number of the pipe of one branch.
    pub fn branch_pipe(&self, k: usize) -> usize
        requires { k < length self.now.outlet.served }
        ensures { slice_get self.now.outlet.pipes k ≡ Some result }
    {
        self.outlet.pipe(k)
    }

    /// How much it has put on the pipe of one branch: nothing if there is no such branch.
    pub fn amounts(&self, branch: usize) -> Amounts {
        match self.outlet.ends.get(branch) {
            Some(end) => end.amounts(),
            None => Amounts::NONE,
        }
    }

    /// The number of bytes of the item that it owes.
    pub fn owed_size(&self) -> u64
        ensures { result ≡ owed_size (part M.shows self.now) }
    {
        self.outlet.owed_size()
    }

    /// Whether it owes an item to the branch k, if it runs.
    pub fn owes(&self, k: usize) -> bool
        requires { k < length self.now.outlet.served }
        ensures { (answer : StreamAnswer) (w : Writing) → InCase M.shows answer self.now
            → self.now.state ≡ state.Running → slice_get self.now.outlet.ends k ≡ Some w
            → result ≡ branch_owed (part M.shows self.now) w (served_at self.now.outlet.served k) }
    {
        self.outlet.owes(k, self.has_finished())
    }

    /// Whether it may wait for a full pipe: unless its machine has finished and it has yet to hang up its inputs.
    pub fn may_wait(&self) -> bool
        ensures { IsTrue result
            ↔ ((M.shows self.now.machine).wanted ≡ Finished → self.now.inlet.hung_up ≡ true) }
    {
        !self.has_finished() || self.inlet.is_hung_up()
    }

    // Whether its machine has finished.
    fn has_finished(&self) -> bool
        ensures { result ≡ is_finished (M.shows self.now.machine).wanted }
    {
        matches!(self.machine.want(), Want::Finished)
    }
}

// The number of bytes of the front item, if there is one.
fn front_size(front: &Option<Item>) -> u64
    ensures { result ≡ front_size front.now }
{
    match front {
        Some(item) => size_of(item),
        None => 0,
    }
}
