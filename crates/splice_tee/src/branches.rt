ghost use Rattle.std.specs.Prelude.{◌≡◌, ◌≢◌, ℕ, ◌<◌, ◌≤◌, length, map, replicate, count_by, slice_set, IfOk, IfSome, IsNone, true, false};
ghost use Rattle.splice_tee.specs.BranchStates.{is_open, served_at, IsLacking, NoOtherLacks, NoneLacks, lacking_again};
ghost use Rattle.splice_tee.specs.declared.branches.Served.TheVariants as is;

use machine::NoMemory;
use std::alloc::Global;
use std::marker::Model;

/// How far a branch is with the item that is being put.
#[derive(Clone, Copy, Debug, PartialEq, Eq)]
pub enum Served {
    /// It is open and lacks the item.
    Lacks,
    /// It is open and has the item.
    Has,
    /// Its reader has hung up.
    Gone,
}

impl Served {
    // The state of a branch for the next item.
    fn again(self) -> Served
        ensures { result ≡ lacking_again self }
    {
        match self {
            Served::Lacks => Served::Lacks,
            Served::Has => Served::Lacks,
            Served::Gone => Served::Gone,
        }
    }
}

/// Which branches have the front item, and which are closed.
#[derive(Drop)]
pub struct Branches {
    served: Vec<Served>,
}

impl Model for Branches {
    ghost use Rattle.std.specs.Prelude.{List};
    ghost use Rattle.splice_tee.specs.declared.branches.Served.{Served};

    ghost Value = { List Served };

    ghost view = { λ b. b.served.items };
}

impl Branches {
    /// New branches: all are open, and all lack the front item.
    pub fn new(alloc: Global, count: usize) -> Result<Branches, NoMemory>
        requires { count ≤ 33 }
        ensures { IfOk result (λ branches. branches ≡ replicate count is.Lacks) }
    {
        let served = vec![in alloc; Served::Lacks; count]?;
        Ok(Branches { served })
    }

    /// The first open branch at or after `from` that lacks the front item.
    pub fn lacks(&self, from: usize) -> Option<usize>
        ensures some { IfSome result (λ k. (from ≤ k) × IsLacking self.now k) }
        ensures first { IfSome result
            (λ k. (j : ℕ) → from ≤ j → j < k → served_at self.now j ≢ is.Lacks) }
        ensures none { IsNone result → (j : ℕ) → from ≤ j → served_at self.now j ≢ is.Lacks }
    {
        for k in from..self.served.len() {
            if self.served[k] == Served::Lacks {
                return Some(k);
            }
        }
        None
    }

    /// Whether no other branch lacks the front item.
    pub fn no_other_lacks(&self, k: usize) -> bool
        ensures none { result ≡ true → NoOtherLacks self.now k }
        ensures some { result ≡ false → (j : ℕ) × (j ≢ k) × IsLacking self.now j }
    {
        for other in 0..self.served.len() {
            if other != k && self.served[other] == Served::Lacks {
                return false;
            }
        }
        true
    }

    /// The branch has the front item now.
    pub fn given(&mut self, k: usize)
        requires { IsLacking self.old k }
        ensures { self.new ≡ slice_set self.old k is.Has }
    {
        self.served[k] = Served::Has;
    }

    /// The branch gets nothing more. A second call changes nothing.
    pub fn close(&mut self, k: usize)
        requires { k < length self.old }
        ensures { self.new ≡ slice_set self.old k is.Gone }
    {
        self.served[k] = Served::Gone;
    }

    /// How many branches are open.
    pub fn open_count(&self) -> usize
        ensures { result ≡ count_by is_open self.now }
    {
        self.served.iter().filter(|s| **s != Served::Gone).count()
    }

    /// The next item becomes the front item: every open branch lacks it.
    pub fn next_piece(&mut self)
        requires { NoneLacks self.old }
        ensures { self.new ≡ map lacking_again self.old }
    {
        for served in self.served.iter_mut() {
            *served = served.again();
        }
    }
}
