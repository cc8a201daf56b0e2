ghost use Rattle.std.specs.Prelude.{◌≡◌, ◌+◌, ◌-◌, ◌^◌, [], min, IfOk, Some, is_some, true};
ghost use Rattle.folders.specs.inner.Calls.{after_call};
ghost use Rattle.folders.specs.inner.Memory.{call_of, failures_of, shown_by, Does};
ghost use Rattle.folders.specs.declared.fault.CallFault.TheVariants.{NoMemory};
ghost use Rattle.folders.specs.declared.call.FolderCall.TheVariants.{Append, Rename};
ghost use Rattle.folders.specs.inner.MemoryMoments.{counts_moments};
ghost use Rattle.folders.specs.inner.MemoryReal.{LooksMayBeLeft};

use crate::access::Access;
use crate::call::{FolderCall, is_file};
use crate::content::Content;
use crate::fault::CallFault;
use crate::folder::Folder;
use crate::name::Name;
use std::alloc::{AllocError, Global};

/// A folder in memory. It notes its calls, and refuses the one that its fuse names.
#[derive(Drop)]
pub struct MemoryFolder {
    alloc: Global,
    calls: Vec<FolderCall>,
    refused: Vec<FolderCall>,
    no_memory: u64,
    // How many calls are made before one is refused.
    fuse: Option<usize>,
}

impl MemoryFolder {
    /// An empty folder, all of it stored.
    pub fn new(alloc: Global) -> MemoryFolder
        ensures calls { result.calls.items ≡ [] }
        ensures failures { failures_of result ≡ record { refused = []; no_memory = 0 } }
    {
        MemoryFolder {
            alloc,
            calls: Vec::new(alloc),
            refused: Vec::new(alloc),
            no_memory: 0,
            fuse: None,
        }
    }

    /// After this many calls one is refused.
    pub fn refuse_after(&mut self, calls: usize)
        ensures calls { self.new.calls ≡ self.old.calls }
        ensures failures { failures_of self.new ≡ failures_of self.old }
        ensures fuse { self.new.fuse ≡ Some calls }
    {
        self.fuse = Some(calls);
    }

    /// The calls that it has done.
    pub fn calls(&self) -> &[FolderCall]
        ensures { result.now ≡ self.now.calls.items }
    {
        self.calls.as_slice()
    }

    /// Whether this name means a file.
    pub fn is_file(&self, name: &Name) -> bool
        ensures { result ≡ is_some ((shown_by self.now).seen name.now) }
    {
        is_file(self.calls.as_slice(), name.bytes())
    }

    // Whether the next call is refused by the fuse, which then is gone.
    fn is_out(&mut self) -> bool
        ensures calls { self.new.calls ≡ self.old.calls }
        ensures refused { self.new.refused ≡ self.old.refused }
        ensures no_memory { self.new.no_memory ≡ self.old.no_memory }
    {
        match self.fuse {
            Some(left) => {
                self.fuse = left.checked_sub(1);
                left == 0
            }
            None => false,
        }
    }

    // Memory was refused.
    fn lack_memory(&mut self) -> CallFault
        ensures fault { result ≡ NoMemory }
        ensures calls { self.new.calls ≡ self.old.calls }
        ensures refused { self.new.refused ≡ self.old.refused }
        ensures no_memory { self.new.no_memory ≡ min (self.old.no_memory + 1) (2 ^ 64 - 1) }
    {
        self.no_memory = self.no_memory.saturating_add(1);
        CallFault::NoMemory
    }

    // Does a call, if it is possible and the fuse is not out.
    fn make(&mut self, call: FolderCall, is_possible: bool) -> Result<(), CallFault>
        ensures does { Does call is_possible result self.old self.new }
        ensures cause { failures_of self.new ≡ after_call (call_of call) result (failures_of self.old) }
    {
        if self.is_out() || !is_possible {
            match self.refused.push(call) {
                Ok(()) => Err(CallFault::Refused(None)),
                Err(_) => Err(self.lack_memory()),
            }
        } else {
            match self.calls.push(call) {
                Ok(()) => Ok(()),
                Err(_) => Err(self.lack_memory()),
            }
        }
    }
}

impl Folder for MemoryFolder {
    ghost names_known = { true };

    ghost shows = { λ m. shown_by m };

    ghost moments = { λ _ m. counts_moments m };

    fn create(&mut self, name: &Name, _access: Access) -> Result<(), CallFault> {
        let is_free = !self.is_file(name);
        match name.copied(self.alloc) {
            Ok(name) => self.make(FolderCall::Create(name), is_free),
            Err(_) => Err(self.lack_memory()),
        }
    }

    fn append(&mut self, name: &Name, bytes: &[u8]) -> Result<(), CallFault> {
        let is_there = self.is_file(name);
        match append_call(self.alloc, name, bytes) {
            Ok(call) => self.make(call, is_there),
            Err(_) => Err(self.lack_memory()),
        }
    }

    fn store(&mut self, name: &Name) -> Result<(), CallFault> {
        let is_there = self.is_file(name);
        match name.copied(self.alloc) {
            Ok(name) => self.make(FolderCall::Store(name), is_there),
            Err(_) => Err(self.lack_memory()),
        }
    }

    fn rename(&mut self, from: &Name, to: &Name) -> Result<(), CallFault> {
        let is_there = self.is_file(from);
        match rename_call(self.alloc, from, to) {
            Ok(call) => self.make(call, is_there),
            Err(_) => Err(self.lack_memory()),
        }
    }

    fn remove(&mut self, name: &Name) -> Result<(), CallFault> {
        match name.copied(self.alloc) {
            Ok(name) => self.make(FolderCall::Remove(name), true),
            Err(_) => Err(self.lack_memory()),
        }
    }

    fn store_names(&mut self) -> Result<(), CallFault> {
        self.make(FolderCall::StoreNames, true)
    }
}

/// A power loss may leave what is seen of a folder in memory. So what is said of all that it may leave is not said of nothing.
pub fn looks_may_be_left()
    ensures { LooksMayBeLeft }
{}

fn append_call(alloc: Global, name: &Name, bytes: &[u8]) -> Result<FolderCall, AllocError>
    ensures { IfOk result (λ call. call ≡ Append name.now bytes.now) }
{
    let content = Content::from_slice(alloc, bytes)?;
    Ok(FolderCall::Append(name.copied(alloc)?, content))
}

fn rename_call(alloc: Global, from: &Name, to: &Name) -> Result<FolderCall, AllocError>
    ensures { IfOk result (λ call. call ≡ Rename from.now to.now) }
{
    let from = from.copied(alloc)?;
    Ok(FolderCall::Rename(from, to.copied(alloc)?))
}
