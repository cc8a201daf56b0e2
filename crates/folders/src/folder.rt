ghost use Rattle.std.specs.Prelude.{◌≡◌, ◌≢◌, ◌⊎◌, Bool, None, IsSome, IsTrue, OnOk, OnErr};
ghost use Rattle.folders.specs.inner.Calls.{after_call, Creates, Appends, Stores, MovesFile, Removes, StoresNames};
ghost use Rattle.folders.specs.inner.Folder.{FolderShown, CountsMoments, Touches, Keeps, Makes, Grows, IsStored, NamesAreStored, Renames, MayRename, Shows, IsElsewhere, Looks, Loses};

use crate::access::Access;
use crate::fault::CallFault;
use crate::name::Name;

/// A folder: what a look at its names finds, what a kill leaves of them, and what a power loss may leave.
///
/// A kill leaves what is seen, since the system goes on. A power loss takes what no sync has stored. Nothing is said of the order in
/// which it takes changes of several names.
pub trait Folder {
    /// Whether contracts know what its names mean.
    ghost names_known: { Bool };

    /// What it shows of itself.
    ghost shows: { Self → FolderShown };

    /// Its moments are counted.
    ghost moments: { IsTrue names_known → (folder : Self) → CountsMoments (shows folder) };

    /// Makes an empty file of a name that is free. A name that is not free is refused, and nothing changes (XSH open: O_CREAT with
    /// O_EXCL). At Err nothing is known of the name, if it was free.
    fn create(&mut self, name: &Name, access: Access) -> Result<(), CallFault>
        ensures makes { IsTrue names_known
            → OnOk result (Makes name.now (shows self.old) (shows self.new)) }
        ensures taken { IsTrue names_known
            → IsSome ((shows self.old).seen name.now) → Keeps (shows self.old) (shows self.new) }
        ensures touches { IsTrue names_known → Touches name.now (shows self.old) (shows self.new) }
        ensures looks { IsTrue names_known
            → Looks (IsElsewhere name.now (shows self.old).seen) (shows self.old) (shows self.new) }
        ensures loses { IsTrue names_known → Loses (shows self.old) (shows self.new) }
        ensures cause { IsTrue names_known
            → (shows self.new).failures
            ≡ after_call (Creates name.now) result (shows self.old).failures };

    /// Puts bytes at the end of a file. Until its sync, a power loss may leave any bytes of it (XSH write; fsync(2)). So may a call that
    /// fails: it may have written some of them.
    fn append(&mut self, name: &Name, bytes: &[u8]) -> Result<(), CallFault>
        ensures grows { IsTrue names_known
            → OnOk result (Grows name.now bytes.now (shows self.old) (shows self.new)) }
        ensures touches { IsTrue names_known → Touches name.now (shows self.old) (shows self.new) }
        ensures looks { IsTrue names_known
            → Looks (IsElsewhere name.now (shows self.old).seen) (shows self.old) (shows self.new) }
        ensures loses { IsTrue names_known → Loses (shows self.old) (shows self.new) }
        ensures cause { IsTrue names_known
            → (shows self.new).failures
            ≡ after_call (Appends name.now) result (shows self.old).failures };

    /// Stores the bytes of a file (XSH fsync). Its name may be lost all the same (fsync(2)). At Err nothing is known of the file: its
    /// bytes in memory may have been dropped, and a second sync would tell nothing.
    fn store(&mut self, name: &Name) -> Result<(), CallFault>
        ensures stored { IsTrue names_known → OnOk result (IsStored name.now (shows self.new)) }
        ensures keeps { IsTrue names_known → OnOk result (Keeps (shows self.old) (shows self.new)) }
        ensures touches { IsTrue names_known → Touches name.now (shows self.old) (shows self.new) }
        ensures looks { IsTrue names_known
            → Looks (IsElsewhere name.now (shows self.old).seen) (shows self.old) (shows self.new) }
        ensures loses { IsTrue names_known → Loses (shows self.old) (shows self.new) }
        ensures cause { IsTrue names_known
            → (shows self.new).failures
            ≡ after_call (Stores name.now) result (shows self.old).failures };

    /// Gives a file another name. At each moment a look finds the old file of that name or the new one (XSH rename). The old name may be
    /// there as well for a while (rename(2)). At Err it may have been done all the same, as over NFS (rename(2), BUGS).
    fn rename(&mut self, from: &Name, to: &Name) -> Result<(), CallFault>
        requires { from.now ≢ to.now }
        ensures renames { IsTrue names_known
            → OnOk result (Renames from.now to.now (shows self.old) (shows self.new)) }
        ensures either { IsTrue names_known
            → OnErr result (Shows (shows self.old).seen (shows self.new).seen
            ⊎ Renames from.now to.now (shows self.old) (shows self.new)) }
        ensures may { IsTrue names_known
            → MayRename from.now to.now (shows self.old) (shows self.new) }
        ensures looks { IsTrue names_known
            → Looks (IsElsewhere from.now (shows self.new).seen) (shows self.old) (shows self.new) }
        ensures loses { IsTrue names_known → Loses (shows self.old) (shows self.new) }
        ensures cause { IsTrue names_known
            → (shows self.new).failures
            ≡ after_call (MovesFile from.now to.now) result (shows self.old).failures };

    /// Takes a name away (XSH unlink). A name that is free counts as taken away. At Err nothing is known of it.
    fn remove(&mut self, name: &Name) -> Result<(), CallFault>
        ensures gone { IsTrue names_known → OnOk result ((shows self.new).seen name.now ≡ None) }
        ensures touches { IsTrue names_known → Touches name.now (shows self.old) (shows self.new) }
        ensures looks { IsTrue names_known
            → Looks (IsElsewhere name.now (shows self.old).seen) (shows self.old) (shows self.new) }
        ensures loses { IsTrue names_known → Loses (shows self.old) (shows self.new) }
        ensures cause { IsTrue names_known
            → (shows self.new).failures
            ≡ after_call (Removes name.now) result (shows self.old).failures };

    /// Stores the names (fsync(2) of the folder): after a power loss each means what it means now. At Err they look the same, and any
    /// that was not stored may be lost.
    fn store_names(&mut self) -> Result<(), CallFault>
        ensures stored { IsTrue names_known → OnOk result (NamesAreStored (shows self.new)) }
        ensures keeps { IsTrue names_known → Keeps (shows self.old) (shows self.new) }
        ensures looks { IsTrue names_known
            → Looks (Shows (shows self.old).seen) (shows self.old) (shows self.new) }
        ensures loses { IsTrue names_known → Loses (shows self.old) (shows self.new) }
        ensures cause { IsTrue names_known
            → (shows self.new).failures ≡ after_call StoresNames result (shows self.old).failures };
}
