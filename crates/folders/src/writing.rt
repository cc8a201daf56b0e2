ghost use Rattle.std.specs.Prelude.{◌≢◌, IsSome, IsTrue, OnOk};
ghost use Rattle.folders.specs.inner.Causes.{HasWriteCause};
ghost use Rattle.folders.specs.inner.Folder.{Keeps, LeavesAlone, Writes};

use crate::access::Access;
use crate::fault::WriteFault;
use crate::folder::Folder;
use crate::name::Name;

/// Makes a new file of these bytes, under a name that is free. A name that is not free is refused, and nothing changes. No other
/// name is touched.
pub fn write_new<F: Folder>(folder: &mut F, name: &Name, bytes: &[u8]) -> Result<(), WriteFault>
    ensures written { IsTrue F.names_known
        → OnOk result (Writes name.now bytes.now (F.shows folder.old) (F.shows folder.new)) }
    ensures taken { IsTrue F.names_known
        → IsSome ((F.shows folder.old).seen name.now)
        → Keeps (F.shows folder.old) (F.shows folder.new) }
    ensures others { IsTrue F.names_known
        → LeavesAlone (λ n. n ≢ name.now) (F.shows folder.old) (F.shows folder.new) }
    ensures cause { IsTrue F.names_known
        → HasWriteCause name.now result (F.shows folder.old).failures
        (F.shows folder.new).failures }
{
    if let Err(why) = folder.create(name, Access::Private) {
        return Err(WriteFault::NotMade(why));
    }
    if let Err(why) = folder.append(name, bytes) {
        return Err(WriteFault::NotWritten(why));
    }
    Ok(())
}
