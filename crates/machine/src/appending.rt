ghost use Rattle.std.specs.Prelude.{◌≡◌, [], ◌∷◌, ◌++◌, OnOk, IfOk};

use crate::memory::NoMemory;
use std::alloc::Global;

// The most memory that is kept if there are no bytes in it.
const KEPT: usize = 65536;

/// No bytes, with room for `count` of them.
pub fn room_for(alloc: Global, count: usize) -> Result<Vec<u8>, NoMemory>
    ensures { IfOk result (λ bytes. bytes.items ≡ []) }
{
    Ok(Vec::with_capacity(alloc, count)?)
}

/// Appends bytes.
pub fn append(to: &mut Vec<u8>, bytes: &[u8]) -> Result<(), NoMemory>
    ensures { OnOk result (to.new.items ≡ to.old.items ++ bytes.now) }
{
    to.extend_from_slice(bytes)?;
    Ok(())
}

/// Appends a byte.
pub fn append_byte(to: &mut Vec<u8>, byte: u8) -> Result<(), NoMemory>
    ensures { OnOk result (to.new.items ≡ to.old.items ++ byte ∷ []) }
{
    to.push(byte)?;
    Ok(())
}

/// Takes out all bytes, and frees their memory if it is much.
pub fn clear_and_shrink(bytes: &mut Vec<u8>)
    ensures { bytes.new.items ≡ [] }
{
    bytes.clear();
    bytes.shrink_to(KEPT);
}
