ghost use Rattle.std.specs.Prelude.{◌≡◌, is_some};
ghost use Rattle.folders.specs.inner.Memory.{viewed, no_file};

use crate::content::Content;
use crate::name::Name;

/// A call that a folder in memory was given.
#[derive(Drop)]
pub enum FolderCall {
    /// `Folder::create`
    Create(Name),
    /// `Folder::append`
    Append(Name, Content),
    /// `Folder::store`
    Store(Name),
    /// `Folder::rename`, from the first name to the second one
    Rename(Name, Name),
    /// `Folder::remove`
    Remove(Name),
    /// `Folder::store_names`
    StoreNames,
}

/// Whether this name means a file after these calls, in a folder that was empty.
pub fn is_file(calls: &[FolderCall], name: &[u8]) -> bool
    ensures { result ≡ is_some (viewed calls.now no_file name.now) }
{
    let [before @ .., last] = calls else {
        return false;
    };
    match last {
        FolderCall::Create(made) => made.is(name) || is_file(before, name),
        FolderCall::Remove(gone) => !gone.is(name) && is_file(before, name),
        FolderCall::Rename(from, to) => {
            if to.is(name) {
                is_file(before, from.bytes())
            } else {
                !from.is(name) && is_file(before, name)
            }
        }
        _ => is_file(before, name),
    }
}
