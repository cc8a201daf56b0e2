ghost use Rattle.std.specs.Prelude.{◌≡◌, IsTrue};
ghost use Rattle.folders.specs.inner.Folder.{IsElsewhere, Looks, Loses, Touches};
ghost use Rattle.held_outputs.specs.inner.Disk.{TouchesNothing};

use crate::not_held::NotMade;
use folders::{Folder, Name};
use std::alloc::AllocError;
use std::fs::File;

/// A folder whose new files are open files of the system. They are locked, looked at and written by handles.
///
/// A write by a handle is seen only of the file that it is made to. So it is counted as a part of the next call of `end_writes` for that file.
pub trait Disk: Folder + Drop {
    /// The open file that was created under this name, or taken over, and was neither removed nor let go. It may have another name by now.
    fn file(&self, name: &Name) -> Option<&File>;

    /// Takes over an open file that has this name. No name is touched.
    fn take_over(&mut self, name: &Name, file: File) -> Result<(), AllocError>
        ensures { IsTrue Self.names_known
            → TouchesNothing (Self.shows self.old) (Self.shows self.new) };

    /// Lets the open file of this name go. No name is touched.
    fn let_go(&mut self, name: &Name)
        ensures { IsTrue Self.names_known
            → TouchesNothing (Self.shows self.old) (Self.shows self.new) };

    /// Ends the writes to a new file: what its handles wrote shows from now on.
    fn end_writes(&mut self, name: &Name)
        ensures touches { IsTrue Self.names_known
            → Touches name.now (Self.shows self.old) (Self.shows self.new) }
        ensures looks { IsTrue Self.names_known
            → Looks (IsElsewhere name.now (Self.shows self.old).seen) (Self.shows self.old)
            (Self.shows self.new) }
        ensures loses { IsTrue Self.names_known
            → Loses (Self.shows self.old) (Self.shows self.new) }
        ensures cause { IsTrue Self.names_known
            → (Self.shows self.new).failures ≡ (Self.shows self.old).failures };

    /// Opens the folder of this place, so that `store_names` stores it. It is refused if it cannot be read. No name is touched.
    fn keep_folder(&mut self, place: &Name) -> Result<(), NotMade>
        ensures { IsTrue Self.names_known
            → TouchesNothing (Self.shows self.old) (Self.shows self.new) };
}
