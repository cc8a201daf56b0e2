// Files that paths mean.
use crate::facts::Facts;
use crate::not_held::{NotHeld, NotMade};
use crate::paths::folder_and_name;
use std::fs::File;
use std::io::ErrorKind;
use std::rt;

/// Whether this path means this file, and is no link.
pub fn is_at<R: rt::Files<File = File>>(rt: &R, path: &str, file: &File) -> bool {
    match Facts::of(file) {
        Some(facts) => Facts::of_link(rt, path) == Some(facts),
        None => false,
    }
}

/// The folder of this place, to store it once the run has finished. It is refused if it cannot be read.
pub fn folder_to_store<R: rt::Files<File = File>>(rt: &R, place: &str) -> Result<File, NotMade> {
    match File::open(rt, folder_and_name(place).0) {
        Ok(folder) => Ok(folder),
        Err(error) if error.kind() == ErrorKind::PermissionDenied => {
            Err(NotMade::NotHeld(NotHeld::UnreadFolder))
        }
        Err(_) => Err(NotMade::Refused),
    }
}
