// The file that a path means, after symbolic links are followed.
use crate::descriptors::descriptor_at;
use held_outputs::folder_and_name;
use std::alloc::{AllocError, Global};
use std::{fs, rt};

// How many links a path may have in a row, as Linux has it (path_resolution).
const LINKS: usize = 40;

// What a path means after the links at its end.
#[derive(Drop)]
pub(crate) enum Meant {
    // The file at this path, which is no link. It may not be there.
    File(String),
    // An open descriptor of this process.
    Descriptor,
    // Nothing: there are too many links, or one cannot be read.
    Nothing,
}

// Follows the symbolic links at the end of a path (POSIX.1-2017 XBD 4.13).
pub(crate) fn meant_by<R: rt::Files>(
    rt: &R,
    alloc: Global,
    path: &str,
) -> Result<Meant, AllocError> {
    Ok(match end_of_links(rt, alloc, path)? {
        Some(end) => match descriptor_at(rt, alloc, end.as_str())? {
            Some(_) => Meant::Descriptor,
            None => Meant::File(end),
        },
        None => Meant::Nothing,
    })
}

// The number of the open descriptor of this process to which a path leads, if it leads to one.
pub(crate) fn descriptor_meant<R: rt::Files>(
    rt: &R,
    alloc: Global,
    path: &str,
) -> Result<Option<usize>, AllocError> {
    match end_of_links(rt, alloc, path)? {
        Some(end) => descriptor_at(rt, alloc, end.as_str()),
        None => Ok(None),
    }
}

// The path at which the links at the end of a path come to an end: at a file, or at an open descriptor of this process. None if the path is
// empty, if there are too many links, or if one cannot be read.
fn end_of_links<R: rt::Files>(
    rt: &R,
    alloc: Global,
    path: &str,
) -> Result<Option<String>, AllocError> {
    let mut at = String::from_str(alloc, path)?;
    for _ in 0..=LINKS {
        if at.as_str().is_empty() {
            return Ok(None);
        }
        if !is_link(rt, at.as_str()) || descriptor_at(rt, alloc, at.as_str())?.is_some() {
            return Ok(Some(at));
        }
        match rt.read_link(alloc, at.as_str()) {
            Ok(link) => at = from_folder(alloc, at.as_str(), link.into_string().as_str())?,
            Err(_) => return Ok(None),
        }
    }
    Ok(None)
}

// Whether there is a symbolic link at this path.
pub(crate) fn is_link<R: rt::Files>(rt: &R, path: &str) -> bool {
    match fs::symlink_metadata(rt, path) {
        Ok(found) => found.is_symlink(),
        Err(_) => false,
    }
}

// The path that a link at this path means, whose text this is.
fn from_folder(alloc: Global, path: &str, text: &str) -> Result<String, AllocError> {
    if text.starts_with('/') {
        return String::from_str(alloc, text);
    }
    let (folder, _) = folder_and_name(path);
    joined(alloc, &[folder, "/", text])
}

// These texts in a row.
pub(crate) fn joined(alloc: Global, parts: &[&str]) -> Result<String, AllocError> {
    let mut whole = String::new(alloc);
    for part in parts {
        whole.push_str(part)?;
    }
    Ok(whole)
}
