use folders::Name;
use std::str;

/// The folder of a path, and its last part (POSIX.1-2017 XBD 4.13).
pub fn folder_and_name(path: &str) -> (&str, &str) {
    match path.rsplit_once('/') {
        Some(("", name)) => ("/", name),
        Some((folder, name)) => (folder, name),
        None => (".", path),
    }
}

// A name as the text by which files are opened. The standard library opens no other names.
pub(crate) fn text_of(name: &Name) -> &str {
    str::from_utf8(name.bytes()).unwrap_or("")
}
