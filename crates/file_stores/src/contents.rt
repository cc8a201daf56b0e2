ghost use Rattle.std.specs.Prelude.{◌≡◌, [], ◌++◌, IfSome, IfOk, IsNone, OnOk, OnErr, None, bytes_eq, if◌then◌else◌};
ghost use Rattle.std.specs.Option.{option_copied};
ghost use Rattle.file_stores.specs.inner.Memory.{Stored, content_of, held_with, Holds};
ghost use Rattle.file_stores.specs.inner.Places.{IsPlaceOf};

use machine::NoMemory;
use std::alloc::Global;
use std::marker::Model;

// A file in memory.
#[derive(Drop)]
struct StoredFile {
    name: Vec<u8>,
    bytes: Vec<u8>,
}

impl Model for StoredFile {
    ghost use Rattle.file_stores.specs.inner.Memory.{Stored};

    ghost Value = { Stored };

    ghost view = { λ f. record { name = f.name.items; bytes = f.bytes.items } };
}

impl StoredFile {
    fn new(alloc: Global, name: &[u8], bytes: &[u8]) -> Result<StoredFile, NoMemory>
        ensures { IfOk result (λ file. file ≡ record { name = name.now; bytes = bytes.now }) }
    {
        Ok(StoredFile {
            name: Vec::from_slice(alloc, name)?,
            bytes: Vec::from_slice(alloc, bytes)?,
        })
    }

    // An equal file.
    fn copied(&self, alloc: Global) -> Result<StoredFile, NoMemory>
        ensures { IfOk result (λ file. file ≡ self.now) }
    {
        StoredFile::new(alloc, self.name.as_slice(), self.bytes.as_slice())
    }

    fn is_named(&self, name: &[u8]) -> bool
        ensures { result ≡ bytes_eq self.now.name name.now }
    {
        self.name.as_slice() == name
    }

    // Puts the bytes after what it holds.
    fn grow(&mut self, bytes: &[u8]) -> Result<(), NoMemory>
        ensures ok { OnOk result
            (self.new ≡ record self.old { bytes = self.old.bytes ++ bytes.now }) }
        ensures err { OnErr result (self.new ≡ self.old) }
    {
        self.bytes.extend_from_slice(bytes)?;
        Ok(())
    }

    // Puts the bytes in the place of what it holds.
    fn replace(&mut self, alloc: Global, bytes: &[u8]) -> Result<(), NoMemory>
        ensures ok { OnOk result (self.new ≡ record self.old { bytes = bytes.now }) }
        ensures err { OnErr result (self.new ≡ self.old) }
    {
        self.bytes = Vec::from_slice(alloc, bytes)?;
        Ok(())
    }
}

// The files in memory, each with a name of its own.
#[derive(Drop)]
pub(crate) struct Contents {
    alloc: Global,
    files: Vec<StoredFile>,
}

impl Model for Contents {
    ghost use Rattle.std.specs.Prelude.{List};
    ghost use Rattle.file_stores.specs.inner.Memory.{Stored};

    ghost Value = { List Stored };

    ghost view = { λ c. c.files.items };
}

impl Contents {
    pub(crate) fn new(alloc: Global) -> Contents
        ensures { result ≡ [] }
    {
        Contents {
            alloc,
            files: Vec::new(alloc),
        }
    }

    // Equal files.
    pub(crate) fn copied(&self) -> Result<Contents, NoMemory>
        ensures { IfOk result (λ copy. copy ≡ self.now) }
    {
        Ok(Contents {
            alloc: self.alloc,
            files: copies(self.alloc, self.files.as_slice())?,
        })
    }

    // What the file of this name holds, if there is one.
    pub(crate) fn get(&self, name: &[u8]) -> Option<&[u8]>
        ensures { option_copied result ≡ content_of self.now name.now }
    {
        let file = &self.files[place_of(self.files.as_slice(), name)?];
        Some(file.bytes.as_slice())
    }

    // Puts the bytes after what the file of this name holds, or in its place.
    pub(crate) fn put(&mut self, name: &[u8], keep: bool, bytes: &[u8]) -> Result<(), NoMemory>
        ensures ok { OnOk result
            (Holds name.now
            (held_with (content_of self.old name.now) keep bytes.now) self.old self.new) }
        ensures err { OnErr result (self.new ≡ self.old) }
    {
        match place_of(self.files.as_slice(), name) {
            Some(place) => change(&mut self.files[place], self.alloc, keep, bytes),
            None => {
                let file = StoredFile::new(self.alloc, name, bytes)?;
                self.files.push(file)?;
                Ok(())
            }
        }
    }
}

// Equal files, in the same order.
fn copies(alloc: Global, files: &[StoredFile]) -> Result<Vec<StoredFile>, NoMemory>
    ensures { IfOk result (λ copies. copies.items ≡ files.now) }
{
    let mut copies = Vec::new(alloc);
    for file in files {
        copies.push(file.copied(alloc)?)?;
    }
    Ok(copies)
}

// The place of the file of this name.
fn place_of(files: &[StoredFile], name: &[u8]) -> Option<usize>
    ensures some { IfSome result (IsPlaceOf name.now files.now) }
    ensures none { IsNone result → content_of files.now name.now ≡ None }
{
    for (place, file) in files.iter().enumerate() {
        if file.is_named(name) {
            return Some(place);
        }
    }
    None
}

// Puts the bytes after what the file holds, or in its place.
fn change(file: &mut StoredFile, alloc: Global, keep: bool, bytes: &[u8]) -> Result<(), NoMemory>
    ensures ok { OnOk result
        (file.new
        ≡ record file.old { bytes = (if keep then file.old.bytes else []) ++ bytes.now }) }
    ensures err { OnErr result (file.new ≡ file.old) }
{
    if keep {
        file.grow(bytes)
    } else {
        file.replace(alloc, bytes)
    }
}
