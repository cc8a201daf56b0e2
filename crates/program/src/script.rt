ghost use Rattle.std.specs.Prelude.{◌≡◌, ◌≤◌, length, IsSome, ◌⊎◌, IsTrue, IfOk, IfErr, IsErrOf, OnErr, OnOk};
ghost use Rattle.collector.specs.Files.{reads_of, nothing_read, one_more, ReadsOnly, Reads};
ghost use Rattle.command_line.specs.Words.{bytes_of_text};
ghost use Rattle.program.specs.ScriptReads.{IsFileUnread, IsForMemory, IsGiven, IsNotGiven, IsTextOf, IsUnread, OpensAtMost, ReadsScript};

use crate::ending::Refusal;
use collector::{Files, IoFailed, NotOpened};
use command_line::{ScriptFrom, bytes_of_text};
use command_words::Word;
use machine::NoMemory;
use pipeline_text::TextFault;
use run_types::InName;
use std::alloc::{AllocError, Global};

// A text with this many bytes is no script, so no more are read.
const TOO_LONG: usize = 65537;

// The most bytes that one read is asked for.
const READ_MAX: usize = 4096;

// Why a file was not read.
#[derive(Clone, Copy, Debug, PartialEq, Eq)]
enum NotRead {
    // It cannot be opened, or a read failed.
    Refused,
    // Memory was refused.
    NoMemory,
}

impl From<NotOpened> for NotRead {
    ghost use Rattle.std.specs.Prelude.{◌≡◌};
    ghost use Rattle.collector.specs.declared.opening.NotOpened.TheVariants as not_opened;
    ghost use Rattle.program.specs.declared.script.NotRead.TheVariants as not_read;

    ghost from_gives = { λ error given. (error ≡ not_opened.Refused → given ≡ not_read.Refused)
        × (error ≡ not_opened.NoMemory → given ≡ not_read.NoMemory) };

    fn from(error: NotOpened) -> NotRead {
        match error {
            NotOpened::Refused => NotRead::Refused,
            NotOpened::NoMemory => NotRead::NoMemory,
        }
    }
}

impl From<IoFailed> for NotRead {
    ghost use Rattle.std.specs.Prelude.{◌≡◌};
    ghost use Rattle.program.specs.declared.script.NotRead.TheVariants as not_read;

    ghost from_gives = { λ _ given. given ≡ not_read.Refused };

    fn from(_error: IoFailed) -> NotRead {
        NotRead::Refused
    }
}

impl From<AllocError> for NotRead {
    ghost use Rattle.std.specs.Prelude.{◌≡◌};
    ghost use Rattle.program.specs.declared.script.NotRead.TheVariants as not_read;

    ghost from_gives = { λ _ given. given ≡ not_read.NoMemory };

    fn from(_error: AllocError) -> NotRead {
        NotRead::NoMemory
    }
}

// The text of a script: the bytes of the letters that are given, or what the file of this name holds (POSIX.1-2017 XCU sh).
pub(crate) fn text_from<'a, F: Files>(
    alloc: Global,
    script: ScriptFrom<'a>,
    files: &mut F,
) -> Result<Vec<u8>, Refusal<'a>>
    ensures given { IfOk result
        (λ text. IsGiven script.entry text.items (F.shows files.old) (F.shows files.new)) }
    ensures cause { IfErr result (IsNotGiven script.entry (F.shows files.old) (F.shows files.new)) }
{
    match script {
        ScriptFrom::Text(letters) => copied(alloc, letters),
        ScriptFrom::File(name) => read_file(alloc, name, files),
    }
}

// The bytes of these letters.
fn copied<'a>(alloc: Global, letters: &str) -> Result<Vec<u8>, Refusal<'a>>
    ensures given { IfOk result (λ text. text.items ≡ bytes_of_text letters.now) }
    ensures cause { IfErr result IsForMemory }
{
    match bytes_of_text(alloc, letters) {
        Ok(text) => Ok(text),
        Err(_) => Err(Refusal::Text(TextFault::from(NoMemory))),
    }
}

// What a file holds that is to be a script: up to its end, or up to the first byte too many.
fn read_file<'a, F: Files>(
    alloc: Global,
    name: &'a str,
    files: &mut F,
) -> Result<Vec<u8>, Refusal<'a>>
    ensures given { IfOk result
        (λ text. ReadsScript (bytes_of_text name.entry.now) text.items (F.shows files.old)
        (F.shows files.new)) }
    ensures only { OnErr result
        (OpensAtMost (bytes_of_text name.entry.now) (F.shows files.old) (F.shows files.new)) }
    ensures cause { IfErr result (IsFileUnread name.entry (F.shows files.old) (F.shows files.new)) }
{
    match read_named(alloc, name, files) {
        Ok(text) => Ok(text),
        Err(NotRead::Refused) => Err(Refusal::NotRead(name)),
        Err(NotRead::NoMemory) => Err(Refusal::Text(TextFault::from(NoMemory))),
    }
}

// The same, with the cause if it was not read.
fn read_named<F: Files>(alloc: Global, name: &str, files: &mut F) -> Result<Vec<u8>, NotRead>
    ensures given { IfOk result
        (λ text. ReadsScript (bytes_of_text name.now) text.items (F.shows files.old)
        (F.shows files.new)) }
    ensures only { OnErr result
        (OpensAtMost (bytes_of_text name.now) (F.shows files.old) (F.shows files.new)) }
    ensures unread { IsErrOf result NotRead.Refused
        → IsUnread (bytes_of_text name.now) (F.shows files.old) (F.shows files.new) }
{
    let word = Word::from_vec(bytes_of_text(alloc, name)?);
    let file = files.open_in(&InName::File(word))?;
    read_text(alloc, file, files)
}

// Reads a file from its first byte on.
fn read_text<F: Files>(alloc: Global, file: usize, files: &mut F) -> Result<Vec<u8>, NotRead>
    requires opened { IsSome ((F.shows files.old).inputs file) }
    requires new { reads_of (F.shows files.old) file ≡ nothing_read }
    ensures only { ReadsOnly file (F.shows files.old) (F.shows files.new) }
    ensures refused { IsErrOf result NotRead.Refused
        → (F.shows files.new).failures ≡ one_more (F.shows files.old).failures }
    ensures failures { OnOk result ((F.shows files.new).failures ≡ (F.shows files.old).failures) }
    ensures told { IfOk result (λ text. IsTextOf text.items (reads_of (F.shows files.new) file)) }
{
    let mut text = Vec::new(alloc);
    'reading: while text.len() < TOO_LONG {
        let most = (TOO_LONG - text.len()).min(READ_MAX);
        let bytes = next_bytes(alloc, file, most, files)?;
        if bytes.is_empty() {
            return Ok(text);
        }
        text.extend_from_slice(bytes.as_slice())?;
    }
    Ok(text)
}

// The next bytes of a file, at most `most`, and none at its end.
fn next_bytes<F: Files>(
    alloc: Global,
    file: usize,
    most: usize,
    files: &mut F,
) -> Result<Vec<u8>, NotRead>
    requires opened { IsSome ((F.shows files.old).inputs file) }
    ensures count { IfOk result (λ bytes. length bytes.items ≤ most) }
    ensures only { ReadsOnly file (F.shows files.old) (F.shows files.new) }
    ensures refused { IsErrOf result NotRead.Refused
        → (F.shows files.new).failures ≡ one_more (F.shows files.old).failures }
    ensures failures { OnOk result ((F.shows files.new).failures ≡ (F.shows files.old).failures) }
    ensures told { IfOk result
        (λ bytes. Reads most bytes.items (reads_of (F.shows files.old) file)
        (reads_of (F.shows files.new) file)) }
{
    let mut bytes = vec![in alloc; 0; most]?;
    let count = files.read(file, bytes.as_mut_slice())?;
    bytes.truncate(count);
    Ok(bytes)
}
