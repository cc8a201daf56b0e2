// The actions that only files in memory have: `fail-read CALL`, `fail-write CALL`, `limit-reads MOST`, `limit-writes MOST`, and
// the look `content NAME`.
ghost use Rattle.std.specs.Prelude.{◌≡◌};

use super::*;
use file_stores::MemoryFiles;

// Does what a line says. What is open stays so.
pub(super) fn set(
    files: &mut MemoryFiles,
    alloc: Global,
    action: &str,
    with: &str,
) -> Result<Vec<u8>, Fail>
    ensures inputs { files.new.inputs ≡ files.old.inputs }
    ensures outputs { files.new.outputs ≡ files.old.outputs }
{
    match action {
        "content" => content(files, alloc, with),
        "fail-read" => fail(files, alloc, true, with),
        "fail-write" => fail(files, alloc, false, with),
        "limit-reads" => limit(files, alloc, true, with),
        "limit-writes" => limit(files, alloc, false, with),
        _ => unknown(),
    }
}

// Makes a read or a write fail, the one of this number.
fn fail(files: &mut MemoryFiles, alloc: Global, read: bool, with: &str) -> Result<Vec<u8>, Fail>
    ensures inputs { files.new.inputs ≡ files.old.inputs }
    ensures outputs { files.new.outputs ≡ files.old.outputs }
{
    let call = with.parse()?;
    if read {
        files.fail_read(call);
    } else {
        files.fail_write(call);
    }
    Ok(Vec::new(alloc))
}

// Lets a read or a write move at most this many bytes from now on.
fn limit(files: &mut MemoryFiles, alloc: Global, read: bool, with: &str) -> Result<Vec<u8>, Fail>
    ensures inputs { files.new.inputs ≡ files.old.inputs }
    ensures outputs { files.new.outputs ≡ files.old.outputs }
{
    let most: usize = with.parse()?;
    if read {
        files.limit_reads(most.max(1));
    } else {
        files.limit_writes(most.max(1));
    }
    Ok(Vec::new(alloc))
}

fn content(files: &MemoryFiles, alloc: Global, name: &str) -> Result<Vec<u8>, Fail> {
    let name = decoded(alloc, name)?;
    bytes_of(alloc, files.content(name.as_slice()).unwrap_or(b"?"))
}
