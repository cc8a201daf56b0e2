// The actions that only files in memory have: `add NAME BYTES`, `input BYTES`, `forbid NAME`, `limit-reads MOST`,
// `limit-writes MOST`, `fail-read CALL`, `fail-write CALL`, and the looks `content NAME`, `output`, `reads` and `failures`.
ghost use Rattle.std.specs.Prelude.{◌≡◌};

use super::*;
use collector::Files;
use file_stores::MemoryFiles;

// Does what a line says. What is open stays so.
pub(super) fn set(
    files: &mut MemoryFiles,
    alloc: Global,
    action: &str,
    with: &str,
) -> Result<Vec<u8>, Fail>
    ensures inputs { files.new.inputs ≡ files.old.inputs }
    ensures outputs { files.new.outputs ≡ files.old.outputs }
{
    match action {
        "add" => add(files, alloc, with),
        "input" => input(files, alloc, with),
        "forbid" => forbid(files, alloc, with),
        "content" => content(files, alloc, with),
        "output" => bytes_of(alloc, files.output()),
        "reads" => shown(alloc, &files.reads()),
        "failures" => shown(alloc, &files.failures()),
        _ => limit(files, alloc, action, with),
    }
}

fn add(files: &mut MemoryFiles, alloc: Global, with: &str) -> Result<Vec<u8>, Fail>
    ensures inputs { files.new.inputs ≡ files.old.inputs }
    ensures outputs { files.new.outputs ≡ files.old.outputs }
{
    let (name, bytes) = halves(with, " ");
    let name = decoded(alloc, name)?;
    let bytes = decoded(alloc, bytes)?;
    files.add(name.as_slice(), bytes.as_slice())?;
    done(alloc)
}

fn input(files: &mut MemoryFiles, alloc: Global, with: &str) -> Result<Vec<u8>, Fail>
    ensures inputs { files.new.inputs ≡ files.old.inputs }
    ensures outputs { files.new.outputs ≡ files.old.outputs }
{
    let bytes = decoded(alloc, with)?;
    files.set_input(bytes.as_slice())?;
    done(alloc)
}

fn forbid(files: &mut MemoryFiles, alloc: Global, with: &str) -> Result<Vec<u8>, Fail>
    ensures inputs { files.new.inputs ≡ files.old.inputs }
    ensures outputs { files.new.outputs ≡ files.old.outputs }
{
    let name = decoded(alloc, with)?;
    files.forbid(name.as_slice())?;
    done(alloc)
}

fn limit(files: &mut MemoryFiles, alloc: Global, action: &str, with: &str) -> Result<Vec<u8>, Fail>
    ensures inputs { files.new.inputs ≡ files.old.inputs }
    ensures outputs { files.new.outputs ≡ files.old.outputs }
{
    let number = number(with)?;
    match action {
        "limit-reads" => files.limit_reads(number),
        "limit-writes" => files.limit_writes(number),
        "fail-read" => files.fail_read(number as u64),
        "fail-write" => files.fail_write(number as u64),
        _ => return unknown(),
    }
    done(alloc)
}

fn content(files: &MemoryFiles, alloc: Global, name: &str) -> Result<Vec<u8>, Fail> {
    let name = decoded(alloc, name)?;
    bytes_of(alloc, files.content(name.as_slice()).unwrap_or(b"?"))
}
