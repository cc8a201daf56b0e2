// Files with the last input and the last output that were opened: `in NAME`, `out NAME` and `append
// NAME` open and return the number, `read ROOM` returns the bytes, `write BYTES` how many were
// taken. `last-lines NAME COUNT` and `last-bytes NAME COUNT` open an input of which so much is needed.
ghost use Rattle.std.specs.Prelude.{IsSome};
ghost use Rattle.std.specs.Option.{ForSome};
ghost use Rattle.file_stores.specs.inner.Memory.{shown_files};

use super::memory::set;
use super::*;
use collector::{Files, NeededEnd};
use file_stores::MemoryFiles;

#[derive(Drop)]
struct Desk {
    files: MemoryFiles,
    input: Option<usize>,
    output: Option<usize>,
    ghost reads: { ForSome input (λ file. IsSome ((shown_files files).inputs file)) },
    ghost writes: { ForSome output (λ file. IsSome ((shown_files files).outputs file)) },
}

impl Desk {
    // Nothing is open.
    fn new(files: MemoryFiles) -> Desk {
        Desk {
            files,
            input: None,
            output: None,
        }
    }

    fn open_in(&mut self, alloc: Global, name: &InName) -> Result<Vec<u8>, Fail> {
        self.input = None;
        match self.files.open_in(name) {
            Ok(file) => {
                self.input = Some(file);
                shown(alloc, &file)
            }
            Err(refused) => shown(alloc, &refused),
        }
    }

    fn open_end(
        &mut self,
        alloc: Global,
        name: &InName,
        needed: NeededEnd,
    ) -> Result<Vec<u8>, Fail> {
        self.input = None;
        match self.files.open_in(name) {
            Ok(file) => {
                self.files.leave_out_front(file, needed);
                self.input = Some(file);
                shown(alloc, &file)
            }
            Err(refused) => shown(alloc, &refused),
        }
    }

    fn open_out(&mut self, alloc: Global, name: &OutName) -> Result<Vec<u8>, Fail> {
        self.output = None;
        match self.files.open_out(name) {
            Ok(file) => {
                self.output = Some(file);
                shown(alloc, &file)
            }
            Err(refused) => shown(alloc, &refused),
        }
    }

    fn read(&mut self, alloc: Global, into: &mut [u8]) -> Result<Vec<u8>, Fail> {
        let Some(file) = self.input else {
            return unknown();
        };
        match self.files.read(file, into) {
            Ok(count) => bytes_of(alloc, &into[..count]),
            Err(failed) => shown(alloc, &failed),
        }
    }

    fn write(&mut self, alloc: Global, bytes: &[u8]) -> Result<Vec<u8>, Fail> {
        let Some(file) = self.output else {
            return unknown();
        };
        match self.files.write(file, bytes) {
            Ok(count) => shown(alloc, &count),
            Err(failed) => shown(alloc, &failed),
        }
    }
}

fn enter(desk: &mut Desk, alloc: Global, with: &str) -> Result<Vec<u8>, Fail> {
    let name = in_name(alloc, with)?;
    desk.open_in(alloc, &name)
}

fn enter_lines(desk: &mut Desk, alloc: Global, with: &str) -> Result<Vec<u8>, Fail> {
    let (name, count) = halves(with, " ");
    let name = in_name(alloc, name)?;
    desk.open_end(alloc, &name, NeededEnd::Lines(count.parse()?))
}

fn enter_bytes(desk: &mut Desk, alloc: Global, with: &str) -> Result<Vec<u8>, Fail> {
    let (name, count) = halves(with, " ");
    let name = in_name(alloc, name)?;
    desk.open_end(alloc, &name, NeededEnd::Bytes(count.parse()?))
}

fn leave(desk: &mut Desk, alloc: Global, with: &str, append: bool) -> Result<Vec<u8>, Fail> {
    let name = out_name(alloc, with, append)?;
    desk.open_out(alloc, &name)
}

fn read(desk: &mut Desk, alloc: Global, with: &str) -> Result<Vec<u8>, Fail> {
    let mut into = vec![in alloc; 0; number(with)?]?;
    desk.read(alloc, into.as_mut_slice())
}

fn write(desk: &mut Desk, alloc: Global, with: &str) -> Result<Vec<u8>, Fail> {
    let bytes = decoded(alloc, with)?;
    desk.write(alloc, bytes.as_slice())
}

impl Bench for Desk {
    fn act(&mut self, alloc: Global, action: &str, with: &str) -> Result<Vec<u8>, Fail> {
        match action {
            "in" => enter(self, alloc, with),
            "last-lines" => enter_lines(self, alloc, with),
            "last-bytes" => enter_bytes(self, alloc, with),
            "out" => leave(self, alloc, with, false),
            "append" => leave(self, alloc, with, true),
            "read" => read(self, alloc, with),
            "write" => write(self, alloc, with),
            _ => set(&mut self.files, alloc, action, with),
        }
    }
}

fn play_in_memory(alloc: Global, lines: usize, script: &str) -> Result<(), Fail> {
    let mut desk = Desk::new(MemoryFiles::new(alloc));
    play(alloc, &mut desk, lines, script)
}

#[test]
fn openings_are_answered_in_order(rt: HostRuntime) -> Result<(), Fail> {
    play_in_memory(
        rt.alloc(),
        12,
        r"add a one
forbid b
in - -> 0
in a -> 1
in a -> 2
in b -> refused
in c -> refused
out b -> refused
out c -> 0
in c -> 3
content c
content b -> ?",
    )
}

#[test]
fn append_and_truncate(rt: HostRuntime) -> Result<(), Fail> {
    for (action, content) in [("out", "ab"), ("append", "oldab")] {
        let script = format!(in rt.alloc();
            r"add x old
in x -> 0
{action} x -> 0
write ab -> 2
content x -> {content}
read 8 -> old"
        )?;
        play_in_memory(rt.alloc(), 6, script.as_str())?;
    }
    Ok(())
}

#[test]
fn failures_are_counted(rt: HostRuntime) -> Result<(), Fail> {
    play_in_memory(
        rt.alloc(),
        13,
        r"input abc
fail-read 2
fail-write 1
in - -> 0
out - -> 0
read 1 -> a
read 1 -> failed
read 1 -> b
write xy -> failed
write xy -> 2
output -> xy
failures -> 2
reads -> 3",
    )
}

#[test]
fn the_last_lines_are_left(rt: HostRuntime) -> Result<(), Fail> {
    play_in_memory(
        rt.alloc(),
        26,
        r"add a one%0Atwo%0Athree%0A
last-lines a 2 -> 0
read 99 -> two%0Athree%0A
read 99
last-lines a 3 -> 1
read 99 -> one%0Atwo%0Athree%0A
last-lines a 4 -> 2
read 99 -> one%0Atwo%0Athree%0A
last-lines a 0 -> 3
read 99 -> three%0A
last-lines a 9223372036854775807 -> 4
read 99 -> one%0Atwo%0Athree%0A
content a -> one%0Atwo%0Athree%0A
add a one%0D%0A%00%0A%0A%00last
last-lines a 1 -> 5
read 99 -> %00last
last-lines a 2 -> 6
read 99 -> %0A%00last
last-lines a 3 -> 7
read 99 -> %00%0A%0A%00last
add a no newline
last-lines a 1 -> 8
read 99 -> no newline
input a%0Ab%0A
last-lines - 1 -> 9
read 99 -> b%0A",
    )
}

#[test]
fn the_last_bytes_are_left(rt: HostRuntime) -> Result<(), Fail> {
    play_in_memory(
        rt.alloc(),
        12,
        r"add a abc%0Ad
last-bytes a 2 -> 0
read 99 -> %0Ad
last-bytes a 5 -> 1
read 99 -> abc%0Ad
last-bytes a 9223372036854775807 -> 2
read 99 -> abc%0Ad
last-bytes a 0 -> 3
read 99
add b
last-lines b 1 -> 4
read 99",
    )
}
